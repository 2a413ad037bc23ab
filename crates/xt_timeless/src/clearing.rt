//! Leaving time out of the special registers.
ghost use Rattle.std.specs.Prelude.{◌≡◌};
ghost use Rattle.xt_timeless.specs.Time.{special_without_time};

use xt_special::{Special, number};

/// The bits of INTERRUPT that the timers set: 6, 15 and 16.
pub const TIMER_BITS: u32 = 0x1_8040;

/// Sets CCOUNT and CCOMPARE0 to CCOMPARE2 to 0, and clears the bits of the timers in INTERRUPT.
#[tactic(auto, unfolding(xt_special::specs::Access::without_bits))]
pub fn clear_time(s: &mut Special)
    ensures { s.new ≡ record s.old { file = special_without_time s.old.file } }
{
    let interrupt = s.register(number::INTERRUPT);
    s.set_register(number::CCOUNT, 0);
    s.set_register(number::CCOMPARE0, 0);
    s.set_register(number::CCOMPARE0 + 1, 0);
    s.set_register(number::CCOMPARE0 + 2, 0);
    s.set_register(number::INTERRUPT, interrupt & !TIMER_BITS);
}
