//! Which turn may come before all other moves.
ghost use Rattle.std.specs.Prelude.{◌≡◌, ◌<◌, ℕ, true, false, None, IfSome, bit_or};
ghost use Rattle.xt_map.specs.Memory.{constant_byte};
ghost use Rattle.xt_map.specs.Fetching.{fetch_at};
ghost use Rattle.xt_special.specs.Control.{special_of};
ghost use Rattle.xt_special.specs.Interrupts.{pending_of};
ghost use Rattle.xt_exec.specs.Turn.{demand};
ghost use Rattle.xt_timeless.specs.Time.{fetches_time, is_of_time, reads_time};
ghost use Rattle.xt_moments.specs.Awaiting.{bit_of};
ghost use Rattle.xt_moments.specs.Forcing.{IsCalm, MayCome};
ghost use Rattle.xt_moments.specs.Moments.{armed_by, armed_by_fetched, with_special};
ghost use Rattle.xt_moments.specs.WorldLaws.{begun};
ghost use Rattle.xt_moment_search.specs.Covering.{IsForcedAt};
ghost use Rattle.xt_moment_search.specs.KnownCores.{core_of};

use crate::ground::Ground;
use crate::sides::{Side, with_register};
use crate::snapshots::Snapshot;
use xt_codec::{Fetch, instruction_at};
use xt_core::{StartedTurn, start_turn};
use xt_isa::Insn;
use xt_isa::system::{SpecialName, System};
use xt_moments::{armed_by, timer_bit};
use xt_secret_walk::WatchedFile;
use xt_special::entries::pending;
use xt_special::number;

// Whether a special register is INTERRUPT or a clock.
fn is_of_time(n: u8) -> bool
    ensures { result ≡ is_of_time n }
{
    match n {
        number::INTERRUPT => true,
        number::CCOUNT => true,
        number::CCOMPARE0..=number::CCOMPARE2 => true,
        _ => false,
    }
}

// Whether an instruction reads INTERRUPT or a clock.
fn reads_time(insn: Insn) -> bool
    ensures { result ≡ reads_time insn }
{
    match insn {
        Insn::System(System::Special(SpecialName::Rsr, _, n)) => is_of_time(n),
        Insn::System(System::Special(SpecialName::Xsr, _, n)) => is_of_time(n),
        _ => false,
    }
}

// Whether the next instruction reads INTERRUPT or a clock, or arms a timer.
fn touches_time(ground: &Ground, side: &Side) -> bool
    ensures reads { result ≡ false → fetches_time (fetch_at (constant_byte ground.now.code) side.now.state.control.pc) ≡ false }
    ensures arms { result ≡ false → armed_by_fetched (fetch_at (constant_byte ground.now.code) side.now.state.control.pc) ≡ 0 }
{
    match instruction_at::<WatchedFile>(&ground.code, side.regs.pc) {
        Fetch::Insn(insn, _) => reads_time(insn) || armed_by(insn) != 0,
        Fetch::Fails(_) => false,
        Fetch::Nothing => false,
    }
}

// Whether the same interrupt is taken next, or none, with this bit in INTERRUPT too.
fn is_deaf(side: &Side, bit: u32) -> bool
    ensures { result ≡ true → pending_of (with_special 226 (bit_or (special_of side.now.state.control 226) bit) side.now.state).control ≡ pending_of side.now.state.control }
{
    let interrupt = side.regs.sr.register(number::INTERRUPT) | bit;
    let fired = with_register(side.regs, number::INTERRUPT, interrupt);
    pending(&fired.sr) == pending(&side.regs.sr)
}

// The timer that alone is armed, if there is one.
fn armed_alone(side: &Side) -> Option<u8>
    ensures { IfSome result (λ timer. (timer < 3) × (side.now.armed ≡ bit_of timer)) }
{
    if side.armed == timer_bit(0) {
        return Some(0);
    }
    if side.armed == timer_bit(1) {
        return Some(1);
    }
    if side.armed == timer_bit(2) {
        return Some(2);
    }
    None
}

// Whether no more than one timer is armed, and it may fire before the next turn or after it.
fn is_calm(ground: &Ground, side: &Side) -> bool
    ensures { result ≡ true → IsCalm (constant_byte ground.now.code) (core_of side.now) }
{
    if side.armed == 0 {
        return true;
    }
    let Some(_timer) = armed_alone(side) else {
        return false;
    };
    is_deaf(side, side.armed) && !touches_time(ground, side)
}

// Whether the next turn makes no access.
fn is_local(ground: &Ground, side: &Side) -> bool
    ensures { result ≡ true → demand (constant_byte ground.now.code) (begun 0 (core_of side.now)) ≡ None }
{
    let mut regs = with_register(side.regs, number::CCOUNT, 0);
    match start_turn(&mut regs, &ground.code) {
        StartedTurn::Local(_) => true,
        StartedTurn::Asks(_) => false,
    }
}

// Whether a turn of a core may come before all other moves: that of the other core makes no difference
// to it.
fn may_come(ground: &Ground, side: &Side, other: &Side) -> bool
    ensures { result ≡ true → MayCome (constant_byte ground.now.code) (core_of side.now) (core_of other.now) }
{
    if side.stopped || !is_calm(ground, side) {
        return false;
    }
    if other.stopped && other.armed == 0 {
        return true;
    }
    is_local(ground, side)
}

/// The core whose turn may come before all other moves, if there is one.
pub fn forced(ground: &Ground, at: &Snapshot) -> Option<u8>
    ensures { IfSome result (λ core. IsForcedAt (constant_byte ground.now.code) core at.now) }
{
    if may_come(ground, &at.side1, &at.side0) {
        return Some(1);
    }
    if may_come(ground, &at.side0, &at.side1) {
        return Some(0);
    }
    None
}
