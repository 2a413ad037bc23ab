//! What an instruction reads of the control state and leaves of it: the same for the processor and for a machine with unbounded
//! frames. The control state is held as the special registers, the program counter, and whether the core waits.
#![tactic(auto)]

ghost use Rattle.std.specs.Prelude.{◌≡◌, Bool, None, slice_index};
ghost use Rattle.xt_special.specs.Values.{control_at};
ghost use Rattle.xt_rows.specs.declared.outcome.Flow.TheVariants.{Falls};
ghost use Rattle.xt_rows.specs.RowLaws.{IsAny, IsHeld, IsProperAwaited, IsProperEffect, IsProperWrite};
ghost use Rattle.xt_rows.specs.Outcomes.{value_of};
ghost use Rattle.xt_rows.specs.Settling.{after_effect, after_flow, return_pc, write_with_reply};

use crate::numbers::loaded_value;
use crate::outcome::{Effect, Flow, ReplyTarget};
use xt_special::{Special, number};
use xt_trace::RegWrite;

/// The value of a special register that an instruction reads, 0 where there is none.
#[inline(always)]
pub fn special_value(s: &Special, register: Option<u8>) -> u32
    ensures value { result ≡ value_of (slice_index s.now.file) register }
    ensures held { IsHeld register result }
{
    match register {
        Some(number::SAR) => s.sar() as u32,
        Some(number) => s.register(number),
        None => 0,
    }
}

/// The next program counter after an instruction of this length that falls through: the instruction after it, or the first one of
/// a loop, which then has one pass less to make.
#[tactic(auto, unfolding(xt_special::specs::Looping::loops_back))]
#[inline(always)]
pub fn falls(s: &mut Special, pc: u32, len: u8) -> u32
    ensures { (waits : Bool) → control_at result waits s.new ≡ after_flow Falls len (control_at pc waits s.old) }
{
    let next = pc.wrapping_add(len as u32);
    let count = s.register(number::LCOUNT);
    let (pc, left) = xt_special::looping::step(
        s.register(number::LBEG),
        s.register(number::LEND),
        count,
        s.excm(),
        next,
    );
    if left != count {
        s.set_register(number::LCOUNT, left);
    }
    pc
}

/// The next program counter after an instruction of this length with this effect, which is made but for the visible register and
/// for waiting.
#[tactic(auto, unfolding(crate::specs::Settling::after_effect))]
#[inline(always)]
pub fn apply(s: &mut Special, pc: u32, e: Effect, len: u8) -> u32
    requires { IsProperEffect IsAny e }
    ensures { (waits : Bool) → control_at result e.waits s.new ≡ after_effect e len (control_at pc waits s.old) }
{
    s.set_ps_fields(e.ps);
    s.set_threadptr(e.threadptr);
    s.set_registers(e.sets);
    match e.flow {
        Flow::Falls => falls(s, pc, len),
        Flow::Goes(target) => target,
    }
}

/// Where a return goes: `a0` has the low 30 bits, and the top two are those of the program counter.
#[inline(always)]
pub fn return_pc(pc: u32, a0: u32) -> u32
    ensures { result ≡ return_pc pc a0 }
{
    pc / 0x4000_0000 * 0x4000_0000 + a0 % 0x4000_0000
}

/// The register that receives the reply, with the value that it receives.
#[inline(always)]
pub fn reply_write(awaited: Option<ReplyTarget>, reply: u32) -> Option<RegWrite>
    requires { IsProperAwaited awaited }
    ensures value { result ≡ write_with_reply None awaited reply }
    ensures register { IsProperWrite IsAny result }
{
    let a = awaited?;
    Some(RegWrite {
        reg: a.number,
        value: loaded_value(a.signed, reply),
    })
}
