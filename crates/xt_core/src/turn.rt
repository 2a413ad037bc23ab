ghost use Rattle.std.specs.Prelude.{◌≡◌, ◌<◌, ℕ, None};
ghost use Rattle.xt_map.specs.Memory.{constant_byte};
ghost use Rattle.xt_rows.specs.RowLaws.{IsRegister};
ghost use Rattle.xt_map.specs.Fetching.{fetch_at};
ghost use Rattle.xt_exec.specs.State.{State};
ghost use Rattle.xt_exec.specs.States.{state_of};
ghost use Rattle.xt_exec.specs.Turn.{fetched_turn, planned_turn, turn};
ghost use Rattle.xt_exec.specs.Halves.{IsEffect, IsPlan, at_end};
ghost use Rattle.xt_core.specs.Turns.{IsBegun, IsLocal, head_of, turn_record};
ghost use Rattle.xt_core.specs.Cores.{Awaits};

use crate::begun::StartedTurn;
use crate::record::Head;
use xt_codec::{Fetch, instruction_at};
use xt_exec::plans::{Effect, Pending, Plan};
use xt_exec::{Regs, finish, plan};
use xt_map::{Access, Constants};
use xt_rows::cause;
use xt_special::number;
use xt_trace::{StepKind, StepRecord};
use xt_window::Windows;

/// The first half of a turn: an interrupt that can be taken, else waiting, else the instruction at the program counter. A turn that
/// makes no access is whole.
#[inline(always)]
pub fn begin<W: Windows>(r: &mut Regs<W>, code: &Constants) -> StartedTurn
    ensures { IsBegun result (constant_byte code.now) (state_of W.regs W.base W.start r.old) (state_of W.regs W.base W.start r.new) }
{
    let head = head_of(r);
    match start_turn(r, code) {
        Plan::Done(effect) => StartedTurn::Local(local_turn(r, head, effect)),
        Plan::Bus(_, pending) => StartedTurn::Asks(pending),
    }
}

/// A turn that began with `head` and makes no access, once its `effect` stands: its record.
#[inline(always)]
pub fn local_turn<W: Windows>(r: &mut Regs<W>, head: Head, effect: Effect) -> StepRecord
    ensures { (code : ℕ → ℕ) (s : State) → head ≡ head_of s → IsEffect effect (state_of W.regs W.base W.start r.old) (planned_turn code s)
        → IsLocal code s (state_of W.regs W.base W.start r.new) result }
{
    tick(r);
    turn_record(head, effect, None, 0)
}

/// The second half of a turn, with the reply to its access.
#[inline(always)]
pub fn end<W: Windows>(r: &mut Regs<W>, pending: Pending, reply: u32) -> StepRecord
    requires { IsRegister pending.target }
    ensures { let s = state_of W.regs W.base W.start r.old in
        (code : ℕ → ℕ) → Awaits code s pending → (result, state_of W.regs W.base W.start r.new) ≡ turn code s reply }
{
    let head = head_of(r);
    let effect = finish(r, pending, reply);
    tick(r);
    turn_record(head, effect, Some(pending.access), reply)
}

// The turn before its tick.
#[tactic(auto, unfolding(xt_exec::specs::Turn::planned_turn))]
#[inline(always)]
fn start_turn<W: Windows>(r: &mut Regs<W>, code: &Constants) -> Plan
    ensures { let s = state_of W.regs W.base W.start r.old in
        IsPlan result s (state_of W.regs W.base W.start r.new) (planned_turn (constant_byte code.now) s) }
{
    match xt_special::entries::pending(&r.sr) {
        Some(level) => Plan::Done(r.interrupt(level)),
        None => {
            if r.waiting {
                Plan::Done(Effect {
                    kind: StepKind::Wait,
                    write: None,
                })
            } else {
                instruction(r, code)
            }
        }
    }
}

// The instruction at the program counter. What cannot be fetched raises cause 2, and what spells no instruction cause 0.
#[inline(always)]
fn instruction<W: Windows>(r: &mut Regs<W>, code: &Constants) -> Plan
    ensures { let s = state_of W.regs W.base W.start r.old in
        IsPlan result s (state_of W.regs W.base W.start r.new) (fetched_turn (fetch_at (constant_byte code.now) s.control.pc) (constant_byte code.now) s) }
{
    match instruction_at::<W>(code, r.pc) {
        Fetch::Fails(addr) => Plan::Done(r.raise(cause::FETCH_ERROR, Some(addr))),
        Fetch::Nothing => Plan::Done(r.raise(cause::ILLEGAL_INSTRUCTION, None)),
        Fetch::Insn(insn, len) => plan(r, code, insn, len),
    }
}

// The end of a turn.
#[inline(always)]
fn tick<W: Windows>(r: &mut Regs<W>)
    ensures { state_of W.regs W.base W.start r.new ≡ at_end (state_of W.regs W.base W.start r.old) }
{
    xt_special::timers::tick(&mut r.sr);
}

/// What a record keeps of the registers as the turn begins.
#[inline(always)]
pub fn head_of<W: Windows>(r: &Regs<W>) -> Head
    ensures value { result ≡ head_of (state_of W.regs W.base W.start r.now) }
    ensures owb { result.owb < 16 }
{
    Head {
        pc: r.pc,
        ccount: r.sr.register(number::CCOUNT),
        owb: r.sr.owb(),
        interrupt: r.sr.register(number::INTERRUPT),
    }
}

// The record of a turn that began so.
#[inline(always)]
fn turn_record(head: Head, effect: Effect, access: Option<Access>, reply: u32) -> StepRecord
    ensures { result ≡ turn_record head effect access reply }
{
    StepRecord {
        pc: head.pc,
        kind: effect.kind,
        write: effect.write,
        access,
        reply,
        ccount: head.ccount,
        owb: head.owb,
        interrupt: head.interrupt,
    }
}
