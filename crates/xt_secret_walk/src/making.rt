//! One turn of a core, and what it finds before it is made.
#![tactic(auto)]

ghost use Rattle.std.specs.Prelude.{◌≡◌};
ghost use Rattle.xt_map.specs.Memory.{constant_byte};
ghost use Rattle.xt_trace.specs.Traces.{replies_past, reply_for};
ghost use Rattle.xt_map.specs.Fetching.{fetch_at};
ghost use Rattle.xt_exec.specs.Halves.{IsPlan};
ghost use Rattle.xt_exec.specs.States.{file_state};
ghost use Rattle.xt_exec.specs.Turn.{demand, fetched_turn, planned_turn, turn};
ghost use Rattle.xt_secret_walk.specs.SeenWords.{IsGoodSeen, knowledge_of, seen_of};

use crate::file::WatchedFile;
use crate::masks::CoreMasks;
use crate::seen::Seen;
use xt_codec::{Fetch, instruction_at};
use xt_core::{Replies, end_turn, head_of, local_turn};
use xt_exec::plans::{Effect, Plan};
use xt_exec::{Regs, plan};
use xt_map::Constants;
use xt_rows::cause;
use xt_trace::{StepKind, StepRecord};

/// What the next turn finds, if it is not an instruction that is executed.
#[inline(never)]
fn look(regs: &Regs<WatchedFile>, masks: &CoreMasks, code: &Constants, found: &mut Option<Seen>)
    ensures seen { let s = file_state regs.now in
        found.new ≡ seen_of (fetch_at (constant_byte code.now) s.control.pc) (knowledge_of masks.now) s }
    ensures good { IsGoodSeen found.new }
{
    match instruction_at::<CoreMasks>(code, regs.pc) {
        Fetch::Insn(insn, _) => {
            let seen = masks.seen(regs, insn);
            *found = Some(seen);
        }
        Fetch::Fails(_) => *found = None,
        Fetch::Nothing => *found = None,
    }
}

/// The instruction at the program counter, which is decoded once for what it finds and for the
/// first half of its turn. What cannot be fetched raises cause 2, and what spells no instruction
/// cause 0.
#[inline(always)]
fn instruction(
    regs: &mut Regs<WatchedFile>,
    masks: &CoreMasks,
    code: &Constants,
    found: &mut Option<Seen>,
) -> Plan
    ensures plan { let s = file_state regs.old in
        IsPlan result s (file_state regs.new) (fetched_turn (fetch_at (constant_byte code.now) s.control.pc) (constant_byte code.now) s) }
    ensures seen { let s = file_state regs.old in
        found.new ≡ seen_of (fetch_at (constant_byte code.now) s.control.pc) (knowledge_of masks.now) s }
    ensures good { IsGoodSeen found.new }
{
    match instruction_at::<WatchedFile>(code, regs.pc) {
        Fetch::Fails(addr) => {
            *found = None;
            Plan::Done(regs.raise(cause::FETCH_ERROR, Some(addr)))
        }
        Fetch::Nothing => {
            *found = None;
            Plan::Done(regs.raise(cause::ILLEGAL_INSTRUCTION, None))
        }
        Fetch::Insn(insn, len) => {
            let seen = masks.seen(regs, insn);
            *found = Some(seen);
            plan(regs, code, insn, len)
        }
    }
}

/// The turn before its tick: an interrupt that can be taken, else waiting, else the instruction.
#[tactic(auto, unfolding(xt_exec::specs::Turn::planned_turn))]
#[inline(always)]
fn start(
    regs: &mut Regs<WatchedFile>,
    masks: &CoreMasks,
    code: &Constants,
    found: &mut Option<Seen>,
) -> Plan
    ensures plan { let s = file_state regs.old in
        IsPlan result s (file_state regs.new) (planned_turn (constant_byte code.now) s) }
    ensures seen { let s = file_state regs.old in
        found.new ≡ seen_of (fetch_at (constant_byte code.now) s.control.pc) (knowledge_of masks.now) s }
    ensures good { IsGoodSeen found.new }
{
    match xt_special::entries::pending(&regs.sr) {
        Some(level) => {
            look(regs, masks, code, found);
            Plan::Done(regs.interrupt(level))
        }
        None => {
            if regs.waiting {
                look(regs, masks, code, found);
                Plan::Done(Effect {
                    kind: StepKind::Wait,
                    write: None,
                })
            } else {
                instruction(regs, masks, code, found)
            }
        }
    }
}

/// One turn of a core with the reply that is left for it: its record, and what it finds.
pub fn next_turn(
    regs: &mut Regs<WatchedFile>,
    masks: &CoreMasks,
    code: &Constants,
    replies: &mut Replies,
    found: &mut Option<Seen>,
) -> StepRecord
    ensures turn { let s = file_state regs.old in let code = constant_byte code.now in
        (result, file_state regs.new) ≡ turn code s (reply_for (demand code s) replies.old) }
    ensures rest { let s = file_state regs.old in
        replies.new ≡ replies_past (demand (constant_byte code.now) s) replies.old }
    ensures seen { let s = file_state regs.old in
        found.new ≡ seen_of (fetch_at (constant_byte code.now) s.control.pc) (knowledge_of masks.now) s }
    ensures good { IsGoodSeen found.new }
{
    let head = head_of(regs);
    let plan = start(regs, masks, code, found);
    match plan {
        Plan::Done(effect) => local_turn(regs, head, effect),
        Plan::Bus(_, pending) => {
            let reply = replies.next();
            end_turn(regs, pending, reply)
        }
    }
}
