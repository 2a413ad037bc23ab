//! The record of a turn that makes an access.
ghost use Rattle.std.specs.Prelude.{◌≡◌, None, Some, IfSome, IfNone};
ghost use Rattle.xt_map.specs.Memory.{constant_byte};
ghost use Rattle.xt_rows.specs.RowLaws.{IsRegister};
ghost use Rattle.xt_exec.specs.States.{file_state};
ghost use Rattle.xt_exec.specs.Turn.{demand, turn};
ghost use Rattle.xt_core.specs.Cores.{Awaits};
ghost use Rattle.xt_core.specs.Turns.{head_of, turn_record};

use crate::sides::Side;
use xt_codec::{Fetch, instruction_at};
use xt_exec::plans::{Effect, Pending, Plan};
use xt_exec::{Regs, finish, plan};
use xt_map::{Access, Constants};
use xt_special::number;
use xt_trace::StepRecord;
use xt_window::WindowFile;

// What waits for the reply to the access of a core's next turn; None: the turn makes no access.
#[tactic(auto, unfolding(xt_exec::specs::Turn::planned_turn, xt_exec::specs::Turn::demand))]
fn pending_of(regs: &Regs<WindowFile>, code: &Constants) -> Option<Pending>
    ensures awaits { IfSome result (λ p. Awaits (constant_byte code.now) (file_state regs.now) p) }
    ensures target { IfSome result (λ p. IsRegister p.target) }
    ensures none { IfNone result (demand (constant_byte code.now) (file_state regs.now) ≡ None) }
{
    if xt_special::entries::pending(&regs.sr).is_some() {
        return None;
    }
    if regs.waiting {
        return None;
    }
    let mut after = *regs;
    match instruction_at::<Side>(code, regs.pc) {
        Fetch::Insn(insn, len) => match plan(&mut after, code, insn, len) {
            Plan::Bus(_, pending) => Some(pending),
            Plan::Done(_) => None,
        },
        Fetch::Fails(_) => None,
        Fetch::Nothing => None,
    }
}

// The record of a turn that begins with these registers.
fn turn_record(regs: &Regs<WindowFile>, effect: Effect, access: Access, reply: u32) -> StepRecord
    ensures { result ≡ turn_record (head_of (file_state regs.now)) effect (Some access) reply }
{
    StepRecord {
        pc: regs.pc,
        kind: effect.kind,
        write: effect.write,
        access: Some(access),
        reply,
        ccount: regs.sr.register(number::CCOUNT),
        owb: regs.sr.owb(),
        interrupt: regs.sr.register(number::INTERRUPT),
    }
}

impl Side {
    /// The record of the core's next turn, if it makes an access, which gets this reply.
    pub fn next_record(&self, code: &Constants, reply: u32) -> Option<StepRecord>
        ensures record { IfSome result (λ r. r ≡ (turn (constant_byte code.now) self.now.state reply).0) }
        ensures none { IfNone result (demand (constant_byte code.now) self.now.state ≡ None) }
    {
        let pending = pending_of(&self.regs, code)?;
        let mut after = self.regs;
        let effect = finish(&mut after, pending, reply);
        Some(turn_record(&self.regs, effect, pending.access, reply))
    }
}
