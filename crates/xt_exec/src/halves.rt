ghost use Rattle.std.specs.Prelude.{◌≡◌};
ghost use Rattle.xt_rows.specs.RowLaws.{IsProperAwaited, IsRegister};
ghost use Rattle.xt_exec.specs.States.{state_of};
ghost use Rattle.xt_exec.specs.Halves.{IsFinished, reply_target};

use crate::plans::{Effect, Pending};
use crate::regs::Regs;
use xt_rows::ReplyTarget;
use xt_rows::settling::reply_write;
use xt_trace::StepKind;
use xt_window::Windows;

/// The second half of an instruction, with the reply to its access. The turn's tick is left to the caller.
///
/// Condition: the register that receives the reply is below 16, as in every answer of [`plan`].
#[inline(always)]
pub fn finish<W: Windows>(r: &mut Regs<W>, p: Pending, reply: u32) -> Effect
    requires { IsRegister p.target }
    ensures { IsFinished result (state_of W.regs W.base W.start r.old) (state_of W.regs W.base W.start r.new) p reply }
{
    r.go_on(p.len);
    let write = reply_write(reply_target(p.target, p.signed), reply);
    r.write(write);
    Effect::of(StepKind::Insn, write)
}

// The register that receives the reply.
#[inline(always)]
fn reply_target(target: Option<u8>, signed: bool) -> Option<ReplyTarget>
    requires { IsRegister target }
    ensures value { result ≡ reply_target target signed }
    ensures register { IsProperAwaited result }
{
    match target {
        Some(number) => Some(ReplyTarget { number, signed }),
        None => None,
    }
}
