//! A judged step, in place.
#![tactic(auto)]

ghost use Rattle.std.specs.Prelude.{◌≡◌, ℕ, Bool, false, IfOk, IfSome, List, None};
ghost use Rattle.xt_map.specs.Memory.{constant_byte};
ghost use Rattle.xt_special.specs.Control.{Control};
ghost use Rattle.xt_special.specs.Shape.{IsPs};
ghost use Rattle.xt_map.specs.Fetching.{fetch_at};
ghost use Rattle.xt_frames.specs.Frames.{Frame};
ghost use Rattle.xt_frames.specs.Nesting.{unset_after};
ghost use Rattle.xt_frames.specs.Stacks.{Stack};
ghost use Rattle.xt_frames.specs.KeptFrameState.{IsCase, IsGood, IsKindOf, IsPlan, IsSmall, state_at};
ghost use Rattle.xt_frames.specs.Stepped.{IsDone, IsKept, found_by};

use crate::breach::{Case, breach_of, fresh_after};
use crate::holes::{UndefinedParts, is_nesting, moved_to};
use crate::kinds::BreachKind;
use crate::nested::{begin, judge_nested};
use crate::view::{Call, FrameRegisters, NextEvent};
use xt_codec::Fetch;
use xt_map::Constants;
use xt_special::number;
use xt_trace::{StepKind, StepRecord};

/// What a step without a breach leaves beside its view.
#[derive(Clone, Copy)]
pub struct Done {
    /// What it does to the list of frames.
    pub call: Call,
    /// Whether EPC1 has what was last written.
    pub fresh: bool,
}

/// The special registers to which a step of this kind, which was planned so, gives a number have one.
pub fn give_numbers(unset: &mut [bool; 256], kind: StepKind, plan: NextEvent)
    requires { IsGood plan }
    ensures { (code : ℕ → ℕ) (c : Control) → IsPlan plan code c → IsKindOf plan kind → unset.new ≡ unset_after kind (fetch_at code c.pc) unset.old }
{
    match plan {
        NextEvent::Interrupt(level) => {
            unset[(number::EPC1 - 1 + level % 8) as usize] = false;
            unset[(number::DEPC + level % 8) as usize] = false;
        }
        NextEvent::Fetched(Fetch::Insn(i, _)) => {
            if let (StepKind::Insn, Some((_, n))) = (kind, moved_to(i)) {
                unset[n as usize] = false;
            }
        }
        _ => {}
    }
}

/// Steps a view outside nested interrupts by a record, or says which breach the step shows first. After a breach the view is as it was.
fn judge_plain(
    view: &mut FrameRegisters,
    holes: &mut UndefinedParts,
    case: &Case,
    code: &Constants,
    rec: &StepRecord,
) -> Result<Done, BreachKind>
    requires small { IsSmall case.now.newest }
    requires plain { holes.old.nested ≡ None }
    ensures plain { holes.new.nested ≡ None }
    ensures done { (frames : List Frame) (live stale : ℕ → Bool) → IsCase case.now rec.now frames live stale
        → IsDone (found_by case.now (constant_byte code.now) live stale false rec.now (state_at frames holes.old view.old))
        case.now.fresh (constant_byte code.now) false rec.now (state_at frames holes.old view.old) result (λ fs. state_at fs holes.new view.new) }
    ensures kept { (frames : List Frame) (live stale : ℕ → Bool) → IsCase case.now rec.now frames live stale
        → Stack case.now.limits.lo case.now.limits.hi view.old.seen frames
        → IfOk result (λ done. IsKept case.now.limits.lo case.now.limits.hi (state_at frames holes.old view.old) done (λ fs. state_at fs holes.new view.new)) }
{
    let covered = view.covered();
    view.lay(rec);
    // (so that what CALLINC can be is known)
    let _by = view.callinc();
    // The breaches are tested on the state before the step and on the one after it.
    let before = *view;
    let plan = before.plan(code);
    let step = view.step(code, plan, rec.reply, &case.newest);
    if let Some(kind) = breach_of(case, holes, plan, rec, &before, &step, view) {
        *view = before;
        view.uncover(covered);
        return Err(kind);
    }
    give_numbers(&mut holes.unset, step.kind, plan);
    Ok(Done {
        call: step.call,
        fresh: fresh_after(case.fresh, step.kind, plan, code, &before, view),
    })
}

/// Steps a view by a record, which is nested where `nested` says so, or says which breach the step shows first. After a breach nothing
/// has changed.
pub fn judge(
    view: &mut FrameRegisters,
    holes: &mut UndefinedParts,
    case: &Case,
    code: &Constants,
    rec: &StepRecord,
    nested: bool,
) -> Result<Done, BreachKind>
    requires small { IsSmall case.now.newest }
    requires ps { IfSome holes.old.nested (λ x. IsPs x.ps) }
    ensures ps { IfSome holes.new.nested (λ x. IsPs x.ps) }
    ensures done { (frames : List Frame) (live stale : ℕ → Bool) → IsCase case.now rec.now frames live stale
        → IsDone (found_by case.now (constant_byte code.now) live stale nested rec.now (state_at frames holes.old view.old))
        case.now.fresh (constant_byte code.now) nested rec.now (state_at frames holes.old view.old) result (λ fs. state_at fs holes.new view.new) }
    ensures kept { (frames : List Frame) (live stale : ℕ → Bool) → IsCase case.now rec.now frames live stale
        → Stack case.now.limits.lo case.now.limits.hi view.old.seen frames
        → IfOk result (λ done. IsKept case.now.limits.lo case.now.limits.hi (state_at frames holes.old view.old) done (λ fs. state_at fs holes.new view.new)) }
{
    match holes.nested {
        Some(it) => judge_nested(view, holes, &it, case, code, rec),
        None => {
            if nested && is_nesting(rec.kind) {
                begin(view, holes, rec);
                Ok(Done {
                    call: Call::Stays,
                    fresh: case.fresh,
                })
            } else {
                judge_plain(view, holes, case, code, rec)
            }
        }
    }
}
