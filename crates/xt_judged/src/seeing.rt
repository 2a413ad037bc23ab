//! What the judge sees in one record of a core.
ghost use Rattle.std.specs.Prelude.{◌≡◌, IfOk, option_copied};
ghost use Rattle.xt_map.specs.Memory.{constant_byte};
ghost use Rattle.xt_frames.specs.declared.kinds.HandlerPhase.{HandlerPhase};
ghost use Rattle.xt_frames.specs.Breaches.{inputs_of, window_breach};
ghost use Rattle.xt_frames.specs.FrameStep.{with_inputs};
ghost use Rattle.xt_frames.specs.HandlerSteps.{phase_after};
ghost use Rattle.xt_frames.specs.Judging.{seen_judged, seen_window};
ghost use Rattle.xt_frames.specs.Nesting.{current};
ghost use Rattle.xt_frames.specs.Stacks.{Moves};
ghost use Rattle.xt_frames.specs.Walked.{IsJudged, found_in};
ghost use Rattle.xt_judged.specs.Lives.{is_live_in, others_live};
ghost use Rattle.xt_judged.specs.Seen.{IsSeenAs, seen_by, standing_at};
ghost use Rattle.xt_judged.specs.Stales.{among};

use crate::bytes::{loads, saves};
use crate::stale::Stale;
use xt_discipline::{Role, phase_after, role_of};
use xt_frames::{Breach, Frames, HandlerPhase};
use xt_map::Constants;
use xt_trace::StepRecord;

/// What a record was that shows no breach: the phase after it, and whether it was judged.
#[derive(Clone, Copy)]
pub struct Passed {
    pub phase: HandlerPhase,
    pub judged: bool,
}

// Judges a record that is no handler step: a breach, after which nothing has changed, or the frame step.
fn judge(
    code: &Constants,
    own: &mut Frames,
    other: Option<&Frames>,
    stale: &Stale,
    rec: &StepRecord,
    nested: bool,
) -> Result<(), Breach>
    ensures judged { IsJudged (found_in own.old (constant_byte code.now) (is_live_in own.old (option_copied other.entry)) (among stale.now) 0 nested rec.now) own.old (constant_byte code.now) 0 nested rec.now result own.new }
    ensures moves { IfOk result (λ u. Moves own.old.state own.new.state) }
{
    let saves = saves(own, other, rec.access);
    let loads = loads(own, other, stale, rec.access);
    own.judge(code, 0, rec, nested, saves, loads)
}

// Sees a record that is no handler step, after which comes this phase.
fn see_judged(
    code: &Constants,
    own: &mut Frames,
    other: Option<&Frames>,
    stale: &Stale,
    rec: &StepRecord,
    nested: bool,
    next: HandlerPhase,
) -> Result<Passed, Breach>
    requires { own.old.next ≡ 0 }
    ensures { (p : HandlerPhase) → next ≡ phase_after (constant_byte code.now) p rec.now
        → IsSeenAs own.old own.new (option_copied other.entry) (among stale.now) rec.now (seen_judged (constant_byte code.now) own.old.bounds (standing_at own.old p) (others_live (option_copied other.entry)) (among stale.now) nested rec.now) result }
{
    match judge(code, own, other, stale, rec, nested) {
        Ok(()) => Ok(Passed {
            phase: next,
            judged: true,
        }),
        Err(breach) => Err(breach),
    }
}

// Sees the record of a window exception: a breach, or the first of handler steps.
fn see_window(
    code: &Constants,
    own: &Frames,
    other: Option<&Frames>,
    stale: &Stale,
    rec: &StepRecord,
) -> Result<Passed, Breach>
    ensures { IsSeenAs own.now own.now (option_copied other.entry) (among stale.now) rec.now (seen_window (window_breach (constant_byte code.now) rec.now.kind (with_inputs (inputs_of rec.now) (current own.now.state))) own.now.state) result }
{
    own.test(code, 0, rec)?;
    Ok(Passed {
        phase: HandlerPhase::InHandler,
        judged: false,
    })
}

/// Sees the next record of a core, in this phase: a breach, or what it was. It looks at the save areas of the
/// other core too, if that is given.
pub fn see(
    code: &Constants,
    phase: HandlerPhase,
    own: &mut Frames,
    other: Option<&Frames>,
    stale: &Stale,
    rec: &StepRecord,
) -> Result<Passed, Breach>
    requires { own.old.next ≡ 0 }
    ensures { IsSeenAs own.old own.new (option_copied other.entry) (among stale.now) rec.now (seen_by (constant_byte code.now) own.old phase (option_copied other.entry) (among stale.now) rec.now) result }
{
    let next = phase_after(code, phase, rec);
    match role_of(phase, rec.kind) {
        Role::Own => see_judged(code, own, other, stale, rec, false, next),
        Role::NestedStep => see_judged(code, own, other, stale, rec, true, next),
        Role::Entry => see_window(code, own, other, stale, rec),
        Role::HandlerStep => Ok(Passed {
            phase: next,
            judged: false,
        }),
    }
}
