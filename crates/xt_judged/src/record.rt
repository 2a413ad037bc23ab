//! What the judge knows past one record of a core.
ghost use Rattle.std.specs.Prelude.{◌≡◌, ℕ, true, false, None, IfOk, OnOk, length, option_copied};
ghost use Rattle.xt_map.specs.Memory.{constant_byte};
ghost use Rattle.xt_frames.specs.Breaches.{stale_after};
ghost use Rattle.xt_frames.specs.Stacks.{Moves};
ghost use Rattle.xt_frames.specs.Walked.{Walked};
ghost use Rattle.xt_judged.specs.Lives.{AreApart, is_live_in};
ghost use Rattle.xt_judged.specs.Past.{HasRoom, IsBefore, IsOnStack};
ghost use Rattle.xt_judged.specs.Seen.{IsApartAfter, IsApartPast, IsKnownAfter, IsKnownPast, StaysAfter, seen_by};
ghost use Rattle.xt_judged.specs.Stales.{among, renewed};

use crate::gone::{Before, kept_before, stale_past};
use crate::scene::Standing;
use crate::seeing::{Passed, see};
use crate::stale::Stale;
use std::alloc::{AllocError, Global};
use xt_frames::{BreachKind, Frames, HandlerPhase};
use xt_map::{Access, Constants};
use xt_trace::StepRecord;

/// What the judge knows past one record of a core.
#[derive(Drop)]
pub struct Known {
    /// What it knows of the core.
    pub standing: Standing,
    /// The stale bytes, where they may not be those before the record.
    pub stale: Option<Stale>,
}

/// What the judge knows past one record of a core, beside the core's frames.
#[derive(Drop)]
pub struct Beside {
    /// Where the core stands among handler steps.
    pub phase: HandlerPhase,
    /// The stale bytes, where they may not be those before the record.
    pub stale: Option<Stale>,
}

// The stale bytes past a record of a core that shows no breach; none where they are the same. The only error
// is running out of memory.
fn stale_after(
    alloc: Global,
    before: Before,
    own: &Frames,
    other: Option<&Frames>,
    stale: &Stale,
    passed: Passed,
    access: Option<Access>,
) -> Result<Option<Stale>, AllocError>
    requires { HasRoom before.call }
    ensures same { IfOk result (λ s. passed.judged ≡ false → s ≡ None) }
    ensures judged { IfOk result (λ s. passed.judged ≡ true → (w : Walked) → IsBefore before w → own.now.bounds ≡ w.bounds → Moves w.state own.now.state → AreApart w (option_copied other.entry) stale.now
        → (a : ℕ) → among (renewed stale.now s) a ≡ stale_after (is_live_in own.now (option_copied other.entry)) (is_live_in w (option_copied other.entry)) (among stale.now) access a) }
{
    if !passed.judged {
        return Ok(None);
    }
    stale_past(alloc, before, own, other, stale, access)
}

/// Sees a record of a core, whose frames become those past it, beside the other core if that is given: a
/// breach, or what else is known past it. The only error is running out of memory.
///
/// Conditions: no stale byte lies in a live save area of either core, the frames count their records from this
/// one on, and they have all special registers.
pub fn see_beside(
    alloc: Global,
    code: &Constants,
    phase: HandlerPhase,
    frames: &mut Frames,
    other: Option<&Frames>,
    stale: &Stale,
    rec: &StepRecord,
) -> Result<Result<Beside, BreachKind>, AllocError>
    requires apart { AreApart frames.old (option_copied other) stale.now }
    requires first { frames.old.next ≡ 0 }
    requires all { length frames.old.state.control.special ≡ 256 }
    ensures known { IfOk result (IsKnownAfter frames.old.bounds stale.now frames.new (seen_by (constant_byte code.now) frames.old phase (option_copied other.entry) (among stale.now) rec.now)) }
    ensures apart { IfOk result (IsApartAfter (option_copied other.entry) stale.now frames.new) }
    ensures before { OnOk result (IsOnStack frames.old) }
    ensures stack { IfOk result (λ r. IfOk r (λ b. IsOnStack frames.new)) }
    ensures whole { IfOk result (λ r. IfOk r (λ b. length frames.new.state.control.special ≡ 256)) }
    ensures broken { IfOk result (StaysAfter frames.old frames.new) }
{
    let before = kept_before(frames);
    match see(code, phase, frames, other, stale, rec) {
        Ok(passed) => {
            // (so that the chain of its stack pointers is known)
            let _depth = frames.depth();
            let stale = stale_after(alloc, before, frames, other, stale, passed, rec.access)?;
            Ok(Ok(Beside {
                phase: passed.phase,
                stale,
            }))
        }
        Err(breach) => Ok(Err(breach.kind)),
    }
}

/// Sees a record of a core, beside the other core if that is given: a breach, or what is known past it.
/// The only error is running out of memory.
///
/// Conditions: no stale byte lies in a live save area of either core, and the frames are those of the core.
pub fn see_record(
    alloc: Global,
    code: &Constants,
    own: &Standing,
    frames: &mut Frames,
    other: Option<&Frames>,
    stale: &Stale,
    rec: &StepRecord,
) -> Result<Result<Known, BreachKind>, AllocError>
    requires apart { AreApart own.now.frames (option_copied other) stale.now }
    requires same { frames.old ≡ own.now.frames }
    ensures known { IfOk result (IsKnownPast frames.old.bounds stale.now (seen_by (constant_byte code.now) frames.old own.now.phase (option_copied other.entry) (among stale.now) rec.now)) }
    ensures apart { IfOk result (IsApartPast (option_copied other.entry) stale.now) }
{
    match see_beside(alloc, code, own.phase, frames, other, stale, rec)? {
        Ok(beside) => {
            let Beside { phase, stale } = beside;
            let standing = Standing {
                frames: frames.snapshot(alloc, 1)?,
                phase,
            };
            Ok(Ok(Known { standing, stale }))
        }
        Err(kind) => Ok(Err(kind)),
    }
}
