//! The turns of a core from the cut on.
#![tactic(auto)]

ghost use Rattle.std.specs.Prelude.{◌≡◌, ◌+◌, ◌-◌, ◌<◌, ◌≤◌, ◌^◌, IfOk, OnOk, List, drop, length};
ghost use Rattle.xt_map.specs.Memory.{constant_byte};
ghost use Rattle.xt_map.specs.Placing.{IsPlaced};
ghost use Rattle.xt_discipline.specs.Phases.{phases_of};
ghost use Rattle.xt_core.specs.Runs.{IsRunOf, code_of};
ghost use Rattle.xt_profile.specs.After.{later_from};
ghost use Rattle.xt_profile.specs.Profiled.{WholeAddsUp, core_after, later_at, records, start, turns_past, whole_of};
ghost use Rattle.xt_profile.specs.Steps.{Step};
ghost use Rattle.xt_profile.specs.CountedSteps.{IsTally, Origin};

use crate::changes::change_at;
use crate::counting::cores;
use crate::profiles::{CoreTurns, Profile, WholeProfile};
use crate::tally::Tally;
use std::alloc::{AllocError, Global};
use xt_core::Cursor;
use xt_discipline::{Phases, are_yes, handlers_of, phases};
use xt_frames::HandlerPhase;
use xt_image::Image;
use xt_map::Constants;
use xt_trace::{Records, Run};

/// Takes so many records away, or all.
fn pass<R: Records>(records: &mut R, count: u32)
    ensures { R.left records.new ≡ drop count (R.left records.old) }
{
    for _ in 0..count {
        let _ = records.next();
    }
}

/// Counts the turns that are left of a core, each of which is what its phase says.
fn count_left<R: Records>(
    alloc: Global,
    code: &Constants,
    phases: &[HandlerPhase],
    records: &mut R,
    tally: &mut Tally,
) -> Result<(), AllocError>
    requires room { tally.old.steps + length phases.now < 2 ^ 32 }
    requires known { (opening : Origin) × (past : List Step) × IsTally opening past tally.old }
    ensures { OnOk result ((opening : Origin) (past : List Step) → IsTally opening past tally.old
        → IsTally opening (later_from (constant_byte code.now) past phases.now (R.left records.old)) tally.new) }
{
    for phase in phases {
        let Some(rec) = records.next() else {
            return Ok(());
        };
        tally.change(alloc, rec.pc, *phase, change_at(code, *phase, &rec))?;
    }
    Ok(())
}

/// What each turn of a core is.
fn phases_in(
    alloc: Global,
    code: &Constants,
    image: &Image,
    run: &Run,
    core: u8,
) -> Result<Phases, AllocError>
    requires core { core < 2 }
    requires placed { IsPlaced image.now.segments }
    requires run { IsRunOf image.now run.now }
    ensures { IfOk result (λ p. p ≡ phases_of (constant_byte code.now) (records core image.now run.now)) }
{
    let mut all = Cursor::make(alloc, image, run, core)?;
    phases(alloc, code, &mut all)
}

/// Counts the turns of a core past the first `cut` in a tally that has none yet.
fn count_past(
    alloc: Global,
    image: &Image,
    run: &Run,
    core: u8,
    cut: u32,
    tally: &mut Tally,
) -> Result<(), AllocError>
    requires core { core < 2 }
    requires placed { IsPlaced image.now.segments }
    requires run { IsRunOf image.now run.now }
    requires within { cut ≤ length (records core image.now run.now) }
    requires none { tally.old.steps ≡ 0 }
    requires known { (opening : Origin) × (past : List Step) × IsTally opening past tally.old }
    ensures { OnOk result ((opening : Origin) (past : List Step) → IsTally opening past tally.old
        → IsTally opening (later_from (code_of image.now) past (drop cut (phases_of (code_of image.now) (records core image.now run.now))) (drop cut (records core image.now run.now))) tally.new) }
{
    let code = Constants::make(alloc, image.segments.as_slice())?;
    let phases = phases_in(alloc, &code, image, run, core)?;
    let mut left = Cursor::make(alloc, image, run, core)?;
    pass(&mut left, cut);
    count_left(
        alloc,
        &code,
        &phases.as_slice()[cut as usize..],
        &mut left,
        tally,
    )
}

/// The turns of a core past the first `cut`, where a tally has counted none of them yet.
fn later(
    alloc: Global,
    image: &Image,
    run: &Run,
    core: u8,
    cut: u32,
    tally: Tally,
) -> Result<CoreTurns, AllocError>
    requires core { core < 2 }
    requires placed { IsPlaced image.now.segments }
    requires run { IsRunOf image.now run.now }
    requires within { cut ≤ length (records core image.now run.now) }
    requires none { tally.steps ≡ 0 }
    requires known { (opening : Origin) × (past : List Step) × IsTally opening past tally }
    ensures { IfOk result (λ turns. (opening : Origin) (past : List Step) → IsTally opening past tally
        → turns ≡ turns_past opening.start opening.first (later_from (code_of image.now) past (drop cut (phases_of (code_of image.now) (records core image.now run.now))) (drop cut (records core image.now run.now)))) }
{
    let mut tally = tally;
    count_past(alloc, image, run, core, cut, &mut tally)?;
    let (turns, _) = tally.split(alloc)?;
    Ok(turns)
}

/// All turns of a core.
fn all_turns(
    alloc: Global,
    depth: u32,
    image: &Image,
    run: &Run,
    core: u8,
    entry: u32,
) -> Result<CoreTurns, AllocError>
    requires core { core < 2 }
    requires placed { IsPlaced image.now.segments }
    requires run { IsRunOf image.now run.now }
    requires entry { entry ≡ (start core depth image.now run.now).pc }
    ensures { IfOk result (λ turns. turns ≡ core_after core depth 0 image.now run.now) }
{
    let tally = Tally::open(alloc, entry, depth)?;
    later(alloc, image, run, core, 0, tally)
}

/// The call profile of a run of an image, as `profile` has it, with the turns of both cores from the
/// first breach on, or with all their turns where a window handler does not pass the check. There
/// the functions of a core change only by each ENTRY, RETW and RETW.N that it executes. The only
/// error is running out of memory.
///
/// Conditions: as of `profile`.
#[tactic(auto, unfolding(crate::specs::Profiled::profile_of))]
pub fn whole_profile(
    alloc: Global,
    depth: u32,
    image: &Image,
    run: &Run,
) -> Result<WholeProfile, AllocError>
    requires placed { IsPlaced image.now.segments }
    requires run { IsRunOf image.now run.now }
    ensures profile { IfOk result (λ whole. whole ≡ whole_of depth image.now run.now) }
    ensures sums { IfOk result (λ whole. WholeAddsUp whole run.now) }
{
    let handlers = handlers_of(alloc, image, run.options.vecbase)?;
    if !are_yes(&handlers) {
        let after0 = all_turns(alloc, depth, image, run, 0, image.entry)?;
        let after1 = all_turns(alloc, depth, image, run, 1, run.options.entry1)?;
        return Ok(WholeProfile {
            profile: Profile::Unchecked,
            after0,
            after1,
        });
    }
    let (zero, one) = cores(alloc, depth, image, run)?;
    let after0 = later(alloc, image, run, 0, zero.cut, zero.tally)?;
    let after1 = later(alloc, image, run, 1, one.cut, one.tally)?;
    Ok(WholeProfile {
        profile: Profile::Cores(zero.profile, one.profile),
        after0,
        after1,
    })
}
