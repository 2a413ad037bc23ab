//! What is found of an image and its run: the answers for its window handlers, and the verdict.
ghost use Rattle.std.specs.Prelude.{◌≡◌, IfOk, IfSome};
ghost use Rattle.xt_runs.specs.Verdicts.{IsJudged, whole_of};
ghost use Rattle.xt_core.specs.Runs.{IsRunOf};
ghost use Rattle.xt_image.specs.ImageParts.{IsWellFormed};
ghost use Rattle.xt_report.specs.Framed.{IsFramed};

use std::alloc::{AllocError, Global};
use xt_discipline::handlers_of;
use xt_frames::Judged;
use xt_frames::laws::verdict_is_first_breach;
use xt_handlers::Handlers;
use xt_image::{Image, well_formed_is_placed};
use xt_report::Whole;
use xt_shadow::judge_run;
use xt_trace::Run;

// The answers for the window handlers of a run of an image, and its verdict.
fn findings(alloc: Global, image: &Image, run: &Run) -> Result<(Handlers, Judged), AllocError>
    requires image { IsWellFormed image.now }
    requires run { IsRunOf image.now run.now }
    ensures handlers { IfOk result (λ found. found.0 ≡ (whole_of image.now run.now).handlers) }
    ensures verdict { IfOk result (λ found. found.1 ≡ (whole_of image.now run.now).judged) }
{
    well_formed_is_placed();
    let handlers = handlers_of(alloc, image, run.options.vecbase)?;
    let judged = judge_run(alloc, image, &handlers, run)?;
    Ok((handlers, judged))
}

/// The verdict of a run of an image, which need not be judged if it is known already. The only error is running out of memory.
///
/// Conditions: the image is well formed, the run is one of this image, and the verdict that is known is the run's.
pub(crate) fn verdict_of(
    alloc: Global,
    image: &Image,
    run: &Run,
    known: Option<Judged>,
) -> Result<Judged, AllocError>
    requires image { IsWellFormed image.now }
    requires run { IsRunOf image.now run.now }
    requires known { IfSome known (λ j. j ≡ (whole_of image.now run.now).judged) }
    ensures { IfOk result (λ j. j ≡ (whole_of image.now run.now).judged) }
{
    match known {
        Some(judged) => Ok(judged),
        None => {
            let (_, judged) = findings(alloc, image, run)?;
            Ok(judged)
        }
    }
}

/// A run of an image with what is found of it. The only error is running out of memory.
///
/// Conditions: the image is well formed, and the run is one of this image.
pub fn judged(alloc: Global, image: &Image, run: Run) -> Result<Whole, AllocError>
    requires image { IsWellFormed image.now }
    requires run { IsRunOf image.now run }
    ensures run { IfOk result (λ w. w.run ≡ run) }
    ensures whole { IfOk result (λ w. w ≡ whole_of image.now run) }
{
    let (handlers, judged) = findings(alloc, image, &run)?;
    Ok(Whole {
        run,
        handlers,
        judged,
    })
}

/// What is so of the verdict of a run of an image.
///
/// Conditions: the run is framed.
pub(crate) fn verdict_is_so(image: &Image, run: &Run)
    requires { IsFramed image.now run.now }
    ensures { IsJudged image.now run.now }
{
    verdict_is_first_breach();
}
