//! What the discipline of uses says of a run of an image.
ghost use Rattle.std.specs.Prelude.{IfOk};
ghost use Rattle.xt_core.specs.Runs.{IsRunOf};
ghost use Rattle.xt_rows.specs.RowLaws.{IsWord};
ghost use Rattle.xt_image.specs.ImageParts.{IsWellFormed};
ghost use Rattle.xt_discipline.specs.Verdicts.{are_checked, course_of};
ghost use Rattle.xt_use_walk.specs.Verdicts.{IsUsesOf};
ghost use Rattle.xt_report.specs.Held.{AreUsesLater, AreUsesSo, IsOnly};

use std::alloc::{AllocError, Global};
use xt_discipline::handlers_of;
use xt_image::{Image, well_formed_is_placed};
use xt_simulation::filling_laws::runs_are_decided;
use xt_simulation::use_laws::{uses_are_so, uses_of_runs_are_later};
use xt_trace::Run;
use xt_use_shadow::judge_uses_of;
use xt_use_walk::Uses;
use xt_use_walk::laws::uses_are_one;
use xt_uses::Discipline;

// A number of 32 bits is a word, by its type.
fn is_word(number: u32)
    ensures { IsWord number }
{}

/// What a discipline of uses says of a run of an image, whose turns are made again: nothing where some window handler does not pass its
/// check; else the first breach in the order of the run's schedule, or how much of what is not known
/// each core has carried. The only error is running out of memory.
///
/// Conditions: the image is well formed, and the run is the image's.
///
/// No other answer is one of the run. Of a run whose handlers pass and whose stacks are apart, what the machine of uses knows of each
/// judged record before the breach that the answer names, or of all where it names none, is so, and what it does not know decides nothing
/// there: with any other numbers in its place the machine of frames has the same places, accesses and bytes sent. No breach of the lenient
/// discipline comes before one of the stack discipline, and where that shows none, its answer is that uses are whole and carry nothing.
pub fn uses_of(
    alloc: Global,
    discipline: Discipline,
    image: &Image,
    run: &Run,
) -> Result<Uses, AllocError>
    requires image { IsWellFormed image.now }
    requires run { IsRunOf image.now run.now }
    ensures uses { IfOk result (IsUsesOf discipline (are_checked image.now run.now.options) (course_of image.now run.now)) }
    ensures only { IfOk result (IsOnly discipline image.now run.now) }
    ensures so { IfOk result (AreUsesSo discipline image.now run.now) }
    ensures later { IfOk result (AreUsesLater discipline image.now run.now) }
{
    well_formed_is_placed();
    uses_are_so();
    runs_are_decided();
    uses_of_runs_are_later();
    uses_are_one();
    is_word(run.options.vecbase);
    is_word(run.options.entry1);
    let handlers = handlers_of(alloc, image, run.options.vecbase)?;
    let uses = judge_uses_of(alloc, discipline, image, &handlers, run)?;
    Ok(uses)
}
