//! The commands `run` and `record`.
ghost use Rattle.std.specs.Prelude.{◌≡◌};
ghost use Rattle.xt_command_line.specs.Options.{AreValid};
ghost use Rattle.xt_core.specs.Runs.{IsRunOf};
ghost use Rattle.xt_image.specs.ImageParts.{IsWellFormed};
ghost use Rattle.xt_record.specs.Written.{recording_bytes};
ghost use Rattle.xt_runs.specs.Runs.{FinishesRun, Runs, run_text};
ghost use Rattle.xt_runs.specs.Told.{run_in, told_text};
ghost use Rattle.xt_report.specs.Calls.{ends};
ghost use Rattle.xt_report.specs.Writes.{Writes};

use crate::outcome::{Outcome, Wanted, without_run};
use crate::output::{write_analyzed, write_traced};
use crate::requirements::unmet_of;
use crate::runs::run_image;
use crate::told::{Told, told_of};
use crate::verdicts::verdict_is_so;
use std::alloc::Global;
use std::sync::Wait;
use std::thread::Threads;
use xt_command_line::RunOptions;
use xt_core::Cursor;
use xt_image::{Image, well_formed_is_placed};
use xt_io::{Gate, ReadError, Refused, Sink, Source, read_to_limit, write_all};
use xt_map::Text;
use xt_record::write_recording;
use xt_report::{IMAGE_LIMIT, Status, Whole, image_in};
use xt_trace::Run;

/// Writes what `run` writes of a run of an image: the report, the texts of its analyses, and where the
/// words ask for them the lines of both traces, in writes of up to 65,536 bytes.
///
/// Conditions: the image is well formed, and the run is one of this image.
#[tactic(auto, unfolding(crate::specs::Runs::run_text))]
pub fn write_whole<K: Sink>(
    alloc: Global,
    options: &RunOptions,
    image: &Image,
    whole: &Whole,
    analyses: &Text,
    sink: &mut K,
) -> Result<(), Refused>
    requires image { IsWellFormed image.now }
    requires run { IsRunOf image.now whole.now.run }
    ensures { Writes result
        (K.told sink.old) (K.told sink.new) (K.faults sink.old) (K.faults sink.new)
        (run_text options.now image.now whole.now analyses.now) }
{
    if options.trace {
        well_formed_is_placed();
        let mut records0 = Cursor::make(alloc, image, &whole.run, 0)?;
        let mut records1 = Cursor::make(alloc, image, &whole.run, 1)?;
        write_traced(alloc, whole, analyses, &mut records0, &mut records1, sink)
    } else {
        write_analyzed(alloc, whole, analyses, sink)
    }
}

// Writes the recording of a run of an image.
fn write_recorded<K: Sink>(
    alloc: Global,
    image: &Image,
    run: &Run,
    sink: &mut K,
) -> Result<(), Refused>
    requires image { IsWellFormed image.now }
    requires run { IsRunOf image.now run.now }
    ensures { Writes result
        (K.told sink.old) (K.told sink.new) (K.faults sink.old) (K.faults sink.new)
        (recording_bytes image.now run.now) }
{
    let bytes = write_recording(alloc, image, run)?;
    write_all(sink, bytes.as_slice())
}

// Writes what is wanted of a run of an image.
fn write_told<K: Sink>(
    alloc: Global,
    options: &RunOptions,
    image: &Image,
    told: &Told,
    sink: &mut K,
) -> Result<(), Refused>
    requires image { IsWellFormed image.now }
    requires run { IsRunOf image.now (run_in told.now) }
    ensures { Writes result
        (K.told sink.old) (K.told sink.new) (K.faults sink.old) (K.faults sink.new)
        (told_text options.now image.now told.now) }
{
    match told {
        Told::Report(whole, analyses) => write_whole(alloc, options, image, whole, analyses, sink),
        Told::Recording(run) => write_recorded(alloc, image, run, sink),
    }
}

/// Reads an image to its end, runs it, and writes what is wanted of the run. It may wait.
pub fn run_source<S: Source, K: Sink, G: Gate, R: Threads + Wait + Sync>(
    rt: &R,
    alloc: Global,
    wanted: Wanted,
    options: &RunOptions,
    source: &mut S,
    sink: &mut K,
    gate: &G,
) -> Outcome
    requires { AreValid options.now }
    ensures answers { Runs wanted options.now (ends S.left S.faults source.old source.new K.told K.faults sink.old sink.new)
        result.status result.run result.unmet }
    ensures complete { FinishesRun (ends S.left S.faults source.old source.new K.told K.faults sink.old sink.new)
        result.status }
{
    let input = match read_to_limit(alloc, source, IMAGE_LIMIT) {
        Ok(input) => input,
        Err(ReadError::Fault) => return without_run(Status::ReadFault),
        Err(ReadError::TooLarge) => return without_run(Status::TooLarge(IMAGE_LIMIT as u32)),
        Err(ReadError::Memory) => return without_run(Status::Memory),
    };
    let image = match image_in(alloc, &input) {
        Ok(image) => image,
        Err(status) => return without_run(status),
    };
    let Ok(run) = run_image(rt, alloc, options, &image, gate) else {
        return without_run(Status::Memory);
    };
    verdict_is_so(&image, &run);
    let Ok(told) = told_of(alloc, wanted, options, &image, run) else {
        return without_run(Status::Memory);
    };
    let Ok(unmet) = unmet_of(alloc, options, &image, told.run(), told.verdict()) else {
        return without_run(Status::Memory);
    };
    let status = match write_told(alloc, options, &image, &told, sink) {
        Ok(()) => Status::Done,
        Err(Refused::Failed) => Status::WriteFault,
        Err(Refused::Memory) => return without_run(Status::Memory),
    };
    Outcome {
        status,
        run: Some(told.into_run()),
        unmet,
    }
}
