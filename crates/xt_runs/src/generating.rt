//! The command `gen`.
ghost use Rattle.std.specs.Prelude.{◌≡◌, None, IfOk};
ghost use Rattle.xt_runs.specs.Generating.{gen_options};
ghost use Rattle.xt_gen.specs.Generated.{generated_image};
ghost use Rattle.xt_image.specs.ImageParts.{IsWellFormed};
ghost use Rattle.xt_runs.specs.Runs.{FinishesGen, Generates, IsGenerated, IsRunOfImage, generated_text};
ghost use Rattle.xt_command_line.specs.Options.{AreValid};

use crate::outcome::{Outcome, without_run};
use crate::runs::run_image;
use crate::verdicts::{judged, verdict_is_so};
use std::alloc::{AllocError, Global};
use std::sync::Wait;
use std::thread::Threads;
use xt_command_line::{DEFAULT_VECBASE, RunOptions, TurnOrder};
use xt_gen::generated_image;
use xt_image::{Image, written_length};
use xt_io::{Gate, Refused, Sink};
use xt_map::Text;
use xt_report::{Status, summary, write_text};
use xt_trace::{Run, Stack};

// The options with which the image of a number runs.
fn gen_options() -> RunOptions
    ensures is { result ≡ gen_options }
    ensures valid { AreValid result }
{
    RunOptions {
        turns0: 200_000,
        turns1: 200_000,
        entry1: None,
        vecbase: DEFAULT_VECBASE,
        stack0: Stack {
            lo: 0x3FFF_0000,
            hi: 0x3FFF_8000,
        },
        stack1: Stack {
            lo: 0x3FFF_8000,
            hi: 0x4000_0000,
        },
        trace: false,
        events: false,
        race: false,
        profile: false,
        uses: false,
        required: None,
        memory: None,
        secrets: None,
        order: TurnOrder::Free,
    }
}

// The run of an image with these options.
fn run_with_them<G: Gate, R: Threads + Wait + Sync>(
    rt: &R,
    alloc: Global,
    image: &Image,
    gate: &G,
) -> Result<Run, AllocError>
    requires { IsWellFormed image.now }
    ensures { IfOk result (λ run. IsRunOfImage gen_options image.now run) }
{
    let options = gen_options();
    run_image(rt, alloc, &options, image, gate)
}

// The run of this image, which is that of a number, and its summary.
fn run_summed_up<G: Gate, R: Threads + Wait + Sync>(
    rt: &R,
    alloc: Global,
    number: u32,
    image: &Image,
    gate: &G,
) -> Result<(Run, Text), AllocError>
    requires image { image.now ≡ generated_image number }
    requires well_formed { IsWellFormed image.now }
    ensures run { IfOk result (λ made. IsGenerated number made.0) }
    ensures text { IfOk result (λ made. made.1 ≡ generated_text number made.0) }
{
    let size = written_length(image);
    let run = run_with_them(rt, alloc, image, gate)?;
    verdict_is_so(image, &run);
    let whole = judged(alloc, image, run)?;
    let text = summary(alloc, number, size, &whole)?;
    Ok((whole.run, text))
}

// The run of the image of a number, and its summary.
fn run_generated<G: Gate, R: Threads + Wait + Sync>(
    rt: &R,
    alloc: Global,
    number: u32,
    gate: &G,
) -> Result<(Run, Text), AllocError>
    ensures run { IfOk result (λ made. IsGenerated number made.0) }
    ensures text { IfOk result (λ made. made.1 ≡ generated_text number made.0) }
{
    let image = generated_image(alloc, number)?;
    run_summed_up(rt, alloc, number, &image, gate)
}

/// Runs the image of a number, and writes its summary. It may wait.
pub fn generate<K: Sink, G: Gate, R: Threads + Wait + Sync>(
    rt: &R,
    alloc: Global,
    number: u32,
    sink: &mut K,
    gate: &G,
) -> Outcome
    ensures answers { Generates number (K.told sink.old) (K.told sink.new) (K.faults sink.old) (K.faults sink.new)
        result.status result.run }
    ensures unmet { result.unmet ≡ None }
    ensures complete { FinishesGen (K.faults sink.old) (K.faults sink.new) result.status }
{
    let Ok((run, text)) = run_generated(rt, alloc, number, gate) else {
        return without_run(Status::Memory);
    };
    let status = match write_text(&text, sink) {
        Ok(()) => Status::Done,
        Err(Refused::Failed) => Status::WriteFault,
        Err(Refused::Memory) => return without_run(Status::Memory),
    };
    Outcome {
        status,
        run: Some(run),
        unmet: None,
    }
}
