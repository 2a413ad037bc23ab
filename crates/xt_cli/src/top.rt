//! The top call.
ghost use Rattle.std.specs.Prelude.{map, string_bytes};
ghost use Rattle.xt_report.specs.Calls.{ends};
ghost use Rattle.xt_cli.specs.Orders.{order_of};
ghost use Rattle.xt_cli.specs.Threads.{IsThreaded};
ghost use Rattle.xt_cli.specs.Top.{Answers, IsComplete};

use crate::orders::{Order, order_in};
use crate::tool::{Tool, status_of, tool_main};
use std::alloc::Global;
use std::sync::Wait;
use std::thread::Threads;
use xt_io::{Gate, Sink, Source};
use xt_runs::{Outcome, generate, run_source, without_run};

// What `run`, `record` and `gen` come to.
fn threaded<S: Source, K: Sink, G: Gate, R: Threads + Wait + Sync>(
    rt: &R,
    alloc: Global,
    words: &[String],
    source: &mut S,
    sink: &mut K,
    gate: &G,
) -> Outcome
    requires threads { IsThreaded (order_of (map string_bytes words.now)) }
    ensures answers { Answers (order_of (map string_bytes words.now))
        (ends S.left S.faults source.old source.new K.told K.faults sink.old sink.new) result }
    ensures complete { IsComplete (order_of (map string_bytes words.now))
        (ends S.left S.faults source.old source.new K.told K.faults sink.old sink.new) result }
{
    match order_in(alloc, words) {
        Ok(Order::Run(wanted, options)) => {
            run_source(rt, alloc, wanted, &options, source, sink, gate)
        }
        Ok(Order::Generate(number)) => generate(rt, alloc, number, sink, gate),
        Ok(Order::Work(_job)) => unreachable!(),
        Ok(Order::Session(_beyond)) => unreachable!(),
        Err(refusal) => without_run(status_of(refusal)),
    }
}

/// What the program does with the words after its name, a source and a sink.
///
/// Where the words ask for a run, the source is read to its end as an ESP32 application image, both
/// cores make their turns, each on a thread of its own and through the gate before each access, and
/// the report is written to the sink, after it the texts of the analyses that the words ask for, and
/// with `--trace` the lines of both traces, in writes of up to 65,536 bytes; or where they ask for it the run's recording. Where they ask for the image that
/// is made of a number, no input is read, that image runs so, and its summary is written. A run may
/// wait. Where the words give a seed or an order of turns, the run makes its turns in that order, on one thread.
/// All else is done by `tool_main`, which is called first and cannot wait.
///
/// The contract says of each status its cause, and what was written; of `Done` and `WriteFault` of
/// `run`, `record` and `gen` besides which line is handed out of the first requirement of the words that the run does not
/// meet, if there is one, and that the run that is handed out is the image's: its history is
/// legal from the opening memory, each trace is the processor's over the replies of that history, and
/// the history's accesses are those of the traces; that it is the run of the schedule that is read from its own history; and
/// that the answers for the window handlers are those of the image's vectors from the run's VECBASE on,
/// and the verdict that of the run's records; where the handlers pass and the stacks are apart, the run
/// up to the first breach is one of the machine with unbounded call frames.
/// Running out of memory is the only outcome left open.
pub fn xt_main<S: Source, K: Sink, G: Gate, R: Threads + Wait + Sync>(
    rt: &R,
    alloc: Global,
    words: &[String],
    source: &mut S,
    sink: &mut K,
    gate: &G,
) -> Outcome
    ensures answers { Answers (order_of (map string_bytes words.now))
        (ends S.left S.faults source.old source.new K.told K.faults sink.old sink.new) result }
    ensures complete { IsComplete (order_of (map string_bytes words.now))
        (ends S.left S.faults source.old source.new K.told K.faults sink.old sink.new) result }
{
    match tool_main(alloc, words, source, sink) {
        Tool::Answer(status) => without_run(status),
        Tool::Threaded => threaded(rt, alloc, words, source, sink, gate),
    }
}
