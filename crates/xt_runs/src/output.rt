//! Writing what a run comes to, piece by piece.
ghost use Rattle.std.specs.Prelude.{◌≡◌, ◌++◌, length};
ghost use Rattle.xt_report.specs.Reports.{report_text};
ghost use Rattle.xt_runs.specs.Traces.{lines_from, trace_text};
ghost use Rattle.xt_report.specs.Writes.{Writes};

use std::alloc::Global;
use xt_io::{Refused, Sink, write_all};
use xt_map::Text;
use xt_report::{Piece, Whole, report, write_text};
use xt_trace::{Records, Run, line};

// Writes the lines of a core's records. It gathers up to 65,536 bytes of them for each write.
fn write_records<K: Sink, R: Records>(
    alloc: Global,
    core: u8,
    count: u32,
    records: &mut R,
    sink: &mut K,
) -> Result<(), Refused>
    requires { length (R.left records.old) ≡ count }
    ensures { Writes result
        (K.told sink.old) (K.told sink.new) (K.faults sink.old) (K.faults sink.new)
        (lines_from core 0 (R.left records.old)) }
{
    let mut piece = Piece::make(alloc)?;
    for step in 0..count {
        match records.next() {
            Some(r) => {
                let text = line(alloc, core, step, &r)?;
                piece.add(&text, sink)?
            }
            None => unreachable!(),
        }
    }
    piece.flush(sink)
}

// Writes the report of a run. A refusal is a failed write, or running out of memory.
fn write_report<K: Sink>(alloc: Global, whole: &Whole, sink: &mut K) -> Result<(), Refused>
    ensures { Writes result
        (K.told sink.old) (K.told sink.new) (K.faults sink.old) (K.faults sink.new)
        (report_text whole.now) }
{
    let text = report(alloc, whole)?;
    write_all(sink, text.as_slice())
}

/// Writes the report of a run, and then the texts of its analyses.
pub fn write_analyzed<K: Sink>(
    alloc: Global,
    whole: &Whole,
    analyses: &Text,
    sink: &mut K,
) -> Result<(), Refused>
    ensures { Writes result
        (K.told sink.old) (K.told sink.new) (K.faults sink.old) (K.faults sink.new)
        (report_text whole.now ++ analyses.now) }
{
    write_report(alloc, whole, sink)?;
    write_text(analyses, sink)
}

// Writes the lines of both traces.
fn write_traces<K: Sink, R: Records>(
    alloc: Global,
    run: &Run,
    records0: &mut R,
    records1: &mut R,
    sink: &mut K,
) -> Result<(), Refused>
    requires zero { length (R.left records0.old) ≡ run.now.trace0.count }
    requires one { length (R.left records1.old) ≡ run.now.trace1.count }
    ensures { Writes result
        (K.told sink.old) (K.told sink.new) (K.faults sink.old) (K.faults sink.new)
        (trace_text (R.left records0.old) (R.left records1.old)) }
{
    write_records(alloc, 0, run.trace0.count, records0, sink)?;
    write_records(alloc, 1, run.trace1.count, records1, sink)
}

/// Writes the report of a run, the texts of its analyses, and then the lines of both traces.
pub fn write_traced<K: Sink, R: Records>(
    alloc: Global,
    whole: &Whole,
    analyses: &Text,
    records0: &mut R,
    records1: &mut R,
    sink: &mut K,
) -> Result<(), Refused>
    requires zero { length (R.left records0.old) ≡ whole.now.run.trace0.count }
    requires one { length (R.left records1.old) ≡ whole.now.run.trace1.count }
    ensures { Writes result
        (K.told sink.old) (K.told sink.new) (K.faults sink.old) (K.faults sink.new)
        (report_text whole.now ++ (analyses.now ++ trace_text (R.left records0.old) (R.left records1.old))) }
{
    write_report(alloc, whole, sink)?;
    write_text(analyses, sink)?;
    write_traces(alloc, &whole.run, records0, records1, sink)
}
