//! What `gen` writes.
ghost use Rattle.std.specs.Prelude.{◌≡◌, ◌++◌, IfOk, OnOk, string_bytes};
ghost use Rattle.xt_report.specs.Reports.{sent_bytes};
ghost use Rattle.xt_report.specs.Summaries.{gen_lines, sent_line, stop_line, summary_text};

use crate::run_report::{all_sent, push_bytes, stop_name};
use crate::verdict_lines::push_frames_line;
use crate::whole::Whole;
use std::alloc::{AllocError, Global};
use xt_map::{Entry, Text};
use xt_trace::Trace;

// The lines of the number and of the image's length in bytes.
fn gen_lines(alloc: Global, number: u32, size: usize) -> Result<String, AllocError>
    ensures { IfOk result (λ lines. string_bytes lines ≡ gen_lines number size) }
{
    format!(in alloc; "gen {number}\nimage {size}\n")
}

// Appends the line of the bytes that entries send.
fn push_sent(alloc: Global, out: &mut Vec<u8>, entries: &[Entry]) -> Result<(), AllocError>
    ensures { OnOk result (out.new.items ≡ out.old.items ++ sent_line (sent_bytes entries.now)) }
{
    let sent = all_sent(alloc, entries)?;
    out.extend_from_slice(b"uart ")?;
    push_bytes(out, &sent)
}

// Appends the line of a core.
fn push_stop(alloc: Global, out: &mut Vec<u8>, core: u8, trace: &Trace) -> Result<(), AllocError>
    ensures { OnOk result (out.new.items ≡ out.old.items ++ stop_line core trace.now) }
{
    let stop = stop_name(trace.stop);
    let line = format!(in alloc; "core {core} stop {stop}\n")?;
    out.extend_from_slice(line.as_bytes())
}

/// The summary of the run of an image that was made of a number, in lines that each end with a
/// newline:
///
/// ```text
/// gen N
/// image L
/// uart TEXT
/// core 0 stop S
/// core 1 stop S
/// frames F
/// ```
///
/// L is the length of the image in bytes, TEXT the bytes that were sent, and S and F are those of the
/// report. The only error is running out of memory.
#[tactic(auto, unfolding(crate::specs::Summaries::summary_text))]
pub fn summary(alloc: Global, number: u32, size: usize, whole: &Whole) -> Result<Text, AllocError>
    ensures { IfOk result (λ text. text ≡ summary_text number size whole.now) }
{
    let mut text = gen_lines(alloc, number, size)?.into_bytes();
    push_sent(alloc, &mut text, whole.run.history.as_slice())?;
    push_stop(alloc, &mut text, 0, &whole.run.trace0)?;
    push_stop(alloc, &mut text, 1, &whole.run.trace1)?;
    push_frames_line(alloc, &mut text, whole.judged)?;
    Ok(Text::new(text))
}
