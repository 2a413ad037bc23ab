//! The report of a run.
ghost use Rattle.std.specs.Prelude.{◌≡◌, ◌++◌, IfOk, OnOk, string_bytes};
ghost use Rattle.xt_report.specs.Reports.{byte_of, byte_sent, core_line, history_line, newline, report_text, run_lines, sent_bytes, stop_text, uart_lines};
ghost use Rattle.xt_report.specs.Verdicts.{handlers_line};

use crate::verdict_lines::{handlers_line, push_frames_line};
use crate::whole::Whole;
use std::alloc::{AllocError, Global};
use xt_handlers::Handlers;
use xt_map::{Entry, Kind, Text, UART_TRANSMIT};
use xt_trace::{Run, Stop, Trace};
use xt_word::hexadecimal;

// The byte that an access of this kind sends: a store sends its low byte.
fn byte_sent(kind: Kind) -> Option<u8>
    ensures { result ≡ byte_sent kind }
{
    match kind {
        Kind::Store(value) => Some((value % 256) as u8),
        Kind::Load | Kind::Cas(_, _) => None,
    }
}

// The byte that an entry sends: only accesses to the transmit address send.
fn sent_by(entry: &Entry) -> Option<u8>
    ensures { result ≡ byte_of entry.now }
{
    if entry.access.addr == UART_TRANSMIT {
        byte_sent(entry.access.kind)
    } else {
        None
    }
}

// The bytes that the entries send, in order.
pub fn all_sent(alloc: Global, entries: &[Entry]) -> Result<Vec<u8>, AllocError>
    ensures { IfOk result (λ bytes. bytes.items ≡ sent_bytes entries.now) }
{
    entries
        .iter()
        .filter_map(|entry| sent_by(entry))
        .collect(alloc)
}

// Why a trace ended, in a word.
pub fn stop_name(stop: Stop) -> &'static str
    ensures { result.now ≡ stop_text stop }
{
    match stop {
        Stop::Break => "break",
        Stop::Turns => "turns",
    }
}

// The line of a core.
fn line_of(alloc: Global, core: u8, trace: &Trace) -> Result<String, AllocError>
    ensures { IfOk result (λ line. string_bytes line ≡ core_line core trace.now) }
{
    let stop = stop_name(trace.stop);
    let turns = trace.count;
    let pc = hexadecimal(alloc, trace.pc)?;
    format!(in alloc; "core {core} stop {stop} turns {turns} pc {pc}\n")
}

// Appends the line of a core.
fn push_core(alloc: Global, out: &mut Vec<u8>, core: u8, trace: &Trace) -> Result<(), AllocError>
    ensures { OnOk result (out.new.items ≡ out.old.items ++ core_line core trace.now) }
{
    let line = line_of(alloc, core, trace)?;
    out.extend_from_slice(line.as_bytes())
}

// Appends the line of a history of so many accesses.
fn push_history(alloc: Global, out: &mut Vec<u8>, count: usize) -> Result<(), AllocError>
    ensures { OnOk result (out.new.items ≡ out.old.items ++ history_line count) }
{
    let line = format!(in alloc; "history {count}\n")?;
    out.extend_from_slice(line.as_bytes())
}

/// Appends these bytes and a newline. The only error is running out of memory.
pub fn push_bytes(out: &mut Vec<u8>, bytes: &[u8]) -> Result<(), AllocError>
    ensures { OnOk result (out.new.items ≡ out.old.items ++ (bytes.now ++ newline)) }
{
    out.extend_from_slice(bytes)?;
    out.push(b'\n')?;
    Ok(())
}

// The lines of the bytes that were sent.
fn sent_lines(alloc: Global, sent: &[u8]) -> Result<Vec<u8>, AllocError>
    ensures { IfOk result (λ lines. lines.items ≡ uart_lines sent.now) }
{
    let count = sent.len();
    let mut text = format!(in alloc; "uart {count}\n")?.into_bytes();
    push_bytes(&mut text, sent)?;
    Ok(text)
}

// The lines of the bytes that entries send.
fn uart_lines(alloc: Global, entries: &[Entry]) -> Result<Vec<u8>, AllocError>
    ensures { IfOk result (λ lines. lines.items ≡ uart_lines (sent_bytes entries.now)) }
{
    let sent = all_sent(alloc, entries)?;
    sent_lines(alloc, &sent)
}

/// The lines of a run by itself, each with a newline at its end:
///
/// ```text
/// uart N
/// the N bytes that were sent, as they are
/// core 0 stop S turns K pc ADDR
/// core 1 stop S turns K pc ADDR
/// history N
/// ```
///
/// S is `break` or `turns`, K the number of the core's turns, and ADDR its last program counter in
/// eight upper-case hexadecimal digits; N and K are decimal, and the last N is the number of accesses
/// that the bus served. The only error is running out of memory.
#[tactic(auto, unfolding(crate::specs::Reports::run_lines))]
pub fn run_lines(alloc: Global, run: &Run) -> Result<Text, AllocError>
    ensures { IfOk result (λ text. text ≡ run_lines run.now) }
{
    let mut text = uart_lines(alloc, run.history.as_slice())?;
    push_core(alloc, &mut text, 0, &run.trace0)?;
    push_core(alloc, &mut text, 1, &run.trace1)?;
    push_history(alloc, &mut text, run.history.len())?;
    Ok(Text::new(text))
}

// Appends the line of the answers for the six window handlers.
fn push_handlers(alloc: Global, out: &mut Vec<u8>, handlers: &Handlers) -> Result<(), AllocError>
    ensures { OnOk result (out.new.items ≡ out.old.items ++ handlers_line handlers.now) }
{
    let line = handlers_line(alloc, handlers)?;
    out.extend_from_slice(line.as_bytes())
}

/// The report of a run: its own lines, and those of the answers for the six window handlers and of
/// the verdict,
///
/// ```text
/// handlers of4 V uf4 V of8 V uf8 V of12 V uf12 V
/// frames F
/// ```
///
/// V is `yes`, or `no` and the offset at which the handler fails its check. F is `none` where one
/// fails, else `whole`, or `breach KIND core C step N`. The only error is running out of memory.
#[tactic(auto, unfolding(crate::specs::Reports::report_text))]
pub fn report(alloc: Global, whole: &Whole) -> Result<Text, AllocError>
    ensures { IfOk result (λ text. text ≡ report_text whole.now) }
{
    let mut text = run_lines(alloc, &whole.run)?.into_vec();
    push_handlers(alloc, &mut text, &whole.handlers)?;
    push_frames_line(alloc, &mut text, whole.judged)?;
    Ok(Text::new(text))
}
