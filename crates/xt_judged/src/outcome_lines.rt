//! The lines of an outcome.
ghost use Rattle.std.specs.Prelude.{◌≡◌, ◌++◌, IfOk, OnOk, string_bytes, flat_map};
ghost use Rattle.std.specs.List.{zip};
ghost use Rattle.xt_report.specs.Reports.{stop_text, uart_lines};
ghost use Rattle.xt_judged.specs.OutcomesText.{core_line, order_line, outcome_text, word_line};

use crate::lines::append;
use crate::order_rows::order_text;
use std::alloc::{AllocError, Global};
use std::fmt::Write;
use xt_outcomes::Found;
use xt_trace::Stop;
use xt_word::hexadecimal;

// How a core ended, in a word.
fn stop_name(stop: Stop) -> &'static str
    ensures { result.now ≡ stop_text stop }
{
    match stop {
        Stop::Break => "break",
        Stop::Turns => "turns",
    }
}

// The line of a core.
fn core_line(alloc: Global, core: u8, stop: Stop, pc: u32) -> Result<String, AllocError>
    ensures { IfOk result (λ line. string_bytes line ≡ core_line core stop pc) }
{
    let stop = stop_name(stop);
    let pc = hexadecimal(alloc, pc)?;
    format!(in alloc; "core {core} stop {stop} pc {pc}\n")
}

// The line of a word.
fn word_line(alloc: Global, address: u32, value: u32) -> Result<String, AllocError>
    ensures { IfOk result (λ line. string_bytes line ≡ word_line (address, value)) }
{
    let address = hexadecimal(alloc, address)?;
    let value = hexadecimal(alloc, value)?;
    format!(in alloc; "word {address} {value}\n")
}

// Appends the lines of the words.
fn push_words(
    alloc: Global,
    out: &mut Vec<u8>,
    addresses: &[u32],
    values: &[u32],
) -> Result<(), AllocError>
    ensures { OnOk result (out.new.items ≡ out.old.items ++ flat_map word_line (zip addresses.now values.now)) }
{
    for (address, value) in addresses.iter().zip(values) {
        let line = word_line(alloc, *address, *value)?;
        append(out, line)?;
    }
    Ok(())
}

// Appends what was sent.
fn push_sent(alloc: Global, out: &mut Vec<u8>, sent: &[u8]) -> Result<(), AllocError>
    ensures { OnOk result (out.new.items ≡ out.old.items ++ uart_lines sent.now) }
{
    let count = sent.len();
    let head = format!(in alloc; "uart {count}\n")?;
    append(out, head)?;
    out.extend_from_slice(sent)?;
    out.push(b'\n')?;
    Ok(())
}

// The line of an order.
fn order_line(alloc: Global, order: &[u8]) -> Result<String, AllocError>
    ensures { IfOk result (λ line. string_bytes line ≡ order_line order.now) }
{
    let order = order_text(alloc, order)?;
    format!(in alloc; "order {order}\n")
}

/// Appends the lines of an outcome. The only error is running out of memory.
pub fn push_outcome(
    alloc: Global,
    out: &mut Vec<u8>,
    addresses: &[u32],
    found: &Found,
) -> Result<(), AllocError>
    ensures { OnOk result (out.new.items ≡ out.old.items ++ outcome_text addresses.now found.now) }
{
    let outcome = &found.outcome;
    out.extend_from_slice(b"outcome ")?;
    push_sent(alloc, out, outcome.sent())?;
    let core0 = core_line(alloc, 0, outcome.stop0(), outcome.pc0())?;
    append(out, core0)?;
    let core1 = core_line(alloc, 1, outcome.stop1(), outcome.pc1())?;
    append(out, core1)?;
    push_words(alloc, out, addresses, outcome.words())?;
    let order = order_line(alloc, found.order.as_slice())?;
    append(out, order)?;
    Ok(())
}
