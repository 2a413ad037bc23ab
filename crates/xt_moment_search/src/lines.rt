//! The lines of an outcome.
ghost use Rattle.std.specs.Prelude.{◌≡◌, ◌++◌, IfOk, OnOk, string_bytes, flat_map};
ghost use Rattle.std.specs.List.{zip};
ghost use Rattle.xt_report.specs.Reports.{uart_lines};
ghost use Rattle.xt_moment_search.specs.MomentLines.{core_end_line, found_text, moments_order_line, value_line};

use crate::found::Found;
use crate::order_rows::order_text;
use std::alloc::{AllocError, Global};
use xt_word::hexadecimal;

// The line of a core.
fn end_line(alloc: Global, core: u8, stop: &str, pc: u32) -> Result<String, AllocError>
    ensures { IfOk result (λ line. string_bytes line ≡ core_end_line core stop.now pc) }
{
    let pc = hexadecimal(alloc, pc)?;
    format!(in alloc; "core {core} stop {stop} pc {pc}\n")
}

// The line of a word.
fn value_line(alloc: Global, address: u32, value: u32) -> Result<String, AllocError>
    ensures { IfOk result (λ line. string_bytes line ≡ value_line (address, value)) }
{
    let address = hexadecimal(alloc, address)?;
    let value = hexadecimal(alloc, value)?;
    format!(in alloc; "word {address} {value}\n")
}

// Appends the lines of the words.
fn push_words(
    alloc: Global,
    out: &mut Vec<u8>,
    addresses: &[u32],
    values: &[u32],
) -> Result<(), AllocError>
    ensures { OnOk result (out.new.items ≡ out.old.items ++ flat_map value_line (zip addresses.now values.now)) }
{
    for (address, value) in addresses.iter().zip(values) {
        let line = value_line(alloc, *address, *value)?;
        out.extend_from_slice(line.as_bytes())?;
    }
    Ok(())
}

// Appends what was sent.
fn push_sent(alloc: Global, out: &mut Vec<u8>, sent: &[u8]) -> Result<(), AllocError>
    ensures { OnOk result (out.new.items ≡ out.old.items ++ uart_lines sent.now) }
{
    let count = sent.len();
    let head = format!(in alloc; "uart {count}\n")?;
    out.extend_from_slice(head.as_bytes())?;
    out.extend_from_slice(sent)?;
    out.push(b'\n')?;
    Ok(())
}

// The line of an order.
fn order_line(alloc: Global, found: &Found) -> Result<String, AllocError>
    ensures { IfOk result (λ line. string_bytes line ≡ moments_order_line found.now) }
{
    let order = order_text(alloc, found.order.as_slice())?;
    format!(in alloc; "order {order}\n")
}

/// Appends the lines of an outcome. The only error is running out of memory.
pub fn push_found(
    alloc: Global,
    out: &mut Vec<u8>,
    addresses: &[u32],
    found: &Found,
) -> Result<(), AllocError>
    ensures { OnOk result (out.new.items ≡ out.old.items ++ found_text addresses.now found.now) }
{
    let outcome = &found.outcome;
    let core0 = end_line(alloc, 0, "break", outcome.pc0())?;
    let core1 = end_line(alloc, 1, "break", outcome.pc1())?;
    let order = order_line(alloc, found)?;
    out.extend_from_slice(b"outcome ")?;
    push_sent(alloc, out, outcome.sent())?;
    out.extend_from_slice(core0.as_bytes())?;
    out.extend_from_slice(core1.as_bytes())?;
    push_words(alloc, out, addresses, outcome.words())?;
    out.extend_from_slice(order.as_bytes())?;
    Ok(())
}
