//! The lines of what is judged of the runs of all orders.
ghost use Rattle.std.specs.Prelude.{◌≡◌, ◌++◌, IfOk, OnOk, string_bytes, flat_map};
ghost use Rattle.xt_judged.specs.FrameLines.{breach_line, frames_lines, frames_word};

use crate::frames::{JudgedOrders, OrderBreach};
use crate::lines::append;
use crate::order_rows::order_text;
use std::alloc::{AllocError, Global};
use xt_report::kind_text;
use xt_word::hexadecimal;

// What is judged, in a word.
fn frames_word(frames: &JudgedOrders) -> &'static str
    ensures { result.now ≡ frames_word frames.now }
{
    match frames {
        JudgedOrders::Unknown => "unknown",
        JudgedOrders::Unchecked => "none",
        JudgedOrders::Whole => "whole",
        JudgedOrders::Broken(_) => "broken",
    }
}

// The line of a breach.
fn breach_line(alloc: Global, breach: &OrderBreach) -> Result<String, AllocError>
    ensures { IfOk result (λ line. string_bytes line ≡ breach_line breach.now) }
{
    let kind = kind_text(breach.kind);
    let core = breach.core;
    let pc = hexadecimal(alloc, breach.pc)?;
    let order = order_text(alloc, breach.order.as_slice())?;
    format!(in alloc; "breach {kind} core {core} pc {pc} order {order}\n")
}

// Appends the lines of breaches.
fn push_breaches(alloc: Global, out: &mut Vec<u8>, list: &[OrderBreach]) -> Result<(), AllocError>
    ensures { OnOk result (out.new.items ≡ out.old.items ++ flat_map breach_line list.now) }
{
    for breach in list {
        let line = breach_line(alloc, breach)?;
        append(out, line)?;
    }
    Ok(())
}

/// Appends the line of what is judged, `frames F`, and the lines of the breaches that were met,
/// `breach KIND core C pc ADDR order LIST` each. The only error is running out of memory.
pub fn push_frames(
    alloc: Global,
    out: &mut Vec<u8>,
    frames: &JudgedOrders,
) -> Result<(), AllocError>
    ensures { OnOk result (out.new.items ≡ out.old.items ++ frames_lines frames.now) }
{
    let word = frames_word(frames);
    let line = format!(in alloc; "frames {word}\n")?;
    append(out, line)?;
    match frames {
        JudgedOrders::Broken(list) => push_breaches(alloc, out, list.as_slice()),
        JudgedOrders::Unknown => Ok(()),
        JudgedOrders::Unchecked => Ok(()),
        JudgedOrders::Whole => Ok(()),
    }
}
