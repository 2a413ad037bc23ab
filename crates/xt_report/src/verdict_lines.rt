//! The lines of what is found of an image and its run.
ghost use Rattle.std.specs.Prelude.{◌≡◌, ◌++◌, IfOk, OnOk, string_bytes};
ghost use Rattle.xt_report.specs.Verdicts.{frames_line, frames_text, handlers_line, pair_text, verdict_text};

use crate::breaches::breach_text;
use std::alloc::{AllocError, Global};
use std::fmt::Write;
use xt_frames::Judged;
use xt_handlers::{HandlerVerdict, Handlers};

// Appends the answer for a handler, in a word.
fn push_verdict(out: &mut String, verdict: HandlerVerdict) -> Result<(), AllocError>
    ensures { OnOk result (string_bytes out.new ≡ string_bytes out.old ++ verdict_text verdict) }
{
    match verdict {
        HandlerVerdict::Yes => out.push_str("yes"),
        HandlerVerdict::No(offset) => write!(out, "no {offset}"),
    }
}

// Appends the answers for the two handlers of one size of call.
fn push_pair(
    out: &mut String,
    size: &str,
    overflow: HandlerVerdict,
    underflow: HandlerVerdict,
) -> Result<(), AllocError>
    ensures { OnOk result (string_bytes out.new ≡ string_bytes out.old ++ pair_text size.now overflow underflow) }
{
    write!(out, " of{size} ")?;
    push_verdict(out, overflow)?;
    write!(out, " uf{size} ")?;
    push_verdict(out, underflow)
}

// Appends the line of the answers for the six window handlers.
fn push_answers(out: &mut String, handlers: &Handlers) -> Result<(), AllocError>
    ensures { OnOk result (string_bytes out.new ≡ string_bytes out.old ++ handlers_line handlers.now) }
{
    out.push_str("handlers")?;
    push_pair(out, "4", handlers.of4, handlers.uf4)?;
    push_pair(out, "8", handlers.of8, handlers.uf8)?;
    push_pair(out, "12", handlers.of12, handlers.uf12)?;
    out.push_str("\n")
}

/// The line of the answers for the six window handlers. The only error is running out of memory.
pub fn handlers_line(alloc: Global, handlers: &Handlers) -> Result<String, AllocError>
    ensures { IfOk result (λ line. string_bytes line ≡ handlers_line handlers.now) }
{
    let mut line = String::new(alloc);
    push_answers(&mut line, handlers)?;
    Ok(line)
}

// What is judged of a run, in words.
fn frames_text(alloc: Global, judged: Judged) -> Result<String, AllocError>
    ensures { IfOk result (λ text. string_bytes text ≡ frames_text judged) }
{
    match judged {
        Judged::Unchecked => format!(in alloc; "none"),
        Judged::Whole => format!(in alloc; "whole"),
        Judged::Broken(breach) => breach_text(alloc, breach),
    }
}

/// The line of what is judged of a run. The only error is running out of memory.
pub fn frames_line(alloc: Global, judged: Judged) -> Result<String, AllocError>
    ensures { IfOk result (λ line. string_bytes line ≡ frames_line judged) }
{
    let text = frames_text(alloc, judged)?;
    format!(in alloc; "frames {text}\n")
}

/// Appends the line of what is judged of a run.
pub fn push_frames_line(alloc: Global, out: &mut Vec<u8>, judged: Judged) -> Result<(), AllocError>
    ensures { OnOk result (out.new.items ≡ out.old.items ++ frames_line judged) }
{
    let line = frames_line(alloc, judged)?;
    out.extend_from_slice(line.as_bytes())
}
