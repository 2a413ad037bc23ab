//! Places of memory that the words list, and which words of memory are shown at the end of a run.
ghost use Rattle.std.specs.Prelude.{◌≡◌, IfOk, map, option_map};
ghost use Rattle.xt_command_line.specs.MeaningAnswers.{Means};
ghost use Rattle.xt_command_line.specs.Parts.{all_said};
ghost use Rattle.xt_command_line.specs.Spans.{are_small, at_most_four, shown_in, span_by, span_of, spans_in};

use crate::command::Refusal;
use crate::numbers::number;
use crate::turn_orders::parts_in;
use std::alloc::{AllocError, Global};
use std::marker::Model;

/// So many words or bytes of memory from an address on.
#[derive(Clone, Copy)]
pub struct Span {
    /// The address of the first.
    pub addr: u32,
    /// How many.
    pub count: u32,
}

/// Several places of memory. Contracts see the list.
#[derive(Drop)]
pub struct Spans {
    items: Vec<Span>,
}

impl Model for Spans {
    ghost use Rattle.std.specs.Prelude.{List};
    ghost use Rattle.xt_command_line.specs.declared.spans.Span.{Span};

    ghost Value = { List Span };

    ghost view = { λ s. s.items.items };
}

impl Spans {
    /// These places, without a copy.
    pub fn new(items: Vec<Span>) -> Spans
        ensures { result ≡ items.items }
    {
        Spans { items }
    }

    /// The places.
    pub fn as_slice(&self) -> &[Span]
        ensures { result.now ≡ self.now }
    {
        &self.items
    }
}

// So many from an address on, if both numbers are there.
fn span_by(addr: Option<u32>, count: Option<u32>) -> Option<Span>
    ensures { result ≡ span_by addr count }
{
    match (addr, count) {
        (Some(addr), Some(count)) => Some(Span { addr, count }),
        _ => None,
    }
}

// The place that `ADDR:N` says.
fn span_of(text: &str) -> Option<Span>
    ensures { result ≡ span_of text.now }
{
    match text.split_once(':') {
        Some((addr, count)) => span_by(number(addr), number(count)),
        None => None,
    }
}

// The places of these texts, each of which has to say one.
fn all_spans(alloc: Global, parts: &[&str]) -> Result<Option<Spans>, AllocError>
    ensures { IfOk result (λ list. list ≡ all_said span_of (map (λ part. part.now) parts.now)) }
{
    let mut spans = Vec::new(alloc);
    for part in parts {
        match span_of(part) {
            Some(some) => spans.push(some)?,
            None => return Ok(None),
        }
    }
    Ok(Some(Spans::new(spans)))
}

// The places that four texts at most say.
fn at_most_four(alloc: Global, parts: &[&str]) -> Result<Option<Spans>, AllocError>
    ensures { IfOk result (λ list. list ≡ at_most_four (map (λ part. part.now) parts.now)) }
{
    if parts.len() > 4 {
        return Ok(None);
    }
    all_spans(alloc, parts)
}

/// The places that a text lists, or none if it is no list of them: one to four parts `ADDR:N` with commas between them,
/// where both are numbers. The only error is running out of memory.
pub fn spans_in(alloc: Global, text: &str) -> Result<Option<Spans>, AllocError>
    ensures { IfOk result (λ list. list ≡ spans_in text.now) }
{
    let parts = parts_in(alloc, text)?;
    at_most_four(alloc, &parts)
}

// At most 64 words are in each place.
fn are_small(spans: &[Span]) -> bool
    ensures { result ≡ are_small spans.now }
{
    spans.iter().all(|span| span.count <= 64)
}

/// The words of memory that the text of `--memory` lists; none if there is no text.
///
/// `Usage(4)` says that the text is no list of places as `spans_in` reads it, or that one has more than 64 words. `Memory`
/// says only that memory ran out.
pub fn shown_in(alloc: Global, text: Option<&str>) -> Result<Option<Spans>, Refusal>
    ensures { Means result (shown_in (option_map (λ t. t.now) text.entry)) }
{
    let Some(text) = text else {
        return Ok(None);
    };
    match spans_in(alloc, text)? {
        Some(list) if are_small(list.as_slice()) => Ok(Some(list)),
        _ => Err(Refusal::Usage(4)),
    }
}
