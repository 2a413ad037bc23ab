//! How overlapping headers are found without comparing each with each.
ghost use Rattle.std.specs.Prelude.{◌≡◌, ◌≤◌, length, IfOk, IsTrue};
ghost use Rattle.xt_elf.specs.Spans.{AreApart, AreInARow, HasSpans};

use crate::header::{Header, is_loaded, padded_end};
use std::alloc::{AllocError, Global};

// The addresses that the padded bytes of a header take: the first, and the one after the last.
#[derive(Clone, Copy)]
struct Span {
    begins: u32,
    ends: u64,
    // the number of the header
    number: usize,
}

// The spans of those of the first n headers that are loaded.
fn spans_of(alloc: Global, headers: &[Header], n: usize) -> Result<Vec<Span>, AllocError>
    requires { n ≤ length headers.now }
    ensures { IfOk result (λ spans. HasSpans headers.now n spans.items) }
{
    let mut spans = Vec::new(alloc);
    for number in 0..n {
        let header = &headers[number];
        if is_loaded(header) {
            spans.push(Span {
                begins: header.addr,
                ends: padded_end(header),
                number,
            })?;
        }
    }
    Ok(spans)
}

// Whether each span ends before all later ones begin.
fn are_in_a_row(spans: &[Span]) -> bool
    ensures { IsTrue result → AreInARow spans.now }
{
    let mut end = 0u64;
    for span in spans {
        if (span.begins as u64) < end {
            return false;
        }
        end = span.ends.max(end);
    }
    true
}

// Whether it is certain that no two of the first n headers share a byte.
fn are_surely_apart(alloc: Global, headers: &[Header], n: usize) -> Result<bool, AllocError>
    requires { n ≤ length headers.now }
    ensures { IfOk result (λ sure. IsTrue sure → AreApart n headers.now) }
{
    let mut spans = spans_of(alloc, headers, n)?;
    spans.sort_unstable_by_key(|span| span.begins);
    Ok(are_in_a_row(spans.as_slice()))
}

/// How many headers at the front share no byte. Where two share one, it is the number of the second
/// of the first such two, which halving finds: 65,535 headers are halved 16 times.
pub(crate) fn apart_count(alloc: Global, headers: &[Header]) -> Result<usize, AllocError>
    ensures within { IfOk result (λ n. n ≤ length headers.now) }
    ensures apart { IfOk result (λ n. AreApart n headers.now) }
{
    if are_surely_apart(alloc, headers, headers.len())? {
        return Ok(headers.len());
    }
    let (mut apart, mut over) = (0, headers.len());
    for _ in 0..16 {
        let middle = apart + (over - apart) / 2;
        if are_surely_apart(alloc, headers, middle)? {
            apart = middle;
        } else {
            over = middle;
        }
    }
    Ok(apart)
}
