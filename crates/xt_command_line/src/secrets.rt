//! Which bytes of memory are secret and which public, as the words say it.
ghost use Rattle.std.specs.Prelude.{◌≡◌, ◌&&◌, IfOk, nat_le, option_map};
ghost use Rattle.std.specs.List.{list_any};
ghost use Rattle.xt_command_line.specs.MeaningAnswers.{Means};
ghost use Rattle.xt_command_line.specs.Parts.{all_said};
ghost use Rattle.xt_command_line.specs.Secrets.{is_range, public_in, range_of, ranges_in, secrets_by, secrets_in};

use crate::command::Refusal;
use crate::spans::{Span, spans_in};
use std::alloc::{AllocError, Global};
use std::marker::Model;

/// Bytes of memory in several places: in each an address, and how many bytes from it on. Contracts see the list.
#[derive(Drop)]
pub struct ByteRanges {
    items: Vec<(u32, u32)>,
}

impl Model for ByteRanges {
    ghost use Rattle.std.specs.Prelude.{ℕ, List};

    ghost Value = { List (ℕ × ℕ) };

    ghost view = { λ s. s.items.items };
}

impl ByteRanges {
    /// These ranges, without a copy.
    pub fn new(items: Vec<(u32, u32)>) -> ByteRanges
        ensures { result ≡ items.items }
    {
        ByteRanges { items }
    }

    /// The ranges.
    pub fn as_slice(&self) -> &[(u32, u32)]
        ensures { result.now ≡ self.now }
    {
        &self.items
    }
}

/// What is secret in a run.
#[derive(Drop)]
pub struct SecretOptions {
    /// The bytes that are secret as the run begins (`--secret`).
    pub secret: ByteRanges,
    /// The bytes of which all that they ever hold is given away (`--public`).
    pub public: ByteRanges,
}

// The first address of each region of memory, and the one after its last.
const MEMORIES: [(u64, u64); 3] = [
    (0x3FF80000, 0x3FF82000),
    (0x3FFAE000, 0x40000000),
    (0x50000000, 0x50002000),
];

// One of some places has the addresses from the first up to the end.
fn lies_in(places: &[(u64, u64)], first: u64, end: u64) -> bool
    ensures { result ≡ list_any (λ p. nat_le p.0 first && nat_le end p.1) places.now }
{
    places
        .iter()
        .any(|place| place.0 <= first && end <= place.1)
}

// A byte or more, all in one region of memory.
#[tactic(auto, unfolding(crate::specs::Secrets::is_range))]
fn is_range(span: Span) -> bool
    ensures { result ≡ is_range span }
{
    let first = span.addr as u64;
    span.count > 0 && lies_in(&MEMORIES, first, first + span.count as u64)
}

// An address and how many bytes from it on, if they are a range of memory.
#[tactic(auto, unfolding(crate::specs::Secrets::range_of))]
fn range_of(span: Span) -> Option<(u32, u32)>
    ensures { result ≡ range_of span }
{
    is_range(span).then_some((span.addr, span.count))
}

// The bytes in these places, each of which has to be a range of memory.
fn ranges_from(alloc: Global, spans: &[Span]) -> Result<Option<ByteRanges>, AllocError>
    ensures { IfOk result (λ list. list ≡ all_said range_of spans.now) }
{
    let mut ranges = Vec::new(alloc);
    for span in spans {
        match range_of(*span) {
            Some(range) => ranges.push(range)?,
            None => return Ok(None),
        }
    }
    Ok(Some(ByteRanges::new(ranges)))
}

// The bytes that a text lists.
fn ranges_in(alloc: Global, text: &str) -> Result<Option<ByteRanges>, AllocError>
    ensures { IfOk result (λ list. list ≡ ranges_in text.now) }
{
    match spans_in(alloc, text)? {
        Some(spans) => ranges_from(alloc, spans.as_slice()),
        None => Ok(None),
    }
}

// The bytes that the text of `--public` lists; without a text there are none.
fn public_in(alloc: Global, text: Option<&str>) -> Result<Option<ByteRanges>, AllocError>
    ensures { IfOk result (λ list. list ≡ public_in (option_map (λ t. t.now) text.entry)) }
{
    match text {
        Some(text) => ranges_in(alloc, text),
        None => Ok(Some(ByteRanges::new(Vec::new(alloc)))),
    }
}

// What is secret by these lists, if both are there.
fn secrets_by(
    secret: Option<ByteRanges>,
    public: Option<ByteRanges>,
) -> Result<Option<SecretOptions>, Refusal>
    ensures { result ≡ secrets_by secret public }
{
    match (secret, public) {
        (Some(secret), Some(public)) => Ok(Some(SecretOptions { secret, public })),
        _ => Err(Refusal::Usage(10)),
    }
}

/// What the texts of `--secret` and `--public` say; nothing if neither is there.
///
/// `Usage(10)` says that the second is there without the first, or that a text is no list of ranges: one to four parts
/// `ADDR:N` with commas between them, each of which is N bytes from ADDR on, one or more, all in one region of memory.
/// `Memory` says only that memory ran out.
pub fn secrets_in(
    alloc: Global,
    secret: Option<&str>,
    public: Option<&str>,
) -> Result<Option<SecretOptions>, Refusal>
    ensures { Means result (secrets_in (option_map (λ t. t.now) secret.entry) (option_map (λ t. t.now) public.entry)) }
{
    match (secret, public) {
        (None, None) => Ok(None),
        (None, Some(_)) => Err(Refusal::Usage(10)),
        (Some(secret), public) => {
            let secret = ranges_in(alloc, secret)?;
            let public = public_in(alloc, public)?;
            secrets_by(secret, public)
        }
    }
}
