//! The bytes of all lines.
ghost use Rattle.std.specs.Prelude.{◌≡◌, ◌≤◌, ◌<◌, ◌≤ℤ◌, ◌^◌, ◌==◌, All, IfOk, IfErr, OnOk, None, pos, length, slice_index_or};
ghost use Rattle.std.specs.List.{prefix_len};
ghost use Rattle.xt_asm.specs.Contexts.{LineFault};
ghost use Rattle.xt_asm.specs.Pieces.{ArePieces, sources_of};
ghost use Rattle.xt_layout.specs.Pools.{words_of};
ghost use Rattle.xt_asm.specs.Walks.{AreOf, own_first};

use crate::kinds::own_fault;
use crate::operands::{Context, insn_at};
use crate::pieces::piece_of;
use std::alloc::{AllocError, Global};
use xt_layout::PoolWord;
use xt_lex::{AsmFault, AsmPlace, Labels};
use xt_map::Bytes;
use xt_parse::Line;

/// How many words at the front stand in the pool at a place.
fn pool_width(place: u32, words: &[PoolWord]) -> usize
    ensures width { result ≡ prefix_len (λ w. place == w.position) words.now }
    ensures within { result ≤ length words.now }
{
    for (i, word) in words.iter().enumerate() {
        if place != word.position {
            return i;
        }
    }
    words.len()
}

/// What the statement of the line at a place refers to.
fn context_at<'a>(
    labels: &'a Labels,
    targets: &[Option<i64>],
    addresses: &[i64],
    k: usize,
) -> Context<'a>
    requires targets { k < length targets.now }
    requires addresses { k < length addresses.now }
    requires natural { pos 0 ≤ℤ slice_index_or addresses.now k (pos 0) }
    ensures labels { result.labels.now ≡ labels.now }
    ensures target { result.target ≡ slice_index_or targets.now k None }
    ensures at { pos result.at ≡ slice_index_or addresses.now k (pos 0) }
{
    Context {
        labels,
        target: targets[k],
        at: addresses[k] as u64,
    }
}

/// The first fault that no earlier pass finds. It makes no bytes, so that a text with a fault takes little memory however
/// many bytes its lines ask for.
pub(crate) fn first_own_fault(
    alloc: Global,
    lines: &[Line],
    labels: &Labels,
    addresses: &[i64],
    targets: &[Option<i64>],
) -> Result<Option<AsmPlace>, AllocError>
    requires { AreOf lines.now (words_of lines.now) labels.now addresses.now targets.now }
    ensures { IfOk result (λ fault. fault ≡ own_first lines.now) }
{
    for (k, line) in lines.iter().enumerate() {
        let context = context_at(labels, targets, addresses, k);
        let made = insn_at(alloc, &context, &line.statement)?;
        if let Some(place) = own_fault(&context, line, &made) {
            return Ok(Some(place));
        }
    }
    Ok(None)
}

/// The bytes of each line, or the first fault that no earlier pass finds.
pub(crate) fn pieces_of(
    alloc: Global,
    lines: &[Line],
    words: &[PoolWord],
    labels: &Labels,
    addresses: &[i64],
    targets: &[Option<i64>],
) -> Result<Vec<Bytes>, AsmFault>
    requires few { length lines.now < 2 ^ 32 }
    requires of { AreOf lines.now words.now labels.now addresses.now targets.now }
    ensures pieces { IfOk result (λ pieces. ArePieces (sources_of lines.now) pieces.items) }
    ensures clear { OnOk result (own_first lines.now ≡ None) }
    ensures fault { IfErr result (λ e. LineFault e (own_first lines.now)) }
{
    let mut pieces = Vec::new(alloc);
    let mut rest = words;
    for (k, line) in lines.iter().enumerate() {
        let context = context_at(labels, targets, addresses, k);
        let (pool, behind) = rest.split_at(pool_width(k as u32, rest));
        match piece_of(alloc, &context, pool, line) {
            Ok(piece) => pieces.push(piece)?,
            Err(fault) => return Err(fault),
        }
        rest = behind;
    }
    Ok(pieces)
}
