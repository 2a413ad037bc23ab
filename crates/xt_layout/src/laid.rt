ghost use Rattle.std.specs.Prelude.{◌≡◌, ◌<◌, ◌^◌, All, IfOk, length};
ghost use Rattle.xt_lex.specs.Values.{HaveAddresses};
ghost use Rattle.xt_layout.specs.Addresses.{labels_of, line_addresses, word_addresses};
ghost use Rattle.xt_layout.specs.Around.{each};
ghost use Rattle.xt_layout.specs.Bounds.{ArePools, IsBelow, IsText, IsWalk};
ghost use Rattle.xt_layout.specs.Faults.{HasAddresses, layout_of};
ghost use Rattle.xt_layout.specs.Pools.{words_of};
ghost use Rattle.xt_layout.specs.Sizes.{IsSmall};
ghost use Rattle.xt_layout.specs.Spots.{spot_at};

use crate::addresses::{homes_of, line_addresses, signed_all, word_addresses};
use crate::counts::pool_sizes;
use crate::fault::fault_of;
use crate::labels::labels_of;
use crate::spot::Spot;
use crate::spots::{Walk, walk_of};
use crate::{PoolWord, Pooled};
use std::alloc::{AllocError, Global};
use std::marker::Model;
use xt_lex::{AsmPlace, Labels};
use xt_parse::Line;

/// The addresses and labels of a text, and the first fault that they show. Contracts see a record of the four.
pub struct Laid {
    lines: Vec<i64>,
    words: Vec<i64>,
    labels: Labels,
    fault: Option<AsmPlace>,
}

// A `drop` of its own is one call at each place where a value is dropped, also in other crates.
impl Drop for Laid {
    fn drop(self) {
        let Laid {
            lines: _,
            words: _,
            labels: _,
            fault: _,
        } = self;
    }
}

impl Model for Laid {
    ghost use Rattle.xt_layout.specs.Faults.{Layout};

    ghost Value = { Layout };

    ghost view = { λ l. record { lines = l.lines.items; words = l.words.items; labels = l.labels; fault = l.fault } };
}

impl Laid {
    /// The address of each line: its segment's start plus the bytes of all statements, pools and zeros before it, and 0
    /// without a segment.
    pub fn lines(&self) -> &[i64]
        ensures { result.now ≡ self.now.lines }
    {
        &self.lines
    }

    /// The address of each pool word.
    pub fn words(&self) -> &[i64]
        ensures { result.now ≡ self.now.words }
    {
        &self.words
    }

    /// The labels and literal names in the order of their definitions. Of two with one name the first counts.
    pub fn labels(&self) -> &Labels
        ensures { result.now ≡ self.now.labels }
    {
        &self.labels
    }

    /// The first fault among a seventeenth segment (kind 2), a name or an `.entry` that was there before (kind 4), a `.seg` or
    /// `.word` at no multiple of 4 or a `.short` at no multiple of 2 (kind 5), bytes outside their region (kind 6) and segments
    /// that share an address (kind 7);
    /// of one line the first in the order 4, 2, 5, 6, 7. None exactly where there is none.
    pub fn fault(&self) -> Option<AsmPlace>
        ensures { result ≡ self.now.fault }
    {
        self.fault
    }
}

/// The labels of lines that stand at these places, with the addresses of the pool words.
fn all_labels(
    alloc: Global,
    lines: &[Line],
    words: &[PoolWord],
    spots: &[Option<Spot>],
    of_words: &[u64],
) -> Result<Labels, AllocError>
    requires words { words.now ≡ words_of lines.now }
    requires spots { spots.now ≡ each (λ before l rest. spot_at words.now before l) lines.now }
    requires below { All (IsBelow (2 ^ 34)) spots.now }
    requires same { length of_words.now ≡ length words.now }
    requires of_words { of_words.now ≡ word_addresses lines.now }
    requires small { All (λ a. a < 2 ^ 40) of_words.now }
    ensures labels { IfOk result (λ labels. labels ≡ labels_of lines.now) }
    ensures fit { IfOk result (λ labels. HaveAddresses labels) }
{
    let homes = homes_of(alloc, words, of_words, lines.len())?;
    let labels = labels_of(alloc, lines, words, spots, of_words, homes.as_slice())?;
    let made = Labels::make(alloc, labels)?;
    Ok(made)
}

/// The layout of lines, with these addresses of the lines and of the pool words.
fn laid_at(
    alloc: Global,
    lines: &[Line],
    words: &[PoolWord],
    pools: &[u64],
    walk: &Walk,
    addresses: &[u64],
    of_words: &[u64],
) -> Result<Laid, AllocError>
    requires text { IsText lines.now words.now }
    requires pools { ArePools words.now (length lines.now) pools.now }
    requires walk { IsWalk lines.now words.now walk.now.spots.items walk.now.spans.items }
    requires addresses { addresses.now ≡ line_addresses lines.now }
    requires fit { All (λ a. a < 2 ^ 40) addresses.now }
    requires same { length of_words.now ≡ length words.now }
    requires of_words { of_words.now ≡ word_addresses lines.now }
    requires small { All (λ a. a < 2 ^ 40) of_words.now }
    ensures layout { IfOk result (λ laid. laid ≡ layout_of lines.now) }
    ensures fit { IfOk result HasAddresses }
{
    let fault = fault_of(alloc, lines, words, pools, walk)?;
    Ok(Laid {
        lines: signed_all(alloc, addresses)?,
        words: signed_all(alloc, of_words)?,
        labels: all_labels(alloc, lines, words, walk.spots.as_slice(), of_words)?,
        fault,
    })
}

/// The layout of lines, with how many words each pool has, and where the lines stand.
fn laid_on(
    alloc: Global,
    lines: &[Line],
    words: &[PoolWord],
    pools: &[u64],
    walk: &Walk,
) -> Result<Laid, AllocError>
    requires text { IsText lines.now words.now }
    requires pools { ArePools words.now (length lines.now) pools.now }
    requires walk { IsWalk lines.now words.now walk.now.spots.items walk.now.spans.items }
    ensures layout { IfOk result (λ laid. laid ≡ layout_of lines.now) }
    ensures fit { IfOk result HasAddresses }
{
    let addresses = line_addresses(alloc, walk.spots.as_slice())?;
    let of_words = word_addresses(alloc, words, addresses.as_slice())?;
    laid_at(
        alloc,
        lines,
        words,
        pools,
        walk,
        addresses.as_slice(),
        of_words.as_slice(),
    )
}

/// The layout of lines, with the words of their pools.
fn laid_of(alloc: Global, lines: &[Line], words: &[PoolWord]) -> Result<Laid, AllocError>
    requires { IsText lines.now words.now }
    ensures layout { IfOk result (λ laid. laid ≡ layout_of lines.now) }
    ensures fit { IfOk result HasAddresses }
{
    let pools = pool_sizes(alloc, words, lines.len())?;
    let walk = walk_of(alloc, lines, words, pools.as_slice())?;
    laid_on(alloc, lines, words, pools.as_slice(), &walk)
}

/// The addresses and labels of a text. Each address is 0 to 2^40 - 1.
///
/// Condition: the lines, values and bytes of the text are at most 2^21, as those of a text within the limit are.
pub fn layout(alloc: Global, p: &Pooled) -> Result<Laid, AllocError>
    requires { IsSmall p.now }
    ensures layout { IfOk result (λ laid. laid ≡ layout_of p.now) }
    ensures fit { IfOk result HasAddresses }
{
    laid_of(alloc, p.lines(), p.words())
}
