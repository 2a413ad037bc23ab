//! The words that the uses of pools refer to.
ghost use Rattle.std.specs.Prelude.{List, ℤ, ◌≡◌, ◌^◌, ◌<◌, length, slice_get, None, IfOk, OnOk};
ghost use Rattle.xt_layout.specs.declared.word.PoolWord.{PoolWord};
ghost use Rattle.xt_layout.specs.Around.{each};
ghost use Rattle.xt_asm.specs.Operands.{target_of, word_for};
ghost use Rattle.xt_asm.specs.Uses.{Indexes, pool_after, target_at};

use std::alloc::{AllocError, Global};
use std::collections::BTreeMap;
use xt_layout::{PoolWord, pool_use};
use xt_lex::Term;
use xt_parse::{Line, Statement};

/// The number of each word without a name, by the place of its pool and its terms.
type Index<'a> = BTreeMap<(u32, &'a [Term]), usize>;

/// The number of each word without a name. The words are gone through from the last to the first, and each takes the
/// place of those after it.
fn index_of(alloc: Global, words: &[PoolWord]) -> Result<Index<'_>, AllocError>
    ensures { IfOk result (λ index. (addresses : List ℤ) → length addresses ≡ length words.now → Indexes index words.now addresses) }
{
    let mut index = BTreeMap::new(alloc);
    for i in (0..words.len()).rev() {
        let word = &words[i];
        if word.name.is_none() {
            index.insert((word.position, word.value.as_slice()), i)?;
        }
    }
    Ok(index)
}

/// The address of a word.
fn address_at(addresses: &[i64], word: usize) -> Option<i64>
    ensures { result ≡ slice_get addresses.now word }
{
    addresses.get(word).copied()
}

/// The address of the word of a use of these terms in the pool at a place.
fn word_in<'a>(index: &Index<'a>, addresses: &[i64], place: u32, terms: &'a [Term]) -> Option<i64>
    ensures { (words : List PoolWord) → Indexes index.now words addresses.now → result ≡ word_for place terms.now words addresses.now }
{
    match index.get(&(place, terms)) {
        Some(word) => address_at(addresses, *word),
        None => None,
    }
}

/// The address of the word that a statement's use of the pool at a place refers to.
fn target<'a>(
    index: &Index<'a>,
    addresses: &[i64],
    position: Option<u32>,
    statement: &'a Statement,
) -> Option<i64>
    ensures { (words : List PoolWord) → Indexes index.now words addresses.now → result ≡ target_of words addresses.now position statement.now }
{
    match statement {
        Statement::Insn(_, operands) => match (pool_use(operands.as_slice()), position) {
            (Some(used), Some(place)) => word_in(index, addresses, place, used.as_slice()),
            _ => None,
        },
        _ => None,
    }
}

/// The place of the pool that is open after a statement at a place.
fn open_behind(position: Option<u32>, place: u32, statement: &Statement) -> Option<u32>
    ensures { result ≡ pool_after position place statement.now }
{
    match statement {
        Statement::Position => Some(place),
        Statement::Seg(_) => None,
        _ => position,
    }
}

/// The address of the word that each line's use of a pool refers to.
pub(crate) fn targets_of<'a>(
    alloc: Global,
    lines: &'a [Line],
    words: &'a [PoolWord],
    addresses: &[i64],
) -> Result<Vec<Option<i64>>, AllocError>
    requires few { length lines.now < 2 ^ 32 }
    requires same { length addresses.now ≡ length words.now }
    ensures { IfOk result (λ targets. targets.items ≡ each (target_at words.now addresses.now) lines.now) }
{
    let index = index_of(alloc, words)?;
    let mut targets = Vec::new(alloc);
    let mut position = None;
    for (k, line) in lines.iter().enumerate() {
        targets.push(target(&index, addresses, position, &line.statement))?;
        position = open_behind(position, k as u32, &line.statement);
    }
    Ok(targets)
}
