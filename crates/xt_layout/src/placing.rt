ghost use Rattle.std.specs.Prelude.{◌≡◌, ◌++◌, ◌||◌, ◌<◌, ◌^◌, [], ◌∷◌, OnOk, IfOk, not, if◌then◌else◌, length};
ghost use Rattle.xt_lex.specs.declared.expr.Expr.{Expr};
ghost use Rattle.xt_layout.specs.Pools.{same_terms, words_of};
ghost use Rattle.xt_layout.specs.Seen.{has, is_there, need_of, word, Notes, words_of_line, pool_after_line, seen_after};

use crate::need::{Need, is_position, is_segment, need_of};
use crate::pool_fault::fault_of;
use crate::pooled::Pooled;
use crate::word::PoolWord;
use std::alloc::{AllocError, Global};
use std::collections::BTreeSet;
use xt_lex::Term;
use xt_parse::{Line, Lines};

/// Notes an expression, and answers whether it is new.
fn note<'a>(seen: &mut BTreeSet<&'a [Term]>, terms: &'a [Term]) -> Result<bool, AllocError>
    ensures new { IfOk result (λ new. new ≡ not (has seen.old terms.now)) }
    ensures notes { OnOk result ((q : Expr) → has seen.new q ≡ (has seen.old q || same_terms terms.now q)) }
{
    Ok(seen.insert(terms)?)
}

/// The word of a line, where the pool does not have it.
fn put<'a>(
    words: &mut Vec<PoolWord>,
    seen: &mut BTreeSet<&'a [Term]>,
    position: u32,
    line: u32,
    need: Need<'a>,
) -> Result<(), AllocError>
    ensures ok { OnOk result (words.new.items ≡ words.old.items
        ++ (if is_there (has seen.old) (word position line (need_of need.entry)) then [] else word position line (need_of need.entry) ∷ [])) }
    ensures notes { OnOk result (Notes seen.old (word position line (need_of need.entry)) seen.new) }
{
    let is_new = match need.name {
        Some(_) => true,
        None => note(seen, need.value.as_slice())?,
    };
    if is_new {
        let name = match need.name {
            Some(name) => Some(name.clone()?),
            None => None,
        };
        let value = need.value.clone()?;
        words.push(PoolWord {
            position,
            line,
            name,
            value,
        })?;
    }
    Ok(())
}

/// Puts the word of a line, at this place among the lines, into the pool that is open, and answers the position of the pool
/// that is open after it.
fn advance<'a>(
    alloc: Global,
    words: &mut Vec<PoolWord>,
    seen: &mut BTreeSet<&'a [Term]>,
    current: Option<u32>,
    place: u32,
    line: &'a Line,
) -> Result<Option<u32>, AllocError>
    ensures words { OnOk result (words.new.items ≡ words.old.items ++ words_of_line current (has seen.old) place line.now) }
    ensures now { IfOk result (λ now. now ≡ pool_after_line current place line.now) }
    ensures seen { OnOk result ((q : Expr) → has seen.new q ≡ seen_after current (has seen.old) line.now q) }
{
    if is_position(&line.statement) {
        *seen = BTreeSet::new(alloc);
        return Ok(Some(place));
    }
    if is_segment(&line.statement) {
        return Ok(None);
    }
    if let Some(position) = current
        && let Some(need) = need_of(&line.statement)
    {
        put(words, seen, position, place, need)?;
    }
    Ok(current)
}

/// The words of all pools.
fn words_of_lines(alloc: Global, lines: &[Line]) -> Result<Vec<PoolWord>, AllocError>
    requires { length lines.now < 2 ^ 32 }
    ensures { IfOk result (λ words. words.items ≡ words_of lines.now) }
{
    let mut words = Vec::new(alloc);
    let mut seen = BTreeSet::new(alloc);
    let mut current = None;
    for (k, line) in lines.iter().enumerate() {
        current = advance(alloc, &mut words, &mut seen, current, k as u32, line)?;
    }
    Ok(words)
}

/// The lines with their literal pools.
///
/// A pool stands at each `.literal_position` and holds what the lines after it need, up to the next position or the end of
/// the segment, in the order of the lines that first need a word. A `.literal` has a word of its own; uses whose expressions
/// are the same list of terms share one.
///
/// Condition: the lines are those of a text within the limit, so they are fewer than 2^32.
pub fn place(alloc: Global, l: Lines) -> Result<Pooled, AllocError>
    requires { length l < 2 ^ 32 }
    ensures { IfOk result (λ pooled. pooled ≡ l) }
{
    let words = words_of_lines(alloc, l.as_slice())?;
    let fault = fault_of(l.as_slice());
    Ok(Pooled::new(l, words, fault))
}
