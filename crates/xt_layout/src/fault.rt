ghost use Rattle.std.specs.Prelude.{◌≡◌, ℕ, ◌+◌, ◌*◌, ◌^◌, ◌<◌, ◌≤◌, ◌||◌, ◌&&◌, not, length, OnOk, IfOk, All, [], ◌∷◌, take, slice_get, false, if◌then◌else◌};
ghost use Rattle.std.specs.Option.{option_copied, option_map_or};
ghost use Rattle.std.specs.List.{list_any};
ghost use Rattle.std.specs.Str.{bytes_eq};
ghost use Rattle.xt_lex.specs.declared.name.Name.{Name};
ghost use Rattle.xt_parse.specs.declared.line.Placed.{Placed};
ghost use Rattle.xt_layout.specs.Findings.{at_statement, fails, or_else, first};
ghost use Rattle.xt_layout.specs.Pools.{is_segment};
ghost use Rattle.xt_layout.specs.Addresses.{label_name, literal_name};
ghost use Rattle.xt_layout.specs.Bounds.{ArePools, IsBelow, IsText, IsWalk};
ghost use Rattle.xt_layout.specs.Faults.{again, bytes_at, is_empty, is_entry, is_last, is_misaligned, is_outside, is_too_many, leaves, layout_fault, names_at, overlaps, twice, wanted_multiple};
ghost use Rattle.xt_layout.specs.Known.{has_name};
ghost use Rattle.xt_layout.specs.Sizes.{items};
ghost use Rattle.xt_layout.specs.Spans.{meet};

use crate::PoolWord;
use crate::need::literal_name;
use crate::region::is_in_place;
use crate::size::{padding, size};
use crate::spot::{Span, Spot, address};
use crate::spots::Walk;
use std::alloc::{AllocError, Global};
use std::collections::BTreeSet;
use xt_lex::{AsmPlace, Name};
use xt_parse::{Line, Placed, Statement};

/// A fault of a line's statement.
fn at_statement(line: &Line, kind: u8) -> AsmPlace
    ensures { result ≡ at_statement line.now kind }
{
    AsmPlace {
        line: line.number,
        column: line.column,
        kind,
    }
}

/// The first of two findings.
fn or_else(one: Option<AsmPlace>, other: Option<AsmPlace>) -> Option<AsmPlace>
    ensures { result ≡ or_else one other }
{
    match one {
        Some(place) => Some(place),
        None => other,
    }
}

// ---- Twice

/// Whether the set has a name.
fn has_name(names: &BTreeSet<&[u8]>, name: &Name) -> bool
    ensures { result ≡ has_name names.now name.now }
{
    names.contains(name.as_slice())
}

/// A name of a line, if it defines one, that an earlier line defines.
fn again(names: &BTreeSet<&[u8]>, line: &Line, name: Option<&Placed>) -> Option<AsmPlace>
    ensures { result ≡ again (has_name names.now) line.now (label_name (option_copied name.entry)) }
{
    match name {
        Some(placed) if has_name(names, &placed.name) => Some(AsmPlace {
            line: line.number,
            column: placed.column,
            kind: 4,
        }),
        _ => None,
    }
}

/// Whether a statement is an `.entry`.
fn is_entry(statement: &Statement) -> bool
    ensures { result ≡ is_entry statement.now }
{
    matches!(statement, Statement::Entry(_))
}

/// A second `.entry`.
fn entry_again(has_entry: bool, line: &Line) -> Option<AsmPlace>
    ensures { result ≡ fails (is_entry line.now.statement && has_entry) (at_statement line.now 4) }
{
    if is_entry(&line.statement) && has_entry {
        Some(at_statement(line, 4))
    } else {
        None
    }
}

/// A name that an earlier line defines, the label first, else a second `.entry` (kind 4).
fn twice(names: &BTreeSet<&[u8]>, has_entry: bool, line: &Line) -> Option<AsmPlace>
    ensures { result ≡ twice (has_name names.now) has_entry line.now }
{
    or_else(
        again(names, line, line.label.as_ref()),
        or_else(
            again(names, line, literal_name(&line.statement)),
            entry_again(has_entry, line),
        ),
    )
}

// ---- the other kinds

/// A seventeenth segment (kind 2).
fn too_many(segments: usize, line: &Line) -> Option<AsmPlace>
    ensures { result ≡ is_too_many segments line.now }
{
    match line.statement {
        Statement::Seg(_) if segments >= 16 => Some(at_statement(line, 2)),
        _ => None,
    }
}

/// The number of which a statement's address has to be a multiple.
fn wanted_multiple(statement: &Statement) -> u64
    ensures multiple { result ≡ wanted_multiple statement.now }
    ensures some { 0 < result }
{
    match statement {
        Statement::Seg(_) | Statement::Words(_) => 4,
        Statement::Shorts(_) => 2,
        _ => 1,
    }
}

/// A `.seg`, `.word` or `.short` at an address that is no multiple of the number that it wants (kind 5).
fn misaligned(here: Option<Spot>, line: &Line) -> Option<AsmPlace>
    ensures { result ≡ is_misaligned here line.now }
{
    if address(here) % wanted_multiple(&line.statement) != 0 {
        Some(at_statement(line, 5))
    } else {
        None
    }
}

/// Whether no statement follows in the segment.
fn is_last(rest: &[Line]) -> bool
    ensures { result ≡ is_last rest.now }
{
    for line in rest {
        match line.statement {
            Statement::Seg(_) => return true,
            Statement::Empty => {}
            _ => return false,
        }
    }
    true
}

/// Whether a line has a statement, and none follows in the segment. Only a statement looks ahead, so that the time stays linear.
fn ends_segment(line: &Line, rest: &[Line]) -> bool
    ensures { result ≡ (not (is_empty line.now.statement) && is_last rest.now) }
{
    !matches!(line.statement, Statement::Empty) && is_last(rest)
}

/// The bytes of a statement; the zeros that pad the segment count to its last statement.
fn bytes_at(pool: u64, spot: Spot, statement: &Statement, last: bool) -> Span
    requires pool { pool < 2 ^ 32 }
    requires items { items statement.now < 2 ^ 32 }
    requires below { spot.at ≤ 2 ^ 34 }
    ensures { result ≡ bytes_at pool spot statement.now last }
{
    let end = spot.at + size(pool, spot.at, statement);
    let pads = !matches!(statement, Statement::Empty) && last;
    Span {
        start: spot.at,
        end: if pads {
            end + padding(4, end.saturating_sub(spot.start))
        } else {
            end
        },
    }
}

/// Bytes outside the region of the segment's start (kind 6).
fn outside(pool: u64, here: Option<Spot>, line: &Line, last: bool) -> Option<AsmPlace>
    requires pool { pool < 2 ^ 32 }
    requires items { items line.now.statement < 2 ^ 32 }
    requires below { IsBelow (2 ^ 34) here }
    ensures { result ≡ is_outside pool here line.now last }
{
    let spot = here?;
    let bytes = bytes_at(pool, spot, &line.statement, last);
    if bytes.start < bytes.end && !is_in_place(spot.start, bytes) {
        Some(at_statement(line, 6))
    } else {
        None
    }
}

/// Whether two ranges share an address.
fn meet(one: Span, other: Span) -> bool
    ensures { result ≡ meet one other }
{
    (one.start < one.end && other.start < other.end)
        && (one.start < other.end && other.start < one.end)
}

/// Whether a range shares an address with one of some others.
fn meets_any(own: Span, others: &[Span]) -> bool
    ensures { result ≡ list_any (meet own) others.now }
{
    for other in others {
        if meet(own, *other) {
            return true;
        }
    }
    false
}

/// Whether the segment after n others shares an address with one of them.
fn meets_earlier(spans: &[Span], n: usize) -> bool
    ensures { result ≡ option_map_or (λ own. list_any (meet own) (take n spans.now)) (slice_get spans.now n) false }
{
    if n < spans.len() {
        meets_any(spans[n], &spans[..n])
    } else {
        false
    }
}

/// A segment that shares an address with one of the n before it (kind 7).
fn overlap(spans: &[Span], n: usize, line: &Line) -> Option<AsmPlace>
    ensures { result ≡ overlaps spans.now n line.now }
{
    match line.statement {
        Statement::Seg(_) if meets_earlier(spans, n) => Some(at_statement(line, 7)),
        _ => None,
    }
}

// ---- the first fault

/// What the lines so far define.
#[derive(Drop)]
struct Before<'a> {
    /// The labels and literal names.
    names: BTreeSet<&'a [u8]>,
    /// Whether there is an `.entry`.
    has_entry: bool,
    /// How many segments there are.
    segments: usize,
}

/// The first fault of a line, in the order of the kinds.
fn line_fault(
    before: &Before<'_>,
    spans: &[Span],
    pool: u64,
    here: Option<Spot>,
    line: &Line,
    last: bool,
) -> Option<AsmPlace>
    requires pool { pool < 2 ^ 32 }
    requires items { items line.now.statement < 2 ^ 32 }
    requires below { IsBelow (2 ^ 34) here }
    ensures { result ≡ first (twice (has_name before.now.names) before.now.has_entry line.now ∷ is_too_many before.now.segments line.now
        ∷ is_misaligned here line.now ∷ is_outside pool here line.now last ∷ overlaps spans.now before.now.segments line.now ∷ []) }
{
    or_else(
        twice(&before.names, before.has_entry, line),
        or_else(
            too_many(before.segments, line),
            or_else(
                misaligned(here, line),
                or_else(
                    outside(pool, here, line, last),
                    overlap(spans, before.segments, line),
                ),
            ),
        ),
    )
}

/// One name more.
fn note_name<'a>(names: &mut BTreeSet<&'a [u8]>, placed: &'a Placed) -> Result<(), AllocError>
    ensures { OnOk result ((q : Name) → has_name names.new q ≡ (has_name names.old q || list_any (λ (p : Placed). bytes_eq p.name q) (placed.now ∷ []))) }
{
    names.insert(placed.name.as_slice())?;
    Ok(())
}

/// A name more, if there is one.
fn note_if_any<'a>(
    names: &mut BTreeSet<&'a [u8]>,
    name: Option<&'a Placed>,
) -> Result<(), AllocError>
    ensures { OnOk result ((q : Name) → has_name names.new q ≡ (has_name names.old q || list_any (λ (p : Placed). bytes_eq p.name q) (label_name (option_copied name.entry)))) }
{
    match name {
        Some(placed) => note_name(names, placed),
        None => Ok(()),
    }
}

/// One line more.
fn note<'a>(before: &mut Before<'a>, line: &'a Line) -> Result<(), AllocError>
    requires { before.old.segments < 2 ^ 32 }
    ensures names { OnOk result ((q : Name) → has_name before.new.names q
        ≡ ((has_name before.old.names q || list_any (λ (p : Placed). bytes_eq p.name q) (label_name line.now.label)) || list_any (λ (p : Placed). bytes_eq p.name q) (literal_name line.now.statement))) }
    ensures entry { OnOk result (before.new.has_entry ≡ (before.old.has_entry || is_entry line.now.statement)) }
    ensures segments { OnOk result (before.new.segments ≡ before.old.segments + (if is_segment line.now.statement then 1 else 0)) }
{
    note_if_any(&mut before.names, line.label.as_ref())?;
    note_if_any(&mut before.names, literal_name(&line.statement))?;
    before.has_entry = before.has_entry || is_entry(&line.statement);
    before.segments = match line.statement {
        Statement::Seg(_) => before.segments + 1,
        _ => before.segments,
    };
    Ok(())
}

/// The first fault of lines before which nothing is defined.
fn first_fault<'a>(
    before: &mut Before<'a>,
    lines: &'a [Line],
    words: &[PoolWord],
    pools: &[u64],
    walk: &Walk,
) -> Result<Option<AsmPlace>, AllocError>
    requires text { IsText lines.now words.now }
    requires pools { ArePools words.now (length lines.now) pools.now }
    requires walk { IsWalk lines.now words.now walk.now.spots.items walk.now.spans.items }
    requires no_names { (q : Name) → has_name before.old.names q ≡ false }
    requires no_entry { before.old.has_entry ≡ false }
    requires no_segments { before.old.segments ≡ 0 }
    ensures { IfOk result (λ fault. fault ≡ layout_fault lines.now) }
{
    let spots = walk.spots.as_slice();
    let spans = walk.spans.as_slice();
    for (k, line) in lines.iter().enumerate() {
        let last = ends_segment(line, &lines[k + 1..]);
        if let Some(place) = line_fault(&*before, spans, pools[k], spots[k], line, last) {
            return Ok(Some(place));
        }
        note(before, line)?;
    }
    Ok(None)
}

/// The first fault that the layout shows.
pub(crate) fn fault_of(
    alloc: Global,
    lines: &[Line],
    words: &[PoolWord],
    pools: &[u64],
    walk: &Walk,
) -> Result<Option<AsmPlace>, AllocError>
    requires text { IsText lines.now words.now }
    requires pools { ArePools words.now (length lines.now) pools.now }
    requires walk { IsWalk lines.now words.now walk.now.spots.items walk.now.spans.items }
    ensures { IfOk result (λ fault. fault ≡ layout_fault lines.now) }
{
    let mut before = Before {
        names: BTreeSet::new(alloc),
        has_entry: false,
        segments: 0,
    };
    first_fault(&mut before, lines, words, pools, walk)
}
