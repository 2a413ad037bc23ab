ghost use Rattle.std.specs.Prelude.{◌≡◌, ◌++◌, [], length, IfOk, OnOk, All, if◌then◌else◌, ◌+◌, ◌-◌, ◌^◌, ◌≤◌};
ghost use Rattle.xt_layout.specs.Pools.{is_segment};
ghost use Rattle.xt_layout.specs.Bounds.{ArePools, IsBelow, IsText, IsWalk, closed_span};
ghost use Rattle.xt_layout.specs.Spans.{padded_span};

use crate::PoolWord;
use crate::size::padding;
use crate::spot::{Span, Spot, begins, passes};
use std::alloc::{AllocError, Global};
use xt_parse::{Line, Statement};

/// Where the lines of a text stand, and its segments.
pub(crate) struct Walk {
    /// Where each line stands, and none without a segment.
    pub(crate) spots: Vec<Option<Spot>>,
    /// The segments.
    pub(crate) spans: Vec<Span>,
}

// A `drop` of its own is one call at each place where a value is dropped.
impl Drop for Walk {
    fn drop(self) {
        let Walk { spots: _, spans: _ } = self;
    }
}

/// The bytes of a segment, padded to a multiple of 4.
fn padded_span(spot: Spot) -> Span
    requires { spot.at ≤ 2 ^ 62 }
    ensures { result ≡ padded_span spot.start spot.at }
{
    Span {
        start: spot.start,
        end: spot.at + padding(4, spot.at.saturating_sub(spot.start)),
    }
}

/// Adds the segment that ends here, if any.
fn close(spans: &mut Vec<Span>, here: Option<Spot>) -> Result<(), AllocError>
    requires { IsBelow (2 ^ 62) here }
    ensures { OnOk result (spans.new.items ≡ spans.old.items ++ closed_span here) }
{
    if let Some(spot) = here {
        spans.push(padded_span(spot))?;
    }
    Ok(())
}

/// Adds the segment that ends before a statement, if any.
fn close_before(
    spans: &mut Vec<Span>,
    here: Option<Spot>,
    statement: &Statement,
) -> Result<(), AllocError>
    requires { IsBelow (2 ^ 62) here }
    ensures { OnOk result (spans.new.items ≡ spans.old.items ++ (if is_segment statement.now then closed_span here else [])) }
{
    if let Statement::Seg(_) = statement {
        close(spans, here)?;
    }
    Ok(())
}

/// Adds where each line stands, and the segments, to none.
fn walk_lines(
    spots: &mut Vec<Option<Spot>>,
    spans: &mut Vec<Span>,
    lines: &[Line],
    words: &[PoolWord],
    pools: &[u64],
) -> Result<(), AllocError>
    requires text { IsText lines.now words.now }
    requires pools { ArePools words.now (length lines.now) pools.now }
    requires no_spots { spots.old.items ≡ [] }
    requires no_spans { spans.old.items ≡ [] }
    ensures { OnOk result (IsWalk lines.now words.now spots.new.items spans.new.items) }
{
    let mut here = None;
    for (k, line) in lines.iter().enumerate() {
        close_before(spans, here, &line.statement)?;
        spots.push(begins(here, &line.statement))?;
        here = passes(pools[k], here, &line.statement);
    }
    close(spans, here)?;
    Ok(())
}

/// Where the lines stand, and the segments.
pub(crate) fn walk_of(
    alloc: Global,
    lines: &[Line],
    words: &[PoolWord],
    pools: &[u64],
) -> Result<Walk, AllocError>
    requires text { IsText lines.now words.now }
    requires pools { ArePools words.now (length lines.now) pools.now }
    ensures { IfOk result (λ walk. IsWalk lines.now words.now walk.spots.items walk.spans.items) }
{
    let mut spots = Vec::new(alloc);
    let mut spans = Vec::new(alloc);
    walk_lines(&mut spots, &mut spans, lines, words, pools)?;
    Ok(Walk { spots, spans })
}
