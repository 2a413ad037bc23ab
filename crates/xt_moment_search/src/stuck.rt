//! Orders with moments that no order continues to an end.
ghost use Rattle.std.specs.Prelude.{◌≡◌, ◌<◌, ℕ, Some, true, false, IfOk, IfSome, IfNone, length, slice_get};
ghost use Rattle.xt_search.specs.Ends.{IsSettled};
ghost use Rattle.xt_search.specs.Graphs.{IsAt, IsGraph, IsWhole};
ghost use Rattle.xt_moment_search.specs.Covering.{LedIn};
ghost use Rattle.xt_moment_search.specs.Stuckness.{IsStuckAnswer, IsUnmarked, has_ended};
ghost use Rattle.xt_moment_search.specs.Told.{is_known};
ghost use Rattle.xt_moment_search.specs.declared.worlds.World.{World};

use crate::confirming::order_of;
use crate::machine::Moments;
use crate::worlds::World;
use std::alloc::AllocError;
use xt_moments::Move;
use xt_search::{Graph, has_all, marks_of};

/// What is known of orders that no order continues to an end.
#[derive(Drop)]
pub enum Stuck {
    /// There is none.
    Never,
    /// This one.
    Order(Vec<Move>),
    /// Nothing.
    Unknown,
}

impl Stuck {
    /// Whether it is known if there is one.
    pub fn is_known(&self) -> bool
        ensures { result ≡ is_known self.now }
    {
        match self {
            Stuck::Never => true,
            Stuck::Order(_) => true,
            Stuck::Unknown => false,
        }
    }
}

// Whether this world is marked, or is no end and leads to no marked one.
fn is_settled(graph: &Graph<World>, marks: &[bool], at: usize) -> bool
    requires at { at < length graph.now.kept.items }
    requires whole { IsWhole graph.now }
    requires marks { length marks.now ≡ length graph.now.kept.items }
    ensures { result ≡ true → IsSettled has_ended graph.now marks.now at }
{
    if marks[at] {
        return true;
    }
    if graph.kept[at].world.has_ended() {
        return false;
    }
    let nexts = graph.nexts[at];
    is_unmarked(marks, nexts.by0) && is_unmarked(marks, nexts.by1)
}

// Whether there is a mark under this number, and it is false.
fn is_unmarked(marks: &[bool], at: u32) -> bool
    ensures { result ≡ true → slice_get marks.now at ≡ Some false }
{
    match marks.get(at as usize) {
        Some(marked) => !*marked,
        None => false,
    }
}

// Whether each world is settled.
fn are_settled(graph: &Graph<World>, marks: &[bool]) -> bool
    requires whole { IsWhole graph.now }
    requires marks { length marks.now ≡ length graph.now.kept.items }
    ensures { result ≡ true → (k : ℕ) → k < length graph.now.kept.items → IsSettled has_ended graph.now marks.now k }
{
    for at in 0..graph.kept.len() {
        if !is_settled(graph, marks, at) {
            return false;
        }
    }
    true
}

// The first world that is not marked, and of whose moves none is passed over.
fn first_unmarked(graph: &Graph<World>, marks: &[bool]) -> Option<usize>
    requires { length marks.now ≡ length graph.now.kept.items }
    ensures some { IfSome result (IsUnmarked graph.now marks.now) }
    ensures none { IfNone result ((k : ℕ) (v : World) → IsAt graph.now.kept.items k v → v.passed ≡ 0 → slice_get marks.now k ≡ Some true) }
{
    for at in 0..marks.len() {
        if !marks[at] && graph.kept[at].world.passed == 0 {
            return Some(at);
        }
    }
    None
}

// An order that no order continues to an end, if there is one, where the search came to its end. The
// only error is running out of memory.
fn stuck_in(machine: &Moments, graph: &Graph<World>) -> Result<Stuck, AllocError>
    requires graph { IsGraph (LedIn machine.now.ground) graph.now }
    requires whole { IsWhole graph.now }
    ensures { IfOk result (IsStuckAnswer machine.now.ground graph.now) }
{
    let marks = marks_of(machine.alloc, machine, graph)?;
    if !are_settled(graph, marks.as_slice()) {
        return Ok(Stuck::Unknown);
    }
    let Some(number) = first_unmarked(graph, marks.as_slice()) else {
        return Ok(Stuck::Never);
    };
    let found = order_of(machine, graph, number)?;
    let Some(order) = found else {
        return Ok(Stuck::Unknown);
    };
    Ok(Stuck::Order(order))
}

/// An order that no order continues to an end, if there is one. The only error is running out of
/// memory.
pub fn stuck_of(machine: &Moments, graph: &Graph<World>) -> Result<Stuck, AllocError>
    requires { IsGraph (LedIn machine.now.ground) graph.now }
    ensures { IfOk result (IsStuckAnswer machine.now.ground graph.now) }
{
    if has_all(machine, graph) {
        return stuck_in(machine, graph);
    }
    Ok(Stuck::Unknown)
}
