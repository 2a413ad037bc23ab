//! From which kept worlds an end can be reached.
ghost use Rattle.std.specs.Prelude.{◌≡◌, ℕ, ◌<◌, ◌≤◌, true, false, Some, IfOk, length, slice_get, slice_set};
ghost use Rattle.xt_search.specs.Graphs.{IsGraph, IsWhole};
ghost use Rattle.xt_search.specs.Ends.{AreMarks, AreSound, IsSettled, unmarked_count};

use crate::graph::Graph;
use crate::machine::Machine;
use std::alloc::{AllocError, Global};

// Whether a world is unmarked though it is an end, or a next world of it is marked.
fn is_open<M: Machine>(machine: &M, graph: &Graph<M::World>, marks: &[bool], at: usize) -> bool
    requires at { at < length graph.now.kept.items }
    requires whole { IsWhole graph.now }
    requires graph { IsGraph (M.Leads machine.now) graph.now }
    requires sound { AreSound (M.Leads machine.now) (M.ends machine.now) graph.now marks.now }
    ensures open { result ≡ true → slice_get marks.now at ≡ Some false }
    ensures settled { result ≡ false → IsSettled (M.ends machine.now) graph.now marks.now at }
    ensures sound { result ≡ true → AreSound (M.Leads machine.now) (M.ends machine.now) graph.now (slice_set marks.now at true) }
{
    if marks[at] {
        return false;
    }
    if machine.is_end(&graph.kept[at].world) {
        return true;
    }
    let nexts = graph.nexts[at];
    marks[nexts.by0 as usize] || marks[nexts.by1 as usize]
}

// Marks more worlds, the last ones first, and answers whether it did.
fn mark_more<M: Machine>(machine: &M, graph: &Graph<M::World>, marks: &mut [bool]) -> bool
    requires whole { IsWhole graph.now }
    requires graph { IsGraph (M.Leads machine.now) graph.now }
    requires sound { AreSound (M.Leads machine.now) (M.ends machine.now) graph.now marks.old }
    ensures sound { AreSound (M.Leads machine.now) (M.ends machine.now) graph.now marks.new }
    ensures more { unmarked_count marks.new ≤ unmarked_count marks.old }
    ensures fewer { result ≡ true → unmarked_count marks.new < unmarked_count marks.old }
    ensures settled { result ≡ false → (k : ℕ) → k < length graph.now.kept.items → IsSettled (M.ends machine.now) graph.now marks.new k }
{
    let mut changed = false;
    let mut at = graph.kept.len();
    while at > 0 {
        at -= 1;
        if is_open(machine, graph, marks, at) {
            marks[at] = true;
            changed = true;
        }
    }
    changed
}

/// Of each kept world whether some order leads from it to an end. The only error is running out of
/// memory.
///
/// Condition: the search came to its end.
pub fn marks_of<M: Machine>(
    alloc: Global,
    machine: &M,
    graph: &Graph<M::World>,
) -> Result<Vec<bool>, AllocError>
    requires whole { IsWhole graph.now }
    requires graph { IsGraph (M.Leads machine.now) graph.now }
    ensures { IfOk result (λ v. AreMarks (M.Leads machine.now) (M.ends machine.now) graph.now v.items) }
{
    let mut marks = vec![in alloc; false; graph.kept.len()]?;
    let mut changed = true;
    while changed {
        changed = mark_more(machine, graph, marks.as_mut_slice());
    }
    Ok(marks)
}
