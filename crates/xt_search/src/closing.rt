//! What a search that came to its end has found.
ghost use Rattle.std.specs.Prelude.{◌≡◌, true, ◌↔◌};
ghost use Rattle.xt_search.specs.Graphs.{HasAll, IsGraph, IsWhole};

use crate::graph::Graph;
use crate::machine::Machine;

/// Whether the search came to its end: then the world after each order is kept.
pub fn has_all<M: Machine>(machine: &M, graph: &Graph<M::World>) -> bool
    requires { IsGraph (M.Leads machine.now) graph.now }
    ensures whole { (result ≡ true) ↔ IsWhole graph.now }
    ensures all { result ≡ true → HasAll (M.Leads machine.now) graph.now }
{
    graph.nexts.len() == graph.kept.len()
}
