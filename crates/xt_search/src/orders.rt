//! How a kept world was found.
ghost use Rattle.std.specs.Prelude.{◌≡◌, ◌<◌, IfOk, length};
ghost use Rattle.xt_search.specs.Graphs.{IsGraph, LeadsTo};
ghost use Rattle.xt_search.specs.Worlds.{IsOrder};

use crate::graph::Graph;
use crate::machine::Machine;
use std::alloc::{AllocError, Global};

/// The order by which the world with this number was found. The only error is running out of memory.
pub fn order_to<M: Machine>(
    alloc: Global,
    machine: &M,
    graph: &Graph<M::World>,
    number: usize,
) -> Result<Vec<u8>, AllocError>
    requires graph { IsGraph (M.Leads machine.now) graph.now }
    requires number { number < length graph.now.kept.items }
    ensures order { IfOk result (λ v. IsOrder v.items) }
    ensures leads { IfOk result (λ v. LeadsTo (M.Leads machine.now) graph.now v.items number) }
{
    let mut cores = Vec::new(alloc);
    let mut at = number;
    while at > 0 {
        let kept = &graph.kept[at];
        cores.push(kept.core)?;
        at = kept.from as usize;
    }
    cores.reverse();
    Ok(cores)
}
