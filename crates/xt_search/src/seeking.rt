//! The search: it keeps each world once, and asks of each where its turns lead.
ghost use Rattle.std.specs.Prelude.{◌≡◌, ◌<◌, ◌≤◌, ◌⊎◌, None, IfOk, IfSome, IfNone, OnOk, length, max};
ghost use Rattle.xt_search.specs.Chains.{AreDistinct};
ghost use Rattle.xt_search.specs.Graphs.{IsBarredAt, IsGraph, IsWhole, OpensWith};
ghost use Rattle.xt_search.specs.Searched.{IsBegun, IsGone, IsKept, IsLed, IsSearched};

use crate::graph::{Barred, Graph, Kept, Nexts};
use crate::machine::Machine;
use crate::table::Table;
use std::alloc::{AllocError, Global};

// The number of the world to which a turn of a core leads. It is kept from now on, if it was not
// before; None: it was not, and as many worlds are kept as may be, or the search has to end before this
// turn.
fn next<M: Machine>(
    graph: &mut Graph<M::World>,
    machine: &M,
    desk: &mut M::Desk,
    from: usize,
    core: u8,
    most: u32,
) -> Result<Option<u32>, AllocError>
    requires kept { IsKept (M.Leads machine.now) (M.Same machine.now) (M.IsMark machine.now) graph.old }
    requires from { from < length graph.old.kept.items }
    requires core { core < 2 }
    requires free { graph.old.barred ≡ None }
    ensures { IfOk result (IsLed (M.Leads machine.now) (M.Same machine.now) (M.IsMark machine.now) (M.bars machine.now) graph.old graph.new from core most) }
{
    let Some(world) = machine.turned(desk, &graph.kept[from].world, core)? else {
        graph.barred = Some(Barred { from, core });
        return Ok(None);
    };
    let digest = machine.digest(&world);
    if let Some(number) = graph.table.find(machine, &graph.kept, &world, digest) {
        return Ok(Some(number));
    }
    let count = graph.kept.len();
    if count >= most as usize {
        return Ok(None);
    }
    let from = from as u32;
    graph.kept.push(Kept { world, from, core })?;
    graph.table.add(digest)?;
    Ok(Some(count as u32))
}

// Finds out where the turns lead from the first world of which this is not known. False: as many
// worlds are kept as may be, or the search has to end before one of these turns.
fn settle<M: Machine>(
    graph: &mut Graph<M::World>,
    machine: &M,
    desk: &mut M::Desk,
    most: u32,
) -> Result<bool, AllocError>
    requires kept { IsKept (M.Leads machine.now) (M.Same machine.now) (M.IsMark machine.now) graph.old }
    requires left { length graph.old.nexts.items < length graph.old.kept.items }
    requires free { graph.old.barred ≡ None }
    ensures { IfOk result (IsGone (M.Leads machine.now) (M.Same machine.now) (M.IsMark machine.now) (M.bars machine.now) graph.old graph.new most) }
{
    let from = graph.nexts.len();
    let by0 = match next(graph, machine, desk, from, 0, most)? {
        Some(number) => number,
        None => return Ok(false),
    };
    let by1 = match next(graph, machine, desk, from, 1, most)? {
        Some(number) => number,
        None => return Ok(false),
    };
    graph.nexts.push(Nexts { by0, by1 })?;
    Ok(true)
}

// A graph of one world.
fn begun<M: Machine>(
    alloc: Global,
    machine: &M,
    opening: M::World,
) -> Result<Graph<M::World>, AllocError>
    ensures { IfOk result (IsBegun (M.Leads machine.now) (M.Same machine.now) (M.IsMark machine.now) opening) }
{
    let digest = machine.digest(&opening);
    let mut kept = Vec::new(alloc);
    kept.push(Kept {
        world: opening,
        from: 0,
        core: 0,
    })?;
    let mut table = Table::new(alloc)?;
    table.add(digest)?;
    Ok(Graph {
        kept,
        nexts: Vec::new(alloc),
        table,
        barred: None,
    })
}

// Finds out where the turns lead, from one world after the other, until this is known of all, as many
// are kept as may be, or the search has to end before a turn.
fn go_on<M: Machine>(
    graph: &mut Graph<M::World>,
    machine: &M,
    desk: &mut M::Desk,
    most: u32,
) -> Result<(), AllocError>
    requires kept { IsKept (M.Leads machine.now) (M.Same machine.now) (M.IsMark machine.now) graph.old }
    requires one { length graph.old.kept.items ≡ 1 }
    requires none { length graph.old.nexts.items ≡ 0 }
    requires free { graph.old.barred ≡ None }
    ensures { OnOk result (IsSearched (M.Leads machine.now) (M.Same machine.now) (M.IsMark machine.now) (M.bars machine.now) graph.old graph.new most) }
{
    for round in 0..most {
        if graph.nexts.len() >= graph.kept.len() {
            return Ok(());
        }
        if !settle(graph, machine, desk, most)? {
            return Ok(());
        }
    }
    Ok(())
}

/// The worlds that turns lead to from the opening one, at most so many. The only error is running out
/// of memory.
pub fn search<M: Machine>(
    alloc: Global,
    machine: &M,
    desk: &mut M::Desk,
    opening: M::World,
    most: u32,
) -> Result<Graph<M::World>, AllocError>
    ensures graph { IfOk result (λ g. IsGraph (M.Leads machine.now) g) }
    // Each world is kept once.
    ensures distinct { IfOk result (λ g. AreDistinct (M.Same machine.now) g.kept.items) }
    ensures opens { IfOk result (λ g. OpensWith g opening) }
    // It ends early only where as many worlds are kept as may be, or where it has to before a turn.
    ensures ended { IfOk result (λ g. IfNone g.barred (IsWhole g ⊎ (most ≤ length g.kept.items))) }
    ensures barred { IfOk result (λ g. IfSome g.barred (IsBarredAt (M.bars machine.now) g.kept.items)) }
    ensures most { IfOk result (λ g. length g.kept.items ≤ max 1 most) }
{
    let mut graph = begun(alloc, machine, opening)?;
    go_on(&mut graph, machine, desk, most)?;
    Ok(graph)
}
