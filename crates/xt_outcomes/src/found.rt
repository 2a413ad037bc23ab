//! What a search over all orders of the runs of an image has found.
ghost use Rattle.std.specs.Prelude.{◌≡◌, ◌<◌, ◌++◌, IfOk, OnOk, length};
ghost use Rattle.xt_trace.specs.Validity.{IsValid};
ghost use Rattle.xt_search.specs.Worlds.{IsOrder};
ghost use Rattle.xt_outcomes.specs.Places.{turns_of};
ghost use Rattle.xt_outcomes.specs.Searched.{IsFoundBy, IsSearch};

use crate::desk::Desk;
use crate::opening::open_for;
use crate::timed::Timed;
use crate::world::World;
use std::alloc::{AllocError, Global};
use xt_image::Image;
use xt_search::{Graph, order_to};
use xt_trace::Options;

/// The machine of an image, and the worlds that were found.
pub struct Search<'a> {
    pub machine: Timed<'a>,
    pub graph: Graph<World>,
}

// A `drop` of its own is one call at each place where a value is dropped.
impl Drop for Search<'_> {
    fn drop(self) {
        let Search {
            machine: _,
            graph: _,
        } = self;
    }
}

// So many turns of a core more.
fn push_turns(order: &mut Vec<u8>, core: u8, turns: u32) -> Result<(), AllocError>
    ensures { OnOk result (order.new.items ≡ order.old.items ++ turns_of core turns) }
{
    for made in 0..turns {
        order.push(core)?;
    }
    Ok(())
}

// Does what `order_of` says, at a desk that the caller owns. So this one drops no desk.
fn order_at(
    alloc: Global,
    image: &Image,
    options: &Options,
    search: &Search,
    desk: &mut Desk,
    number: usize,
) -> Result<Vec<u8>, AllocError>
    requires search { IsSearch image.now options.now search.now }
    requires number { number < length search.now.graph.kept.items }
    requires valid { IsValid options.now }
    ensures order { IfOk result (λ v. IsOrder v.items) }
    ensures found { IfOk result (λ v. IsFoundBy image.now options.now search.now v.items number) }
{
    let runs = order_to(alloc, &search.machine, &search.graph, number)?;
    let mut world = open_for(alloc, &search.machine, image, options, desk)?;
    let mut order = Vec::new(alloc);
    for at in 0..runs.len() {
        let core = runs[at];
        let run = search.machine.made(desk, &world, core)?;
        world = run.world;
        push_turns(&mut order, core, run.turns)?;
    }
    Ok(order)
}

/// The order by which the world with this number was found. The only error is running out of memory.
///
/// Condition: the options are valid.
pub fn order_of(
    alloc: Global,
    image: &Image,
    options: &Options,
    search: &Search,
    number: usize,
) -> Result<Vec<u8>, AllocError>
    requires search { IsSearch image.now options.now search.now }
    requires number { number < length search.now.graph.kept.items }
    requires valid { IsValid options.now }
    ensures order { IfOk result (λ v. IsOrder v.items) }
    ensures found { IfOk result (λ v. IsFoundBy image.now options.now search.now v.items number) }
{
    let mut desk = Desk::new(alloc)?;
    order_at(alloc, image, options, search, &mut desk, number)
}
