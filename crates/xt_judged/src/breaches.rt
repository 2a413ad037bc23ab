//! The breaches that a search met, each with an order whose run has it as its verdict.
ghost use Rattle.std.specs.Prelude.{◌≡◌, ◌<◌, ◌++◌, true, false, All, IfOk, OnOk, length};
ghost use Rattle.xt_trace.specs.Validity.{IsValid};
ghost use Rattle.xt_image.specs.ImageParts.{IsWellFormed};
ghost use Rattle.xt_search.specs.Worlds.{IsOrder};
ghost use Rattle.xt_outcomes.specs.Places.{turns_of};
ghost use Rattle.xt_judged.specs.Kept.{IsTree, ShowsNone};
ghost use Rattle.xt_judged.specs.Once.{HaveOwn, NoneHas};
ghost use Rattle.xt_judged.specs.OrderFrames.{IsRealBreach, place_of};

use crate::confirming::is_real;
use crate::frames::OrderBreach;
use crate::scene::Shown;
use std::alloc::{AllocError, Global};
use xt_image::Image;
use xt_search::Graph;
use xt_trace::Options;

/// A world that a search keeps, as it was met first.
pub trait Met {
    ghost use Rattle.std.specs.Prelude.{Option};
    ghost use Rattle.xt_judged.specs.declared.scene.Shown as shown;

    ghost shows: { Self → Option shown.Shown };

    /// The breach to which a turn came, if one did.
    fn breach(&self) -> Option<Shown>
        ensures { result ≡ shows self.now };

    /// How many turns of one core led here from the world before.
    fn turns(&self) -> u32;
}

/// Whether some kept world has a breach.
pub fn shows_some<W: Met + Drop>(graph: &Graph<W>) -> bool
    ensures { result ≡ false → ShowsNone W.shows graph.now }
{
    for number in 0..graph.kept.len() {
        if graph.kept[number].world.breach().is_some() {
            return true;
        }
    }
    false
}

// Whether both are the same.
fn is_same_shown(a: Shown, b: Shown) -> bool
    ensures same { result ≡ true → a ≡ b }
    ensures equal { a ≡ b → result ≡ true }
{
    a == b
}

// Whether a breach of this kind, core and address is listed.
fn has(list: &[OrderBreach], shown: Shown) -> bool
    ensures { result ≡ false → NoneHas place_of shown list.now }
{
    for number in 0..list.len() {
        let breach = &list[number];
        if is_same_shown(breach.place(), shown) {
            return true;
        }
    }
    false
}

// So many turns of a core more. The only error is running out of memory.
fn push_turns(order: &mut Vec<u8>, core: u8, turns: u32) -> Result<(), AllocError>
    ensures { OnOk result (order.new.items ≡ order.old.items ++ turns_of core turns) }
{
    for made in 0..turns {
        order.push(core)?;
    }
    Ok(())
}

// The order of turns by which the world with this number was found. The only error is running out of
// memory.
fn order_of<W: Met + Drop>(
    alloc: Global,
    graph: &Graph<W>,
    number: usize,
) -> Result<Vec<u8>, AllocError>
    requires tree { IsTree graph.now }
    requires number { number < length graph.now.kept.items }
    ensures { IfOk result (λ v. IsOrder v.items) }
{
    let mut order = Vec::new(alloc);
    let mut at = number;
    while at > 0 {
        let kept = &graph.kept[at];
        push_turns(&mut order, kept.core, kept.world.turns())?;
        at = kept.from as usize;
    }
    order.reverse();
    Ok(order)
}

// Adds the breach of the kept world with this number, if it has one of which no kind, core and address is
// listed, and if the run of its order has it as its verdict. The only error is running out of memory.
fn add_met<W: Met + Drop>(
    alloc: Global,
    image: &Image,
    options: &Options,
    timed: bool,
    graph: &Graph<W>,
    number: usize,
    list: &mut Vec<OrderBreach>,
) -> Result<(), AllocError>
    requires image { IsWellFormed image.now }
    requires valid { IsValid options.now }
    requires tree { IsTree graph.now }
    requires number { number < length graph.now.kept.items }
    requires real { All (IsRealBreach image.now options.now timed) list.old.items }
    requires once { HaveOwn place_of list.old.items }
    ensures real { OnOk result (All (IsRealBreach image.now options.now timed) list.new.items) }
    ensures once { OnOk result (HaveOwn place_of list.new.items) }
{
    let Some(shown) = graph.kept[number].world.breach() else {
        return Ok(());
    };
    if has(list.as_slice(), shown) {
        return Ok(());
    }
    let order = order_of(alloc, graph, number)?;
    let breach = OrderBreach {
        kind: shown.kind,
        core: shown.core,
        pc: shown.pc,
        order,
    };
    if !is_real(alloc, image, options, timed, &breach)? {
        return Ok(());
    }
    list.push(breach)?;
    Ok(())
}

/// The breaches that a search met and that the runs of their orders have as their verdicts, of each
/// kind, core and address one. The only error is running out of memory.
pub fn breaches_of<W: Met + Drop>(
    alloc: Global,
    image: &Image,
    options: &Options,
    timed: bool,
    graph: &Graph<W>,
) -> Result<Vec<OrderBreach>, AllocError>
    requires image { IsWellFormed image.now }
    requires valid { IsValid options.now }
    requires tree { IsTree graph.now }
    ensures real { IfOk result (λ v. All (IsRealBreach image.now options.now timed) v.items) }
    ensures once { IfOk result (λ v. HaveOwn place_of v.items) }
{
    let mut list = Vec::new(alloc);
    for number in 0..graph.kept.len() {
        add_met(alloc, image, options, timed, graph, number, &mut list)?;
    }
    Ok(list)
}
