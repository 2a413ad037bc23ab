//! The search that branches only where turns of both cores may meet.
ghost use Rattle.std.specs.Prelude.{◌≡◌, ◌≤◌, ◌⊎◌, ◌↔◌, true, [], IfOk, IfSome, IfNone, length};
ghost use Rattle.xt_map.specs.Placing.{IsPlaced};
ghost use Rattle.xt_trace.specs.Validity.{IsValid};
ghost use Rattle.xt_image.specs.ImageParts.{FitsImage};
ghost use Rattle.xt_core.specs.Runs.{memory_of};
ghost use Rattle.xt_search.specs.Graphs.{IsWhole};
ghost use Rattle.xt_outcomes.specs.Searched.{AreAllowed, HasEnded, IsComplete, IsSearch, MeetsAllOrders};

use crate::answers::Ending;
use crate::dead::Dead;
use crate::desk::Desk;
use crate::found::Search;
use crate::opening::{open, open_for};
use crate::places::Places;
use crate::timed::Timed;
use crate::world::World;
use std::alloc::{AllocError, Global};
use xt_image::Image;
use xt_search::{Graph, has_all, search};
use xt_trace::Options;

// How many turns that meet nothing are made at once.
const MOST_LOCAL: u16 = 4096;

// How many worlds the first search keeps.
const FIRST: u32 = 1024;

// How many turns of a core are watched before a search.
const MOST_WATCHED: u32 = 16384;

// How many searches are made at most.
const MOST_SEARCHES: u32 = 128;

// How many of them, the first ones, have dead registers.
const MOST_WITH_DEAD: u32 = 96;

// The worlds that a machine of an image finds, at most so many. The only error is running out of memory.
fn searched(
    alloc: Global,
    machine: &Timed,
    image: &Image,
    options: &Options,
    desk: &mut Desk,
    most: u32,
) -> Result<Graph<World>, AllocError>
    requires valid { IsValid options.now }
    requires fits { FitsImage image.now }
    requires code { machine.now.code ≡ image.now.segments }
    requires memory { machine.now.opening.contents ≡ memory_of image.now options.now }
    ensures search { IfOk result (λ g. IsSearch image.now options.now (record { machine = machine.now; graph = g })) }
    ensures ended { IfOk result (λ g. IfNone g.barred (IsWhole g ⊎ (most ≤ length g.kept.items))) }
{
    let opening = open_for(alloc, machine, image, options, desk)?;
    let graph = search(alloc, machine, desk, opening, most)?;
    Ok(graph)
}

/// Searches the worlds after all orders, where turns that meet nothing by these places are made at once, and
/// by these masks nobody reads dead registers, and keeps at most so many worlds. The only error is running
/// out of memory.
pub fn search_by<'a>(
    alloc: Global,
    image: &'a Image,
    options: &Options,
    desk: &mut Desk,
    timed: bool,
    places: Places,
    dead: Dead,
    most: u32,
) -> Result<Search<'a>, AllocError>
    requires valid { IsValid options.now }
    requires fits { FitsImage image.now }
    requires placed { IsPlaced image.now.segments }
    ensures search { IfOk result (λ s. IsSearch image.now options.now s) }
    ensures timed { IfOk result (λ s. s.machine.timed ≡ timed) }
    ensures places { IfOk result (λ s. s.machine.places ≡ places) }
    ensures dead { IfOk result (λ s. s.machine.dead ≡ dead) }
    ensures ended { IfOk result (λ s. IfNone s.graph.barred (IsWhole s.graph ⊎ (most ≤ length s.graph.kept.items))) }
{
    let machine = Timed::make(alloc, image, options, timed, places, dead, MOST_LOCAL)?;
    let graph = searched(alloc, &machine, image, options, desk, most)?;
    Ok(Search { machine, graph })
}

/// Whether the places tell of the next turns of all kept worlds.
pub fn are_allowed(search: &Search) -> bool
    ensures { (result ≡ true) ↔ AreAllowed search.now }
{
    for number in 0..search.graph.kept.len() {
        let world = &search.graph.kept[number].world;
        if !search.machine.is_told(world.side(0), 0) {
            return false;
        }
        if !search.machine.is_told(world.side(1), 1) {
            return false;
        }
    }
    true
}

/// Whether the search came to its end and its places are right: then the world after each order is kept
/// if both next turns may meet something.
pub fn is_whole(image: &Image, options: &Options, search: &Search) -> bool
    requires search { IsSearch image.now options.now search.now }
    ensures complete { (result ≡ true) ↔ IsComplete search.now }
    ensures orders { result ≡ true → MeetsAllOrders image.now options.now search.now }
{
    if !has_all(&search.machine, &search.graph) {
        return false;
    }
    are_allowed(search)
}

// How a search that keeps at most so many worlds ended. None: it has to be made again, with what was seen.
// The only error is running out of memory.
fn ended_by(
    image: &Image,
    options: &Options,
    search: &Search,
    desk: &mut Desk,
    most: u32,
) -> Result<Option<Ending>, AllocError>
    requires search { IsSearch image.now options.now search.now }
    ensures { IfOk result (λ r. IfSome r (HasEnded image.now options.now most search.now)) }
{
    match search.graph.barred {
        Some(barred) => {
            let side = search.graph.kept[barred.from].world.side(barred.core);
            if !search.machine.is_timely(desk, side, barred.core)? {
                return Ok(None);
            }
            Ok(Some(Ending::Time(barred.core, side.pc())))
        }
        None => {
            if is_whole(image, options, search) {
                return Ok(Some(Ending::All));
            }
            if search.graph.kept.len() < most as usize {
                return Ok(None);
            }
            Ok(Some(Ending::States))
        }
    }
}

// How a search that keeps at most so many worlds ended, where both cores may come to each place, and no
// register is dead.
fn ended_at_last(image: &Image, options: &Options, search: &Search, most: u32) -> Ending
    requires search { IsSearch image.now options.now search.now }
    requires places { search.now.machine.places.list.items ≡ [] }
    requires dead { search.now.machine.dead.masks.items ≡ [] }
    requires ended { IfNone search.now.graph.barred (IsWhole search.now.graph ⊎ (most ≤ length search.now.graph.kept.items)) }
    ensures { HasEnded image.now options.now most search.now result }
{
    match search.graph.barred {
        Some(barred) => {
            let side = search.graph.kept[barred.from].world.side(barred.core);
            Ending::Time(barred.core, side.pc())
        }
        None => {
            if has_all(&search.machine, &search.graph) {
                return Ending::All;
            }
            Ending::States
        }
    }
}

// How many worlds the next search keeps: as many as before, if this one had to end before a turn; where it
// has shown something new, some more, and else as many as may be.
fn next_limit(limit: u32, search: &Search, is_new: bool, most: u32) -> u32 {
    if search.graph.barred.is_some() {
        return limit;
    }
    if is_new {
        most.min(limit.saturating_mul(4))
    } else {
        most
    }
}

// Whether a search is the last one. It is not if as many worlds are kept as may be, and something new was
// seen of places.
fn is_last(ended: Ending, desk: &Desk) -> bool {
    match ended {
        Ending::All => true,
        Ending::States => !desk.has_new_place(),
        Ending::Time(_, _) => true,
    }
}

// Notes turns of three orders: of core 0 first and then core 1, the other way round, and by turns. The only
// error is running out of memory.
fn watch_orders(machine: &Timed, desk: &mut Desk, opening: &World) -> Result<(), AllocError> {
    machine.watch(desk, opening, 0, 1, MOST_WATCHED)?;
    machine.watch(desk, opening, 1, 1, MOST_WATCHED)?;
    machine.watch(desk, opening, 0, MOST_WATCHED, 1)
}

// Notes turns of three orders of an image. The only error is running out of memory.
fn watch_both(
    alloc: Global,
    image: &Image,
    options: &Options,
    timed: bool,
    desk: &mut Desk,
) -> Result<(), AllocError>
    requires valid { IsValid options.now }
    requires fits { FitsImage image.now }
    requires placed { IsPlaced image.now.segments }
{
    let machine = Timed::plain(alloc, image, options, timed)?;
    let opening = open(alloc, image, options, desk, timed)?;
    watch_orders(&machine, desk, &opening)
}

// Does what `search_orders` says, at a desk that the caller owns. So this one drops no desk.
fn search_at<'a>(
    alloc: Global,
    image: &'a Image,
    options: &Options,
    desk: &mut Desk,
    timed: bool,
    most: u32,
) -> Result<(Search<'a>, Ending), AllocError>
    requires valid { IsValid options.now }
    requires fits { FitsImage image.now }
    requires placed { IsPlaced image.now.segments }
    ensures search { IfOk result (λ r. IsSearch image.now options.now r.0) }
    ensures timed { IfOk result (λ r. r.0.machine.timed ≡ timed) }
    ensures ended { IfOk result (λ r. HasEnded image.now options.now most r.0 r.1) }
{
    watch_both(alloc, image, options, timed, desk)?;
    let mut limit = most.min(FIRST);
    for number in 0..MOST_SEARCHES {
        desk.clear(alloc)?;
        let places = desk.places(alloc)?;
        let dead = if number < MOST_WITH_DEAD {
            desk.dead(alloc)?
        } else {
            Dead::none(alloc)
        };
        let search = search_by(alloc, image, options, desk, timed, places, dead, limit)?;
        if let Some(ended) = ended_by(image, options, &search, desk, most)? {
            if is_last(ended, desk) {
                return Ok((search, ended));
            }
        }
        limit = next_limit(limit, &search, desk.is_new(), most);
    }
    let places = Places::met(alloc);
    let dead = Dead::none(alloc);
    let last = search_by(alloc, image, options, desk, timed, places, dead, most)?;
    let ended = ended_at_last(image, options, &last, most);
    Ok((last, ended))
}

/// Searches the worlds after all orders, and keeps at most so many: timed, with the turns that the
/// options give, or with any number of turns and without time. It begins with the places and the dead
/// registers that three orders show, and searches again as long as a turn shows that they were not right.
/// Beside the search it answers how that ended. The only error is running out of memory.
pub fn search_orders<'a>(
    alloc: Global,
    image: &'a Image,
    options: &Options,
    timed: bool,
    most: u32,
) -> Result<(Search<'a>, Ending), AllocError>
    requires valid { IsValid options.now }
    requires fits { FitsImage image.now }
    requires placed { IsPlaced image.now.segments }
    ensures search { IfOk result (λ r. IsSearch image.now options.now r.0) }
    ensures timed { IfOk result (λ r. r.0.machine.timed ≡ timed) }
    ensures ended { IfOk result (λ r. HasEnded image.now options.now most r.0 r.1) }
{
    let mut desk = Desk::new(alloc)?;
    search_at(alloc, image, options, &mut desk, timed, most)
}
