//! The search in which each core has a judge of its own. It branches only where turns of both cores may meet,
//! and tells nothing if a core comes to the other core's stack.
ghost use Rattle.std.specs.Prelude.{◌≡◌, ◌<◌, true, IfOk};
ghost use Rattle.xt_map.specs.Placing.{IsPlaced};
ghost use Rattle.xt_trace.specs.Validity.{IsValid};
ghost use Rattle.xt_image.specs.ImageParts.{FitsImage};
ghost use Rattle.xt_core.specs.Runs.{memory_of};
ghost use Rattle.xt_discipline.specs.Verdicts.{are_checked};
ghost use Rattle.xt_judged.specs.Kept.{IsTree};
ghost use Rattle.xt_judged.specs.Runs.{AllAreWhole};
ghost use Rattle.xt_judged.specs.WatchedSearch.{AreAllSettled, AreStacksApart, IsSearch};

use crate::judging::SceneDesk;
use crate::opening::{open_watched, open_world};
use crate::watched::Watched;
use crate::watching::Watching;
use std::alloc::{AllocError, Global};
use xt_image::Image;
use xt_outcomes::{Dead, Places, Seen, Timed, World};
use xt_search::{Changes, Graph, has_all, search};
use xt_trace::Options;

// How many turns that meet nothing are made at once.
const MOST_LOCAL: u16 = 4096;

// How many states the first search keeps.
const FIRST: u32 = 1024;

// How many turns of a core are watched before a search.
const MOST_WATCHED: u32 = 16384;

/// The machine of an image, and what was found.
pub struct OwnSearch<'a> {
    pub machine: Watching<'a>,
    pub graph: Graph<Watched>,
}

// A `drop` of its own is one call at each place where a value is dropped.
impl Drop for OwnSearch<'_> {
    fn drop(self) {
        let OwnSearch {
            machine: _,
            graph: _,
        } = self;
    }
}

// What a machine of an image finds, at most so much. The only error is running out of memory.
fn searched(
    alloc: Global,
    machine: &Watching,
    image: &Image,
    options: &Options,
    timed: bool,
    desk: &mut SceneDesk,
    most: u32,
) -> Result<Graph<Watched>, AllocError>
    requires valid { IsValid options.now }
    requires fits { FitsImage image.now }
    requires code { machine.now.timed.code ≡ image.now.segments }
    requires memory { machine.now.timed.opening.contents ≡ memory_of image.now options.now }
    requires is_timed { machine.now.timed.timed ≡ timed }
    requires stack0 { machine.now.stack0 ≡ options.now.stack0 }
    requires stack1 { machine.now.stack1 ≡ options.now.stack1 }
    ensures search { IfOk result (λ g. IsSearch image.now options.now timed (record { machine = machine.now; graph = g })) }
    ensures tree { IfOk result (λ g. IsTree g) }
{
    let opening = open_watched(alloc, image, options, timed, &machine.timed.dead)?;
    let graph = search(alloc, machine, desk, opening, most)?;
    Ok(graph)
}

// A search by these places and dead registers. The only error is running out of memory.
fn search_by<'a>(
    alloc: Global,
    image: &'a Image,
    options: &Options,
    timed: bool,
    dead: &Dead,
    desk: &mut SceneDesk,
    places: Places,
    most: u32,
) -> Result<OwnSearch<'a>, AllocError>
    requires valid { IsValid options.now }
    requires fits { FitsImage image.now }
    requires placed { IsPlaced image.now.segments }
    ensures search { IfOk result (IsSearch image.now options.now timed) }
    ensures tree { IfOk result (λ s. IsTree s.graph) }
{
    let dead = dead.copy(alloc)?;
    let all = Places::met(alloc);
    let machine = Watching {
        timed: Timed::make(alloc, image, options, timed, all, dead, 0)?,
        places,
        stack0: options.stack0,
        stack1: options.stack1,
        most_local: MOST_LOCAL,
        alloc,
    };
    let graph = searched(alloc, &machine, image, options, timed, desk, most)?;
    Ok(OwnSearch { machine, graph })
}

// Makes the first turns of a core after these changes of memory, and marks their accesses. The only error is
// running out of memory.
//
// Condition: the core is 0 or 1.
fn watch(
    machine: &Timed,
    opening: &World,
    changes: &mut Changes,
    core: u8,
    seen: &mut Seen,
) -> Result<(), AllocError>
    requires { core < 2 }
{
    let mut side = opening.side(core).copy();
    for _ in 0..MOST_WATCHED {
        if side.left() == 0 {
            return Ok(());
        }
        seen.note(core, side.next_access(&machine.code));
        let (next, _) = side.recorded(&machine.code, &machine.opening, changes, machine.timed)?;
        side = next;
    }
    Ok(())
}

// Marks the accesses of two orders: of core 0 first and then core 1, and the other way round. The only
// error is running out of memory.
fn watch_both(
    alloc: Global,
    image: &Image,
    options: &Options,
    timed: bool,
    seen: &mut Seen,
) -> Result<(), AllocError>
    requires valid { IsValid options.now }
    requires fits { FitsImage image.now }
    requires placed { IsPlaced image.now.segments }
{
    let machine = Timed::plain(alloc, image, options, timed)?;
    let opening = open_world(alloc, image, options, timed)?;
    for first in 0..2u8 {
        let mut changes = Changes::new(alloc);
        watch(&machine, &opening, &mut changes, first, seen)?;
        watch(&machine, &opening, &mut changes, 1 - first, seen)?;
    }
    Ok(())
}

// Marks the accesses of the next turns of all that is kept, and answers whether one of them is new.
fn note_all(search: &OwnSearch, seen: &mut Seen) -> bool {
    let mut new = false;
    let code = &search.machine.timed.code;
    for kept in &search.graph.kept {
        let world = &kept.world.world;
        if seen.note(0, world.side(0).next_access(code)) {
            new = true;
        }
        if seen.note(1, world.side(1).next_access(code)) {
            new = true;
        }
    }
    new
}

// Whether a search would not go on if it could keep more states.
fn has_ended(search: &OwnSearch) -> bool {
    search.graph.barred.is_some() || search.graph.nexts.len() == search.graph.kept.len()
}

// Whether both judges of all that is kept go on, and the places tell of the next turns.
fn are_settled(search: &OwnSearch) -> bool
    ensures { result ≡ true → AreAllSettled search.now }
{
    for number in 0..search.graph.kept.len() {
        if !search.machine.is_settled(&search.graph.kept[number].world) {
            return false;
        }
    }
    true
}

// Whether the stack ranges of both cores have no byte in common.
fn are_apart(options: &Options) -> bool
    ensures { result ≡ true → AreStacksApart options.now }
{
    options.stack0.hi <= options.stack1.lo || options.stack1.hi <= options.stack0.lo
}

/// Whether the search has shown that no run has a breach.
pub fn is_whole(image: &Image, options: &Options, timed: bool, search: &OwnSearch) -> bool
    requires search { IsSearch image.now options.now timed search.now }
    requires valid { IsValid options.now }
    requires checked { are_checked image.now options.now ≡ true }
    ensures { result ≡ true → AllAreWhole image.now options.now timed }
{
    if !are_apart(options) {
        return false;
    }
    if !are_settled(search) {
        return false;
    }
    has_all(&search.machine, &search.graph)
}

/// Searches what all orders lead to, without these dead registers, and keeps at most so many states. It begins
/// with the places that two orders show, and searches again as long as an access shows that they were not
/// right. It ends early before a turn that does not fit the dead registers. The only error is running out of
/// memory.
pub fn search_watched<'a>(
    alloc: Global,
    image: &'a Image,
    options: &Options,
    timed: bool,
    dead: &Dead,
    desk: &mut SceneDesk,
    most: u32,
) -> Result<OwnSearch<'a>, AllocError>
    requires valid { IsValid options.now }
    requires fits { FitsImage image.now }
    requires placed { IsPlaced image.now.segments }
    ensures search { IfOk result (IsSearch image.now options.now timed) }
    ensures tree { IfOk result (λ s. IsTree s.graph) }
{
    let mut seen = Seen::new(alloc)?;
    watch_both(alloc, image, options, timed, &mut seen)?;
    let mut limit = most.min(FIRST);
    for _ in 0..64u32 {
        let places = seen.places(alloc)?;
        let search = search_by(alloc, image, options, timed, dead, desk, places, limit)?;
        let is_new = note_all(&search, &mut seen);
        if !is_new && (limit >= most || has_ended(&search)) {
            return Ok(search);
        }
        limit = if is_new {
            most.min(limit.saturating_mul(4))
        } else {
            most
        };
    }
    let all = Places::met(alloc);
    search_by(alloc, image, options, timed, dead, desk, all, most)
}
