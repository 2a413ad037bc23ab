//! Outcomes, each of which is that of its order.
ghost use Rattle.std.specs.Prelude.{◌≡◌, ◌+◌, ◌++◌, ◌≤◌, ◌<◌, ◌^◌, IfOk, IfSome, OnOk, length, reverse};
ghost use Rattle.std.specs.List.{All};
ghost use Rattle.xt_map.specs.Placing.{IsPlaced};
ghost use Rattle.xt_trace.specs.Validity.{IsValid};
ghost use Rattle.xt_image.specs.ImageParts.{FitsImage};
ghost use Rattle.xt_moments.specs.Moments.{IsMove};
ghost use Rattle.xt_search.specs.Graphs.{IsGraph};
ghost use Rattle.xt_map.specs.Memory.{constant_byte};
ghost use Rattle.xt_moment_search.specs.Covering.{Led, LedIn};
ghost use Rattle.xt_moment_search.specs.Stuckness.{IsPath, OrderLeads};
ghost use Rattle.xt_moment_search.specs.Turns.{MakesMove};
ghost use Rattle.xt_moment_search.specs.Told.{AreReal};

use crate::found::{Found, is_listed};
use crate::keys::{Key, has_hidden_word};
use crate::machine::{Moments, Run, Step};
use crate::worlds::World;
use std::alloc::AllocError;
use xt_image::Image;
use xt_moments::{Move, outcome_after};
use xt_search::Graph;
use xt_trace::Options;

// The moves of a run that begins with this one in a kept world and comes to another one, last first.
// None: it comes elsewhere. The only error is running out of memory.
fn run_back(
    machine: &Moments,
    from: &World,
    to: &World,
    made: Move,
) -> Result<Option<Vec<Move>>, AllocError>
    requires { IsMove made }
    ensures { IfOk result (λ r. IfSome r (λ moves. IsPath machine.now.ground (reverse moves.items) from.now to.now)) }
{
    let ran = machine.run(from, made)?;
    let Some(run) = ran else {
        return Ok(None);
    };
    if !run.at.is_at(to) {
        return Ok(None);
    }
    let Run { at: _, trail } = run;
    let mut back = trail;
    back.reverse();
    Ok(Some(back))
}

// The moves by which a step leads from a kept world to another one, last first. None: they lead
// elsewhere. The only error is running out of memory.
fn moves_back(
    machine: &Moments,
    from: &World,
    to: &World,
    step: Step,
) -> Result<Option<Vec<Move>>, AllocError>
    requires makes { MakesMove step }
    requires led { Led (constant_byte machine.now.ground.code) machine.now.ground.opening.contents machine.now.ground.cleared.contents step from.now to.now }
    ensures { IfOk result (λ r. IfSome r (λ moves. IsPath machine.now.ground (reverse moves.items) from.now to.now)) }
{
    match step {
        Step::Makes(made) => run_back(machine, from, to, made),
        Step::Passes(_) => Ok(Some(Vec::new(machine.alloc))),
        Step::Rests => Ok(Some(Vec::new(machine.alloc))),
    }
}

/// The order with moments by which the world with this number was found. None: the moves that the
/// search made do not lead there. The only error is running out of memory.
pub fn order_of(
    machine: &Moments,
    graph: &Graph<World>,
    number: usize,
) -> Result<Option<Vec<Move>>, AllocError>
    requires graph { IsGraph (LedIn machine.now.ground) graph.now }
    requires number { number < length graph.now.kept.items }
    ensures moves { IfOk result (λ r. IfSome r (λ order. All IsMove order.items)) }
    ensures leads { IfOk result (λ r. IfSome r (λ order. OrderLeads machine.now.ground graph.now order.items number)) }
{
    let mut order = Vec::new(machine.alloc);
    let mut at = number;
    while at > 0 {
        let kept = &graph.kept[at];
        let from = kept.from as usize;
        let before = &graph.kept[from];
        let step = machine.step(&before.world, kept.core)?;
        let back = moves_back(machine, &before.world, &kept.world, step)?;
        let Some(moves) = back else {
            return Ok(None);
        };
        order.extend_from_slice(moves.as_slice())?;
        at = from;
    }
    order.reverse();
    Ok(Some(order))
}

// How many outcomes of a list come before this one.
fn place_of(list: &[Found], key: &Key) -> usize
    ensures { result ≤ length list.now }
{
    let mut place = 0;
    for found in list {
        if !Key::of(&found.outcome).compare(key).is_lt() {
            return place;
        }
        place += 1;
    }
    place
}

// Whether the outcome at a place is this one.
fn is_hit(list: &[Found], place: usize, key: &Key) -> bool {
    match list.get(place) {
        Some(found) => Key::of(&found.outcome).compare(key).is_eq(),
        None => false,
    }
}

/// Makes an order and lists what comes out of it, at its place: not if one of the cores has not stopped
/// then, or the outcome is listed already. The only error is running out of memory.
pub fn list_order(
    machine: &Moments,
    image: &Image,
    options: &Options,
    words: &[u32],
    order: Vec<Move>,
    list: &mut Vec<Found>,
) -> Result<(), AllocError>
    requires valid { IsValid options.now }
    requires fits { FitsImage image.now }
    requires placed { IsPlaced image.now.segments }
    requires words { All (λ a. a + 4 ≤ 2 ^ 32) words.now }
    requires moves { All IsMove order.items }
    requires real { AreReal image.now options.now words.now list.old.items }
    ensures { OnOk result (AreReal image.now options.now words.now list.new.items) }
{
    let made = outcome_after(machine.alloc, image, options, order.as_slice(), words)?;
    let Some(outcome) = made else {
        return Ok(());
    };
    let key = Key::of(&outcome);
    let place = place_of(list.as_slice(), &key);
    if is_hit(list.as_slice(), place, &key) {
        return Ok(());
    }
    list.insert(place, Found { outcome, order })?;
    Ok(())
}

// Makes the order that leads to the world with this number, and lists what comes out of it, at its
// place: not if one of the cores has not stopped, a bit of a chosen word is not known, or the outcome
// is listed already. The only error is running out of memory.
fn add(
    machine: &Moments,
    image: &Image,
    options: &Options,
    graph: &Graph<World>,
    words: &[u32],
    number: usize,
    list: &mut Vec<Found>,
) -> Result<(), AllocError>
    requires valid { IsValid options.now }
    requires fits { FitsImage image.now }
    requires placed { IsPlaced image.now.segments }
    requires words { All (λ a. a + 4 ≤ 2 ^ 32) words.now }
    requires graph { IsGraph (LedIn machine.now.ground) graph.now }
    requires number { number < length graph.now.kept.items }
    requires real { AreReal image.now options.now words.now list.old.items }
    ensures { OnOk result (AreReal image.now options.now words.now list.new.items) }
{
    let world = &graph.kept[number].world;
    if !world.has_ended() || has_hidden_word(&machine.ground, world, words) {
        return Ok(());
    }
    if is_listed(machine, world, words, list.as_slice())? {
        return Ok(());
    }
    let found = order_of(machine, graph, number)?;
    let Some(order) = found else {
        return Ok(());
    };
    list_order(machine, image, options, words, order, list)
}

/// What comes out of the orders that were found, for the words at these addresses. The only error is running out of memory.
///
/// Conditions: the options are valid, the image's segments lie in one region each and share no byte, as those of every image
/// that was read, and each address lies at least 4 below 2^32.
pub fn outcomes_of(
    machine: &Moments,
    image: &Image,
    options: &Options,
    graph: &Graph<World>,
    words: &[u32],
) -> Result<Vec<Found>, AllocError>
    requires valid { IsValid options.now }
    requires fits { FitsImage image.now }
    requires placed { IsPlaced image.now.segments }
    requires words { All (λ a. a + 4 ≤ 2 ^ 32) words.now }
    requires graph { IsGraph (LedIn machine.now.ground) graph.now }
    ensures { IfOk result (λ list. AreReal image.now options.now words.now list.items) }
{
    let mut list = Vec::new(machine.alloc);
    for number in 0..graph.kept.len() {
        add(machine, image, options, graph, words, number, &mut list)?;
    }
    Ok(list)
}
