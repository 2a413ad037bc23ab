//! What is found of the orders with moments of an image.
ghost use Rattle.std.specs.Prelude.{◌≡◌, ◌+◌, ◌≤◌, ◌^◌, true, IfOk, OnOk};
ghost use Rattle.std.specs.List.{All};
ghost use Rattle.xt_map.specs.Placing.{IsPlaced};
ghost use Rattle.xt_trace.specs.Validity.{IsValid};
ghost use Rattle.xt_image.specs.ImageParts.{FitsImage};
ghost use Rattle.xt_core.specs.Runs.{code_of, opening_of};
ghost use Rattle.xt_search.specs.Graphs.{IsGraph, IsWhole};
ghost use Rattle.xt_moments.specs.Outcomes.{HasAllOutcomes};
ghost use Rattle.xt_moment_search.specs.Covering.{LedIn};
ghost use Rattle.xt_moment_search.specs.Listed.{AreListed};
ghost use Rattle.xt_moment_search.specs.Told.{AreReal, IsStuckOf, is_known, outcomes_in};
ghost use Rattle.xt_moment_search.specs.declared.answers.Ending.TheVariants as endings;

use crate::confirming::outcomes_of;
use crate::found::{Found, are_told};
use crate::ground::Ground;
use crate::keys::has_hidden_word;
use crate::machine::{Moments, Step};
use crate::stuck::{Stuck, stuck_of};
use crate::trying::try_orders;
use crate::worlds::{Shared, World};
use std::alloc::{AllocError, Global};
use xt_image::Image;
use xt_moments::Move;
use xt_search::{Barred, Graph, has_all, search};
use xt_trace::Options;

/// How a search ended.
#[derive(Clone, Copy)]
pub enum Ending {
    /// It looked at every order with moments.
    All,
    /// As many worlds are kept as may be.
    States,
    /// A turn uses what is not known, of this core at this address.
    Time(u8, u32),
}

/// What was found of the orders with moments of an image.
#[derive(Drop)]
pub struct Answers {
    /// The outcomes in rising order.
    pub found: Vec<Found>,
    /// What is known of orders that no order continues to an end.
    pub stuck: Stuck,
    /// How the search ended.
    pub ended: Ending,
}

// The core and the place of the turn before which a search ended. The only error is running out of memory.
fn barred_turn(
    machine: &Moments,
    graph: &Graph<World>,
    barred: Barred,
) -> Result<Option<(u8, u32)>, AllocError> {
    let Some(kept) = graph.kept.get(barred.from) else {
        return Ok(None);
    };
    match machine.step(&kept.world, barred.core)? {
        Step::Makes(Move::Turn(core)) => Ok(Some((core, kept.world.side(core).pc()))),
        _ => Ok(None),
    }
}

// Where core 0 stopped in a world of which a chosen word is not known, if there is one.
fn hidden_end(machine: &Moments, graph: &Graph<World>, words: &[u32]) -> Option<u32>
    requires { All (λ a. a + 4 ≤ 2 ^ 32) words.now }
{
    for kept in &graph.kept {
        if kept.world.has_ended() && has_hidden_word(&machine.ground, &kept.world, words) {
            return Some(kept.world.side0.pc());
        }
    }
    None
}

// How a search ended. The only error is running out of memory.
fn ending_of(
    machine: &Moments,
    graph: &Graph<World>,
    words: &[u32],
    list: &[Found],
    stuck: &Stuck,
) -> Result<Ending, AllocError>
    requires words { All (λ a. a + 4 ≤ 2 ^ 32) words.now }
    requires graph { IsGraph (LedIn machine.now.ground) graph.now }
    ensures whole { IfOk result (λ e. e ≡ endings.All → IsWhole graph.now) }
    ensures listed { IfOk result (λ e. e ≡ endings.All → AreListed machine.now.ground.opening.contents machine.now.ground.cleared.contents words.now list.now graph.now.kept.items) }
    ensures known { IfOk result (λ e. e ≡ endings.All → is_known stuck.now ≡ true) }
{
    if let Some(barred) = graph.barred {
        if let Some((core, pc)) = barred_turn(machine, graph, barred)? {
            return Ok(Ending::Time(core, pc));
        }
    }
    if let Some(pc) = hidden_end(machine, graph, words) {
        return Ok(Ending::Time(0, pc));
    }
    if !stuck.is_known() {
        return Ok(Ending::States);
    }
    if has_all(machine, graph) && are_told(machine, graph, words, list)? {
        Ok(Ending::All)
    } else {
        Ok(Ending::States)
    }
}

/// What is found of the orders with moments of an image, where at most so many worlds are kept. Outcomes have the words at
/// these addresses. The only error is running out of memory.
///
/// Conditions: the options are valid, the image's segments lie in one region each and share no byte, as those of every image
/// that was read, and each address lies at least 4 below 2^32.
pub fn answers_of(
    alloc: Global,
    image: &Image,
    options: &Options,
    words: &[u32],
    most: u32,
) -> Result<Answers, AllocError>
    requires valid { IsValid options.now }
    requires fits { FitsImage image.now }
    requires placed { IsPlaced image.now.segments }
    requires words { All (λ a. a + 4 ≤ 2 ^ 32) words.now }
    ensures real { IfOk result (λ a. AreReal image.now options.now words.now a.found.items) }
    ensures complete { IfOk result (λ a. a.ended ≡ endings.All → HasAllOutcomes (code_of image.now) (opening_of image.now options.now) words.now (outcomes_in a.found.items)) }
    ensures stuck { IfOk result (λ a. IsStuckOf (code_of image.now) (opening_of image.now options.now) a.stuck) }
    ensures known { IfOk result (λ a. a.ended ≡ endings.All → is_known a.stuck ≡ true) }
{
    let answers = answers_with(alloc, image, options, words, most, true)?;
    if let Ending::Time(_, _) = answers.ended {
        return answers_with(alloc, image, options, words, most, false);
    }
    Ok(answers)
}

// The outcomes, and those of some orders that are tried if the search did not come to its end. The only
// error is running out of memory.
fn with_tries(
    machine: &Moments,
    image: &Image,
    options: &Options,
    words: &[u32],
    ended: Ending,
    list: &mut Vec<Found>,
) -> Result<(), AllocError>
    requires valid { IsValid options.now }
    requires fits { FitsImage image.now }
    requires placed { IsPlaced image.now.segments }
    requires words { All (λ a. a + 4 ≤ 2 ^ 32) words.now }
    requires real { AreReal image.now options.now words.now list.old.items }
    ensures real { OnOk result (AreReal image.now options.now words.now list.new.items) }
    ensures kept { OnOk result (ended ≡ endings.All → list.new.items ≡ list.old.items) }
{
    match ended {
        Ending::States => try_orders(machine, image, options, words, list),
        Ending::All => Ok(()),
        Ending::Time(_, _) => Ok(()),
    }
}

// What a search finds that forgets what interrupts have saved, or does not. The only error is running
// out of memory.
fn answers_with(
    alloc: Global,
    image: &Image,
    options: &Options,
    words: &[u32],
    most: u32,
    forgets: bool,
) -> Result<Answers, AllocError>
    requires valid { IsValid options.now }
    requires fits { FitsImage image.now }
    requires placed { IsPlaced image.now.segments }
    requires words { All (λ a. a + 4 ≤ 2 ^ 32) words.now }
    ensures real { IfOk result (λ a. AreReal image.now options.now words.now a.found.items) }
    ensures complete { IfOk result (λ a. a.ended ≡ endings.All → HasAllOutcomes (code_of image.now) (opening_of image.now options.now) words.now (outcomes_in a.found.items)) }
    ensures stuck { IfOk result (λ a. IsStuckOf (code_of image.now) (opening_of image.now options.now) a.stuck) }
    ensures known { IfOk result (λ a. a.ended ≡ endings.All → is_known a.stuck ≡ true) }
{
    let ground = Ground::make(alloc, image, options)?;
    let machine = Moments {
        ground,
        alloc,
        forgets,
    };
    let mut shared = Shared::new(alloc)?;
    let opening = machine.open(&mut shared, image, options)?;
    let graph = search(alloc, &machine, &mut shared, opening, most)?;
    let mut found = outcomes_of(&machine, image, options, &graph, words)?;
    let stuck = stuck_of(&machine, &graph)?;
    let ended = ending_of(&machine, &graph, words, found.as_slice(), &stuck)?;
    with_tries(&machine, image, options, words, ended, &mut found)?;
    Ok(Answers {
        found,
        stuck,
        ended,
    })
}
