//! The outcomes of the worlds that a search found.
ghost use Rattle.std.specs.Prelude.{◌≡◌, ◌+◌, ◌<◌, ◌≤◌, ◌^◌, true, false, Some, IfOk, OnOk, length, slice_get};
ghost use Rattle.std.specs.List.{All};
ghost use Rattle.std.specs.Ordering.{is_eq};
ghost use Rattle.xt_exec.specs.Chips.{processor};
ghost use Rattle.xt_core.specs.Runs.{code_of, memory_of, opening_of};
ghost use Rattle.xt_trace.specs.Validity.{IsValid};
ghost use Rattle.xt_search.specs.Graphs.{IsAt};
ghost use Rattle.xt_outcomes.specs.Added.{IsAdded, place_in};
ghost use Rattle.xt_outcomes.specs.KeptWorlds.{spot_of};
ghost use Rattle.xt_outcomes.specs.Listing.{HasAllOutcomes, IsReal, IsRising, outcome_ordering};
ghost use Rattle.xt_outcomes.specs.Searched.{IsComplete, IsSearch};
ghost use Rattle.xt_outcomes.specs.declared.listing.Found.{Found};
ghost use Rattle.xt_outcomes.specs.declared.world.World.{World};

use crate::found::{Search, order_of};
use crate::outcome::{Outcome, outcome_of};
use std::alloc::{AllocError, Global};
use xt_image::Image;
use xt_search::Machine;
use xt_trace::Options;

/// An outcome, and an order that leads there.
pub struct Found {
    pub outcome: Outcome,
    /// The cores that make the turns, one by one.
    pub order: Vec<u8>,
}

// A `drop` of its own is one call at each place where a value is dropped.
impl Drop for Found {
    fn drop(self) {
        let Found {
            outcome: _,
            order: _,
        } = self;
    }
}

// How many are before an outcome.
fn place_of(list: &[Found], outcome: &Outcome) -> usize
    ensures place { result ≡ place_in list.now outcome.now }
    ensures within { result ≤ length list.now }
{
    let mut place = 0;
    for found in list {
        if !found.outcome.is_before(outcome) {
            return place;
        }
        place += 1;
    }
    place
}

// Whether the outcome at a place is this one.
fn is_hit(list: &[Found], place: usize, outcome: &Outcome) -> bool
    ensures hit { result ≡ true → (x : Found) × (slice_get list.now place ≡ Some x) × (is_eq (outcome_ordering x.outcome outcome.now) ≡ true) }
    ensures miss { result ≡ false → (x : Found) → slice_get list.now place ≡ Some x → is_eq (outcome_ordering x.outcome outcome.now) ≡ false }
{
    match list.get(place) {
        Some(found) => found.outcome.is_same(outcome),
        None => false,
    }
}

// Lists the outcome of the world with this number, at its place, unless it is listed already or one of
// the cores has not ended. The only error is running out of memory.
fn add(
    alloc: Global,
    image: &Image,
    options: &Options,
    search: &Search,
    words: &[u32],
    number: usize,
    list: &mut Vec<Found>,
) -> Result<(), AllocError>
    requires search { IsSearch image.now options.now search.now }
    requires valid { IsValid options.now }
    requires number { number < length search.now.graph.kept.items }
    requires words { All (λ a. a + 4 ≤ 2 ^ 32) words.now }
    ensures { OnOk result ((w : World) → IsAt search.now.graph.kept.items number w → IsAdded (processor (code_of image.now)) search.now.machine.timed (opening_of image.now options.now) words.now (spot_of (memory_of image.now options.now) w) list.old.items list.new.items) }
{
    let world = &search.graph.kept[number].world;
    if !search.machine.is_end(world) {
        return Ok(());
    }
    let outcome = outcome_of(alloc, &search.machine.opening, world, words)?;
    let place = place_of(list.as_slice(), &outcome);
    if is_hit(list.as_slice(), place, &outcome) {
        return Ok(());
    }
    let order = order_of(alloc, image, options, search, number)?;
    list.insert(place, Found { outcome, order })?;
    Ok(())
}

/// The outcomes of the worlds that were found, for the words at these addresses, in rising order, each
/// with one order that leads there. The only error is running out of memory.
///
/// Conditions: the options are valid, and each address lies at least 4 below 2^32.
pub fn outcomes_of(
    alloc: Global,
    image: &Image,
    options: &Options,
    search: &Search,
    words: &[u32],
) -> Result<Vec<Found>, AllocError>
    requires search { IsSearch image.now options.now search.now }
    requires valid { IsValid options.now }
    requires words { All (λ a. a + 4 ≤ 2 ^ 32) words.now }
    ensures real { IfOk result (λ v. All (IsReal (processor (code_of image.now)) search.now.machine.timed (opening_of image.now options.now) words.now) v.items) }
    ensures all { IfOk result (λ v. IsComplete search.now → HasAllOutcomes (processor (code_of image.now)) search.now.machine.timed (opening_of image.now options.now) words.now v.items) }
    ensures rising { IfOk result (λ v. IsRising v.items) }
{
    let mut list = Vec::new(alloc);
    for number in 0..search.graph.kept.len() {
        add(alloc, image, options, search, words, number, &mut list)?;
    }
    Ok(list)
}
