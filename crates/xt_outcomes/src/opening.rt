//! How a search opens.
ghost use Rattle.std.specs.Prelude.{◌≡◌, true, IfOk};
ghost use Rattle.xt_trace.specs.Runs.{world_at_start};
ghost use Rattle.xt_trace.specs.Validity.{IsValid};
ghost use Rattle.xt_core.specs.Runs.{memory_of, opening_of};
ghost use Rattle.xt_search.specs.Changed.{IsLean};
ghost use Rattle.xt_outcomes.specs.Dead.{spot_forgotten};
ghost use Rattle.xt_outcomes.specs.KeptWorlds.{spot_of};
ghost use Rattle.xt_outcomes.specs.Orders.{with_turns};
ghost use Rattle.xt_outcomes.specs.Spots.{spot_in};

use crate::desk::Desk;
use crate::sides::Side;
use crate::timed::Timed;
use crate::world::World;
use std::alloc::{AllocError, Global};
use xt_image::Image;
use xt_search::Changes;
use xt_trace::Options;

/// The world in which the runs of an image open. The only error is running out of memory.
///
/// Condition: the options are valid.
pub fn open(
    alloc: Global,
    image: &Image,
    options: &Options,
    desk: &mut Desk,
    timed: bool,
) -> Result<World, AllocError>
    requires { IsValid options.now }
    ensures spot { IfOk result (λ w. spot_of (memory_of image.now options.now) w ≡ spot_in timed (world_at_start (opening_of image.now options.now))) }
    ensures lean { IfOk result (λ w. IsLean (memory_of image.now options.now) w.changes.value) }
{
    let side0 = Side::open(0, image.entry, options, timed, options.turns0);
    let side1 = Side::open(1, options.entry1, options, timed, options.turns1);
    let world = desk.shared.world(alloc, side0, side1, Changes::new(alloc))?;
    Ok(world)
}

/// The world in which the runs of an image open, without the registers that are dead. The only error is
/// running out of memory.
///
/// Conditions: the options are valid, and the machine has the image's memory.
pub(crate) fn open_for(
    alloc: Global,
    machine: &Timed,
    image: &Image,
    options: &Options,
    desk: &mut Desk,
) -> Result<World, AllocError>
    requires valid { IsValid options.now }
    requires memory { machine.now.opening.contents ≡ memory_of image.now options.now }
    ensures spot { IfOk result (λ w. spot_of (memory_of image.now options.now) w ≡ spot_forgotten machine.now.dead.masks.items (spot_in machine.now.timed (world_at_start (opening_of image.now options.now)))) }
    ensures lean { IfOk result (λ w. IsLean (memory_of image.now options.now) w.changes.value) }
{
    let first = open(alloc, image, options, desk, machine.timed)?;
    let opening = machine.forgetting(desk, &first)?;
    Ok(opening)
}

/// The world in which the runs of an image open, timed, where each core has so many turns. The only
/// error is running out of memory.
///
/// Condition: the options are valid.
pub fn open_with(
    alloc: Global,
    image: &Image,
    options: &Options,
    desk: &mut Desk,
    turns: u32,
) -> Result<World, AllocError>
    requires { IsValid options.now }
    ensures { IfOk result (λ w. spot_of (memory_of image.now options.now) w ≡ spot_in true (world_at_start (with_turns (opening_of image.now options.now) turns))) }
{
    let side0 = Side::open(0, image.entry, options, true, turns);
    let side1 = Side::open(1, options.entry1, options, true, turns);
    let world = desk.shared.world(alloc, side0, side1, Changes::new(alloc))?;
    Ok(world)
}
