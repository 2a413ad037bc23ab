//! The next turns of both cores after an order.
ghost use Rattle.std.specs.Prelude.{◌≡◌, ◌+◌, ◌-◌, ◌≤◌, ◌<◌, true, false, Some, IfOk};
ghost use Rattle.xt_map.specs.Memory.{constant_byte};
ghost use Rattle.xt_map.specs.Placing.{IsPlaced};
ghost use Rattle.xt_map.specs.Regions.{is_mapped};
ghost use Rattle.xt_map.specs.Serving.{reply_to};
ghost use Rattle.xt_trace.specs.Runs.{world_at_start};
ghost use Rattle.xt_trace.specs.Validity.{IsValid};
ghost use Rattle.xt_trace.specs.Worlds.{advance};
ghost use Rattle.xt_image.specs.ImageParts.{FitsImage};
ghost use Rattle.xt_exec.specs.Chips.{processor};
ghost use Rattle.xt_exec.specs.Turn.{turn};
ghost use Rattle.xt_core.specs.Runs.{code_of, memory_of, opening_of};
ghost use Rattle.xt_search.specs.Changed.{contents_of};
ghost use Rattle.xt_search.specs.Worlds.{IsOrder};
ghost use Rattle.xt_outcomes.specs.KeptWorlds.{spot_of};
ghost use Rattle.xt_outcomes.specs.NextRaces.{IsNextRace, next_access};
ghost use Rattle.xt_outcomes.specs.NextTurns.{AreNextTurns};
ghost use Rattle.xt_outcomes.specs.Orders.{with_both, world_after};
ghost use Rattle.xt_outcomes.specs.SpotRaces.{next_of};
ghost use Rattle.xt_outcomes.specs.Spots.{spot_after, spot_in};

use crate::desk::Desk;
use crate::opening::{open, open_with};
use crate::sides::Side;
use crate::timed::Timed;
use crate::world::World;
use std::alloc::{AllocError, Global};
use xt_image::Image;
use xt_map::Access;
use xt_search::Changes;
use xt_trace::{Options, StepRecord};

/// A core's next turn: its number among the turns of the core, from 0, and its record.
#[derive(Clone, Copy)]
pub struct NextTurn {
    pub turn: u32,
    pub step: StepRecord,
}

// The world after the turns of an order. The only error is running out of memory.
fn turned_by(
    machine: &Timed,
    desk: &mut Desk,
    opening: World,
    order: &[u8],
) -> Result<World, AllocError>
    requires { IsOrder order.now }
    ensures { IfOk result (λ w. spot_of machine.now.opening.contents w ≡ spot_after (processor (constant_byte machine.now.code)) machine.now.timed order.now (spot_of machine.now.opening.contents opening)) }
{
    let mut world = opening;
    for core in order {
        world = machine.make_turn(desk, &world, *core)?;
    }
    Ok(world)
}

// The next turn of a core, which makes this access, of one that had so many turns.
fn next_turn(
    machine: &Timed,
    side: &Side,
    changes: &Changes,
    turns: u32,
    access: Access,
) -> NextTurn
    requires access { next_of (constant_byte machine.now.code) side.now ≡ Some access }
    requires turns { side.now.left ≤ turns }
    ensures turn { result.turn ≡ turns - side.now.left }
    ensures step { result.step ≡ (turn (constant_byte machine.now.code) side.now.state (reply_to (contents_of machine.now.opening.contents changes.now) access)).0 }
{
    let reply = changes.reply(&machine.opening, access);
    let Some(step) = side.next_record(&machine.code, reply) else {
        unreachable!();
    };
    NextTurn {
        turn: turns - side.left(),
        step,
    }
}

// The next turns of both cores, which make these accesses, after an order from a world that opens with so
// many turns of each core. The only error is running out of memory.
fn turns_from(
    image: &Image,
    options: &Options,
    machine: &Timed,
    desk: &mut Desk,
    opening: World,
    turns: (u32, u32),
    order: &[u8],
    accesses: (Access, Access),
) -> Result<(NextTurn, NextTurn), AllocError>
    requires order { IsOrder order.now }
    requires timed { machine.now.timed ≡ true }
    requires code { machine.now.code ≡ image.now.segments }
    requires memory { machine.now.opening.contents ≡ memory_of image.now options.now }
    requires opens { spot_of (memory_of image.now options.now) opening ≡ spot_in true (world_at_start (with_both (opening_of image.now options.now) turns.0 turns.1)) }
    requires access0 { next_access (code_of image.now) true (advance (processor (code_of image.now)) order.now (world_at_start (with_both (opening_of image.now options.now) turns.0 turns.1))).core0 ≡ Some accesses.0 }
    requires access1 { next_access (code_of image.now) true (advance (processor (code_of image.now)) order.now (world_at_start (with_both (opening_of image.now options.now) turns.0 turns.1))).core1 ≡ Some accesses.1 }
    ensures { IfOk result (λ r. AreNextTurns (code_of image.now) (advance (processor (code_of image.now)) order.now (world_at_start (with_both (opening_of image.now options.now) turns.0 turns.1))) r.0 r.1) }
{
    let world = turned_by(machine, desk, opening, order)?;
    let turn0 = next_turn(
        machine,
        world.side(0),
        world.changes.as_ref(),
        turns.0,
        accesses.0,
    );
    let turn1 = next_turn(
        machine,
        world.side(1),
        world.changes.as_ref(),
        turns.1,
        accesses.1,
    );
    Ok((turn0, turn1))
}

// One turn more than so many. Too many for a list of turns is running out of memory.
fn one_more(count: usize) -> Result<u32, AllocError>
    ensures { IfOk result (λ n. n ≡ count + 1) }
{
    if count >= 0xFFFF_FFFF {
        return Err(AllocError);
    }
    Ok(count as u32 + 1)
}

// The next turns of both cores after an order, timed. The only error is running out of memory.
fn timed_turns(
    alloc: Global,
    image: &Image,
    options: &Options,
    machine: &Timed,
    desk: &mut Desk,
    order: &[u8],
    accesses: (Access, Access),
) -> Result<(NextTurn, NextTurn), AllocError>
    requires order { IsOrder order.now }
    requires valid { IsValid options.now }
    requires timed { machine.now.timed ≡ true }
    requires code { machine.now.code ≡ image.now.segments }
    requires memory { machine.now.opening.contents ≡ memory_of image.now options.now }
    requires race { IsNextRace (code_of image.now) true (world_after (processor (code_of image.now)) true (opening_of image.now options.now) order.now) accesses.0 accesses.1 }
    ensures { IfOk result (λ r. AreNextTurns (code_of image.now) (world_after (processor (code_of image.now)) true (opening_of image.now options.now) order.now) r.0 r.1) }
{
    let opening = open(alloc, image, options, desk, true)?;
    let turns = (options.turns0, options.turns1);
    turns_from(
        image, options, machine, desk, opening, turns, order, accesses,
    )
}

// The next turns of both cores after an order, with any number of turns. The only error is running out of
// memory.
fn untimed_turns(
    alloc: Global,
    image: &Image,
    options: &Options,
    machine: &Timed,
    desk: &mut Desk,
    order: &[u8],
    accesses: (Access, Access),
) -> Result<(NextTurn, NextTurn), AllocError>
    requires order { IsOrder order.now }
    requires valid { IsValid options.now }
    requires timed { machine.now.timed ≡ true }
    requires code { machine.now.code ≡ image.now.segments }
    requires memory { machine.now.opening.contents ≡ memory_of image.now options.now }
    requires race { IsNextRace (code_of image.now) false (world_after (processor (code_of image.now)) false (opening_of image.now options.now) order.now) accesses.0 accesses.1 }
    ensures { IfOk result (λ r. AreNextTurns (code_of image.now) (world_after (processor (code_of image.now)) false (opening_of image.now options.now) order.now) r.0 r.1) }
{
    let more = one_more(order.len())?;
    let opening = open_with(alloc, image, options, desk, more)?;
    let turns = turns_from(
        image,
        options,
        machine,
        desk,
        opening,
        (more, more),
        order,
        accesses,
    )?;
    Ok(turns)
}

/// The next turns of both cores after an order, which make these accesses. The only error is running out of
/// memory.
///
/// Conditions: the order is one of two cores, after which the accesses conflict, the options are valid, and
/// the image's segments lie in one region each and share no byte, as those of every image that was read.
pub fn next_turns(
    alloc: Global,
    image: &Image,
    options: &Options,
    timed: bool,
    order: &[u8],
    accesses: (Access, Access),
) -> Result<(NextTurn, NextTurn), AllocError>
    requires order { IsOrder order.now }
    requires valid { IsValid options.now }
    requires fits { FitsImage image.now }
    requires placed { IsPlaced image.now.segments }
    requires race { IsNextRace (code_of image.now) timed (world_after (processor (code_of image.now)) timed (opening_of image.now options.now) order.now) accesses.0 accesses.1 }
    ensures { IfOk result (λ r. AreNextTurns (code_of image.now) (world_after (processor (code_of image.now)) timed (opening_of image.now options.now) order.now) r.0 r.1) }
{
    let machine = Timed::plain(alloc, image, options, true)?;
    let mut desk = Desk::new(alloc)?;
    if timed {
        timed_turns(alloc, image, options, &machine, &mut desk, order, accesses)
    } else {
        untimed_turns(alloc, image, options, &machine, &mut desk, order, accesses)
    }
}
