//! Orders with moments that are tried where a search does not come to its end.
ghost use Rattle.std.specs.Prelude.{◌≡◌, ◌+◌, ◌≤◌, ◌<◌, ◌^◌, IfOk, IfSome, OnOk};
ghost use Rattle.std.specs.List.{All};
ghost use Rattle.xt_map.specs.Placing.{IsPlaced};
ghost use Rattle.xt_trace.specs.Validity.{IsValid};
ghost use Rattle.xt_image.specs.ImageParts.{FitsImage};
ghost use Rattle.xt_moments.specs.Moments.{IsMove};
ghost use Rattle.xt_moment_search.specs.Told.{AreReal};

use crate::confirming::list_order;
use crate::found::Found;
use crate::machine::Moments;
use std::alloc::AllocError;
use xt_image::Image;
use xt_moments::{Actors, Move};
use xt_trace::Options;

// How many orders are tried, and how many moves each has at most.
const TRIES: u32 = 16;

const LONGEST: u32 = 100_000;

// What cuts a number that looks like chance to a wait of so many moves at most.
const WAITS: [u64; 8] = [7, 15, 31, 63, 127, 255, 511, 1023];

// How many moves are made before an armed timer fires.
#[derive(Clone, Copy)]
struct Wait {
    chance: u64,
    most: u64,
    left: u64,
}

impl Wait {
    // The waits of a try.
    fn of(number: u32) -> Wait {
        Wait {
            chance: number as u64,
            most: WAITS[(number % 8) as usize],
            left: 0,
        }
        .again()
    }

    // The next wait.
    fn again(self) -> Wait {
        let chance = self
            .chance
            .wrapping_mul(6_364_136_223_846_793_005)
            .wrapping_add(1_442_695_040_888_963_407);
        Wait {
            chance,
            most: self.most,
            left: (chance / 0x1_0000_0000) & self.most,
        }
    }

    // After a move before which a timer was armed.
    fn past(self) -> Wait {
        if self.left == 0 {
            return self.again();
        }
        Wait {
            chance: self.chance,
            most: self.most,
            left: self.left - 1,
        }
    }
}

// An armed timer of a core, if there is one.
fn armed_timer(world: &Actors, core: u8) -> Option<Move>
    requires { core < 2 }
    ensures { IfSome result IsMove }
{
    let actor = if core == 0 {
        &world.core0
    } else {
        &world.core1
    };
    for timer in 0..3u8 {
        if actor.is_armed(timer) {
            return Some(Move::Fires(core, timer));
        }
    }
    None
}

// An armed timer, if there is one.
fn armed(world: &Actors) -> Option<Move>
    ensures { IfSome result IsMove }
{
    match armed_timer(world, 0) {
        Some(fires) => Some(fires),
        None => armed_timer(world, 1),
    }
}

// That an armed timer fires, if there is one and nothing is left of the wait, else a turn of this core.
fn next_move(fires: Option<Move>, core: u8, left: u64) -> Move
    requires core { core < 2 }
    requires fires { IfSome fires IsMove }
    ensures { IsMove result }
{
    match fires {
        Some(fire) => { if left == 0 { fire } else { Move::Turn(core) } }
        None => Move::Turn(core),
    }
}

// The core that takes the turn after one of this core.
fn next_core(world: &Actors, core: u8) -> u8
    ensures { result < 2 }
{
    if world.core0.has_stopped() {
        return 1;
    }
    if core == 0 && !world.core1.has_stopped() {
        return 1;
    }
    0
}

// An order in which both cores take turns, and an armed timer fires after some of them. The only error
// is running out of memory.
fn order_of_try(
    machine: &Moments,
    image: &Image,
    options: &Options,
    number: u32,
) -> Result<Vec<Move>, AllocError>
    requires { IsValid options.now }
    ensures { IfOk result (λ order. All IsMove order.items) }
{
    let ground = &machine.ground;
    let mut order = Vec::new(machine.alloc);
    let mut world = Actors::open(machine.alloc, image, options);
    let mut wait = Wait::of(number);
    let mut core = 0;
    for _ in 0..LONGEST {
        if world.have_stopped() {
            return Ok(order);
        }
        let fires = armed(&world);
        let made = next_move(fires, core, wait.left);
        if fires.is_some() {
            wait = wait.past();
        }
        order.push(made)?;
        world = world.moved(&ground.code, &ground.opening, 0, made)?;
        core = next_core(&world, core);
    }
    Ok(order)
}

/// Tries some orders with moments, and lists what comes out of them. The only error is running out of
/// memory.
///
/// Conditions: those of `outcomes_of`.
pub fn try_orders(
    machine: &Moments,
    image: &Image,
    options: &Options,
    words: &[u32],
    list: &mut Vec<Found>,
) -> Result<(), AllocError>
    requires valid { IsValid options.now }
    requires fits { FitsImage image.now }
    requires placed { IsPlaced image.now.segments }
    requires words { All (λ a. a + 4 ≤ 2 ^ 32) words.now }
    requires real { AreReal image.now options.now words.now list.old.items }
    ensures { OnOk result (AreReal image.now options.now words.now list.new.items) }
{
    for number in 0..TRIES {
        let order = order_of_try(machine, image, options, number)?;
        list_order(machine, image, options, words, order, list)?;
    }
    Ok(())
}
