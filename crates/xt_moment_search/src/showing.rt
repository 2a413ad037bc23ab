//! The turns of an order with moments as lines.
ghost use Rattle.std.specs.Prelude.{◌≡◌, ◌++◌, OnOk};
ghost use Rattle.std.specs.List.{All};
ghost use Rattle.xt_map.specs.Memory.{constant_byte};
ghost use Rattle.xt_map.specs.Placing.{IsPlaced};
ghost use Rattle.xt_trace.specs.Validity.{IsValid};
ghost use Rattle.xt_image.specs.ImageParts.{FitsImage};
ghost use Rattle.xt_search.specs.Changed.{contents_of};
ghost use Rattle.xt_exec.specs.States.{file_state};
ghost use Rattle.xt_events.specs.Lines.{window_of};
ghost use Rattle.xt_moments.specs.Made.{world_of};
ghost use Rattle.xt_moments.specs.Moments.{IsMove};
ghost use Rattle.xt_moment_search.specs.ShownTurns.{move_line, move_lines, next_line, numbers_past, order_lines, shown_order, stuck_order};

use crate::answers::Answers;
use crate::ground::Ground;
use crate::stuck::Stuck;
use std::alloc::{AllocError, Global};
use xt_command_line::Shown;
use xt_events::{TurnLine, Window, push_turn};
use xt_exec::Regs;
use xt_image::Image;
use xt_moments::{Actor, Actors, Move};
use xt_search::Changes;
use xt_trace::Options;
use xt_window::{WindowFile, Windows};

// The windows of a core.
fn window_of(regs: &Regs<WindowFile>) -> Window
    ensures { result ≡ window_of (file_state regs.now) }
{
    Window {
        base: regs.win.base(),
        start: regs.win.start(),
    }
}

// Appends the line of a core's next turn, which has this number, if the core has not stopped. The
// only error is running out of memory.
fn push_next(
    alloc: Global,
    out: &mut Vec<u8>,
    ground: &Ground,
    changes: &Changes,
    core: u8,
    number: u32,
    actor: &Actor,
) -> Result<(), AllocError>
    ensures { OnOk result (out.new.items ≡ out.old.items ++ next_line (constant_byte ground.now.code) core number actor.now (contents_of ground.now.opening.contents changes.now)) }
{
    if actor.has_stopped() {
        return Ok(());
    }
    let before = actor.begun(0);
    let (record, after) = actor.next_turn(&ground.code, &ground.opening, changes, 0);
    let told = TurnLine {
        core,
        step: number,
        turn: Some(record),
        before: window_of(&before),
        after: window_of(&after),
        next: after.pc,
    };
    push_turn(alloc, out, &ground.code, &told, &record)
}

// Appends the line of a move, if it is a turn. The only error is running out of memory.
fn push_move(
    alloc: Global,
    out: &mut Vec<u8>,
    ground: &Ground,
    world: &Actors,
    numbers: (u32, u32),
    made: Move,
) -> Result<(), AllocError>
    ensures { OnOk result (out.new.items ≡ out.old.items ++ move_line (constant_byte ground.now.code) numbers made (world_of ground.now.opening.contents world.now)) }
{
    let (number0, number1) = numbers;
    match made {
        Move::Turn(0) => push_next(alloc, out, ground, &world.changes, 0, number0, &world.core0),
        Move::Turn(_) => push_next(alloc, out, ground, &world.changes, 1, number1, &world.core1),
        Move::Fires(_, _) => Ok(()),
    }
}

// The numbers of both cores' next turns after a move.
fn numbers_past(made: Move, numbers: (u32, u32)) -> (u32, u32)
    ensures { result ≡ numbers_past made numbers }
{
    let (number0, number1) = numbers;
    match made {
        Move::Turn(0) => (number0.wrapping_add(1), number1),
        Move::Turn(_) => (number0, number1.wrapping_add(1)),
        Move::Fires(_, _) => numbers,
    }
}

// Appends the lines of an order's turns from this world on. The only error is running out of
// memory.
fn push_moves(
    alloc: Global,
    out: &mut Vec<u8>,
    ground: &Ground,
    first: Actors,
    order: &[Move],
) -> Result<(), AllocError>
    requires { All IsMove order.now }
    ensures { OnOk result (out.new.items ≡ out.old.items ++ move_lines (constant_byte ground.now.code) (0, 0) order.now (world_of ground.now.opening.contents first)) }
{
    let mut world = first;
    let mut numbers: (u32, u32) = (0, 0);
    for made in order {
        push_move(alloc, out, ground, &world, numbers, *made)?;
        world = world.moved(&ground.code, &ground.opening, 0, *made)?;
        numbers = numbers_past(*made, numbers);
    }
    Ok(())
}

/// Appends the lines of an order's turns, as `trace` prints them, where CCOUNT is 0 at each turn. The
/// only error is running out of memory.
///
/// Conditions: the options are valid, and the image's segments lie in one region each and share no
/// byte, as those of every image that was read.
pub fn push_order(
    alloc: Global,
    out: &mut Vec<u8>,
    image: &Image,
    options: &Options,
    order: &[Move],
) -> Result<(), AllocError>
    requires valid { IsValid options.now }
    requires fits { FitsImage image.now }
    requires placed { IsPlaced image.now.segments }
    requires moves { All IsMove order.now }
    ensures { OnOk result (out.new.items ≡ out.old.items ++ order_lines image.now options.now order.now) }
{
    let ground = Ground::make(alloc, image, options)?;
    let first = Actors::open(alloc, image, options);
    push_moves(alloc, out, &ground, first, order)?;
    Ok(())
}

// The order that no order continues to an end, without a move if there is none.
fn stuck_order(stuck: &Stuck) -> &[Move]
    ensures { result.now ≡ stuck_order stuck.now }
{
    match stuck {
        Stuck::Order(order) => order.as_slice(),
        Stuck::Never | Stuck::Unknown => &[],
    }
}

/// The order of which the turns are shown, without a move if there is none.
pub fn shown_order(answers: &Answers, shown: Shown) -> &[Move]
    ensures { result.now ≡ shown_order shown answers.now }
{
    match shown {
        Shown::Nothing => &[],
        Shown::Outcome(number) => match answers.found.get((number as usize).saturating_sub(1)) {
            Some(found) => found.order.as_slice(),
            None => &[],
        },
        Shown::Stuck => stuck_order(&answers.stuck),
    }
}
