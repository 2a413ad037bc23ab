//! Which moves a search tries in a world.
ghost use Rattle.std.specs.Prelude.{◌≡◌, ◌<◌, ◌++◌, IfOk, OnOk};
ghost use Rattle.xt_moment_search.specs.KnownCores.{core_of};
ghost use Rattle.xt_moment_search.specs.Covering.{choices_in, core_choices, fire_choice, turn_choice};

use crate::sides::Side;
use crate::worlds::World;
use std::alloc::{AllocError, Global};
use xt_moments::Move;

// Appends that a timer of a core fires, if it is armed. The only error is running out of memory.
fn push_fire(moves: &mut Vec<Move>, side: &Side, core: u8, timer: u8) -> Result<(), AllocError>
    requires { timer < 3 }
    ensures { OnOk result (moves.new.items ≡ moves.old.items ++ fire_choice core timer (core_of side.now)) }
{
    if side.is_armed(timer) {
        moves.push(Move::Fires(core, timer))?;
    }
    Ok(())
}

// Appends the turn of a core, if it has not stopped. The only error is running out of memory.
fn push_turn(moves: &mut Vec<Move>, side: &Side, core: u8) -> Result<(), AllocError>
    ensures { OnOk result (moves.new.items ≡ moves.old.items ++ turn_choice core (core_of side.now)) }
{
    if !side.stopped {
        moves.push(Move::Turn(core))?;
    }
    Ok(())
}

// Appends the moves of a core: its turn, and each armed timer. The only error is running out of
// memory.
fn push_moves(moves: &mut Vec<Move>, side: &Side, core: u8) -> Result<(), AllocError>
    ensures { OnOk result (moves.new.items ≡ moves.old.items ++ core_choices core (core_of side.now)) }
{
    push_turn(moves, side, core)?;
    push_fire(moves, side, core, 0)?;
    push_fire(moves, side, core, 1)?;
    push_fire(moves, side, core, 2)
}

/// The moves that a search tries in a world. The only error is running out of memory.
pub fn choices(alloc: Global, world: &World) -> Result<Vec<Move>, AllocError>
    ensures { IfOk result (λ moves. moves.items ≡ choices_in world.now) }
{
    let mut moves = Vec::new(alloc);
    push_moves(&mut moves, world.side(0), 0)?;
    push_moves(&mut moves, world.side(1), 1)?;
    Ok(moves)
}
