//! The lines of the two turns of a race.
ghost use Rattle.std.specs.Prelude.{◌≡◌, ◌++◌, OnOk};
ghost use Rattle.xt_map.specs.Memory.{constant_byte};
ghost use Rattle.xt_judged.specs.RaceLines.{told_of, turn_line, turn_lines};

use std::alloc::{AllocError, Global};
use xt_events::{TurnLine, Window, push_turn};
use xt_map::Constants;
use xt_outcomes::{NextRace, NextTurn};

// What `trace` tells of a core's turn that moves no window.
fn told_of(core: u8, next: &NextTurn) -> TurnLine
    ensures { result ≡ told_of core next.now }
{
    let window = Window { base: 0, start: 0 };
    TurnLine {
        core,
        step: next.turn,
        turn: Some(next.step),
        before: window,
        after: window,
        next: next.step.pc,
    }
}

// Appends the line of a core's turn that moves no window.
fn push_line(
    alloc: Global,
    out: &mut Vec<u8>,
    code: &Constants,
    core: u8,
    next: &NextTurn,
) -> Result<(), AllocError>
    ensures { OnOk result (out.new.items ≡ out.old.items ++ turn_line (constant_byte code.now) core next.now) }
{
    let told = told_of(core, next);
    push_turn(alloc, out, code, &told, &next.step)
}

/// Appends the lines that `trace` prints of the two turns of a race, if there is one. The only error is
/// running out of memory.
pub fn push_turns(
    alloc: Global,
    out: &mut Vec<u8>,
    code: &Constants,
    race: &Option<NextRace>,
) -> Result<(), AllocError>
    ensures { OnOk result (out.new.items ≡ out.old.items ++ turn_lines (constant_byte code.now) race.now) }
{
    match race {
        Some(race) => {
            push_line(alloc, out, code, 0, &race.turn0)?;
            push_line(alloc, out, code, 1, &race.turn1)
        }
        None => Ok(()),
    }
}
