//! Running the commands of a script.
ghost use Rattle.std.specs.Prelude.{◌≡◌, ◌<◌, ◌+◌, ◌++◌, [], false, not, All, MatchResult, OnOk, Some, if◌then◌else◌};
ghost use Rattle.xt_events.specs.Events.{events_text};
ghost use Rattle.xt_events.specs.Lines.{turns_text};
ghost use Rattle.xt_debug.specs.Grammar.{IsInRange};
ghost use Rattle.xt_debug.specs.Printed.{none_found, past_end};
ghost use Rattle.xt_debug.specs.Runs.{Arrives, IsOf, Ran, RanScript};
ghost use Rattle.xt_debug.specs.Scripts.{Outcome, outcome, position_back, shows, stops};
ghost use Rattle.xt_debug.specs.Searches.{end_of, step_position, within};

use crate::frame_walk::FrameWalk;
use crate::kept_walk::{show_calls, show_frames};
use crate::printing::push_regs;
use crate::ring::push_ring;
use crate::script::{Command, Script};
use crate::searching::{find_ahead, find_behind, reach};
use crate::special::push_special_registers;
use crate::turns::push_turns;
use std::alloc::{AllocError, Global};
use xt_command_line::Beyond;
use xt_events::events_text;
use xt_map::Text;
use xt_replay::{Replay, end_of, push_mem, push_words};

// Moves directly before a core's step of this number, where its trace is that long.
fn go(replay: &mut Replay, core: u8, step: u32) -> bool
    requires { core < 2 }
    ensures { Arrives (step_position replay.old.run core step) replay.old result replay.new }
{
    replay.goto(core, step).is_ok()
}

// Moves so many positions on, where the run has that position.
fn step_on(replay: &mut Replay, count: u32) -> bool
    ensures { Arrives (within replay.old.run (replay.old.position + count)) replay.old result replay.new }
{
    let position = replay.position();
    count <= end_of(replay) - position && replay.seek(position + count).is_ok()
}

// Moves so many positions back, where there are so many.
fn step_back(replay: &mut Replay, count: u32) -> bool
    ensures { Arrives (position_back replay.old.run replay.old.position count) replay.old result replay.new }
{
    let position = replay.position();
    count <= position && replay.seek(position - count).is_ok()
}

// Appends why there is no position to move to, where none was found.
fn push_refusal(out: &mut Vec<u8>, found: bool, refusal: &str) -> Result<(), AllocError>
    ensures { MatchResult result (λ _. out.new.items ≡ out.old.items ++ (if found then [] else refusal.now)) (λ _. found ≡ false) }
{
    if found {
        Ok(())
    } else {
        out.extend_from_slice(refusal.as_bytes())
    }
}

// Appends that a command found no position, where it found none. It did not lead beyond the run.
fn push_none(out: &mut Vec<u8>, found: bool) -> Result<bool, AllocError>
    ensures { MatchResult result (λ beyond. (out.new.items ≡ out.old.items ++ (if found then [] else none_found)) × (beyond ≡ false)) (λ _. found ≡ false) }
{
    push_refusal(out, found, "none\n")?;
    Ok(false)
}

// Appends that a command led beyond the run, where it did not move. The answer is whether it did so.
fn push_past_end(out: &mut Vec<u8>, moved: bool) -> Result<bool, AllocError>
    ensures { MatchResult result (λ beyond. (out.new.items ≡ out.old.items ++ (if moved then [] else past_end)) × (beyond ≡ not moved)) (λ _. moved ≡ false) }
{
    push_refusal(out, moved, "past end\n")?;
    Ok(!moved)
}

// Moves to the end of the run.
fn go_to_end(replay: &mut Replay) -> bool
    ensures { Arrives (Some (end_of replay.old.run)) replay.old result replay.new }
{
    replay.seek(end_of(replay)).is_ok()
}

// Goes so many positions on, and appends the lines of the turns on the way, where the run has that
// position; otherwise appends why not. The answer is whether that leads beyond the run.
fn trace(
    alloc: Global,
    replay: &mut Replay,
    count: u32,
    out: &mut Vec<u8>,
) -> Result<bool, AllocError>
    ensures { let p = replay.old.position in
        Ran (shows (within replay.old.run (p + count)) (turns_text replay.old.image replay.old.run p (p + count)) p) replay.old out.old.items result replay.new out.new.items }
{
    let position = replay.position();
    if end_of(replay) - position < count {
        return push_past_end(out, false);
    }
    match push_turns(alloc, out, replay, position + count) {
        Ok(()) => Ok(false),
        Err(error) => {
            reach(replay, position);
            Err(error)
        }
    }
}

// Appends the kinds of turns that a run has.
fn push_events(alloc: Global, out: &mut Vec<u8>, replay: &Replay) -> Result<(), AllocError>
    ensures { OnOk result (out.new.items ≡ out.old.items ++ events_text replay.now.image replay.now.run) }
{
    let text = events_text(alloc, replay.image(), replay.run())?;
    out.extend_from_slice(text.as_slice())
}

// One command, whose text is appended. The answer is whether it led beyond the run.
fn run_command<'a>(
    alloc: Global,
    replay: &mut Replay<'a>,
    kept: &mut Option<FrameWalk<'a>>,
    command: &Command,
    out: &mut Vec<u8>,
) -> Result<bool, AllocError>
    requires range { IsInRange command.now }
    requires kept { IsOf kept.old replay.old.image replay.old.run }
    ensures ran { Ran (outcome replay.old.image replay.old.run command.now replay.old.position) replay.old out.old.items result replay.new out.new.items }
    ensures kept { IsOf kept.new replay.old.image replay.old.run }
{
    match command {
        Command::Go(core, step) => push_past_end(out, go(replay, *core, *step)),
        Command::End => push_past_end(out, go_to_end(replay)),
        Command::Next(count) => push_past_end(out, step_on(replay, *count)),
        Command::Back(count) => push_past_end(out, step_back(replay, *count)),
        Command::Ahead(target) => push_none(out, find_ahead(replay, target)),
        Command::Behind(target) => push_none(out, find_behind(replay, target)),
        Command::Trace(count) => trace(alloc, replay, *count, out),
        Command::Regs(core) => {
            let state = replay.state();
            push_regs(alloc, out, *core, state.step(*core), state.regs(*core))?;
            Ok(false)
        }
        Command::Ring(core) => {
            push_ring(alloc, out, *core, replay.state().regs(*core))?;
            Ok(false)
        }
        Command::Special(core) => {
            push_special_registers(alloc, out, *core, replay.state().regs(*core))?;
            Ok(false)
        }
        Command::Mem(addr, count) => {
            push_mem(alloc, out, &replay.state(), *addr, *count)?;
            Ok(false)
        }
        Command::Words(addr, count) => {
            push_words(alloc, out, &replay.state(), *addr, *count)?;
            Ok(false)
        }
        Command::Frames(core) => {
            show_frames(alloc, out, *core, replay, kept)?;
            Ok(false)
        }
        Command::Calls(core) => {
            show_calls(alloc, out, *core, replay, kept)?;
            Ok(false)
        }
        Command::Events => {
            push_events(alloc, out, replay)?;
            Ok(false)
        }
    }
}

/// What a script printed.
#[derive(Drop)]
pub struct Printed {
    /// Its text.
    pub text: Text,
    /// The script led beyond the run, and ended there.
    pub beyond: bool,
}

// A script ends at a command that led beyond the run, or not.
fn stops(beyond: Beyond, led_beyond: bool) -> bool
    ensures { (o : Outcome) → led_beyond ≡ o.beyond → result ≡ stops beyond o }
{
    match beyond {
        Beyond::Ends => led_beyond,
        Beyond::GoesOn => false,
    }
}

/// Runs the commands of a script, as `run` of `Debugger` says, with a walk of the judge that is kept.
pub fn run_script<'a>(
    alloc: Global,
    replay: &mut Replay<'a>,
    kept: &mut Option<FrameWalk<'a>>,
    script: &Script,
    beyond: Beyond,
) -> Result<Printed, AllocError>
    requires range { All IsInRange script.now }
    requires kept { IsOf kept.old replay.old.image replay.old.run }
    ensures ran { RanScript beyond script.now replay.old result replay.new }
    ensures kept { IsOf kept.new replay.old.image replay.old.run }
{
    let mut out = Vec::new(alloc);
    for command in script.as_slice() {
        let led_beyond = run_command(alloc, replay, kept, command, &mut out)?;
        if stops(beyond, led_beyond) {
            return Ok(Printed {
                text: Text::new(out),
                beyond: true,
            });
        }
    }
    Ok(Printed {
        text: Text::new(out),
        beyond: false,
    })
}
