//! How the cores of a run end: by `break 1, 15` with 0 in a2, or otherwise.
ghost use Rattle.std.specs.Prelude.{◌≡◌, ◌<◌, IfOk, string_bytes};
ghost use Rattle.std.specs.Option.{option_or};
ghost use Rattle.xt_core.specs.Runs.{IsRunOf};
ghost use Rattle.xt_map.specs.Fetching.{fetch_at};
ghost use Rattle.xt_image.specs.ImageParts.{IsWellFormed};
ghost use Rattle.xt_map.specs.Memory.{constant_byte};
ghost use Rattle.xt_replay.specs.Shown.{state_in};
ghost use Rattle.xt_runs.specs.Exits.{break_line, is_exit, is_exit_at, is_used_up, stop_line, unmet_at, unmet_exit, unmet_in_state, unmet_of_core, value_line};

use crate::memory::at_end;
use std::alloc::{AllocError, Global};
use xt_codec::{Fetch, instruction_at};
use xt_image::{Image, well_formed_is_placed};
use xt_isa::Insn;
use xt_isa::system::{System, TrapName};
use xt_map::{Constants, Text};
use xt_replay::State;
use xt_rows::natural;
use xt_trace::{Run, Stop};
use xt_window::Windows;
use xt_word::hexadecimal;

/// A core that had turns ended without a BREAK.
pub fn is_used_up(turns: u32, stop: Stop) -> bool
    ensures { result ≡ is_used_up turns stop }
{
    match stop {
        Stop::Break => false,
        Stop::Turns => turns > 0,
    }
}

/// The line of a core that ended without a BREAK.
pub fn stop_line(alloc: Global, core: u8) -> Result<Text, AllocError>
    ensures { IfOk result (λ line. line ≡ stop_line core) }
{
    let line = format!(in alloc; "core {core} stop turns\n")?;
    Ok(Text::new(line.into_bytes()))
}

// The instruction is `break 1, 15`.
#[tactic(auto, unfolding(crate::specs::Exits::is_exit))]
fn is_exit(i: Insn) -> bool
    ensures { result ≡ is_exit i }
{
    match i {
        Insn::System(System::Trap(TrapName::Break, level, number)) => {
            natural(level) == 1 && natural(number) == 15
        }
        _ => false,
    }
}

// The instruction at an address is.
fn is_exit_at(code: &Constants, pc: u32) -> bool
    ensures { result ≡ is_exit_at (fetch_at (constant_byte code.now) pc) }
{
    match instruction_at::<Text>(code, pc) {
        Fetch::Insn(i, _) => is_exit(i),
        Fetch::Fails(_) | Fetch::Nothing => false,
    }
}

// The line of a core that ended by another BREAK.
fn break_line(alloc: Global, core: u8, pc: u32) -> Result<String, AllocError>
    ensures { IfOk result (λ line. string_bytes line ≡ break_line core pc) }
{
    let pc = hexadecimal(alloc, pc)?;
    format!(in alloc; "core {core} stop break pc {pc}\n")
}

// The line of a core that ended with this in a2.
fn value_line(alloc: Global, core: u8, value: u32) -> Result<String, AllocError>
    ensures { IfOk result (λ line. string_bytes line ≡ value_line core value) }
{
    let value = hexadecimal(alloc, value)?;
    format!(in alloc; "core {core} a2 {value}\n")
}

// The line of a core that stands at a BREAK, if it does not end so.
fn unmet_at(
    alloc: Global,
    core: u8,
    exits: bool,
    pc: u32,
    value: u32,
) -> Result<Option<Text>, AllocError>
    ensures { IfOk result (λ line. line ≡ unmet_at core exits pc value) }
{
    if !exits {
        let line = break_line(alloc, core, pc)?;
        return Ok(Some(Text::new(line.into_bytes())));
    }
    if value == 0 {
        return Ok(None);
    }
    let line = value_line(alloc, core, value)?;
    Ok(Some(Text::new(line.into_bytes())))
}

// The same of a core in the state in which it ended.
fn unmet_in_state(
    alloc: Global,
    core: u8,
    code: &Constants,
    state: &State,
) -> Result<Option<Text>, AllocError>
    requires { core < 2 }
    ensures { IfOk result (λ line. line ≡ unmet_in_state core (constant_byte code.now) (state_in core state.now)) }
{
    let regs = state.regs(core);
    let exits = is_exit_at(code, regs.pc);
    unmet_at(alloc, core, exits, regs.pc, regs.win.read(2))
}

// The line of a core that had so many turns and ended so, where it is there.
fn unmet_of_core(
    alloc: Global,
    core: u8,
    turns: u32,
    stop: Stop,
    code: &Constants,
    state: &State,
) -> Result<Option<Text>, AllocError>
    requires { core < 2 }
    ensures { IfOk result (λ line. line ≡ unmet_of_core core turns stop (unmet_in_state core (constant_byte code.now) (state_in core state.now))) }
{
    match stop {
        Stop::Break => unmet_in_state(alloc, core, code, state),
        Stop::Turns => {
            if turns > 0 {
                Ok(Some(stop_line(alloc, core)?))
            } else {
                Ok(None)
            }
        }
    }
}

// This line, or else the other.
fn first_line(first: Option<Text>, second: Option<Text>) -> Option<Text>
    ensures { result ≡ option_or first second }
{
    match first {
        Some(line) => Some(line),
        None => second,
    }
}

// The line of the first core of a run that did not end so, in the states in which the run left both.
fn unmet_of_cores(
    alloc: Global,
    run: &Run,
    code: &Constants,
    state: &State,
) -> Result<Option<Text>, AllocError>
    ensures { IfOk result (λ line. line ≡ option_or
        (unmet_of_core 0 run.now.options.turns0 run.now.trace0.stop (unmet_in_state 0 (constant_byte code.now) (state_in 0 state.now)))
        (unmet_of_core 1 run.now.options.turns1 run.now.trace1.stop (unmet_in_state 1 (constant_byte code.now) (state_in 1 state.now)))) }
{
    let options = &run.options;
    let first = unmet_of_core(alloc, 0, options.turns0, run.trace0.stop, code, state)?;
    let second = unmet_of_core(alloc, 1, options.turns1, run.trace1.stop, code, state)?;
    Ok(first_line(first, second))
}

/// The line of the first core of a run that had turns and did not end by `break 1, 15` with 0 in a2: that it used up its turns, or at
/// which address another BREAK stands, or what a2 holds. The only error is running out of memory.
///
/// Conditions: the image is well formed, and the run is one of this image.
pub fn unmet_exit(alloc: Global, image: &Image, run: &Run) -> Result<Option<Text>, AllocError>
    requires image { IsWellFormed image.now }
    requires run { IsRunOf image.now run.now }
    ensures { IfOk result (λ line. line ≡ unmet_exit image.now run.now) }
{
    well_formed_is_placed();
    let code = Constants::make(alloc, image.segments.as_slice())?;
    let replay = at_end(alloc, image, run)?;
    let state = replay.state();
    unmet_of_cores(alloc, run, &code, &state)
}
