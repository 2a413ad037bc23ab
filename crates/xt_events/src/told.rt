//! What is told of a turn.
ghost use Rattle.std.specs.Prelude.{◌≡◌, ◌+◌, ◌<◌, Some, length, slice_get};
ghost use Rattle.xt_core.specs.Positions.{schedule_in};
ghost use Rattle.xt_core.specs.Runs.{records_of};
ghost use Rattle.xt_replay.specs.Shown.{replay_at, shown_at, state_in, step_in};
ghost use Rattle.xt_events.specs.Lines.{told_at, window_of};

use xt_replay::Replay;
use xt_trace::StepRecord;
use xt_window::Windows;

/// WINDOWBASE and WINDOWSTART.
#[derive(Clone, Copy)]
pub struct Window {
    pub base: u8,
    pub start: u16,
}

/// A turn of a core: its number, its record, the windows before and after it, and the program counter
/// after it.
#[derive(Clone, Copy)]
pub struct TurnLine {
    pub core: u8,
    pub step: u32,
    pub turn: Option<StepRecord>,
    pub before: Window,
    pub after: Window,
    pub next: u32,
}

// The windows of a core.
fn window_in(replay: &Replay, core: u8) -> Window
    requires { core < 2 }
    ensures { result ≡ window_of (state_in core (shown_at replay.now.image replay.now.run replay.now.position)) }
{
    let state = replay.state();
    let regs = state.regs(core);
    Window {
        base: regs.win.base(),
        start: regs.win.start(),
    }
}

/// What is told of the next turn, which is this core's and has this record; goes behind it.
pub fn tell_turn(replay: &mut Replay, core: u8, turn: StepRecord) -> TurnLine
    requires core { core < 2 }
    requires turn { slice_get (records_of core replay.old.image replay.old.run).records (step_in core (shown_at replay.old.image replay.old.run replay.old.position)) ≡ Some turn }
    requires more { replay.old.position < length (schedule_in replay.old.run) }
    ensures told { result ≡ told_at replay.old.image replay.old.run replay.old.position core }
    ensures moved { replay.new ≡ replay_at replay.old (replay.old.position + 1) }
{
    let step = replay.state().step(core);
    let before = window_in(replay, core);
    replay.step();
    TurnLine {
        core,
        step,
        turn: Some(turn),
        before,
        after: window_in(replay, core),
        next: replay.state().regs(core).pc,
    }
}
