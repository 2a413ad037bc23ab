//! A run as scripts walk it.
use crate::frame_walk::FrameWalk;
use crate::running::{Printed, run_script};
use crate::script::Script;
use std::alloc::{AllocError, Global};
use std::marker::Model;
use xt_command_line::Beyond;
use xt_image::Image;
use xt_replay::{PastEnd, Replay};
use xt_trace::Run;

/// A run of an image at a position, as scripts walk it. It keeps what was last worked out of the frames of both cores, so
/// that a later question goes on from there. Contracts see the image, the run and the position.
pub struct Debugger<'a> {
    replay: Replay<'a>,
    kept: Option<FrameWalk<'a>>,
}

impl<'a> Model for Debugger<'a> {
    ghost use Rattle.xt_replay.specs.Shown.{ReplayState};

    ghost Value = { ReplayState };

    ghost use Rattle.xt_debug.specs.Runs.{IsOf};

    ghost view = { λ d. d.replay };

    ghost invariant = { λ d. IsOf d.kept d.replay.image d.replay.run };
}

// A `drop` of its own is one call at each place where a debugger is dropped.
impl Drop for Debugger<'_> {
    fn drop(self) {
        let Debugger { replay: _, kept: _ } = self;
    }
}

impl<'a> Debugger<'a> {
    ghost use Rattle.std.specs.Prelude.{◌≡◌, ◌<◌, ◌≤◌, All, IfOk, MatchResult};
    ghost use Rattle.xt_map.specs.Placing.{IsPlaced};
    ghost use Rattle.xt_core.specs.Runs.{IsRunOf};
    ghost use Rattle.xt_replay.specs.Shown.{replay_at};
    ghost use Rattle.xt_debug.specs.Grammar.{IsInRange};
    ghost use Rattle.xt_debug.specs.Runs.{RanScript};
    ghost use Rattle.xt_debug.specs.Searches.{end_of};

    /// The run at position 0. The only error is running out of memory.
    ///
    /// Conditions: the run is the image's. The image's segments lie in one region each and share no byte, as those of
    /// every image that was read.
    pub fn make(alloc: Global, image: &'a Image, run: &'a Run) -> Result<Debugger<'a>, AllocError>
        requires run { IsRunOf image.now run.now }
        requires placed { IsPlaced image.now.segments }
        ensures { IfOk result (λ d. d ≡ record { image = image.now; run = run.now; position = 0 }) }
    {
        Ok(Debugger {
            replay: Replay::make(alloc, image, run)?,
            kept: None,
        })
    }

    /// Stands at a position. PastEnd comes exactly beyond the end of the schedule, and then nothing changes.
    pub fn seek(&mut self, position: u32) -> Result<(), PastEnd>
        ensures { MatchResult result
            (λ _. (position ≤ end_of self.old.run) × (self.new ≡ replay_at self.old position))
            (λ _. (end_of self.old.run < position) × (self.new ≡ self.old)) }
    {
        self.replay.seek(position)
    }

    /// Runs the commands of a script, one after another, from where it stands, and answers what
    /// they print. A command that prints `past end` leads beyond the run; the script ends there, or goes on, as is
    /// asked for.
    ///
    /// - `go C N` moves directly before step N of core C, as `Replay::goto`; `next N` and `back N` move
    ///   by N positions. Each prints `past end`, and moves nowhere, where the run has no such position. `end`
    ///   moves to the position after the last step.
    /// - `break C ADDR,ADDR,..` moves to the first later position where core C is next, with one of these
    ///   program counters; `watch ADDR` directly after the first step from here on that stores into the word
    ///   at this address, in a memory region. `prior C ADDR,ADDR,..` moves to the last earlier position where
    ///   core C is next, with one of these program counters; `last ADDR` directly before the last step before
    ///   here that stores into the word. Each prints `none`, and moves nowhere, if there is none.
    /// - `trace N` moves as `next N` does, and prints the line of each turn on the way, as `TurnLines`
    ///   gives it.
    /// - `regs C` prints `core C step N pc ADDR ps WORD wb D ws HHHH`, with the number of the core's
    ///   next step, and four lines `aI` with four registers each.
    /// - `ring C` prints `core C`, and for each window W a line `W:` with the four registers of the ring
    ///   that are its a0 to a3, ` base` where W is WINDOWBASE, and ` start` where its bit of WINDOWSTART
    ///   is set.
    /// - `special C` prints `core C`, and for each register that RSR reads, by their numbers, and for
    ///   THREADPTR a line `NAME WORD`.
    /// - `mem ADDR N` prints `mem ADDR` and N bytes, `--` for one outside memory and constants; after
    ///   the last address comes the first. `words ADDR N` prints `words ADDR` and N words, each with
    ///   the digits of its four bytes, the last one first.
    /// - `frames C` prints `frames C depth D`, the number of frames of callers after the judged steps
    ///   before the position, or `frames C none` where the window handlers do not pass their check or a
    ///   breach of the stack discipline comes before it.
    /// - `calls C` prints `calls C`, and for each frame from the newest to the opening frame a line
    ///   `J pc ADDR sp ADDR size N call M`, where J is the number of its callers: where it goes on, which is the
    ///   program counter for the newest, and for another the address to which the frame that it called
    ///   returns (`--------` if that frame's a0 is not known); its stack pointer; and the bytes from there
    ///   up to its caller's, or up to the end of the stack; and 4, 8 or 12 for CALL4, CALL8 or CALL12, by
    ///   which it called, without ` call M` for the newest. Or `calls C none`, where `frames C` prints that.
    ///
    /// - `events` prints for each core, whatever the position, which kinds of turns the whole run has, as
    ///   `events_text` of `xt_events` gives them.
    ///
    /// Each line ends with a newline. Addresses, words and registers are eight upper-case hexadecimal
    /// digits, WINDOWSTART four, a byte two; other numbers are decimal. The only error is running out of
    /// memory; it then stands where some of the first commands leave it.
    ///
    /// Condition: each core is 0 or 1, and each N of `mem` and `words` at most 64, as in every script
    /// that was parsed.
    pub fn run(
        &mut self,
        alloc: Global,
        script: &Script,
        beyond: Beyond,
    ) -> Result<Printed, AllocError>
        requires { All IsInRange script.now }
        ensures { RanScript beyond script.now self.old result self.new }
    {
        run_script(alloc, &mut self.replay, &mut self.kept, script, beyond)
    }
}
