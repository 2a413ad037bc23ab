//! The turns of a run as lines, in the order of its schedule.
ghost use Rattle.std.specs.Prelude.{◌≡◌, ◌+◌, ◌++◌, ◌<◌, OnOk, length};
ghost use Rattle.xt_core.specs.Positions.{schedule_in};
ghost use Rattle.xt_replay.specs.Shown.{replay_at};
ghost use Rattle.xt_events.specs.Lines.{line_at};

use crate::filter::Filter;
use crate::told::tell_turn;
use crate::turn_line::push_kept;
use std::alloc::{AllocError, Global};
use std::marker::Model;
use xt_image::Image;
use xt_map::Text;
use xt_replay::Replay;
use xt_trace::Run;

/// The lines of the turns of a run from a position of its schedule on to before another, which are given
/// one by one. Contracts see the image, the run, the filter, the position of the next line and where the
/// lines end; `lines_in` are those that are left. A turn of which the filter does not hold has an empty
/// line.
#[derive(Drop)]
pub struct TurnLines<'a> {
    replay: Replay<'a>,
    filter: Filter,
    end: u32,
}

impl<'a> Model for TurnLines<'a> {
    ghost use Rattle.xt_events.specs.Lines.{LinesState};

    ghost Value = { LinesState };

    ghost use Rattle.xt_events.specs.Left.{IsAtPosition, state_of};

    ghost view = { state_of };

    ghost invariant = { IsAtPosition };
}

/// Appends the line of the next turn of a replay, if the filter holds of it, and goes behind the turn. The only
/// error is running out of memory.
///
/// Condition: the position is before the end of the schedule.
pub fn push_next_turn(
    alloc: Global,
    out: &mut Vec<u8>,
    filter: Filter,
    replay: &mut Replay,
) -> Result<(), AllocError>
    requires { replay.old.position < length (schedule_in replay.old.run) }
    ensures text { OnOk result (out.new.items ≡ out.old.items ++ line_at filter replay.old.image replay.old.run replay.old.position) }
    ensures moved { replay.new ≡ replay_at replay.old (replay.old.position + 1) }
{
    match replay.next_turn() {
        Some((core, turn)) => {
            let told = tell_turn(replay, core, turn);
            push_kept(alloc, out, replay.code(), filter, &told, &turn)
        }
        None => unreachable!(),
    }
}

impl<'a> TurnLines<'a> {
    ghost use Rattle.std.specs.Prelude.{◌≡◌, IfOk, length};
    ghost use Rattle.xt_map.specs.Placing.{IsPlaced};
    ghost use Rattle.xt_core.specs.Runs.{IsRunOf};
    ghost use Rattle.xt_events.specs.Lines.{Gives, filtered_between, lines_in};

    /// The lines of the turns of which the filter holds, from position `from` on to before position `to`;
    /// after the last position of the schedule there are none. The only error is running out of memory; all
    /// memory but that of the lines is taken here.
    ///
    /// Conditions: the run is the image's. The image's segments lie in one region each and share no byte,
    /// as those of every image that was read.
    pub fn filtered(
        alloc: Global,
        image: &'a Image,
        run: &'a Run,
        filter: Filter,
        from: u32,
        to: u32,
    ) -> Result<TurnLines<'a>, AllocError>
        requires run { IsRunOf image.now run.now }
        requires placed { IsPlaced image.now.segments }
        ensures { IfOk result (λ lines. lines_in lines ≡ filtered_between filter image.now run.now from to) }
    {
        let end = to.min(run.trace0.count + run.trace1.count);
        let start = from.min(end);
        let mut replay = Replay::make(alloc, image, run)?;
        let _ = replay.seek(start);
        Ok(TurnLines {
            replay,
            filter,
            end,
        })
    }

    /// How many lines are left.
    pub fn left(&self) -> u32
        ensures { result ≡ length (lines_in self.now) }
    {
        self.end.saturating_sub(self.replay.position())
    }

    /// The next of the lines that are left, which it takes away; none exactly where none is left. The only
    /// error is running out of memory.
    ///
    /// ```text
    /// C STEP PC KIND [ aR=VALUE] [ ACCESS] [ | INSTRUCTION] [ | wb W ws SSSS]
    /// ```
    ///
    /// This is the turn's line in a printed trace; then, where its program counter fetches one, the text of
    /// the instruction; then, where the turn changed WINDOWBASE or WINDOWSTART, both as after the turn, in
    /// decimal and in four hexadecimal digits. It ends with a newline.
    pub fn next(&mut self, alloc: Global) -> Result<Option<Text>, AllocError>
        ensures { Gives result self.old self.new }
    {
        if self.end <= self.replay.position() {
            return Ok(None);
        }
        let mut out = Vec::new(alloc);
        push_next_turn(alloc, &mut out, self.filter, &mut self.replay)?;
        Ok(Some(Text::new(out)))
    }
}
