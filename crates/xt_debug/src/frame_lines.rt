//! The lines of turns, each with what is known of its core's frames after it.
ghost use Rattle.std.specs.Prelude.{◌≡◌, IfOk, ℕ, Option};
ghost use Rattle.xt_debug.specs.FrameNotes.{note_at, with_note};
ghost use Rattle.xt_debug.specs.FrameWalks.{Advances};

use crate::frame_notes::with_note;
use crate::frame_walk::FrameWalk;
use std::alloc::{AllocError, Global};
use std::marker::Model;
use xt_events::{Filter, TurnLines};
use xt_image::Image;
use xt_map::Text;
use xt_trace::Run;

// A line with what is known of frames after the next turn of a walk, which goes over that turn.
fn noted_line(alloc: Global, line: Text, walk: &mut FrameWalk<'_>) -> Result<Text, AllocError>
    ensures text { IfOk result (λ text. text ≡ with_note line (note_at walk.old.image walk.old.run walk.old.position)) }
    ensures moved { (core : Option ℕ) × Advances core walk.old walk.new }
{
    let note = walk.note(alloc)?;
    with_note(alloc, line, &note)
}

/// The lines of the turns of a run, each with what is known of its core's frames after it, which are given
/// one by one. Contracts see the lines that are left.
pub struct FrameLines<'a> {
    lines: TurnLines<'a>,
    walk: FrameWalk<'a>,
}

impl<'a> Model for FrameLines<'a> {
    ghost use Rattle.std.specs.Prelude.{ℕ, List};
    ghost use Rattle.xt_events.specs.Lines.{lines_in};
    ghost use Rattle.xt_debug.specs.FrameNotes.{noted};

    ghost Value = { List (List ℕ) };

    ghost view = { λ t. noted t.walk.image t.walk.run t.walk.position (lines_in t.lines) };
}

// A `drop` of its own is one call at each place where lines are dropped.
impl Drop for FrameLines<'_> {
    fn drop(self) {
        let FrameLines { lines: _, walk: _ } = self;
    }
}

impl<'a> FrameLines<'a> {
    ghost use Rattle.std.specs.Prelude.{◌≡◌, IfOk, length};
    ghost use Rattle.xt_map.specs.Placing.{IsPlaced};
    ghost use Rattle.xt_core.specs.Runs.{IsRunOf};
    ghost use Rattle.xt_events.specs.Lines.{filtered_between};
    ghost use Rattle.xt_debug.specs.FrameNotes.{GivesLine, noted};

    /// The lines of the turns of which the filter holds, from position `from` on to before position `to`, with
    /// what is known of frames. The only error is running out of memory.
    ///
    /// Conditions: the run is the image's. The image's segments lie in one region each and share no byte,
    /// as those of every image that was read.
    pub fn make(
        alloc: Global,
        image: &'a Image,
        run: &'a Run,
        filter: Filter,
        from: u32,
        to: u32,
    ) -> Result<FrameLines<'a>, AllocError>
        requires run { IsRunOf image.now run.now }
        requires placed { IsPlaced image.now.segments }
        ensures { IfOk result (λ lines. lines ≡ noted image.now run.now from (filtered_between filter image.now run.now from to)) }
    {
        let lines = TurnLines::filtered(alloc, image, run, filter, from, to)?;
        let mut walk = FrameWalk::make(alloc, image, run)?;
        walk.skip(from);
        Ok(FrameLines { lines, walk })
    }

    /// How many lines are left.
    pub fn left(&self) -> u32
        ensures { result ≡ length self.now }
    {
        self.lines.left()
    }

    /// The next of the lines that are left, which it takes away; none exactly where none is left. The only
    /// error is running out of memory.
    ///
    /// ```text
    /// LINE | depth D [ areas LOW+16 HIGH+N] [ unset R ..] [ marks R:K ..]
    /// LINE | no frames
    /// ```
    ///
    /// LINE is that of `TurnLines`.
    pub fn next(&mut self, alloc: Global) -> Result<Option<Text>, AllocError>
        ensures { GivesLine result self.old self.new }
    {
        match self.lines.next(alloc)? {
            None => Ok(None),
            Some(line) => {
                let text = noted_line(alloc, line, &mut self.walk)?;
                Ok(Some(text))
            }
        }
    }
}
