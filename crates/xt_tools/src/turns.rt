//! Writing the lines of turns.
ghost use Rattle.std.specs.Prelude.{◌≡◌, ℕ, List, length};
ghost use Rattle.std.specs.List.{concat};
ghost use Rattle.xt_events.specs.Lines.{lines_in};
ghost use Rattle.xt_debug.specs.FrameNotes.{GivesLine};
ghost use Rattle.xt_report.specs.Writes.{Writes};

use std::alloc::{AllocError, Global};
use xt_debug::FrameLines;
use xt_events::TurnLines;
use xt_io::{Refused, Sink};
use xt_map::Text;
use xt_report::Piece;

/// Lines that are given one by one.
pub trait Lines {
    /// Those that are left.
    ghost lines: { Self → List (List ℕ) };

    /// How many are left.
    fn count(&self) -> u32
        ensures { result ≡ length (lines self.now) };

    /// The next one, which it takes away; none exactly where none is left. The only error is running out of memory.
    fn give(&mut self, alloc: Global) -> Result<Option<Text>, AllocError>
        ensures { GivesLine result (lines self.old) (lines self.new) };
}

impl Lines for TurnLines<'_> {
    ghost lines = { lines_in };

    fn count(&self) -> u32 {
        self.left()
    }

    fn give(&mut self, alloc: Global) -> Result<Option<Text>, AllocError> {
        self.next(alloc)
    }
}

impl Lines for FrameLines<'_> {
    ghost lines = { λ lines. lines };

    fn count(&self) -> u32 {
        self.left()
    }

    fn give(&mut self, alloc: Global) -> Result<Option<Text>, AllocError> {
        self.next(alloc)
    }
}

/// Writes the lines that are left. It gathers up to 65,536 bytes of them for each write.
pub fn write_lines<L: Lines, K: Sink>(
    alloc: Global,
    lines: &mut L,
    sink: &mut K,
) -> Result<(), Refused>
    ensures { Writes result
        (K.told sink.old) (K.told sink.new) (K.faults sink.old) (K.faults sink.new)
        (concat (L.lines lines.old)) }
{
    let mut piece = Piece::make(alloc)?;
    let count = lines.count();
    for _ in 0..count {
        match lines.give(alloc)? {
            Some(text) => piece.add(&text, sink)?,
            None => unreachable!(),
        }
    }
    piece.flush(sink)
}
