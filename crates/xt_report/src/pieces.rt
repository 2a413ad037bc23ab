//! Writing many short texts in few calls.
ghost use Rattle.std.specs.Prelude.{◌≡◌, ◌++◌, ◌≤◌, ◌+◌, [], IfErr, IfOk, OnOk, length};
ghost use Rattle.xt_report.specs.Pieces.{Gathers};
ghost use Rattle.xt_report.specs.Writes.{Writes};

use std::alloc::{AllocError, Global};
use std::marker::Model;
use xt_io::{Refused, Sink, write_all};
use xt_map::Text;

// The most bytes that are gathered.
const PIECE: usize = 65_536;

/// Texts that are gathered to be written in one call, of at most 65,536 bytes together. Contracts see
/// the bytes.
#[derive(Drop)]
pub struct Piece {
    bytes: Vec<u8>,
    ghost room: { length bytes.items ≤ 65536 },
}

impl Model for Piece {
    ghost use Rattle.std.specs.Prelude.{List, ℕ};

    ghost Value = { List ℕ };

    ghost view = { λ p. p.bytes.items };
}

impl Piece {
    /// No byte is gathered yet. All memory that gathering takes is taken here, and running out of it is the
    /// only error.
    pub fn make(alloc: Global) -> Result<Piece, AllocError>
        ensures { IfOk result (λ p. p ≡ []) }
    {
        Ok(Piece {
            bytes: Vec::with_capacity(alloc, PIECE)?,
        })
    }

    // Keeps bytes for which there is room.
    fn keep(&mut self, bytes: &[u8]) -> Result<(), Refused>
        requires { length self.old + length bytes.now ≤ 65536 }
        ensures kept { OnOk result (self.new ≡ self.old ++ bytes.now) }
        ensures memory { IfErr result (λ e. e ≡ Refused.Memory) }
    {
        self.bytes.extend_from_slice(bytes)?;
        Ok(())
    }

    /// Writes what is gathered.
    pub fn flush<K: Sink>(&mut self, sink: &mut K) -> Result<(), Refused>
        ensures writes { Writes result
            (K.told sink.old) (K.told sink.new) (K.faults sink.old) (K.faults sink.new)
            self.old }
        ensures empty { OnOk result (self.new ≡ []) }
    {
        write_all(sink, &self.bytes)?;
        self.bytes.clear();
        Ok(())
    }

    /// Gathers a text, or writes what is gathered and then gathers it, if both together have more than
    /// 65,536 bytes. A text that is longer itself is written at once.
    ///
    /// After a refusal a prefix of what was gathered and the text was written.
    pub fn add<K: Sink>(&mut self, text: &Text, sink: &mut K) -> Result<(), Refused>
        ensures { Gathers result
            (K.told sink.old) (K.told sink.new) (K.faults sink.old) (K.faults sink.new)
            self.old self.new text.now }
    {
        let bytes = text.as_slice();
        if bytes.len() <= PIECE - self.bytes.len() {
            return self.keep(bytes);
        }
        self.flush(sink)?;
        if bytes.len() <= PIECE {
            return self.keep(bytes);
        }
        write_all(sink, bytes)
    }
}
