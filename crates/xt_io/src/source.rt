//! What bytes are read from.
ghost use Rattle.std.specs.Prelude.{List, ℕ, Option};
ghost use Rattle.std.specs.Io.{ReadsAtMost};
ghost use Rattle.std.specs.Io.KnownBytes.{ReadConsumes};
ghost use Rattle.xt_io.specs.Causes.{HasCause};

/// A source refused a read, and counted that.
#[derive(Clone, Copy)]
pub struct Failed;

/// Where bytes are read from, in order (after the reader of std).
pub trait Source {
    /// The bytes that are left to be read, where the source tells them.
    ghost left: { Self → Option (List ℕ) };

    /// How many reads failed so far. It never falls.
    ghost faults: { Self → ℕ };

    /// Puts the next bytes at the front of `buf` and answers how many, at most its length.
    ///
    /// None on a buffer that is not empty is the end of the input, where none is left. A read
    /// that fails takes no byte, and raises the count of faults.
    fn read(&mut self, buf: &mut [u8]) -> Result<usize, Failed>
        ensures bound { ReadsAtMost result buf.new }
        ensures bytes { ReadConsumes (left self.old) (left self.new) result buf.new }
        ensures cause { HasCause (faults self.old) (faults self.new) result };
}
