//! What bytes are written to.
ghost use Rattle.std.specs.Prelude.{List, ℕ, Option};
ghost use Rattle.std.specs.Io.{WritesAtMost};
ghost use Rattle.std.specs.Io.KnownBytes.{WriteAppends};

use std::alloc::AllocError;

/// Why a sink took nothing.
#[derive(Clone, Copy)]
pub enum Refused {
    /// The sink failed, and counted that.
    Failed,
    /// There was no memory to keep the bytes. No fault is counted for it.
    Memory,
}

impl From<AllocError> for Refused {
    ghost use Rattle.std.specs.Prelude.{◌≡◌};
    ghost use Rattle.xt_io.specs.declared.sink.Refused.TheVariants.{Memory};

    ghost from_gives = { λ _ e. e ≡ Memory };

    fn from(_: AllocError) -> Refused {
        Refused::Memory
    }
}

/// Where bytes are written to, in order (after the writer of std).
pub trait Sink {
    ghost use Rattle.xt_io.specs.Causes.{HasWriteCause};

    /// The bytes that were written, where the sink tells them.
    ghost told: { Self → Option (List ℕ) };

    /// How many writes failed so far, with those that took no byte of a piece that has some.
    /// It never falls.
    ghost faults: { Self → ℕ };

    /// Appends the first bytes of `buf` and answers how many, at most its length.
    ///
    /// A write that is refused appends nothing. One that fails, or that takes no byte of a
    /// piece that has some, raises the count of faults.
    fn write(&mut self, buf: &[u8]) -> Result<usize, Refused>
        ensures bound { WritesAtMost result buf.now }
        ensures bytes { WriteAppends (told self.old) (told self.new) result buf.now }
        ensures cause { HasWriteCause (faults self.old) (faults self.new) result buf.now };
}
