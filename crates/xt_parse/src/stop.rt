ghost use Rattle.std.specs.Prelude.{◌≡◌};
ghost use Rattle.xt_parse.specs.declared.stop.Stop.TheVariants.{Memory};

use std::alloc::{AllocError, AllocFailed};

/// Why the reading of a line stops.
#[derive(Clone, Copy, PartialEq, Eq)]
pub enum Stop {
    /// So many of the line's tokens are left, and the first of them cannot continue the line; or none is left, and the line is not
    /// complete.
    At(usize),
    /// There is not enough memory.
    Memory,
}

impl From<AllocError> for Stop {
    ghost from_gives = { λ _ e. e ≡ Memory };

    fn from(_: AllocError) -> Self {
        Stop::Memory
    }
}

impl<T: Drop> From<AllocFailed<T>> for Stop {
    ghost from_gives = { λ _ e. e ≡ Memory };

    fn from(_: AllocFailed<T>) -> Self {
        Stop::Memory
    }
}
