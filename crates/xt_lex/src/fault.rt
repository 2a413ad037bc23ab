ghost use Rattle.std.specs.Prelude.{◌≡◌};
ghost use Rattle.xt_lex.specs.declared.fault.AsmFault.TheVariants.{Memory};

use std::alloc::{AllocError, AllocFailed};

/// Where the first fault of an assembly text stands, and of which kind it is.
///
/// The kinds are 1 Unknown, 2 Range, 3 PoolReach, 4 Twice, 5 Misaligned, 6 OutOfMap, 7 Overlap, 8 Syntax and 9 NoEntry.
/// Kind 9 is of the whole text: its line and column are 0.
#[derive(Clone, Copy)]
pub struct AsmPlace {
    /// The number of the line, from 1.
    pub line: u32,
    /// The column in bytes, from 1.
    pub column: u32,
    /// The kind, 1 to 9.
    pub kind: u8,
}

/// Why an assembly text gives no image.
#[derive(Clone, Copy)]
pub enum AsmFault {
    /// The text has this fault.
    Place(AsmPlace),
    /// There is not enough memory.
    Memory,
}

impl From<AllocError> for AsmFault {
    ghost from_gives = { λ _ e. e ≡ Memory };

    fn from(_: AllocError) -> Self {
        AsmFault::Memory
    }
}

impl<T: Drop> From<AllocFailed<T>> for AsmFault {
    ghost from_gives = { λ _ e. e ≡ Memory };

    fn from(_: AllocFailed<T>) -> Self {
        AsmFault::Memory
    }
}
