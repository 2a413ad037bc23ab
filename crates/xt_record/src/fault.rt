ghost use Rattle.std.specs.Prelude.{◌≡◌};
ghost use Rattle.xt_record.specs.declared.fault.RecordFault.TheVariants.{Memory};

use std::alloc::{AllocError, AllocFailed};
use xt_image::ImageFault;

/// The first rule of a recording that a file breaks, or running out of memory.
///
/// The rules are judged in this order: `Short` for fewer than 12 bytes, `Magic`, `Version`; `Short`
/// and `Trailing` for the length of the parts; `Image`; `Options`; `Entry`; then `Turn` and
/// `Illegal` entry by entry, and `Turn` for what follows the last entry; and `Checkpoint`. Entries
/// and checkpoints are counted from 0.
#[derive(Clone, Copy)]
pub enum RecordFault {
    /// The file has fewer bytes than its head, its image and its counts ask for, or the image more
    /// than 8,388,608.
    Short,
    /// The first four bytes are not `XTRC`.
    Magic,
    /// The version is this, and not 1 or 2.
    Version(u32),
    /// The image has this fault.
    Image(ImageFault),
    /// No run accepts the options, or in version 1 a turn count is above 1,000,000.
    Options,
    /// This is the first entry whose fields are none of an access that the bus serves.
    Entry(u32),
    /// The reply of this entry is the second number, and memory answers the third.
    Illegal(u32, u32, u32),
    /// At this step of this core the access is not that of its next entry. The step is the trace's
    /// length where the core ends before the entry.
    Turn(u8, u32),
    /// The file has more bytes than its parts.
    Trailing,
    /// The first checkpoint that is not the run's, or where the checkpoints of the file or of the
    /// run end before the others.
    Checkpoint(u32),
    /// There is not enough memory for the run.
    Memory,
}

impl From<AllocError> for RecordFault {
    ghost from_gives = { λ _ e. e ≡ Memory };

    fn from(_: AllocError) -> Self {
        RecordFault::Memory
    }
}

impl<T: Drop> From<AllocFailed<T>> for RecordFault {
    ghost from_gives = { λ _ e. e ≡ Memory };

    fn from(_: AllocFailed<T>) -> Self {
        RecordFault::Memory
    }
}
