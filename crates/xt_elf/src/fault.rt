ghost use Rattle.std.specs.Prelude.{◌≡◌};
ghost use Rattle.xt_elf.specs.declared.fault.ElfFault.TheVariants.{Memory};

use std::alloc::{AllocError, AllocFailed};

/// The first rule of an ELF executable that a file breaks, in the order of the rules, or running
/// out of memory.
///
/// Program headers are counted from 0, all of them. A loaded one has type 1 and a file size above
/// 0. The padded bytes of a header are those at its virtual address with zeros after them up to a
/// multiple of 4.
#[derive(Clone, Copy)]
pub enum ElfFault {
    /// The file has fewer than the 52 bytes of a file header.
    Short,
    /// Bytes 0 to 3 are not 7F 45 4C 46.
    Magic,
    /// Byte 4 or byte 5 is not 1: the file is not of 32 bits, or not little-endian.
    Class,
    /// The type of the file is this, and not 2.
    FileType(u16),
    /// The machine is this, and not 94.
    Machine(u16),
    /// There are program headers, and the size of one is this, and not 32.
    HeaderSize(u16),
    /// A program header passes the end of the file.
    HeaderEnd,
    /// This is the first loaded header whose bytes pass the end of the file.
    SegmentEnd(u16),
    /// This is the first header of type 1 whose memory size is below its file size.
    Sizes(u16),
    /// This is the first loaded header whose padded bytes do not lie whole in one region other
    /// than UART0.
    Place(u16),
    /// The second is the first loaded header whose padded bytes share one with an earlier loaded
    /// one, and the first is the first such one.
    Overlap(u16, u16),
    /// The number of loaded headers is this: 0, or above 16.
    Count(u16),
    /// The entry is this, and lies in no executable region.
    Entry(u32),
    /// There is not enough memory for the image.
    Memory,
}

impl From<AllocError> for ElfFault {
    ghost from_gives = { λ _ e. e ≡ Memory };

    fn from(_: AllocError) -> Self {
        ElfFault::Memory
    }
}

impl<T: Drop> From<AllocFailed<T>> for ElfFault {
    ghost from_gives = { λ _ e. e ≡ Memory };

    fn from(_: AllocFailed<T>) -> Self {
        ElfFault::Memory
    }
}
