ghost use Rattle.std.specs.Prelude.{◌≡◌};
ghost use Rattle.xt_image.specs.declared.fault.ImageFault.TheVariants.{Memory};

use std::alloc::{AllocError, AllocFailed};

/// The first rule of an image that a file breaks, in the order of the rules, or running out of memory.
///
/// Segments are counted from 0. A loaded segment is one at the address 0x10000000 or above.
#[derive(Clone, Copy)]
pub enum ImageFault {
    /// The file has fewer than the 24 bytes of a head.
    Short,
    /// Byte 0 is this, and not 0xE9.
    Magic(u8),
    /// The segment count is this: 0, or above 16.
    Count(u8),
    /// The chip id is this, and not 0.
    Chip(u16),
    /// The digest flag is this: neither 0 nor 1.
    DigestFlag(u8),
    /// This is the first segment whose header or bytes pass the end of the file.
    SegmentEnd(u8),
    /// This is the first segment whose length is no multiple of 4.
    SegmentLength(u8),
    /// This is the first loaded segment that has a byte and does not lie whole in one region
    /// other than UART0.
    SegmentPlace(u8),
    /// The second is the first loaded segment that shares a byte with an earlier loaded one, and
    /// the first is the first such one.
    SegmentOverlap(u8, u8),
    /// The file ends before the place of the checksum.
    NoChecksum,
    /// The checksum that the file keeps, and the one of its segments.
    Checksum(u8, u8),
    /// The digest flag is 1, and the file ends before the digest does.
    NoDigest,
    /// The SHA-256 digest that the file keeps, and the one of its bytes up to the checksum.
    Digest([u8; 32], [u8; 32]),
    /// The entry is this, and lies in no executable region.
    Entry(u32),
    /// There is not enough memory for the image.
    Memory,
}

impl From<AllocError> for ImageFault {
    ghost from_gives = { λ _ e. e ≡ Memory };

    fn from(_: AllocError) -> Self {
        ImageFault::Memory
    }
}

impl<T: Drop> From<AllocFailed<T>> for ImageFault {
    ghost from_gives = { λ _ e. e ≡ Memory };

    fn from(_: AllocFailed<T>) -> Self {
        ImageFault::Memory
    }
}
