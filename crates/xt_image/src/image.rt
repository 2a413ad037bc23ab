use xt_map::Segments;

/// The bytes of an image's head that a run does not read, in esptool's image format.
#[derive(Clone, Copy)]
pub struct Head {
    /// Byte 2: the mode in which flash is read.
    pub mode: u8,
    /// Byte 3: the size of the flash in the high four bits, its frequency in the low four.
    pub size_freq: u8,
    /// Byte 8: the write-protect pin.
    pub wp_pin: u8,
    /// Bytes 9 to 11: the drive settings of the flash pins.
    pub drive: [u8; 3],
    /// Byte 14: the least chip revision, in the old form.
    pub min_rev_old: u8,
    /// Bytes 15 and 16, little-endian: the least chip revision.
    pub min_rev: u16,
    /// Bytes 17 and 18, little-endian: the greatest chip revision.
    pub max_rev: u16,
    /// Bytes 19 to 22: reserved.
    pub reserved: [u8; 4],
}

/// An application image, in esptool's image format.
pub struct Image {
    /// The bytes of the head that a run does not read.
    pub head: Head,
    /// Bytes 4 to 7, little-endian: the address of the first instruction.
    pub entry: u32,
    /// Byte 23: whether a SHA-256 digest follows the checksum.
    pub digest: bool,
    /// The segments from byte 24 on, in file order.
    pub segments: Segments,
}

// A `drop` of its own is one call at each place where a value is dropped.
impl Drop for Image {
    fn drop(self) {
        let Image {
            head: _,
            entry: _,
            digest: _,
            segments: _,
        } = self;
    }
}
