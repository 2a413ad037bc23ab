/// The fields of an entry of a recording, as they stand in its 20 bytes.
#[derive(Clone, Copy)]
pub(crate) struct RawEntry {
    /// Byte 0: the core.
    pub core: u8,
    /// Byte 1: 0 for a load, 1 for a store, 2 for a compare-and-swap.
    pub kind: u8,
    /// Byte 2: how many bytes are accessed.
    pub size: u8,
    /// Byte 3, which is to be 0.
    pub zero: u8,
    /// Bytes 4 to 7: the address.
    pub addr: u32,
    /// Bytes 8 to 11: what is stored or expected.
    pub a: u32,
    /// Bytes 12 to 15: what a compare-and-swap writes.
    pub b: u32,
    /// Bytes 16 to 19: the reply.
    pub reply: u32,
}
