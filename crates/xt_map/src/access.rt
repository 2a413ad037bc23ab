/// What an access does at its address.
#[derive(Clone, Copy, PartialEq, Eq)]
pub enum Kind {
    /// Reads the bytes as one little-endian number.
    Load,
    /// Writes the low bytes of this number.
    Store(u32),
    /// Compare and swap, the access of S32C1I: where the word is the first number (the expected
    /// one), the second is written. The reply is the word that was read.
    Cas(u32, u32),
}

/// One access to the bus: a load, a store or a compare-and-swap of a core.
#[derive(Clone, Copy, PartialEq, Eq)]
pub struct Access {
    /// The address of the first byte.
    pub addr: u32,
    /// The number of bytes: 1, 2 or 4.
    pub size: u8,
    /// What it does there.
    pub kind: Kind,
}

/// One access as the history of the bus keeps it.
#[derive(Clone, Copy)]
pub struct Entry {
    /// The core that made it: 0 or 1.
    pub core: u8,
    /// The access.
    pub access: Access,
    /// What the bus answered: the number read, or 0 for a store.
    pub reply: u32,
}
