//! Registers of which not every bit is known.
#![tactic(auto)]

/// A register that an instruction reads, of which not every bit is known.
#[derive(Clone, Copy)]
pub struct Lack {
    /// Its number.
    pub number: u8,
    /// Its value, 0 in each bit that is not known.
    pub value: u32,
    /// The known bits.
    pub mask: u32,
    /// The mark that it holds, if it is one.
    pub mark: Option<u8>,
}
