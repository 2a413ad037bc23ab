//! What an order with moments lists.

/// A move of an order with moments.
#[derive(Clone, Copy, PartialEq, Eq)]
pub enum Move {
    /// The next turn of this core.
    Turn(u8),
    /// Of this core, the timer of this number fires.
    Fires(u8, u8),
}
