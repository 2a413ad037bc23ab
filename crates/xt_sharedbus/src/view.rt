//! What a pass of the queue knows. No value of it is made.

use std::collections::LinkedList;
use xt_map::{Access, Entry, MemoryContents};

/// The accesses of a core with their replies, in order, and how many it has left.
pub struct Part {
    pub list: LinkedList<(Access, u32)>,
    pub left: u64,
}

/// The history and the spare of a bus that is out of the queue.
pub struct Hand {
    pub history: LinkedList<Entry>,
    pub spare: u64,
}

/// A pass before the bus was put in, a pass that answers for one core or both, or a pass that was
/// joined away.
pub enum View {
    /// No bus was put in yet.
    Unopened,
    /// The memory that the bus opened with, what is known of each core that the pass answers for,
    /// and the bus that it has in its hand.
    Live {
        opening: MemoryContents,
        zero: Option<Part>,
        one: Option<Part>,
        hand: Option<Hand>,
    },
    /// Another pass answers for its core.
    Spent,
}
