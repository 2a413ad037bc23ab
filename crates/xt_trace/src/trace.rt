ghost use Rattle.std.specs.Prelude.{◌≡◌, length};

use std::marker::Model;

/// The step numbers of a core's turns with a bus access, in order. Contracts see the list.
#[derive(Drop)]
pub struct Places {
    items: Vec<u32>,
}

impl Model for Places {
    ghost use Rattle.std.specs.Prelude.{ℕ, List};

    ghost Value = { List ℕ };

    ghost view = { λ p. p.items.items };
}

impl Places {
    /// These numbers, without a copy.
    pub fn new(items: Vec<u32>) -> Places
        ensures { result ≡ items.items }
    {
        Places { items }
    }

    /// The numbers.
    pub fn as_slice(&self) -> &[u32]
        ensures { result.now ≡ self.now }
    {
        &self.items
    }

    /// How many numbers there are.
    pub fn len(&self) -> usize
        ensures { result ≡ length self.now }
    {
        self.items.len()
    }
}

/// Why a trace ended.
#[derive(Clone, Copy, PartialEq, Eq)]
pub enum Stop {
    /// At a BREAK or BREAK.N.
    Break,
    /// With the core's last turn.
    Turns,
}

/// What is kept of one core's turns. Their records can be made again from the image and the history.
#[derive(Drop)]
pub struct Trace {
    /// The core, 0 or 1.
    pub core: u8,
    /// How many turns it made.
    pub count: u32,
    /// The numbers, from 0, of the turns with a bus access.
    pub places: Places,
    /// Why it ended.
    pub stop: Stop,
    /// The program counter after the last turn, or as the core opens where it made none.
    pub pc: u32,
}
