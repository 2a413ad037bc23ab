//! What the first half of an instruction answers.
ghost use Rattle.std.specs.Prelude.{◌≡◌};

use xt_map::Access;
use xt_trace::{RegWrite, StepKind};

/// What a turn was, and the visible register that it wrote.
#[derive(Clone, Copy)]
pub struct Effect {
    /// What the turn was.
    pub kind: StepKind,
    /// The visible register that it wrote, in the window after the turn.
    pub write: Option<RegWrite>,
}

impl Effect {
    /// A turn of this kind that writes this register, or none.
    #[inline(always)]
    pub(crate) fn of(kind: StepKind, write: Option<RegWrite>) -> Effect
        ensures { result ≡ record { kind = kind; write = write } }
    {
        Effect { kind, write }
    }
}

/// An instruction that waits for the reply to its access.
#[derive(Clone, Copy)]
pub struct Pending {
    /// The access.
    pub access: Access,
    /// The visible register that receives the reply; none for a store.
    pub target: Option<u8>,
    /// Whether the reply is a signed number of 16 bits (L16SI).
    pub signed: bool,
    /// The length of the instruction in bytes.
    pub len: u8,
}

/// The first half of an instruction.
#[derive(Clone, Copy)]
pub enum Plan {
    /// The instruction is done, with this effect.
    Done(Effect),
    /// It makes this access, and then waits for the reply.
    Bus(Access, Pending),
}
