//! A turn, as it is counted.
ghost use Rattle.std.specs.Prelude.{◌≡◌};
ghost use Rattle.xt_events.specs.Counts.{is_executed, is_raised};

use xt_trace::StepKind;

/// A turn of a core.
#[derive(Clone, Copy)]
pub struct Turn {
    /// The program counter as it began.
    pub pc: u32,
    /// What it was.
    pub kind: StepKind,
    /// The program counter after it.
    pub next: u32,
}

/// Whether a turn of this kind executed the instruction at its program counter.
pub fn is_executed(kind: StepKind) -> bool
    ensures { result ≡ is_executed kind }
{
    match kind {
        StepKind::Insn | StepKind::Stop => true,
        _ => false,
    }
}

/// Whether an exception or a window exception came in place of the instruction.
pub fn is_raised(kind: StepKind) -> bool
    ensures { result ≡ is_raised kind }
{
    match kind {
        StepKind::Window(_) | StepKind::Exc(_) => true,
        _ => false,
    }
}
