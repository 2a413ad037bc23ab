//! Handler steps, how a step leaves the stack discipline, and what is judged of a run.
#![tactic(auto)]

/// Where a core stands among the handler steps of its records.
#[derive(Clone, Copy)]
pub enum HandlerPhase {
    /// Outside handler steps.
    Outside,
    /// In handler steps.
    InHandler,
    /// In a nested interrupt.
    Nested,
}

/// How a judged step leaves the stack discipline. Where a step shows several kinds, the first counts.
#[derive(Clone, Copy, PartialEq, Eq)]
pub enum BreachKind {
    /// It reads a register that has no value, or a mark other than by moving it.
    Unset,
    /// It writes a1 by another instruction than ENTRY or MOVSP.
    SpWritten,
    /// An ENTRY of another register than a1, of less than 16 bytes, or whose caller's frame is smaller
    /// than the registers that it keeps.
    FrameSize,
    /// An ENTRY whose new stack pointer has not 16 bytes of the stack below it, or is above its end.
    StackRange,
    /// An ENTRY whose new stack pointer is no multiple of 16.
    SpAlign,
    /// An ENTRY that no call opened.
    OpeningCall,
    /// A RETW whose a0 names another size of call than the frame's.
    ReturnMismatch,
    /// A RETW of the opening frame.
    NoCaller,
    /// A store or S32C1I to a live save area of either core.
    SaveStore,
    /// A load or S32C1I of a stale byte, or a load of a live save area.
    StaleLoad,
    /// It names a4 to a15 in exception mode.
    ExcmRegister,
    /// ROTW, L32E, S32E, RFWO or RFWU.
    WindowInstruction,
    /// RSR, WSR or XSR of WINDOWBASE or WINDOWSTART.
    WindowRegister,
    /// It leaves PS.WOE clear.
    WoeCleared,
    /// It leaves VECBASE other than it opened.
    VecbaseMoved,
    /// It reads EPC1 after exception mode has ended since EPC1 was last written, or reads or writes it in a nested interrupt.
    EpcLost,
    /// A MOVSP.
    Movsp,
    /// It stands in a vector of a window exception.
    VectorEntered,
    /// In a nested interrupt an exception, a write of PS, EPC5 or EPS5, RSIL, WAITI, RFE, RFDE or RFI of another level, or RFI 5 while
    /// one of a0 to a3 does not hold its own mark.
    Nested,
}

/// A breach: the core, the number of the record in its trace, and the kind.
#[derive(Clone, Copy, PartialEq, Eq)]
pub struct Breach {
    /// The core, 0 or 1.
    pub core: u8,
    /// The number of the record, from 0.
    pub step: u32,
    /// How the step leaves the discipline.
    pub kind: BreachKind,
}

/// What is judged of a run.
#[derive(Clone, Copy)]
pub enum Judged {
    /// Some window handler does not pass its check, so nothing is judged.
    Unchecked,
    /// No judged step shows a breach.
    Whole,
    /// The first breach.
    Broken(Breach),
}
