use xt_map::Access;

/// What a turn of a core was.
#[derive(Clone, Copy, PartialEq, Eq)]
pub enum StepKind {
    /// An instruction was executed.
    Insn,
    /// A window exception was entered, by its vector: 0 to 5 for Overflow4, Underflow4, Overflow8,
    /// Underflow8, Overflow12 and Underflow12.
    Window(u8),
    /// A general or double exception was entered, by its cause (EXCCAUSE).
    Exc(u8),
    /// An interrupt was taken, by its level.
    Interrupt(u8),
    /// The core waited after a WAITI.
    Wait,
    /// A BREAK or BREAK.N stopped the core.
    Stop,
}

/// The one visible register that a turn wrote.
#[derive(Clone, Copy)]
pub struct RegWrite {
    /// The number of the visible register, 0 to 15, in the window after the turn.
    pub reg: u8,
    /// The value that was written.
    pub value: u32,
}

/// The record of one turn.
#[derive(Clone, Copy)]
pub struct StepRecord {
    /// The program counter as the turn began.
    pub pc: u32,
    /// What the turn was.
    pub kind: StepKind,
    /// The visible register that was written, if any.
    pub write: Option<RegWrite>,
    /// The bus access that was made, if any.
    pub access: Option<Access>,
    /// The reply to the access, 0 without one.
    pub reply: u32,
    /// CCOUNT as the turn began.
    pub ccount: u32,
    /// PS.OWB as the turn began, 0 to 15.
    pub owb: u8,
    /// INTERRUPT as the turn began.
    pub interrupt: u32,
}
