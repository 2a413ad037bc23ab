use xt_map::Access;
use xt_special::{Ps, SpecialWrites};
use xt_trace::RegWrite;

/// The visible register that receives the reply to an access.
#[derive(Clone, Copy)]
pub struct ReplyTarget {
    /// The visible register, 0 to 15.
    pub number: u8,
    /// Whether the reply is a signed number of 16 bits (L16SI).
    pub signed: bool,
}

/// Where an instruction goes on.
#[derive(Clone, Copy)]
pub enum Flow {
    /// To the instruction after it, or back in a loop.
    Falls,
    /// To this address, by a jump, a taken branch, a call or a return.
    Goes(u32),
}

/// What an instruction changes.
#[derive(Clone, Copy)]
pub struct Effect {
    /// The visible register that it writes, unless it waits for a reply.
    pub write: Option<RegWrite>,
    /// The special registers that it writes.
    pub sets: SpecialWrites,
    /// PS afterwards.
    pub ps: Ps,
    /// THREADPTR afterwards.
    pub threadptr: u32,
    /// Where it goes on.
    pub flow: Flow,
    /// Whether the core waits afterwards.
    pub waits: bool,
}

/// One of the two registers that are kept with the windows.
#[derive(Clone, Copy)]
pub enum WindowRegister {
    /// WINDOWBASE, of four bits.
    Base,
    /// WINDOWSTART, of sixteen bits.
    Start,
}

/// What an instruction does that moves the window or looks at the windows. Registers are visible
/// ones, 0 to 15.
#[derive(Clone, Copy)]
pub enum WindowStep {
    /// ENTRY: the register of this number in the new window receives this value.
    Enters(u8, u32),
    /// RETW, with this value of a0.
    Returns(u32),
    /// RFWO, with this value of EPC1.
    EndsOverflow(u32),
    /// RFWU, with this value of EPC1.
    EndsUnderflow(u32),
    /// ROTW, by so many windows.
    Rotates(i32),
    /// MOVSP: the register of this number receives this value, where a caller's window is there.
    MovesStack(u8, u32),
    /// RSR of a window register into the visible register of this number.
    Reads(WindowRegister, u8),
    /// WSR of this value into a window register.
    Sets(WindowRegister, u32),
    /// XSR of this value into a window register, whose old value the visible register of this
    /// number receives.
    Exchanges(WindowRegister, u8, u32),
}

/// What comes of an instruction.
#[derive(Clone, Copy)]
pub enum Outcome {
    /// It is executed, with this effect.
    Does(Effect),
    /// It raises a general exception of this cause, with the address that the cause concerns.
    Raises(u8, Option<u32>),
    /// It makes this access; the register, if any, receives the reply, and this is the rest of the
    /// effect.
    Asks(Access, Option<ReplyTarget>, Effect),
    /// It stops the core.
    Stops,
    /// It does something with windows, for which a machine has its own cases.
    Windowed(WindowStep),
}
