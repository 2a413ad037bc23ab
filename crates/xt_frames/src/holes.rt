//! What a frame state has beside its registers, frames and control state: which special registers have no number, and a nested
//! interrupt.
#![tactic(auto)]

ghost use Rattle.std.specs.Prelude.{◌≡◌, ◌<◌, true, IfSome};
ghost use Rattle.xt_isa.specs.Ranges.{in_range};
ghost use Rattle.xt_frames.specs.Breaches.{is_unset, lacks};
ghost use Rattle.xt_frames.specs.Marks.{are_own_marks, mark_read, moved_to, moves_marks};
ghost use Rattle.xt_frames.specs.Nesting.{disturbs_nested, ends_nested, is_kept_register, is_nesting};

use xt_isa::Insn;
use xt_isa::system::{ExceptionReturnName, SpecialName, System};
use xt_special::{Ps, number};
use xt_trace::StepKind;

/// The level of a nested interrupt.
pub const NESTED_LEVEL: u8 = 5;

/// An interrupt in the middle of a window handler. A mark is one of 0 to 3, and stands for what the visible register of that number
/// held in the handler.
#[derive(Clone, Copy)]
pub struct Nested {
    /// Its program counter.
    pub pc: u32,
    /// The 16 visible registers, each with its number or none.
    pub seen: [Option<u32>; 16],
    /// Its PS.
    pub ps: Ps,
    /// The marks in visible registers that have no number.
    pub marks: [Option<u8>; 16],
    /// The marks in special registers that have no number, by register number.
    pub saved: [Option<u8>; 256],
}

/// What a frame state has beside its registers, frames and control state.
#[derive(Clone, Copy)]
pub struct UndefinedParts {
    /// Of each special register, by its number, whether it has no number.
    pub unset: [bool; 256],
    /// The nested interrupt, if there is one.
    pub nested: Option<Nested>,
}

/// Whether there is a special register, and it has no number.
pub fn is_unset(unset: &[bool; 256], register: Option<u8>) -> bool
    ensures { result ≡ is_unset unset.now register }
{
    match register {
        Some(n) => unset[n as usize],
        None => false,
    }
}

/// Whether there is a visible register, and it holds no mark.
pub fn lacks_mark(x: &Nested, register: Option<u8>) -> bool
    ensures { result ≡ lacks x.now.marks register }
{
    match register {
        Some(i) if i < 16 => x.marks[i as usize].is_none(),
        Some(_) => true,
        None => false,
    }
}

/// Whether there is a special register, and it holds no mark.
pub fn lacks_saved(x: &Nested, register: Option<u8>) -> bool
    ensures { result ≡ lacks x.now.saved register }
{
    match register {
        Some(n) => x.saved[n as usize].is_none(),
        None => false,
    }
}

/// Whether a record of this kind begins a nested interrupt in the middle of handler steps.
pub fn is_nesting(kind: StepKind) -> bool
    ensures { result ≡ is_nesting kind }
{
    match kind {
        StepKind::Interrupt(level) => level == NESTED_LEVEL,
        _ => false,
    }
}

/// Whether it is RSR, WSR or XSR between a0 to a3 and EXCSAVE1 to EXCSAVE7 or MISC0 to MISC3.
#[tactic(auto, unfolding(crate::specs::Marks::moves_marks))]
pub fn moves_marks(i: Insn) -> bool
    ensures { result ≡ moves_marks i }
{
    match i {
        Insn::System(System::Special(_, t, n)) => {
            t < 4
                && ((number::EXCSAVE1 <= n && n <= number::EXCSAVE7)
                    || (number::MISC0 <= n && n <= number::MISC3))
        }
        _ => false,
    }
}

/// Whether it is RFI 5.
#[tactic(auto, unfolding(crate::specs::Nesting::ends_nested))]
pub fn ends_nested(i: Insn) -> bool
    ensures { result ≡ ends_nested i }
{
    match i {
        Insn::System(System::Rfi(level)) => xt_rows::natural(level) == u32::from(NESTED_LEVEL),
        _ => false,
    }
}

/// PS, EPC5 and EPS5.
fn is_kept_register(n: u8) -> bool
    ensures { result ≡ is_kept_register n }
{
    n == number::PS || n == number::EPC5 || n == number::EPS5
}

/// Whether it writes PS, EPC5 or EPS5, or is RSIL, WAITI, RFE, RFDE, or RFI of another level than 5.
#[tactic(auto, unfolding(crate::specs::Nesting::disturbs_nested))]
pub fn disturbs_nested(i: Insn) -> bool
    ensures { result ≡ disturbs_nested i }
{
    match i {
        Insn::System(System::Special(SpecialName::Wsr | SpecialName::Xsr, _, n)) =>
            is_kept_register(n),
        Insn::System(System::Level(_, _, _)) => true,
        Insn::System(
            System::ExceptionReturn(ExceptionReturnName::Rfe | ExceptionReturnName::Rfde),
        ) => true,
        Insn::System(System::Rfi(level)) => xt_rows::natural(level) != u32::from(NESTED_LEVEL),
        _ => false,
    }
}

/// Whether each of a0 to a3 holds its own mark.
pub fn has_own_marks(x: &Nested) -> bool
    ensures { result ≡ are_own_marks x.now.marks }
{
    x.marks[0] == Some(0) && x.marks[1] == Some(1) && x.marks[2] == Some(2) && x.marks[3] == Some(3)
}

/// The mark of the special register that RSR or XSR reads.
#[tactic(auto, unfolding(crate::specs::Marks::mark_read))]
pub fn mark_read(i: Insn, x: &Nested) -> Option<u8>
    ensures { result ≡ mark_read i x.now.saved }
{
    match i {
        Insn::System(System::Special(SpecialName::Rsr | SpecialName::Xsr, _, n)) =>
            x.saved[n as usize],
        _ => None,
    }
}

/// The visible register that WSR or XSR reads, and the special one that it writes.
#[tactic(auto, unfolding(crate::specs::Marks::moved_to))]
pub fn moved_to(i: Insn) -> Option<(u8, u8)>
    requires { in_range i ≡ true }
    ensures value { result ≡ moved_to i }
    ensures range { IfSome result (λ p. p.0 < 16) }
{
    match i {
        Insn::System(System::Special(SpecialName::Wsr | SpecialName::Xsr, t, n)) => Some((t, n)),
        _ => None,
    }
}
