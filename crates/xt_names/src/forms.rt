//! What a mnemonic says: the operands after it, its length, and how it reaches a special register.

ghost use Rattle.std.specs.Prelude.{◌≡◌};
ghost use Rattle.xt_names.specs.Forms.{access_of, is_narrow, shapes_of};

use crate::mnemonic::{
    Mnemonic, Number, OneAndNumber, OneAndSpecial, OneAndTarget, Plain, Three, Two, TwoAndNumber,
};
use xt_isa::system::SpecialName;

/// How an instruction reaches a special or user register.
#[derive(Clone, Copy, PartialEq, Eq)]
pub enum Access {
    /// RSR reads a special register.
    Read,
    /// WSR writes a special register.
    Write,
    /// XSR exchanges a special register with an address register.
    Exchange,
    /// RUR and WUR reach a user register, THREADPTR alone.
    User,
}

/// The shape of one operand.
#[derive(Clone, Copy)]
pub enum Shape {
    /// A register.
    Register,
    /// A Boolean register.
    Boolean,
    /// A number, or the address of a target.
    Value,
    /// The address of a literal.
    Literal,
    /// The name of a special register.
    Special,
    /// `threadptr`, the name of the one user register.
    User,
}

/// The operands of a mnemonic, in the order of the text.
#[tactic(auto, unfolding(crate::specs::Forms::shapes_of))]
pub fn shapes_of(mnemonic: Mnemonic) -> &'static [Shape]
    ensures { result.now ≡ shapes_of mnemonic }
{
    match mnemonic {
        Mnemonic::Nothing(_) => &[],
        Mnemonic::One(_) => &[Shape::Register],
        Mnemonic::Two(Two::Four(_) | Two::Eight(_)) => &[Shape::Boolean, Shape::Boolean],
        Mnemonic::Two(_) => &[Shape::Register, Shape::Register],
        Mnemonic::Three(Three::Logic(_)) => &[Shape::Boolean, Shape::Boolean, Shape::Boolean],
        Mnemonic::Three(Three::Choice(_)) => &[Shape::Register, Shape::Register, Shape::Boolean],
        Mnemonic::Three(_) => &[Shape::Register, Shape::Register, Shape::Register],
        Mnemonic::Number(_) | Mnemonic::Jump | Mnemonic::Call(_) => &[Shape::Value],
        Mnemonic::Break => &[Shape::Value, Shape::Value],
        Mnemonic::OneAndTarget(OneAndTarget::Test(_)) => &[Shape::Boolean, Shape::Value],
        Mnemonic::OneAndNumber(_) | Mnemonic::OneAndTarget(_) => &[Shape::Register, Shape::Value],
        Mnemonic::TwoAndNumber(_) | Mnemonic::TwoAndTarget(_) => {
            &[Shape::Register, Shape::Register, Shape::Value]
        }
        Mnemonic::Extui => &[Shape::Register, Shape::Register, Shape::Value, Shape::Value],
        Mnemonic::OneAndSpecial(OneAndSpecial::Special(_)) => &[Shape::Register, Shape::Special],
        Mnemonic::OneAndSpecial(OneAndSpecial::User(_)) => &[Shape::Register, Shape::User],
        Mnemonic::Literal => &[Shape::Register, Shape::Literal],
        Mnemonic::OneNumberAndTarget(_) => &[Shape::Register, Shape::Value, Shape::Value],
    }
}

/// Whether a mnemonic is one of 16 bits. Its instruction has 2 bytes then, else 3.
pub fn is_narrow(mnemonic: Mnemonic) -> bool
    ensures { result ≡ is_narrow mnemonic }
{
    matches!(
        mnemonic,
        Mnemonic::Nothing(Plain::Bare(_))
            | Mnemonic::Two(Two::MovNarrow)
            | Mnemonic::Three(Three::AddNarrow)
            | Mnemonic::Number(Number::BreakNarrow)
            | Mnemonic::OneAndNumber(OneAndNumber::MoviNarrow)
            | Mnemonic::OneAndTarget(OneAndTarget::BranchZeroNarrow(_))
            | Mnemonic::TwoAndNumber(TwoAndNumber::WordNarrow(_) | TwoAndNumber::AddiNarrow)
    )
}

/// How the instruction of a mnemonic reaches a register that it names: RSR, WSR, XSR, RUR and WUR alone do.
pub fn access_of(mnemonic: Mnemonic) -> Option<Access>
    ensures { result ≡ access_of mnemonic }
{
    match mnemonic {
        Mnemonic::OneAndSpecial(OneAndSpecial::Special(SpecialName::Rsr)) => Some(Access::Read),
        Mnemonic::OneAndSpecial(OneAndSpecial::Special(SpecialName::Wsr)) => Some(Access::Write),
        Mnemonic::OneAndSpecial(OneAndSpecial::Special(SpecialName::Xsr)) => Some(Access::Exchange),
        Mnemonic::OneAndSpecial(OneAndSpecial::User(_)) => Some(Access::User),
        _ => None,
    }
}
