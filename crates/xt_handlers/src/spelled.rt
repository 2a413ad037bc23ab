//! Bytes to steps.
#![tactic(auto)]

ghost use Rattle.std.specs.Prelude.{◌≡◌, ◌≤◌, true};
ghost use Rattle.xt_isa.specs.Ranges.{in_range, window_within};
ghost use Rattle.xt_handlers.specs.Spelled.{HasRegisters, step_of, step_of_insn};

use crate::HandlerInsn;
use xt_codec::{Decoded, decode};
use xt_isa::Insn;
use xt_isa::density::{BareName, Density};
use xt_isa::memory::{Memory, WindowName};
use xt_isa::system::{ExceptionReturnName, System, WaitName};

/// What an instruction is to a handler.
#[tactic(auto, unfolding(crate::specs::Spelled::step_of_insn, xt_isa::specs::Ranges::two_registers, xt_isa::specs::Ranges::window_within))]
fn step_of_insn(i: Insn) -> HandlerInsn
    requires { in_range i ≡ true }
    ensures is { result ≡ step_of_insn i }
    ensures registers { HasRegisters result }
{
    match i {
        Insn::Memory(Memory::Window(WindowName::L32e, t, s, offset)) => {
            HandlerInsn::L32e(t, s, offset.unsigned_abs() as u8)
        }
        Insn::Memory(Memory::Window(WindowName::S32e, t, s, offset)) => {
            HandlerInsn::S32e(t, s, offset.unsigned_abs() as u8)
        }
        Insn::System(System::Wait(WaitName::Nop)) => HandlerInsn::Nop,
        Insn::Density(Density::Bare(BareName::Nop)) => HandlerInsn::Nop,
        Insn::System(System::ExceptionReturn(ExceptionReturnName::Rfwo)) => HandlerInsn::Rfwo,
        Insn::System(System::ExceptionReturn(ExceptionReturnName::Rfwu)) => HandlerInsn::Rfwu,
        _ => HandlerInsn::Foreign,
    }
}

/// What three bytes spell; of a two-byte instruction the third plays no part.
#[tactic(auto, unfolding(crate::specs::Spelled::step_of))]
pub fn step_of(a: u8, b: u8, c: u8) -> HandlerInsn
    ensures spelled { result ≡ step_of a b c }
    ensures registers { HasRegisters result }
{
    match decode(a, b, c) {
        Decoded::Good(insn, _) => step_of_insn(insn),
        Decoded::Illegal => HandlerInsn::Foreign,
    }
}
