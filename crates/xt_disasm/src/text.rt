//! The text of an instruction.
#![tactic(auto)]

ghost use Rattle.std.specs.Prelude.{◌≡◌, ◌++◌, map, true, IfOk, OnOk, string_bytes};
ghost use Rattle.xt_isa.specs.Ranges.{in_range};
ghost use Rattle.xt_disasm.specs.Operands.{call_address, call_target, jump_address, jump_target, literal_address, literal_target, operand_text, operands, special, tested_register, three_registers, two_registers};
ghost use Rattle.xt_disasm.specs.Listing.{arguments, insn_text};

use crate::operand::Operand::{Boolean, Number, Register, Special, Target};
use crate::operand::{Operand, push_operands};
use std::alloc::{AllocError, Global};
use xt_isa::Insn;
use xt_isa::system::SpecialName;
use xt_map::Text;
use xt_names::{
    Access, OneAndSpecial, OneAndTarget, Parts, Three, Two, mnemonic_in, name_of, parts_of,
};

/// The address that a jump, a branch or a loop at `pc` names: its offset is counted from PC + 4. Addresses wrap at 2^32.
pub fn jump_address(pc: u32, offset: i32) -> u32
    ensures { result ≡ jump_address pc offset }
{
    pc.wrapping_add(4).wrapping_add_signed(offset)
}

/// The address that a call at `pc` names: its offset is counted from PC rounded down to a multiple of 4, plus 4. Addresses
/// wrap at 2^32.
pub fn call_address(pc: u32, offset: i32) -> u32
    ensures { result ≡ call_address pc offset }
{
    (pc / 4 * 4).wrapping_add(4).wrapping_add_signed(offset)
}

/// The address of the literal of an L32R at `pc`: its offset is counted from PC + 3, rounded down to a multiple of 4.
/// Addresses wrap at 2^32.
pub fn literal_address(pc: u32, offset: i32) -> u32
    ensures { result ≡ literal_address pc offset }
{
    (pc.wrapping_add(3) / 4 * 4).wrapping_add_signed(offset)
}

/// The target of a jump, a branch or a loop at `pc`.
#[tactic(auto, unfolding(crate::specs::Operands::jump_target))]
fn jump_target(pc: u32, offset: i32) -> Operand
    ensures { result ≡ jump_target pc offset }
{
    Target(jump_address(pc, offset))
}

/// A special register as an access of a mnemonic names it.
fn special(name: OneAndSpecial, number: u8) -> Operand
    ensures { result ≡ special name number }
{
    match name {
        OneAndSpecial::Special(SpecialName::Rsr) => Special(Access::Read, number),
        OneAndSpecial::Special(SpecialName::Wsr) => Special(Access::Write, number),
        OneAndSpecial::Special(SpecialName::Xsr) => Special(Access::Exchange, number),
        OneAndSpecial::User(_) => Special(Access::User, number),
    }
}

/// The two registers of a mnemonic, each of its kind.
fn two_registers(name: Two, a: u8, b: u8) -> [Operand; 2]
    ensures { result ≡ two_registers name a b }
{
    match name {
        Two::Four(_) | Two::Eight(_) => [Boolean(a), Boolean(b)],
        _ => [Register(a), Register(b)],
    }
}

/// The three registers of a mnemonic, each of its kind.
fn three_registers(name: Three, r: u8, s: u8, t: u8) -> [Operand; 3]
    ensures { result ≡ three_registers name r s t }
{
    match name {
        Three::Logic(_) => [Boolean(r), Boolean(s), Boolean(t)],
        Three::Choice(_) => [Register(r), Register(s), Boolean(t)],
        _ => [Register(r), Register(s), Register(t)],
    }
}

/// The register that stands before a target.
fn tested_register(name: OneAndTarget, s: u8) -> Operand
    ensures { result ≡ tested_register name s }
{
    match name {
        OneAndTarget::Test(_) => Boolean(s),
        _ => Register(s),
    }
}

/// Appends the operands of an instruction of these parts, which stands at the address `pc`.
#[tactic(auto, unfolding(crate::specs::Operands::operands, crate::specs::Operands::call_target, crate::specs::Operands::literal_target))]
fn push_parts(out: &mut String, parts: Parts, pc: u32) -> Result<(), AllocError>
    ensures { OnOk result (string_bytes out.new ≡ string_bytes out.old ++ arguments (map operand_text (operands parts pc))) }
{
    match parts {
        Parts::Nothing(_) => Ok(()),
        Parts::One(_, s) => push_operands(out, &[Register(s)]),
        Parts::Two(name, (a, b)) => push_operands(out, &two_registers(name, a, b)),
        Parts::Three(name, (r, s, t)) => push_operands(out, &three_registers(name, r, s, t)),
        Parts::Number(_, n) => push_operands(out, &[Number(n)]),
        Parts::Break((x, y)) => push_operands(out, &[Number(x), Number(y)]),
        Parts::OneAndNumber(_, (s, n)) => push_operands(out, &[Register(s), Number(n)]),
        Parts::TwoAndNumber(_, (a, b, n)) => {
            push_operands(out, &[Register(a), Register(b), Number(n)])
        }
        Parts::Extui((r, t, n, w)) => {
            push_operands(out, &[Register(r), Register(t), Number(n), Number(w)])
        }
        Parts::OneAndSpecial(name, (t, n)) => {
            push_operands(out, &[Register(t), special(name, n)])
        }
        Parts::Jump(d) => push_operands(out, &[jump_target(pc, d)]),
        Parts::Call(_, d) => push_operands(out, &[Target(call_address(pc, d))]),
        Parts::Literal((t, d)) => push_operands(
            out,
            &[Register(t), Target(literal_address(pc, d))],
        ),
        Parts::OneAndTarget(name, (s, d)) => {
            push_operands(out, &[tested_register(name, s), jump_target(pc, d)])
        }
        Parts::OneNumberAndTarget(_, (s, n, d)) => {
            push_operands(out, &[Register(s), Number(n), jump_target(pc, d)])
        }
        Parts::TwoAndTarget(_, (s, t, d)) => {
            push_operands(out, &[Register(s), Register(t), jump_target(pc, d)])
        }
    }
}

/// Appends the text of the instruction, which stands at the address `pc`.
#[tactic(auto, unfolding(crate::specs::Listing::insn_text))]
pub fn push_insn(out: &mut String, i: Insn, pc: u32) -> Result<(), AllocError>
    ensures { OnOk result (string_bytes out.new ≡ string_bytes out.old ++ insn_text i pc) }
{
    let parts = parts_of(i);
    out.push_str(name_of(mnemonic_in(parts)))?;
    push_parts(out, parts, pc)
}

/// The text of the instruction that stands at the address `pc`: the mnemonic, and the operands in the order of assembly
/// text, with the address of a target in eight digits, as in `beqz a2, 0x400D0010`. The only error is running out of memory.
///
/// Condition: each operand is in its range, as `xt_codec::fits` says.
pub fn insn_text(alloc: Global, i: &Insn, pc: u32) -> Result<Text, AllocError>
    requires { in_range i.now ≡ true }
    ensures { IfOk result (λ text. text ≡ insn_text i.now pc) }
{
    let mut out = String::new(alloc);
    push_insn(&mut out, *i, pc)?;
    Ok(Text::new(out.into_bytes()))
}
