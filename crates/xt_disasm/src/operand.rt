//! Operands as text.
#![tactic(auto)]

ghost use Rattle.std.specs.Prelude.{◌≡◌, ◌++◌, ◌∷◌, [], map, OnOk, string_bytes};
ghost use Rattle.xt_disasm.specs.Listing.{arguments};
ghost use Rattle.xt_disasm.specs.Operands.{operand_text};

use std::alloc::AllocError;
use std::fmt::Write;
use xt_names::{Access, special_name};
use xt_word::push_hex8;

/// One operand of an instruction.
#[derive(Clone, Copy)]
pub enum Operand {
    /// An address register, 0 to 15.
    Register(u8),
    /// A Boolean register, 0 to 15.
    Boolean(u8),
    /// An immediate number.
    Number(i32),
    /// The address of a target.
    Target(u32),
    /// A special or user register by its number, as this access names it.
    Special(Access, u8),
}

/// Appends an operand: `a3`, `b3`, `-16`, `0x400D0000`, or the name of a special register.
fn push_operand(out: &mut String, operand: Operand) -> Result<(), AllocError>
    ensures { OnOk result (string_bytes out.new ≡ string_bytes out.old ++ operand_text operand) }
{
    match operand {
        Operand::Register(number) => write!(out, "a{number}"),
        Operand::Boolean(number) => write!(out, "b{number}"),
        Operand::Number(number) => write!(out, "{number}"),
        Operand::Target(address) => {
            out.push_str("0x")?;
            push_hex8(out, address)
        }
        Operand::Special(access, number) => out.push_str(special_name(access, number)),
    }
}

/// Appends the operands after a mnemonic: a space, and the operands with `, ` between each two; nothing where there are
/// none.
pub fn push_operands(out: &mut String, operands: &[Operand]) -> Result<(), AllocError>
    ensures { OnOk result (string_bytes out.new ≡ string_bytes out.old ++ arguments (map operand_text operands.now)) }
{
    let Some((first, others)) = operands.split_first() else {
        return Ok(());
    };
    out.push_str(" ")?;
    push_operand(out, *first)?;
    for operand in others {
        out.push_str(", ")?;
        push_operand(out, *operand)?;
    }
    Ok(())
}
