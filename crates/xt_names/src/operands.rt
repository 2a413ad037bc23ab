//! The operands of each form, out of a list of arguments. Where the list has another form, or a number in it is no operand
//! of 32 bits, the fault is Range.
//!
//! A number is counted from a base: 0, or the address that the offset of a target is counted from.

ghost use Rattle.std.specs.Prelude.{◌≡◌, ℤ, pos, negsuc, ◌+ℤ◌, ◌-ℤ◌, ◌≤ℤ◌, ◌<ℤ◌, ◌^◌, Ok, Err};
ghost use Rattle.xt_names.specs.Operands.{call_in, call_offset, call_reaches, offset_from, is_aligned, literal_in, literal_offset, literal_reaches, none_in, number_in, one_and_number_in, one_and_special_in, one_and_two_numbers_in, one_in, three_in, two_and_number_in, two_and_two_numbers_in, two_in, two_numbers_in};

use crate::argument::Argument::{self, Register, Special, Value};
use crate::argument::OperandFault::{self, Misaligned, OutOfReach, Range};

/// A number, counted from a base.
#[tactic(auto, unfolding(crate::specs::Operands::offset_from))]
fn offset_from(base: i64, n: i64) -> Result<i32, OperandFault>
    ensures { result ≡ offset_from base n }
{
    match n.checked_sub(base) {
        Some(d) if -2147483648 <= d && d <= 2147483647 => Ok(d as i32),
        _ => Err(Range),
    }
}

/// Whether an address is a multiple of 4.
fn is_aligned(n: i64) -> bool
    ensures { result ≡ is_aligned n }
{
    n % 4 == 0
}

/// The offset of a call's target from a base. A target out of reach is Range, before one that is no multiple of 4.
#[tactic(auto, unfolding(crate::specs::Operands::call_offset, crate::specs::Operands::offset_from))]
fn call_offset(base: i64, n: i64) -> Result<i32, OperandFault>
    ensures { result ≡ call_offset base n }
{
    match offset_from(base, n) {
        Ok(offset) if -524288 <= offset && offset <= 524284 => {
            if is_aligned(n) {
                Ok(offset)
            } else {
                Err(Misaligned)
            }
        }
        _ => Err(Range),
    }
}

/// The offset of an L32R's literal from a base. A literal at no multiple of 4 is Misaligned, before one out of reach.
#[tactic(auto, unfolding(crate::specs::Operands::literal_offset, crate::specs::Operands::offset_from))]
fn literal_offset(base: i64, n: i64) -> Result<i32, OperandFault>
    ensures { result ≡ literal_offset base n }
{
    if !is_aligned(n) {
        return Err(Misaligned);
    }
    match offset_from(base, n) {
        Ok(offset) if -262144 <= offset && offset <= -4 => Ok(offset),
        _ => Err(OutOfReach),
    }
}

/// No operands.
pub(crate) fn none_in(arguments: &[Argument]) -> Result<(), OperandFault>
    ensures { result ≡ none_in arguments.now }
{
    match arguments {
        [] => Ok(()),
        _ => Err(Range),
    }
}

/// A register.
pub(crate) fn one_in(arguments: &[Argument]) -> Result<u8, OperandFault>
    ensures { result ≡ one_in arguments.now }
{
    match arguments {
        [Register(s)] => Ok(*s),
        _ => Err(Range),
    }
}

/// Two registers.
pub(crate) fn two_in(arguments: &[Argument]) -> Result<(u8, u8), OperandFault>
    ensures { result ≡ two_in arguments.now }
{
    match arguments {
        [Register(s), Register(t)] => Ok((*s, *t)),
        _ => Err(Range),
    }
}

/// Three registers.
pub(crate) fn three_in(arguments: &[Argument]) -> Result<(u8, u8, u8), OperandFault>
    ensures { result ≡ three_in arguments.now }
{
    match arguments {
        [Register(r), Register(s), Register(t)] => Ok((*r, *s, *t)),
        _ => Err(Range),
    }
}

/// A number.
pub(crate) fn number_in(base: i64, arguments: &[Argument]) -> Result<i32, OperandFault>
    ensures { result ≡ number_in base arguments.now }
{
    match arguments {
        [Value(n)] => offset_from(base, *n),
        _ => Err(Range),
    }
}

/// Two numbers.
pub(crate) fn two_numbers_in(arguments: &[Argument]) -> Result<(i32, i32), OperandFault>
    ensures { result ≡ two_numbers_in arguments.now }
{
    match arguments {
        [Value(m), Value(n)] => Ok((offset_from(0, *m)?, offset_from(0, *n)?)),
        _ => Err(Range),
    }
}

/// A register and a number.
pub(crate) fn one_and_number_in(
    base: i64,
    arguments: &[Argument],
) -> Result<(u8, i32), OperandFault>
    ensures { result ≡ one_and_number_in base arguments.now }
{
    match arguments {
        [Register(s), Value(n)] => Ok((*s, offset_from(base, *n)?)),
        _ => Err(Range),
    }
}

/// A register, a number counted from 0, and a number counted from the base.
pub(crate) fn one_and_two_numbers_in(
    base: i64,
    arguments: &[Argument],
) -> Result<(u8, i32, i32), OperandFault>
    ensures { result ≡ one_and_two_numbers_in base arguments.now }
{
    match arguments {
        [Register(s), Value(m), Value(n)] => Ok((*s, offset_from(0, *m)?, offset_from(base, *n)?)),
        _ => Err(Range),
    }
}

/// Two registers and a number.
pub(crate) fn two_and_number_in(
    base: i64,
    arguments: &[Argument],
) -> Result<(u8, u8, i32), OperandFault>
    ensures { result ≡ two_and_number_in base arguments.now }
{
    match arguments {
        [Register(s), Register(t), Value(n)] => Ok((*s, *t, offset_from(base, *n)?)),
        _ => Err(Range),
    }
}

/// Two registers and two numbers.
pub(crate) fn two_and_two_numbers_in(
    arguments: &[Argument],
) -> Result<(u8, u8, i32, i32), OperandFault>
    ensures { result ≡ two_and_two_numbers_in arguments.now }
{
    match arguments {
        [Register(s), Register(t), Value(m), Value(n)] => {
            Ok((*s, *t, offset_from(0, *m)?, offset_from(0, *n)?))
        }
        _ => Err(Range),
    }
}

/// A register and a special or user register.
pub(crate) fn one_and_special_in(arguments: &[Argument]) -> Result<(u8, u8), OperandFault>
    ensures { result ≡ one_and_special_in arguments.now }
{
    match arguments {
        [Register(t), Special(n)] => Ok((*t, *n)),
        _ => Err(Range),
    }
}

/// The offset of a call's target.
pub(crate) fn call_in(base: i64, arguments: &[Argument]) -> Result<i32, OperandFault>
    ensures { result ≡ call_in base arguments.now }
{
    match arguments {
        [Value(n)] => call_offset(base, *n),
        _ => Err(Range),
    }
}

/// The register of L32R, and the offset of its literal.
pub(crate) fn literal_in(base: i64, arguments: &[Argument]) -> Result<(u8, i32), OperandFault>
    ensures { result ≡ literal_in base arguments.now }
{
    match arguments {
        [Register(t), Value(n)] => Ok((*t, literal_offset(base, *n)?)),
        _ => Err(Range),
    }
}
