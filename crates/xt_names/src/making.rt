ghost use Rattle.std.specs.Prelude.{◌≡◌, pos, ◌^◌, ◌≤ℤ◌, ◌<ℤ◌, true, IfOk};
ghost use Rattle.xt_isa.specs.Ranges.{in_range};
ghost use Rattle.xt_names.specs.Forms.{size_of};
ghost use Rattle.xt_names.specs.InsnParts.{mnemonic_in};
ghost use Rattle.xt_names.specs.Lengths.{HasLength};
ghost use Rattle.xt_names.specs.Making.{if_in_range, instruction_of, parts_in};
ghost use Rattle.xt_names.specs.Operands.{from_call, from_literal, from_next};

use crate::argument::{Argument, OperandFault};
use crate::operands::{
    call_in, literal_in, none_in, number_in, one_and_number_in, one_and_special_in,
    one_and_two_numbers_in, one_in, three_in, two_and_number_in, two_and_two_numbers_in, two_in,
    two_numbers_in,
};
use crate::{Mnemonic, Parts, insn_of};
use xt_codec::fields_of;
use xt_isa::Insn;

/// Where the target of a jump, a branch or a loop is counted from: its address + 4.
fn from_next(address: i64) -> i64
    requires least { pos 0 ≤ℤ address }
    requires most { address <ℤ pos (2 ^ 40) }
    ensures { result ≡ from_next address }
{
    address + 4
}

/// Where the target of a call is counted from: its address rounded down to a multiple of 4, plus 4.
fn from_call(address: i64) -> i64
    requires least { pos 0 ≤ℤ address }
    requires most { address <ℤ pos (2 ^ 40) }
    ensures { result ≡ from_call address }
{
    (address as u64 / 4 * 4) as i64 + 4
}

/// Where the address of a literal is counted from: its address + 3, rounded down to a multiple of 4.
fn from_literal(address: i64) -> i64
    requires least { pos 0 ≤ℤ address }
    requires most { address <ℤ pos (2 ^ 40) }
    ensures { result ≡ from_literal address }
{
    ((address as u64 + 3) / 4 * 4) as i64
}

/// An instruction with each operand in its range.
fn if_in_range(i: Insn) -> Result<Insn, OperandFault>
    ensures value { result ≡ if_in_range i }
    ensures fits { IfOk result (λ i. in_range i ≡ true) }
    ensures same { IfOk result (λ j. j ≡ i) }
{
    match fields_of(i) {
        Some(_) => Ok(i),
        None => Err(OperandFault::Range),
    }
}

/// The parts that a mnemonic and its operands make, whether or not each operand is in its range.
#[tactic(auto, unfolding(crate::specs::Making::parts_in))]
fn parts_in(mnemonic: Mnemonic, address: i64, arguments: &[Argument]) -> Result<Parts, OperandFault>
    requires least { pos 0 ≤ℤ address }
    requires most { address <ℤ pos (2 ^ 40) }
    ensures value { result ≡ parts_in mnemonic address arguments.now }
    ensures same { IfOk result (λ p. mnemonic_in p ≡ mnemonic) }
{
    let next = from_next(address);
    Ok(match mnemonic {
        Mnemonic::Nothing(name) => {
            none_in(arguments)?;
            Parts::Nothing(name)
        }
        Mnemonic::One(name) => Parts::One(name, one_in(arguments)?),
        Mnemonic::Two(name) => Parts::Two(name, two_in(arguments)?),
        Mnemonic::Three(name) => Parts::Three(name, three_in(arguments)?),
        Mnemonic::Number(name) => Parts::Number(name, number_in(0, arguments)?),
        Mnemonic::Break => Parts::Break(two_numbers_in(arguments)?),
        Mnemonic::OneAndNumber(name) => Parts::OneAndNumber(name, one_and_number_in(0, arguments)?),
        Mnemonic::TwoAndNumber(name) => Parts::TwoAndNumber(name, two_and_number_in(0, arguments)?),
        Mnemonic::Extui => Parts::Extui(two_and_two_numbers_in(arguments)?),
        Mnemonic::OneAndSpecial(name) => Parts::OneAndSpecial(name, one_and_special_in(arguments)?),
        Mnemonic::Jump => Parts::Jump(number_in(next, arguments)?),
        Mnemonic::Call(name) => Parts::Call(name, call_in(from_call(address), arguments)?),
        Mnemonic::Literal => Parts::Literal(literal_in(from_literal(address), arguments)?),
        Mnemonic::OneAndTarget(name) => {
            Parts::OneAndTarget(name, one_and_number_in(next, arguments)?)
        }
        Mnemonic::OneNumberAndTarget(name) => {
            Parts::OneNumberAndTarget(name, one_and_two_numbers_in(next, arguments)?)
        }
        Mnemonic::TwoAndTarget(name) => {
            Parts::TwoAndTarget(name, two_and_number_in(next, arguments)?)
        }
    })
}

/// The instruction of a mnemonic, with its operands in the order of the text, at an address. A target is given by its
/// address, and the instruction keeps its offset.
///
/// Errors: `Misaligned` where the target of a call or the address of an L32R's literal is no multiple of 4, `OutOfReach`
/// where that literal is not within reach, and `Range` for every other operand outside its range. A call's target out of
/// reach is `Range`, also where it is no multiple of 4. Operands of another form are `Range`.
///
/// Condition: the address is 0 to 2^40 - 1.
#[tactic(auto, unfolding(crate::specs::Making::instruction_of))]
pub fn instruction(
    mnemonic: Mnemonic,
    arguments: &[Argument],
    address: i64,
) -> Result<Insn, OperandFault>
    requires least { pos 0 ≤ℤ address }
    requires most { address <ℤ pos (2 ^ 40) }
    ensures value { result ≡ instruction_of mnemonic arguments.now address }
    ensures fits { IfOk result (λ i. in_range i ≡ true) }

    // Every word that spells the instruction has 2 bytes where the mnemonic is one of 16 bits, else 3.
    ensures length { IfOk result (λ i. HasLength i (size_of mnemonic)) }
{
    if_in_range(insn_of(parts_in(mnemonic, address, arguments)?))
}
