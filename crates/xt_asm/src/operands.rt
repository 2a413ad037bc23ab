//! What the operands of an instruction stand for.
ghost use Rattle.std.specs.Prelude.{◌≡◌, ◌<◌, ◌^◌, All, IfOk, map, option_copied};
ghost use Rattle.xt_lex.specs.Values.{HaveAddresses, value_of};
ghost use Rattle.xt_parse.specs.Small.{HasShortExprs, IsShort, IsShortOperand};
ghost use Rattle.xt_names.specs.Operands.{all_known};
ghost use Rattle.xt_asm.specs.Operands.{argument_of, insn_at, insn_of, name_in, special_in};
ghost use Rattle.xt_asm.specs.Contexts.{IsMade, IsMadeOf, known_items, site_of};

use std::alloc::{AllocError, Global};
use xt_isa::Insn;
use xt_lex::{Expr, Labels, Name, Term, TermValue, value};
use xt_names::{Access, Argument, Mnemonic, OperandFault, access_of, instruction, special_number};
use xt_parse::{Operand, Statement};

/// What a statement refers to, and where it stands.
#[derive(Clone, Copy)]
pub(crate) struct Context<'a> {
    /// The labels of the text.
    pub(crate) labels: &'a Labels,
    /// The address of the word that its use of the pool refers to.
    pub(crate) target: Option<i64>,
    /// Its own address, below 2^40.
    pub(crate) at: u64,
}

/// The instruction that a statement's operands make, or why they make none; nothing where an operand is not known.
pub(crate) type Made = Option<Result<Insn, OperandFault>>;

/// The value of an expression, and none where a label is unknown.
pub(crate) fn value_of(labels: &Labels, e: &Expr) -> Option<i64>
    requires short { IsShort e.now }
    requires addresses { HaveAddresses labels.now }
    ensures { result ≡ value_of labels.now e.now }
{
    match value(e, labels) {
        Ok(value) => Some(value),
        Err(_) => None,
    }
}

/// The name of an expression that is one label.
fn name_in(e: &Expr) -> Option<&Name>
    ensures { option_copied result ≡ name_in e.now }
{
    match e.as_slice() {
        [term] => match &term.value {
            TermValue::Label(name) => Some(name),
            TermValue::Number(_) => None,
        },
        _ => None,
    }
}

/// The number of the special register that an expression names, where there is one with this access.
pub(crate) fn special_in(access: Access, e: &Expr) -> Option<u8>
    ensures { result ≡ special_in access e.now }
{
    match name_in(e) {
        Some(name) => special_number(access, name.as_slice()),
        None => None,
    }
}

/// What an operand of a mnemonic with this access stands for.
fn argument_of(context: &Context<'_>, access: Option<Access>, operand: &Operand) -> Option<Argument>
    requires short { IsShortOperand operand.now }
    requires addresses { HaveAddresses context.now.labels.now }
    ensures { result ≡ argument_of (site_of context.now) access operand.now }
{
    match operand {
        Operand::Reg(number) => Some(Argument::Register(*number)),
        Operand::Value(e) => match access {
            Some(access) => match special_in(access, e) {
                Some(number) => Some(Argument::Special(number)),
                None => None,
            },
            None => match value_of(context.labels, e) {
                Some(value) => Some(Argument::Value(value)),
                None => None,
            },
        },
        Operand::Pool(_) => match context.target {
            Some(address) => Some(Argument::Value(address)),
            None => None,
        },
    }
}

/// What the operands of a mnemonic with this access stand for, where all are known.
fn arguments_of(
    alloc: Global,
    context: &Context<'_>,
    access: Option<Access>,
    operands: &[Operand],
) -> Result<Option<Vec<Argument>>, AllocError>
    requires short { All IsShortOperand operands.now }
    requires addresses { HaveAddresses context.now.labels.now }
    ensures { IfOk result (λ known. known_items known ≡ all_known (map (argument_of (site_of context.now) access) operands.now)) }
{
    let mut arguments = Vec::new(alloc);
    for operand in operands {
        match argument_of(context, access, operand) {
            Some(argument) => arguments.push(argument)?,
            None => return Ok(None),
        }
    }
    Ok(Some(arguments))
}

/// The instruction that a mnemonic and its operands make.
fn insn_of(
    alloc: Global,
    context: &Context<'_>,
    mnemonic: Mnemonic,
    operands: &[Operand],
) -> Result<Made, AllocError>
    requires short { All IsShortOperand operands.now }
    requires addresses { HaveAddresses context.now.labels.now }
    requires at { context.now.at < 2 ^ 40 }
    ensures made { IfOk result (λ made. made ≡ insn_of (site_of context.now) mnemonic operands.now) }
    ensures sound { IfOk result (IsMade mnemonic) }
{
    match arguments_of(alloc, context, access_of(mnemonic), operands)? {
        Some(arguments) => Ok(Some(instruction(mnemonic, arguments.as_slice(), context.at as i64))),
        None => Ok(None),
    }
}

/// The instruction that a statement's operands make.
pub(crate) fn insn_at(
    alloc: Global,
    context: &Context<'_>,
    statement: &Statement,
) -> Result<Made, AllocError>
    requires short { HasShortExprs statement.now }
    requires addresses { HaveAddresses context.now.labels.now }
    requires at { context.now.at < 2 ^ 40 }
    ensures made { IfOk result (λ made. made ≡ insn_at (site_of context.now) statement.now) }
    ensures sound { IfOk result (IsMadeOf statement.now) }
{
    match statement {
        Statement::Insn(mnemonic, operands) => {
            insn_of(alloc, context, *mnemonic, operands.as_slice())
        }
        _ => Ok(None),
    }
}
