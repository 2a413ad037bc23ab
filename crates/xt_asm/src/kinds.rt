//! The faults of a line that no earlier pass finds.
ghost use Rattle.std.specs.Prelude.{◌≡◌, ◌<◌, ◌^◌, All, Some};
ghost use Rattle.std.specs.List.{list_any};
ghost use Rattle.xt_lex.specs.Values.{HaveAddresses};
ghost use Rattle.xt_parse.specs.Small.{HasShortExprs, IsShort, IsShortOperand};
ghost use Rattle.xt_layout.specs.Findings.{at_statement};
ghost use Rattle.xt_asm.specs.Kinds.{has_misfit, has_no_word, has_unknown, is_code, is_misaligned_target, is_out_of_reach, is_range, is_stray_entry, is_unknown, is_unknown_operand, lacks_word, misfits, misfits_pool};
ghost use Rattle.xt_asm.specs.Contexts.{own_fault, site_of};
ghost use Rattle.xt_asm.specs.Widths.{fits};

use crate::operands::{Context, Made, special_in, value_of};
use xt_layout::{is_alignment, is_space};
use xt_lex::{AsmPlace, Expr, Labels};
use xt_map::can_execute_at;
use xt_names::{Access, OperandFault, access_of};
use xt_parse::{Line, Operand, Statement};

// ---- Unknown

/// Whether an expression has a label that no line defines.
fn is_unknown(labels: &Labels, e: &Expr) -> bool
    requires short { IsShort e.now }
    requires addresses { HaveAddresses labels.now }
    ensures { result ≡ is_unknown labels.now e.now }
{
    value_of(labels, e).is_none()
}

/// Whether one of some expressions has a label that no line defines.
fn any_unknown(labels: &Labels, exprs: &[Expr]) -> bool
    requires short { All IsShort exprs.now }
    requires addresses { HaveAddresses labels.now }
    ensures { result ≡ list_any (is_unknown labels.now) exprs.now }
{
    for e in exprs {
        if is_unknown(labels, e) {
            return true;
        }
    }
    false
}

/// Whether an operand of a mnemonic with this access has an unknown label, or names no special register.
fn is_unknown_operand(labels: &Labels, access: Option<Access>, operand: &Operand) -> bool
    requires short { IsShortOperand operand.now }
    requires addresses { HaveAddresses labels.now }
    ensures { result ≡ is_unknown_operand labels.now access operand.now }
{
    match operand {
        Operand::Reg(_) => false,
        Operand::Value(e) => match access {
            Some(access) => special_in(access, e).is_none(),
            None => is_unknown(labels, e),
        },
        Operand::Pool(e) => is_unknown(labels, e),
    }
}

/// Whether one of the operands of a mnemonic with this access is unknown.
fn any_unknown_operand(labels: &Labels, access: Option<Access>, operands: &[Operand]) -> bool
    requires short { All IsShortOperand operands.now }
    requires addresses { HaveAddresses labels.now }
    ensures { result ≡ list_any (is_unknown_operand labels.now access) operands.now }
{
    for operand in operands {
        if is_unknown_operand(labels, access, operand) {
            return true;
        }
    }
    false
}

/// Whether a statement has an unknown label or names no special register.
fn has_unknown(labels: &Labels, statement: &Statement) -> bool
    requires short { HasShortExprs statement.now }
    requires addresses { HaveAddresses labels.now }
    ensures { result ≡ has_unknown labels.now statement.now }
{
    match statement {
        Statement::Entry(e) | Statement::Literal(_, e) => is_unknown(labels, e),
        Statement::Words(values) | Statement::Shorts(values) | Statement::Bytes(values) => {
            any_unknown(labels, values.as_slice())
        }
        Statement::Insn(mnemonic, operands) => {
            any_unknown_operand(labels, access_of(*mnemonic), operands.as_slice())
        }
        _ => false,
    }
}

// ---- Range

/// What holds a value.
#[derive(Clone, Copy)]
pub(crate) enum Width {
    /// A word: -2^31 to 2^32 - 1.
    Word,
    /// A half-word: -32768 to 65535.
    Short,
    /// A byte: -128 to 255.
    Byte,
}

/// Whether this can hold a value.
fn fits(width: Width, value: i64) -> bool
    ensures { result ≡ fits width value }
{
    match width {
        Width::Word => -0x8000_0000 <= value && value <= 0xFFFF_FFFF,
        Width::Short => -0x8000 <= value && value <= 0xFFFF,
        Width::Byte => -128 <= value && value <= 255,
    }
}

/// Whether the value of an expression is known and this cannot hold it.
fn misfits(width: Width, labels: &Labels, e: &Expr) -> bool
    requires short { IsShort e.now }
    requires addresses { HaveAddresses labels.now }
    ensures { result ≡ misfits (fits width) labels.now e.now }
{
    match value_of(labels, e) {
        Some(value) => !fits(width, value),
        None => false,
    }
}

/// Whether this cannot hold one of some values.
fn any_misfits(width: Width, labels: &Labels, exprs: &[Expr]) -> bool
    requires short { All IsShort exprs.now }
    requires addresses { HaveAddresses labels.now }
    ensures { result ≡ list_any (misfits (fits width) labels.now) exprs.now }
{
    for e in exprs {
        if misfits(width, labels, e) {
            return true;
        }
    }
    false
}

/// Whether an operand is a use of the pool whose value no word can hold.
fn misfits_pool(labels: &Labels, operand: &Operand) -> bool
    requires short { IsShortOperand operand.now }
    requires addresses { HaveAddresses labels.now }
    ensures { result ≡ misfits_pool labels.now operand.now }
{
    match operand {
        Operand::Pool(e) => misfits(Width::Word, labels, e),
        _ => false,
    }
}

/// Whether one of some operands is such a use.
fn any_misfits_pool(labels: &Labels, operands: &[Operand]) -> bool
    requires short { All IsShortOperand operands.now }
    requires addresses { HaveAddresses labels.now }
    ensures { result ≡ list_any (misfits_pool labels.now) operands.now }
{
    for operand in operands {
        if misfits_pool(labels, operand) {
            return true;
        }
    }
    false
}

/// Whether a statement has a value that its bytes cannot hold, an alignment that is none, or zeros past FFFFFFFF.
fn has_misfit(context: &Context<'_>, statement: &Statement) -> bool
    requires short { HasShortExprs statement.now }
    requires addresses { HaveAddresses context.now.labels.now }
    requires at { context.now.at < 2 ^ 40 }
    ensures { result ≡ has_misfit (site_of context.now) statement.now }
{
    let labels = context.labels;
    match statement {
        Statement::Literal(_, e) => misfits(Width::Word, labels, e),
        Statement::Words(values) => any_misfits(Width::Word, labels, values.as_slice()),
        Statement::Shorts(values) => any_misfits(Width::Short, labels, values.as_slice()),
        Statement::Bytes(values) => any_misfits(Width::Byte, labels, values.as_slice()),
        Statement::Align(n) => !is_alignment(*n),
        Statement::Space(n) => !is_space(*n, context.at),
        Statement::Insn(_, operands) => any_misfits_pool(labels, operands.as_slice()),
        _ => false,
    }
}

/// Whether an operand is outside its row's range.
fn is_range(made: &Made) -> bool
    ensures { result ≡ is_range made.now }
{
    matches!(made, Some(Err(OperandFault::Range)))
}

// ---- Misaligned

/// Whether the target of a call or L32R is no multiple of 4.
fn is_misaligned_target(made: &Made) -> bool
    ensures { result ≡ is_misaligned_target made.now }
{
    matches!(made, Some(Err(OperandFault::Misaligned)))
}

// ---- OutOfMap

/// Whether a value is an address in an executable region.
fn is_code(value: i64) -> bool
    ensures { result ≡ is_code value }
{
    if value < 0 {
        return false;
    }
    if value > 0xFFFF_FFFF {
        return false;
    }
    can_execute_at(value as u32)
}

/// Whether a statement is an `.entry` that is no address in an executable region.
fn is_stray_entry(labels: &Labels, statement: &Statement) -> bool
    requires short { HasShortExprs statement.now }
    requires addresses { HaveAddresses labels.now }
    ensures { result ≡ is_stray_entry labels.now statement.now }
{
    match statement {
        Statement::Entry(e) => match value_of(labels, e) {
            Some(value) => !is_code(value),
            None => false,
        },
        _ => false,
    }
}

// ---- PoolReach

/// Whether an operand is a use of the pool that has no word.
fn lacks_word(context: &Context<'_>, operand: &Operand) -> bool
    ensures { result ≡ lacks_word (site_of context.now) operand.now }
{
    match operand {
        Operand::Pool(_) => context.target.is_none(),
        _ => false,
    }
}

/// Whether one of some operands is such a use.
fn any_lacks_word(context: &Context<'_>, operands: &[Operand]) -> bool
    ensures { result ≡ list_any (lacks_word (site_of context.now)) operands.now }
{
    for operand in operands {
        if lacks_word(context, operand) {
            return true;
        }
    }
    false
}

/// Whether a statement has such a use.
fn has_no_word(context: &Context<'_>, statement: &Statement) -> bool
    ensures { result ≡ has_no_word (site_of context.now) statement.now }
{
    match statement {
        Statement::Insn(_, operands) => any_lacks_word(context, operands.as_slice()),
        _ => false,
    }
}

/// Whether an L32R does not reach its target.
fn is_out_of_reach(made: &Made) -> bool
    ensures { result ≡ is_out_of_reach made.now }
{
    matches!(made, Some(Err(OperandFault::OutOfReach)))
}

// ---- the first of them

/// A fault of a line's statement.
fn at_statement(line: &Line, kind: u8) -> Option<AsmPlace>
    ensures { result ≡ Some (at_statement line.now kind) }
{
    Some(AsmPlace {
        line: line.number,
        column: line.column,
        kind,
    })
}

/// The first fault of a line that no earlier pass finds; `made` is its instruction.
pub(crate) fn own_fault(context: &Context<'_>, line: &Line, made: &Made) -> Option<AsmPlace>
    requires short { HasShortExprs line.now.statement }
    requires addresses { HaveAddresses context.now.labels.now }
    requires at { context.now.at < 2 ^ 40 }
    ensures { result ≡ own_fault (site_of context.now) line.now made.now }
{
    if has_unknown(context.labels, &line.statement) {
        return at_statement(line, 1);
    }
    if has_misfit(context, &line.statement) || is_range(made) {
        return at_statement(line, 2);
    }
    if is_misaligned_target(made) {
        return at_statement(line, 5);
    }
    if is_stray_entry(context.labels, &line.statement) {
        return at_statement(line, 6);
    }
    if has_no_word(context, &line.statement) || is_out_of_reach(made) {
        return at_statement(line, 3);
    }
    None
}
