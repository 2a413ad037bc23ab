//! The bytes of each line.
ghost use Rattle.std.specs.Prelude.{◌≡◌, ◌++◌, ◌+◌, ◌*◌, ◌<◌, ◌≤◌, ◌^◌, true, All, IfOk, IfErr, OnOk, None, Some, length, map, flat_map};
ghost use Rattle.xt_lex.specs.Values.{HaveAddresses};
ghost use Rattle.xt_isa.specs.Ranges.{in_range};
ghost use Rattle.xt_parse.specs.Small.{HasShortExprs, IsShort};
ghost use Rattle.xt_layout.specs.Sizes.{padding};
ghost use Rattle.xt_asm.specs.Operands.{insn_at};
ghost use Rattle.xt_asm.specs.Pieces.{IsPiece, Spells, StandFor, byte_of, plain_bytes, residue, short_bytes, value_at, word_bytes, zeros};
ghost use Rattle.xt_asm.specs.Contexts.{IsShortWord, IsMadeOf, IsWhole, LineFault, own_fault, piece_source, site_of};

use crate::kinds::own_fault;
use crate::operands::{Context, Made, insn_at, value_of};
use std::alloc::{AllocError, Global};
use xt_codec::encode;
use xt_isa::Insn;
use xt_layout::{PoolWord, is_alignment, is_space};
use xt_lex::{AsmFault, Expr, Labels};
use xt_map::Bytes;
use xt_parse::{Line, Statement};

// ---- values

/// The value of an expression, and 0 where it is not known.
fn value_at(labels: &Labels, e: &Expr) -> i64
    requires short { IsShort e.now }
    requires addresses { HaveAddresses labels.now }
    ensures { result ≡ value_at labels.now e.now }
{
    match value_of(labels, e) {
        Some(value) => value,
        None => 0,
    }
}

/// A value mod 2^32.
pub(crate) fn word_of(value: i64) -> u32
    ensures { result ≡ residue value (2 ^ 32) }
{
    value.rem_euclid(0x1_0000_0000) as u32
}

/// A value mod 2^16.
fn short_of(value: i64) -> u16
    ensures { result ≡ residue value (2 ^ 16) }
{
    value.rem_euclid(0x1_0000) as u16
}

/// A value mod 2^8.
fn byte_of(value: i64) -> u8
    ensures { result ≡ residue value (2 ^ 8) }
{
    value.rem_euclid(0x100) as u8
}

/// Adds the four bytes of a value.
fn put_word(bytes: &mut Vec<u8>, labels: &Labels, e: &Expr) -> Result<(), AllocError>
    requires short { IsShort e.now }
    requires addresses { HaveAddresses labels.now }
    ensures { OnOk result (bytes.new.items ≡ bytes.old.items ++ word_bytes labels.now e.now) }
{
    bytes.extend_from_slice(&word_of(value_at(labels, e)).to_le_bytes())
}

/// Adds the bytes of some words.
fn put_words(bytes: &mut Vec<u8>, labels: &Labels, exprs: &[Expr]) -> Result<(), AllocError>
    requires short { All IsShort exprs.now }
    requires addresses { HaveAddresses labels.now }
    ensures { OnOk result (bytes.new.items ≡ bytes.old.items ++ flat_map (word_bytes labels.now) exprs.now) }
{
    for e in exprs {
        put_word(bytes, labels, e)?;
    }
    Ok(())
}

/// Adds the bytes of some half-words.
fn put_shorts(bytes: &mut Vec<u8>, labels: &Labels, exprs: &[Expr]) -> Result<(), AllocError>
    requires short { All IsShort exprs.now }
    requires addresses { HaveAddresses labels.now }
    ensures { OnOk result (bytes.new.items ≡ bytes.old.items ++ flat_map (short_bytes labels.now) exprs.now) }
{
    for e in exprs {
        bytes.extend_from_slice(&short_of(value_at(labels, e)).to_le_bytes())?;
    }
    Ok(())
}

/// Adds the bytes of the words of a pool.
fn put_pool(bytes: &mut Vec<u8>, labels: &Labels, pool: &[PoolWord]) -> Result<(), AllocError>
    requires short { All IsShortWord pool.now }
    requires addresses { HaveAddresses labels.now }
    ensures { OnOk result (bytes.new.items ≡ bytes.old.items ++ flat_map (λ w. word_bytes labels.now w.value) pool.now) }
{
    for word in pool {
        put_word(bytes, labels, &word.value)?;
    }
    Ok(())
}

/// Adds some bytes by their values.
fn put_bytes(bytes: &mut Vec<u8>, labels: &Labels, exprs: &[Expr]) -> Result<(), AllocError>
    requires short { All IsShort exprs.now }
    requires addresses { HaveAddresses labels.now }
    ensures { OnOk result (bytes.new.items ≡ bytes.old.items ++ map (byte_of labels.now) exprs.now) }
{
    for e in exprs {
        bytes.push(byte_of(value_at(labels, e)))?;
    }
    Ok(())
}

/// Zeros up to a multiple of a number.
fn zeros_to(alloc: Global, n: u64, at: u64) -> Result<Vec<u8>, AllocError>
    requires some { 0 < n }
    requires few { n ≤ 1024 }
    ensures { IfOk result (λ bytes. bytes.items ≡ zeros (padding n at)) }
{
    Ok(vec![in alloc; 0u8; ((n - at % n) % n) as usize]?)
}

/// The bytes of a statement that is no instruction.
fn plain_bytes(
    alloc: Global,
    context: &Context<'_>,
    pool: &[PoolWord],
    statement: &Statement,
) -> Result<Vec<u8>, AllocError>
    requires short { HasShortExprs statement.now }
    requires short_words { All IsShortWord pool.now }
    requires addresses { HaveAddresses context.now.labels.now }
    requires at { context.now.at < 2 ^ 40 }
    ensures { IfOk result (λ bytes. bytes.items ≡ plain_bytes (site_of context.now) pool.now statement.now) }
{
    let mut bytes = Vec::new(alloc);
    match statement {
        Statement::Position => {
            bytes = zeros_to(alloc, 4, context.at)?;
            put_pool(&mut bytes, context.labels, pool)?;
        }
        Statement::Words(values) => put_words(&mut bytes, context.labels, values.as_slice())?,
        Statement::Shorts(values) => put_shorts(&mut bytes, context.labels, values.as_slice())?,
        Statement::Bytes(values) => put_bytes(&mut bytes, context.labels, values.as_slice())?,
        Statement::Ascii(text) => bytes.extend_from_slice(text.as_slice())?,
        Statement::Align(n) if is_alignment(*n) => {
            bytes = zeros_to(alloc, *n as u64, context.at)?;
        }
        Statement::Space(n) if is_space(*n, context.at) => {
            bytes = vec![in alloc; 0u8; *n as usize]?;
        }
        _ => {}
    }
    Ok(bytes)
}

/// The bytes of an instruction.
fn code_of(alloc: Global, insn: &Insn) -> Result<Vec<u8>, AllocError>
    requires { in_range insn.now ≡ true }
    ensures { IfOk result (λ bytes. Spells insn.now bytes.items) }
{
    let code = encode(insn);
    let mut bytes = Vec::new(alloc);
    bytes.push(code.bytes[0])?;
    bytes.push(code.bytes[1])?;
    if code.len == 3 {
        bytes.push(code.bytes[2])?;
    }
    Ok(bytes)
}

/// The bytes of a statement; `made` is its instruction, which every instruction of a line without a fault has.
fn bytes_of(
    alloc: Global,
    context: &Context<'_>,
    pool: &[PoolWord],
    statement: &Statement,
    made: &Made,
) -> Result<Vec<u8>, AllocError>
    requires short { HasShortExprs statement.now }
    requires short_words { All IsShortWord pool.now }
    requires addresses { HaveAddresses context.now.labels.now }
    requires at { context.now.at < 2 ^ 40 }
    requires made { made.now ≡ insn_at (site_of context.now) statement.now }
    requires sound { IsMadeOf statement.now made.now }
    requires whole { IsWhole statement.now made.now }
    ensures stand_for { IfOk result (λ bytes. StandFor (site_of context.now) pool.now statement.now bytes.items) }
{
    match made {
        Some(Ok(insn)) => code_of(alloc, insn),
        _ => plain_bytes(alloc, context, pool, statement),
    }
}

/// Bytes as they are. Each is a number from 0 to 255.
fn finished(bytes: Vec<u8>) -> Bytes
    ensures value { result ≡ bytes.items }
    ensures small { All (λ b. b < 256) result }
{
    Bytes::new(bytes)
}

/// The bytes of a line with the words of its pool, or its first fault that no earlier pass finds.
pub(crate) fn piece_of(
    alloc: Global,
    context: &Context<'_>,
    pool: &[PoolWord],
    line: &Line,
) -> Result<Bytes, AsmFault>
    requires short { HasShortExprs line.now.statement }
    requires short_words { All IsShortWord pool.now }
    requires addresses { HaveAddresses context.now.labels.now }
    requires at { context.now.at < 2 ^ 40 }
    ensures piece { IfOk result (λ bytes. IsPiece (piece_source context.now pool.now line.now.statement) bytes) }
    ensures clear { OnOk result (own_fault (site_of context.now) line.now (insn_at (site_of context.now) line.now.statement) ≡ None) }
    ensures fault { IfErr result (λ e. LineFault e (own_fault (site_of context.now) line.now (insn_at (site_of context.now) line.now.statement))) }
{
    let made = insn_at(alloc, context, &line.statement)?;
    match own_fault(context, line, &made) {
        Some(place) => Err(AsmFault::Place(place)),
        None => Ok(finished(bytes_of(alloc, context, pool, &line.statement, &made)?)),
    }
}
