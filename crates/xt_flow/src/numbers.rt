//! The lines of a segment that holds no code.
#![tactic(auto)]

ghost use Rattle.std.specs.Prelude.{◌≡◌, ◌++◌, ◌+◌, ◌<◌, ◌≤◌, ◌^◌, ◌==◌, IfOk, OnOk, codes, length, string_bytes};
ghost use Rattle.std.specs.List.{prefix_len};
ghost use Rattle.xt_word.specs.Hexadecimal.{hex8};
ghost use Rattle.xt_flow.specs.Sources.{byte_words, data_count, data_words, numbers, source_line, source_lines, space_words, word_words, zero_words};

use crate::listing::{push_list, word_of};
use std::alloc::AllocError;
use std::fmt::Write;
use xt_word::push_hex8;

/// Appends the end of a line: its address, ` # ADDR`.
pub fn push_place(out: &mut String, at: u32) -> Result<(), AllocError>
    ensures { OnOk result (string_bytes out.new ≡ string_bytes out.old ++ (codes " # " ++ hex8 at ++ codes "\n")) }
{
    out.push_str(" # ")?;
    push_hex8(out, at)?;
    out.push_str("\n")
}

/// Appends `.byte` with these bytes.
pub fn push_byte_words(out: &mut String, bytes: &[u8]) -> Result<(), AllocError>
    ensures { OnOk result (string_bytes out.new ≡ string_bytes out.old ++ byte_words bytes.now) }
{
    out.push_str(".byte ")?;
    push_list(out, bytes)
}

/// Appends `.word` with the number that four bytes make.
pub fn push_word_words(out: &mut String, bytes: &[u8]) -> Result<(), AllocError>
    requires { length bytes.now ≡ 4 }
    ensures { OnOk result (string_bytes out.new ≡ string_bytes out.old ++ word_words bytes.now) }
{
    out.push_str(".word 0x")?;
    push_hex8(out, word_of(bytes))
}

/// Appends `.space` with a number of zeros.
pub fn push_space_words(out: &mut String, count: usize) -> Result<(), AllocError>
    ensures { OnOk result (string_bytes out.new ≡ string_bytes out.old ++ space_words count) }
{
    write!(out, ".space {count}")
}

/// How many zero bytes come first.
fn zeros(bytes: &[u8]) -> usize
    ensures is { result ≡ prefix_len (λ b. b == 0) bytes.now }
    ensures few { result ≤ length bytes.now }
{
    for (i, byte) in bytes.iter().enumerate() {
        if *byte != 0 {
            return i;
        }
    }
    bytes.len()
}

/// How many bytes are in the words of zeros that come first.
fn zero_words(bytes: &[u8]) -> usize
    ensures is { result ≡ zero_words bytes.now }
    ensures few { result ≤ length bytes.now }
{
    zeros(bytes) / 4 * 4
}

/// Appends the words of the first line of the bytes, and answers how many of them it shows.
#[tactic(auto, unfolding(crate::specs::Sources::data_words, crate::specs::Sources::data_count))]
fn push_data(out: &mut String, bytes: &[u8]) -> Result<usize, AllocError>
    requires { 0 < length bytes.now }
    ensures shown { IfOk result (λ n. n ≡ data_count bytes.now) }
    ensures few { IfOk result (λ n. (0 < n) × (n ≤ length bytes.now)) }
    ensures text { OnOk result (string_bytes out.new ≡ string_bytes out.old ++ data_words bytes.now) }
{
    let zeros = zero_words(bytes);
    if zeros >= 8 {
        push_space_words(out, zeros)?;
        return Ok(zeros);
    }
    if bytes.len() >= 4 {
        push_word_words(out, &bytes[..4])?;
        return Ok(4);
    }
    push_byte_words(out, bytes)?;
    Ok(bytes.len())
}

/// Appends the first line of the bytes, which stand at an address, and answers how many of them it shows.
fn push_first(out: &mut String, at: u32, bytes: &[u8]) -> Result<usize, AllocError>
    requires { 0 < length bytes.now }
    ensures shown { IfOk result (λ n. n ≡ data_count bytes.now) }
    ensures few { IfOk result (λ n. (0 < n) × (n ≤ length bytes.now)) }
    ensures text { OnOk result (string_bytes out.new ≡ string_bytes out.old ++ source_line at (data_words bytes.now)) }
{
    let shown = push_data(out, bytes)?;
    push_place(out, at)?;
    Ok(shown)
}

/// Appends the lines of bytes that are no code, which stand at an address.
pub fn push_numbers(out: &mut String, at: u32, bytes: &[u8]) -> Result<(), AllocError>
    requires { at + length bytes.now < 2 ^ 32 }
    ensures { OnOk result (string_bytes out.new ≡ string_bytes out.old ++ source_lines numbers at bytes.now) }
{
    let mut rest = bytes;
    let mut address = at;
    while !rest.is_empty() {
        let shown = push_first(out, address, rest)?;
        address += shown as u32;
        rest = &rest[shown..];
    }
    Ok(())
}
