//! The lines of a listing that follows the code.
#![tactic(auto)]

ghost use Rattle.std.specs.Prelude.{◌≡◌, ◌++◌, ◌+◌, ◌<◌, ◌≤◌, ◌^◌, true, All, IfOk, OnOk, length, codes, string_bytes};
ghost use Rattle.std.specs.List.{flat_map};
ghost use Rattle.xt_map.specs.Memory.{little_endian};
ghost use Rattle.xt_map.specs.Placing.{is_well_placed};
ghost use Rattle.xt_image.specs.ImageParts.{IsWellFormed};
ghost use Rattle.xt_word.specs.Hexadecimal.{hex2, hex8};
ghost use Rattle.xt_flow.specs.FlowTables.{is_free, is_long, is_marked, marks_of};
ghost use Rattle.xt_flow.specs.Printing.{IsFlowText, byte_line, byte_list, byte_run, first_line, flow_lines, is_byte, is_taken, is_word, is_zero, segment_text, first_line_length, space_line, text_by, to_next, word_line, zero_run};

use crate::code::code_from;
use crate::table::is_marked;
use crate::visits::{Visited, visit_all};
use std::alloc::{AllocError, Global};
use std::fmt::Write;
use xt_disasm::{front, is_code, push_bytes, push_line, push_segment_line};
use xt_image::Image;
use xt_map::{Segment, Text};
use xt_word::{push_hex2, push_hex8};

/// Whether an instruction of three bytes lies at an address.
fn is_long(segments: &[Segment], at: u32) -> bool
    ensures { result ≡ is_long segments.now at }
{
    match front(code_from(segments, at)) {
        Some((_, len)) => len > 2,
        None => false,
    }
}

/// Whether no instruction that starts touches the four bytes at an address.
#[tactic(auto, unfolding(crate::specs::FlowTables::is_free))]
fn is_free(segments: &[Segment], starts: &[bool], at: u32) -> bool
    requires low { 2 ≤ at }
    requires high { at + 3 < 2 ^ 32 }
    ensures { result ≡ is_free segments.now starts.now at }
{
    let is_reached = is_marked(starts, at - 1)
        || (is_marked(starts, at - 2) && is_long(segments, at - 2));
    let starts_within = is_marked(starts, at)
        || (is_marked(starts, at + 1) || (is_marked(starts, at + 2) || is_marked(starts, at + 3)));
    !is_reached && !starts_within
}

/// Whether a word is printed of these bytes, which stand at an address.
pub fn is_word(segments: &[Segment], visited: &Visited, at: u32, bytes: &[u8]) -> bool
    requires { at + length bytes.now < 2 ^ 32 }
    ensures { result ≡ is_word (marks_of segments.now visited.now.starts.items visited.now.reads.items) at bytes.now }
{
    if bytes.len() < 4 || !is_marked(&visited.reads, at) {
        return false;
    }
    is_free(segments, &visited.starts, at)
}

/// Whether an instruction or a word is printed of these bytes.
fn is_taken(segments: &[Segment], visited: &Visited, at: u32, bytes: &[u8]) -> bool
    requires { at + length bytes.now < 2 ^ 32 }
    ensures { result ≡ is_taken (marks_of segments.now visited.now.starts.items visited.now.reads.items) at bytes.now }
{
    is_marked(&visited.starts, at) || is_word(segments, visited, at, bytes)
}

/// How far the next start is, at most `most` bytes.
pub fn to_next(starts: &[bool], at: u32, most: usize) -> usize
    requires { at + most < 2 ^ 32 }
    ensures is { result ≡ to_next (λ a. is_marked starts.now a) at most }
    ensures few { result ≤ most }
{
    for k in 0..most {
        if is_marked(starts, at + k as u32) {
            return k;
        }
    }
    most
}

/// Whether a zero byte comes first, and no instruction or word.
fn is_zero(segments: &[Segment], visited: &Visited, at: u32, bytes: &[u8]) -> bool
    requires some { 0 < length bytes.now }
    requires fits { at + length bytes.now < 2 ^ 32 }
    ensures { result ≡ is_zero (marks_of segments.now visited.now.starts.items visited.now.reads.items) at bytes.now }
{
    bytes[0] == 0 && !is_taken(segments, visited, at, bytes)
}

/// How many zero bytes come first, up to an instruction or a word.
pub fn zero_run(segments: &[Segment], visited: &Visited, at: u32, bytes: &[u8]) -> usize
    requires { at + length bytes.now < 2 ^ 32 }
    ensures is { result ≡ zero_run (marks_of segments.now visited.now.starts.items visited.now.reads.items) at bytes.now }
    ensures few { result ≤ length bytes.now }
{
    for k in 0..bytes.len() {
        if !is_zero(segments, visited, at + k as u32, &bytes[k..]) {
            return k;
        }
    }
    bytes.len()
}

/// Whether a byte comes first that is printed as such: no instruction, word or space.
fn is_byte(segments: &[Segment], visited: &Visited, at: u32, bytes: &[u8]) -> bool
    requires { at + length bytes.now < 2 ^ 32 }
    ensures { result ≡ is_byte (marks_of segments.now visited.now.starts.items visited.now.reads.items) at bytes.now }
{
    !is_taken(segments, visited, at, bytes) && zero_run(segments, visited, at, bytes) < 4
}

/// How many bytes come first, at most sixteen, up to an instruction, a word or a space.
pub fn byte_run(segments: &[Segment], visited: &Visited, at: u32, bytes: &[u8]) -> usize
    requires { at + length bytes.now < 2 ^ 32 }
    ensures is { result ≡ byte_run (marks_of segments.now visited.now.starts.items visited.now.reads.items) at bytes.now }
    ensures few { result ≤ length bytes.now }
{
    for k in 0..16 {
        if k >= bytes.len() || !is_byte(segments, visited, at + k as u32, &bytes[k..]) {
            return k;
        }
    }
    16
}

/// Appends `ADDR BYTES `.
fn push_head(out: &mut String, at: u32, bytes: &[u8]) -> Result<(), AllocError>
    ensures { OnOk result (string_bytes out.new ≡ string_bytes out.old ++ hex8 at ++ codes " " ++ flat_map hex2 bytes.now ++ codes " ") }
{
    push_hex8(out, at)?;
    out.push_str(" ")?;
    push_bytes(out, bytes)?;
    out.push_str(" ")
}

/// The number that four bytes make, the least first.
pub fn word_of(bytes: &[u8]) -> u32
    requires { length bytes.now ≡ 4 }
    ensures { result ≡ little_endian bytes.now }
{
    u32::from_le_bytes([bytes[0], bytes[1], bytes[2], bytes[3]])
}

/// Appends the line of a word.
fn push_word_line(out: &mut String, at: u32, bytes: &[u8]) -> Result<(), AllocError>
    requires { length bytes.now ≡ 4 }
    ensures { OnOk result (string_bytes out.new ≡ string_bytes out.old ++ word_line at bytes.now) }
{
    push_head(out, at, bytes)?;
    out.push_str(".word 0x")?;
    push_hex8(out, word_of(bytes))?;
    out.push_str("\n")
}

/// Appends the line of zero bytes.
fn push_space_line(out: &mut String, at: u32, count: usize) -> Result<(), AllocError>
    ensures { OnOk result (string_bytes out.new ≡ string_bytes out.old ++ space_line at count) }
{
    push_head(out, at, &[0])?;
    write!(out, ".space {count}\n")
}

/// Appends bytes as `0xNN`, with `, ` between each two.
pub fn push_list(out: &mut String, bytes: &[u8]) -> Result<(), AllocError>
    ensures { OnOk result (string_bytes out.new ≡ string_bytes out.old ++ byte_list bytes.now) }
{
    let Some((first, others)) = bytes.split_first() else {
        return Ok(());
    };
    out.push_str("0x")?;
    push_hex2(out, *first)?;
    for byte in others {
        out.push_str(", 0x")?;
        push_hex2(out, *byte)?;
    }
    Ok(())
}

/// Appends the line of other bytes.
fn push_byte_line(out: &mut String, at: u32, bytes: &[u8]) -> Result<(), AllocError>
    ensures { OnOk result (string_bytes out.new ≡ string_bytes out.old ++ byte_line at bytes.now) }
{
    push_head(out, at, bytes)?;
    out.push_str(".byte ")?;
    push_list(out, bytes)?;
    out.push_str("\n")
}

/// Appends the first line of the bytes, which stand at an address, and answers how many of them it shows.
#[tactic(auto, unfolding(crate::specs::Printing::first_line, crate::specs::Printing::first_line_length))]
fn push_first_line(
    out: &mut String,
    segments: &[Segment],
    visited: &Visited,
    at: u32,
    bytes: &[u8],
) -> Result<usize, AllocError>
    requires some { 0 < length bytes.now }
    requires fits { at + length bytes.now < 2 ^ 32 }
    ensures shown { IfOk result (λ n. n ≡ first_line_length (marks_of segments.now visited.now.starts.items visited.now.reads.items) at bytes.now) }
    ensures few { IfOk result (λ n. (0 < n) × (n ≤ length bytes.now)) }
    ensures text { OnOk result (string_bytes out.new ≡ string_bytes out.old ++ first_line (marks_of segments.now visited.now.starts.items visited.now.reads.items) at bytes.now) }
{
    if is_marked(&visited.starts, at) {
        let len = push_line(out, at, bytes)?;
        return Ok(1 + to_next(&visited.starts, at + 1, len - 1));
    }
    if is_word(segments, visited, at, bytes) {
        push_word_line(out, at, &bytes[..4])?;
        return Ok(4);
    }
    let zeros = zero_run(segments, visited, at, bytes);
    if zeros >= 4 {
        push_space_line(out, at, zeros)?;
        return Ok(zeros);
    }
    let count = byte_run(segments, visited, at, bytes);
    push_byte_line(out, at, &bytes[..count])?;
    Ok(count)
}

/// Appends the lines of the code of a segment, which stands at an address.
fn push_code(
    out: &mut String,
    segments: &[Segment],
    visited: &Visited,
    at: u32,
    bytes: &[u8],
) -> Result<(), AllocError>
    requires { at + length bytes.now < 2 ^ 32 }
    ensures { OnOk result (string_bytes out.new ≡ string_bytes out.old ++ flow_lines (marks_of segments.now visited.now.starts.items visited.now.reads.items) at bytes.now) }
{
    let mut rest = bytes;
    let mut address = at;
    while !rest.is_empty() {
        let shown = push_first_line(out, segments, visited, address, rest)?;
        address += shown as u32;
        rest = &rest[shown..];
    }
    Ok(())
}

/// Appends the line of a segment, and the lines of its code.
fn push_segment(
    out: &mut String,
    segments: &[Segment],
    visited: &Visited,
    number: usize,
    segment: &Segment,
) -> Result<(), AllocError>
    requires { is_well_placed segment.now ≡ true }
    ensures { OnOk result (string_bytes out.new ≡ string_bytes out.old ++ segment_text (marks_of segments.now visited.now.starts.items visited.now.reads.items) (number, segment.now)) }
{
    push_segment_line(out, number, segment)?;
    if is_code(segment) {
        push_code(
            out,
            segments,
            visited,
            segment.addr,
            segment.bytes.as_slice(),
        )?;
    }
    Ok(())
}

/// The listing by what a walk has found.
#[tactic(auto, unfolding(crate::specs::Printing::text_by))]
fn text_of(alloc: Global, image: &Image, visited: &Visited) -> Result<Text, AllocError>
    requires { All (λ s. is_well_placed s ≡ true) image.now.segments }
    ensures { IfOk result (λ text. text ≡ text_by (marks_of image.now.segments visited.now.starts.items visited.now.reads.items) image.now) }
{
    let segments = image.segments.as_slice();
    let mut out = String::new(alloc);
    for (number, segment) in segments.iter().enumerate() {
        push_segment(&mut out, segments, visited, number, segment)?;
    }
    Ok(Text::new(out.into_bytes()))
}

/// The listing of an image that follows the code: a line for each segment, and after that of a segment with code, lines from
/// its first byte to its last. The only error is running out of memory.
///
/// An address starts an instruction where the instruction lies whole in an executable segment and the address is the image's
/// entry, `entry1` (the entry of the second core), one of the thirteen vectors from `vecbase` on, a root, or where control goes from
/// an instruction that starts: the next address, unless it is a jump, a return, BREAK or ILL, or the target of a jump, a
/// branch, a call or a loop; of a call or jump through a register it is the word that an L32R of the same block loaded,
/// if that word lies in code. A line is
///
/// ```text
/// ADDR BYTES TEXT                   an instruction that starts there, as `listing` shows it
/// ADDR BYTES .word 0xXXXXXXXX       a word that an L32R reads, and that no instruction touches
/// ADDR 00 .space N                  N zero bytes, four or more
/// ADDR BYTES .byte 0xNN, 0xNN       at most sixteen other bytes
/// ```
///
/// Where an instruction starts inside another, both are shown.
///
/// Condition: the image is well formed, as one that was read or assembled is.
pub fn flow_listing(
    alloc: Global,
    image: &Image,
    vecbase: u32,
    entry1: u32,
    roots: &[u32],
) -> Result<Text, AllocError>
    requires { IsWellFormed image.now }
    ensures { IfOk result (λ text. IsFlowText image.now vecbase entry1 roots.now text) }
{
    let visited = visit_all(alloc, image, vecbase, entry1, roots)?;
    text_of(alloc, image, &visited)
}
