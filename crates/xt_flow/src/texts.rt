//! The listing of an image as a text in the assembly language.
#![tactic(auto)]

ghost use Rattle.std.specs.Prelude.{◌≡◌, ◌++◌, ◌+◌, ◌<◌, ◌≤◌, ◌^◌, false, true, All, IfOk, OnOk, codes, length, option_map, string_bytes};
ghost use Rattle.xt_map.specs.Placing.{is_well_placed};
ghost use Rattle.xt_image.specs.ImageParts.{IsWellFormed};
ghost use Rattle.xt_word.specs.Hexadecimal.{hex8};
ghost use Rattle.xt_disasm.specs.Listing.{front_length, newline};
ghost use Rattle.xt_flow.specs.FlowTables.{code_reading, is_marked, marks_of};
ghost use Rattle.xt_flow.specs.Printing.{is_word, first_line_length, start_count};
ghost use Rattle.xt_flow.specs.Sources.{IsFlowSource, body_of, byte_words, entry_line, flow_words, flow_reading, front_words, seg_line, seg_words, segment_source, source_by, source_line, source_lines, start_words, plain_reading};

use crate::listing::{byte_run, is_word, to_next, zero_run};
use crate::numbers::{
    push_byte_words, push_numbers, push_place, push_space_words, push_word_words,
};
use crate::table::is_marked;
use crate::visits::{Visited, visit_all};
use std::alloc::{AllocError, Global};
use xt_disasm::{front, is_code, push_insn, push_segment_line};
use xt_image::Image;
use xt_map::{Segment, Text, is_segment_loaded};
use xt_word::push_hex8;

/// Appends the line of bytes that are shown as numbers.
fn push_byte_source(out: &mut String, at: u32, bytes: &[u8]) -> Result<(), AllocError>
    ensures { OnOk result (string_bytes out.new ≡ string_bytes out.old ++ source_line at (byte_words bytes.now)) }
{
    push_byte_words(out, bytes)?;
    push_place(out, at)?;
    Ok(())
}

/// Appends the line of the instruction that the bytes begin with, or of the first of them, and answers how many it shows.
#[tactic(auto, unfolding(crate::specs::Sources::front_words))]
fn push_front(out: &mut String, at: u32, bytes: &[u8]) -> Result<usize, AllocError>
    requires { 0 < length bytes.now }
    ensures shown { IfOk result (λ n. n ≡ front_length bytes.now) }
    ensures few { IfOk result (λ n. (0 < n) × (n ≤ length bytes.now)) }
    ensures text { OnOk result (string_bytes out.new ≡ string_bytes out.old ++ source_line at (front_words at bytes.now)) }
{
    match front(bytes) {
        Some((insn, len)) => {
            push_insn(out, insn, at)?;
            push_place(out, at)?;
            Ok(len)
        }
        None => {
            push_byte_source(out, at, &bytes[..1])?;
            Ok(1)
        }
    }
}

/// How many bytes the instruction has that they begin with, or 1 if they begin with none.
fn front_length(bytes: &[u8]) -> usize
    requires { 0 < length bytes.now }
    ensures is { result ≡ front_length bytes.now }
    ensures some { 0 < result }
    ensures few { result ≤ length bytes.now }
{
    match front(bytes) {
        Some((_, len)) => len,
        None => 1,
    }
}

/// Appends the line of the bytes where an instruction starts, and answers how many of them it shows.
fn push_start(
    out: &mut String,
    segments: &[Segment],
    visited: &Visited,
    at: u32,
    bytes: &[u8],
) -> Result<usize, AllocError>
    requires some { 0 < length bytes.now }
    requires fits { at + length bytes.now < 2 ^ 32 }
    ensures shown { IfOk result (λ n. n ≡ start_count (marks_of segments.now visited.now.starts.items visited.now.reads.items) at bytes.now) }
    ensures few { IfOk result (λ n. (0 < n) × (n ≤ length bytes.now)) }
    ensures text { OnOk result (string_bytes out.new ≡ string_bytes out.old ++ source_line at (start_words (marks_of segments.now visited.now.starts.items visited.now.reads.items) at bytes.now)) }
{
    let len = front_length(bytes);
    let shown = 1 + to_next(&visited.starts, at + 1, len - 1);
    if shown == len {
        return push_front(out, at, bytes);
    }
    push_byte_source(out, at, &bytes[..shown])?;
    Ok(shown)
}

/// Appends the words of the first line of the bytes, where no instruction starts, and answers how many of them it shows.
#[tactic(auto, unfolding(crate::specs::Sources::flow_words, crate::specs::Printing::first_line_length))]
fn push_other(
    out: &mut String,
    segments: &[Segment],
    visited: &Visited,
    at: u32,
    bytes: &[u8],
) -> Result<usize, AllocError>
    requires some { 0 < length bytes.now }
    requires fits { at + length bytes.now < 2 ^ 32 }
    requires none { is_marked visited.now.starts.items at ≡ false }
    ensures shown { IfOk result (λ n. n ≡ first_line_length (marks_of segments.now visited.now.starts.items visited.now.reads.items) at bytes.now) }
    ensures few { IfOk result (λ n. (0 < n) × (n ≤ length bytes.now)) }
    ensures text { OnOk result (string_bytes out.new ≡ string_bytes out.old ++ flow_words (marks_of segments.now visited.now.starts.items visited.now.reads.items) at bytes.now) }
{
    if is_word(segments, visited, at, bytes) {
        push_word_words(out, &bytes[..4])?;
        return Ok(4);
    }
    let zeros = zero_run(segments, visited, at, bytes);
    if zeros >= 4 {
        push_space_words(out, zeros)?;
        return Ok(zeros);
    }
    let count = byte_run(segments, visited, at, bytes);
    push_byte_words(out, &bytes[..count])?;
    Ok(count)
}

/// Appends the first line of the bytes, as the listing that follows the code shows it, and answers how many it shows.
#[tactic(auto, unfolding(crate::specs::Sources::flow_words, crate::specs::Printing::first_line_length))]
fn push_followed(
    out: &mut String,
    segments: &[Segment],
    visited: &Visited,
    at: u32,
    bytes: &[u8],
) -> Result<usize, AllocError>
    requires some { 0 < length bytes.now }
    requires fits { at + length bytes.now < 2 ^ 32 }
    ensures shown { IfOk result (λ n. n ≡ first_line_length (marks_of segments.now visited.now.starts.items visited.now.reads.items) at bytes.now) }
    ensures few { IfOk result (λ n. (0 < n) × (n ≤ length bytes.now)) }
    ensures text { OnOk result (string_bytes out.new ≡ string_bytes out.old ++ source_line at (flow_words (marks_of segments.now visited.now.starts.items visited.now.reads.items) at bytes.now)) }
{
    if is_marked(&visited.starts, at) {
        return push_start(out, segments, visited, at, bytes);
    }
    let count = push_other(out, segments, visited, at, bytes)?;
    push_place(out, at)?;
    Ok(count)
}

/// Appends the first line of code by what a walk has found, or by none, as the plain listing goes over it.
fn push_first(
    out: &mut String,
    segments: &[Segment],
    visited: Option<&Visited>,
    at: u32,
    bytes: &[u8],
) -> Result<usize, AllocError>
    requires some { 0 < length bytes.now }
    requires fits { at + length bytes.now < 2 ^ 32 }
    ensures shown { IfOk result (λ n. n ≡ (code_reading segments.now (option_map (λ v. v.now) visited.entry)).count at bytes.now) }
    ensures few { IfOk result (λ n. (0 < n) × (n ≤ length bytes.now)) }
    ensures text { OnOk result (string_bytes out.new ≡ string_bytes out.old ++ source_line at ((code_reading segments.now (option_map (λ v. v.now) visited.entry)).words at bytes.now)) }
{
    match visited {
        Some(visited) => push_followed(out, segments, visited, at, bytes),
        None => push_front(out, at, bytes),
    }
}

/// Appends the lines of the code of a segment, which stands at an address.
fn push_code(
    out: &mut String,
    segments: &[Segment],
    visited: Option<&Visited>,
    at: u32,
    bytes: &[u8],
) -> Result<(), AllocError>
    requires { at + length bytes.now < 2 ^ 32 }
    ensures { OnOk result (string_bytes out.new ≡ string_bytes out.old ++ source_lines (code_reading segments.now (option_map (λ v. v.now) visited.entry)) at bytes.now) }
{
    let mut rest = bytes;
    let mut address = at;
    while !rest.is_empty() {
        let shown = push_first(out, segments, visited, address, rest)?;
        address += shown as u32;
        rest = &rest[shown..];
    }
    Ok(())
}

/// Appends `.seg` with the address of a segment; nothing for padding.
fn push_seg_words(out: &mut String, segment: &Segment) -> Result<(), AllocError>
    ensures { OnOk result (string_bytes out.new ≡ string_bytes out.old ++ seg_words segment.now) }
{
    if !is_segment_loaded(segment) {
        return Ok(());
    }
    out.push_str(".seg 0x")?;
    push_hex8(out, segment.addr)?;
    out.push_str(" ")
}

/// Appends where a segment begins: `.seg` with its address, and its line as a comment, which is all that padding has.
fn push_seg(out: &mut String, number: usize, segment: &Segment) -> Result<(), AllocError>
    ensures { OnOk result (string_bytes out.new ≡ string_bytes out.old ++ seg_line number segment.now) }
{
    push_seg_words(out, segment)?;
    out.push_str("# ")?;
    push_segment_line(out, number, segment)
}

/// Appends the lines of the bytes of a segment.
fn push_body(
    out: &mut String,
    segments: &[Segment],
    visited: Option<&Visited>,
    segment: &Segment,
) -> Result<(), AllocError>
    requires { is_well_placed segment.now ≡ true }
    ensures { OnOk result (string_bytes out.new ≡ string_bytes out.old ++ body_of (code_reading segments.now (option_map (λ v. v.now) visited.entry)) segment.now) }
{
    let bytes = segment.bytes.as_slice();
    if is_code(segment) {
        return push_code(out, segments, visited, segment.addr, bytes);
    }
    if is_segment_loaded(segment) {
        return push_numbers(out, segment.addr, bytes);
    }
    Ok(())
}

/// Appends the lines of a segment.
fn push_segment(
    out: &mut String,
    segments: &[Segment],
    visited: Option<&Visited>,
    number: usize,
    segment: &Segment,
) -> Result<(), AllocError>
    requires { is_well_placed segment.now ≡ true }
    ensures { OnOk result (string_bytes out.new ≡ string_bytes out.old ++ segment_source (code_reading segments.now (option_map (λ v. v.now) visited.entry)) (number, segment.now)) }
{
    push_seg(out, number, segment)?;
    push_body(out, segments, visited, segment)
}

/// Appends the line of the entry, with which the text begins.
fn push_entry(out: &mut String, entry: u32) -> Result<(), AllocError>
    ensures { OnOk result (string_bytes out.new ≡ string_bytes out.old ++ entry_line entry) }
{
    out.push_str(".entry 0x")?;
    push_hex8(out, entry)?;
    out.push_str("\n")
}

/// The text by what a walk has found, or by none.
#[tactic(auto, unfolding(crate::specs::Sources::source_by))]
fn text_of(alloc: Global, image: &Image, visited: Option<&Visited>) -> Result<Text, AllocError>
    requires { All (λ s. is_well_placed s ≡ true) image.now.segments }
    ensures { IfOk result (λ text. text ≡ source_by (code_reading image.now.segments (option_map (λ v. v.now) visited.entry)) image.now) }
{
    let segments = image.segments.as_slice();
    let mut out = String::new(alloc);
    push_entry(&mut out, image.entry)?;
    for (number, segment) in segments.iter().enumerate() {
        push_segment(&mut out, segments, visited, number, segment)?;
    }
    Ok(Text::new(out.into_bytes()))
}

/// The listing of an image as a text in the assembly language, which `xt_asm` makes the same image of if it made that image
/// and the text has at most 1,048,576 bytes. The only error is running out of memory. Its lines are
///
/// ```text
/// .entry 0xXXXXXXXX
/// .seg 0xXXXXXXXX # segment I ADDR LENGTH REGION      # segment I ADDR LENGTH PAD
/// TEXT # ADDR
/// ```
///
/// TEXT is that of `listing` in a segment with code. In any other that is loaded it is `.space N` with N zeros, a multiple
/// of 4 and at least 8, `.word` with a number of four bytes, or `.byte` with at most three; padding has no such line.
///
/// Condition: the image is well formed, as one that was read or assembled is.
pub fn source(alloc: Global, image: &Image) -> Result<Text, AllocError>
    requires { IsWellFormed image.now }
    ensures { IfOk result (λ text. text ≡ source_by plain_reading image.now) }
{
    text_of(alloc, image, None)
}

/// The same text with the code as `flow_listing` shows it, except that an instruction inside which another starts is
/// `.byte` with the bytes before that one.
pub fn flow_source(
    alloc: Global,
    image: &Image,
    vecbase: u32,
    entry1: u32,
    roots: &[u32],
) -> Result<Text, AllocError>
    requires { IsWellFormed image.now }
    ensures { IfOk result (λ text. IsFlowSource image.now vecbase entry1 roots.now text) }
{
    let visited = visit_all(alloc, image, vecbase, entry1, roots)?;
    text_of(alloc, image, Some(&visited))
}
