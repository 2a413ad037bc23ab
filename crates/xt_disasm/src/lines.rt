//! The listing of an image.
#![tactic(auto)]

ghost use Rattle.std.specs.Prelude.{◌≡◌, ◌++◌, ◌<◌, ◌≤◌, IfOk, OnOk, length, string_bytes};
ghost use Rattle.std.specs.List.{flat_map};
ghost use Rattle.xt_word.specs.Hexadecimal.{hex2};
ghost use Rattle.xt_disasm.specs.Listing.{byte_at, code_line, code_lines, front_length, is_code, listing_text, place_name, region_name, segment_line, segment_text};
ghost use Rattle.xt_disasm.specs.Fronts.{IsFront};

use crate::text::push_insn;
use std::alloc::{AllocError, Global};
use std::fmt::Write;
use xt_codec::{Decoded, decode};
use xt_image::Image;
use xt_isa::Insn;
use xt_map::regions::Region;
use xt_map::{Segment, Text, can_execute_at, is_segment_loaded, region};
use xt_word::{push_hex2, push_hex8};

/// The byte at a place, or 0 past the end.
fn byte_at(bytes: &[u8], place: usize) -> u8
    ensures { result ≡ byte_at bytes.now place }
{
    bytes.get(place).copied().unwrap_or(0)
}

/// The instruction that the bytes begin with, and its length, where they spell one and are not too few for it.
pub fn front(bytes: &[u8]) -> Option<(Insn, usize)>
    ensures { IsFront bytes.now result }
{
    match decode(byte_at(bytes, 0), byte_at(bytes, 1), byte_at(bytes, 2)) {
        Decoded::Good(insn, len) if len as usize <= bytes.len() => Some((insn, len as usize)),
        _ => None,
    }
}

/// Appends bytes in upper-case hexadecimal digits.
pub fn push_bytes(out: &mut String, bytes: &[u8]) -> Result<(), AllocError>
    ensures { OnOk result (string_bytes out.new ≡ string_bytes out.old ++ flat_map hex2 bytes.now) }
{
    for byte in bytes {
        push_hex2(out, *byte)?;
    }
    Ok(())
}

/// Appends the first line of the bytes, which stand at the address `pc`, and answers how many of them it shows.
pub fn push_line(out: &mut String, pc: u32, bytes: &[u8]) -> Result<usize, AllocError>
    requires { 0 < length bytes.now }
    ensures shown { IfOk result (λ n. n ≡ front_length bytes.now) }
    ensures fits { IfOk result (λ n. (0 < n) × (n ≤ length bytes.now)) }
    ensures text { OnOk result (string_bytes out.new ≡ string_bytes out.old ++ code_line pc bytes.now) }
{
    push_hex8(out, pc)?;
    out.push_str(" ")?;
    match front(bytes) {
        Some((insn, len)) => {
            push_bytes(out, &bytes[..len])?;
            out.push_str(" ")?;
            push_insn(out, insn, pc)?;
            out.push_str("\n")?;
            Ok(len)
        }
        None => {
            push_bytes(out, &bytes[..1])?;
            out.push_str(" .byte 0x")?;
            push_hex2(out, bytes[0])?;
            out.push_str("\n")?;
            Ok(1)
        }
    }
}

/// Appends the lines of code that stands at the address `pc`: a walk from the first byte, whose lines show an instruction
/// each, or one byte where no instruction stands. Addresses wrap at 2^32.
#[tactic(auto, unfolding(crate::specs::Listing::code_lines))]
fn push_code(out: &mut String, pc: u32, bytes: &[u8]) -> Result<(), AllocError>
    ensures { OnOk result (string_bytes out.new ≡ string_bytes out.old ++ code_lines pc bytes.now) }
{
    let mut rest = bytes;
    let mut address = pc;
    while !rest.is_empty() {
        let shown = push_line(out, address, rest)?;
        address = address.wrapping_add(shown as u32);
        rest = &rest[shown..];
    }
    Ok(())
}

/// The name of a region in a listing, or NONE outside the memory map and at UART0.
fn region_name(region: Option<Region>) -> &'static str
    ensures { result.now ≡ region_name region }
{
    match region {
        Some(Region::Drom) => "DROM",
        Some(Region::RtcFastData) => "RTCFD",
        Some(Region::Dram) => "DRAM",
        Some(Region::Iram) => "IRAM",
        Some(Region::RtcFastCode) => "RTCFC",
        Some(Region::Irom) => "IROM",
        Some(Region::RtcSlow) => "RTCSLOW",
        Some(Region::Uart) | None => "NONE",
    }
}

/// Where a segment lies: PAD for padding, else the name of its region.
fn place_name(segment: &Segment) -> &'static str
    ensures { result.now ≡ place_name segment.now }
{
    if is_segment_loaded(segment) {
        region_name(region(segment.addr))
    } else {
        "PAD"
    }
}

/// Whether a segment holds code: it is loaded, to an executable region.
pub fn is_code(segment: &Segment) -> bool
    ensures { result ≡ is_code segment.now }
{
    is_segment_loaded(segment) && can_execute_at(segment.addr)
}

/// Appends the line of a segment, `segment I ADDR LENGTH REGION`, which is the `number`-th of its image, counted from 0.
pub fn push_segment_line(
    out: &mut String,
    number: usize,
    segment: &Segment,
) -> Result<(), AllocError>
    ensures { OnOk result (string_bytes out.new ≡ string_bytes out.old ++ segment_line number segment.now) }
{
    let length = segment.bytes.len();
    let place = place_name(segment);
    write!(out, "segment {number} ")?;
    push_hex8(out, segment.addr)?;
    write!(out, " {length} {place}\n")
}

/// Appends the line of a segment, and the lines of its code.
fn push_segment(out: &mut String, number: usize, segment: &Segment) -> Result<(), AllocError>
    ensures { OnOk result (string_bytes out.new ≡ string_bytes out.old ++ segment_text (number, segment.now)) }
{
    push_segment_line(out, number, segment)?;
    if is_code(segment) {
        push_code(out, segment.addr, segment.bytes.as_slice())?;
    }
    Ok(())
}

/// The listing of an image: a line for each segment, and after that of a segment with code the lines of a walk from its
/// first byte. The only error is running out of memory.
///
/// ```text
/// segment I ADDR LENGTH REGION
/// ADDR BYTES TEXT
/// ```
///
/// REGION is PAD for padding, and NONE where a loaded segment's address is outside the memory map or in UART0. ADDR is
/// eight hexadecimal digits, BYTES the bytes of an instruction in file order, and TEXT the instruction's, as `insn_text`
/// gives it. Where the bytes left spell no instruction, or are too few for it, one byte is shown as `.byte 0xHH`.
#[tactic(auto, unfolding(crate::specs::Listing::listing_text))]
pub fn listing(alloc: Global, image: &Image) -> Result<Text, AllocError>
    ensures { IfOk result (λ text. text ≡ listing_text image.now) }
{
    let mut out = String::new(alloc);
    for (number, segment) in image.segments.as_slice().iter().enumerate() {
        push_segment(&mut out, number, segment)?;
    }
    Ok(Text::new(out.into_bytes()))
}
