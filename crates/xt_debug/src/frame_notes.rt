//! What is known of a core's frames, on the line of a turn.
ghost use Rattle.std.specs.Prelude.{◌≡◌, ◌<◌, ◌++◌, ◌-◌, ℕ, None, OnOk, IfOk, length, string_bytes};
ghost use Rattle.std.specs.List.{flat_map};
ghost use Rattle.xt_frames.specs.Frames.{value_or_zero};
ghost use Rattle.xt_frames.specs.Walked.{sp_at};
ghost use Rattle.xt_debug.specs.FrameNotes.{all_marks, all_unset, area_text, areas_text, both_text, depth_text, frames_text, listed, mark_text, note_text, registers, unset_text, with_note};

use std::alloc::{AllocError, Global};
use std::fmt::Write;
use xt_frames::Frames;
use xt_map::Text;
use xt_word::push_hex8;

// Appends how many frames of callers a core has.
fn push_depth(out: &mut String, frames: &Frames) -> Result<(), AllocError>
    ensures { OnOk result (string_bytes out.new ≡ string_bytes out.old ++ depth_text frames.now.state) }
{
    let depth = frames.depth();
    write!(out, " | depth {depth}")
}

// Appends the first byte of an area, and how many there are.
fn push_area(out: &mut String, from: u32, size: u32) -> Result<(), AllocError>
    ensures { OnOk result (string_bytes out.new ≡ string_bytes out.old ++ area_text from size) }
{
    push_hex8(out, from)?;
    write!(out, "+{size}")
}

// Appends both save areas of a call.
fn push_both(out: &mut String, low: u32, high: u32, size: u32) -> Result<(), AllocError>
    ensures { OnOk result (string_bytes out.new ≡ string_bytes out.old ++ both_text low high size) }
{
    out.push_str(" areas ")?;
    push_area(out, low, 16)?;
    out.push_str(" ")?;
    push_area(out, high, size)
}

// The stack pointer of the caller of the newest caller, or the end of the stack.
fn under(frames: &Frames) -> u32
    requires { 0 < length frames.now.state.frames }
    ensures first { length frames.now.state.frames ≡ 1 → result ≡ frames.now.bounds.range.hi }
    ensures more { 1 < length frames.now.state.frames → result ≡ sp_at frames.now (length frames.now.state.frames - 2) }
{
    let depth = frames.depth();
    if depth == 1 {
        frames.limits().hi
    } else {
        frames.sp(depth - 2)
    }
}

// Appends the save areas of the newest call, if there is one.
fn push_areas(out: &mut String, frames: &Frames) -> Result<(), AllocError>
    ensures { OnOk result (string_bytes out.new ≡ string_bytes out.old ++ areas_text frames.now.bounds.range.hi (value_or_zero frames.now.state.seen 1) frames.now.state.frames) }
{
    let depth = frames.depth();
    if depth == 0 {
        return Ok(());
    }
    let sp = frames.sp(depth);
    let by = u32::from(frames.calls(depth - 1));
    let top = under(frames);
    push_both(out, sp - 16, top - 16 * by, 16 * (by - 1))
}

// Appends the number of a register of the current frame, if it has no value.
fn push_unset(out: &mut String, frames: &Frames, i: u8) -> Result<(), AllocError>
    requires { i < 16 }
    ensures { OnOk result (string_bytes out.new ≡ string_bytes out.old ++ unset_text frames.now.state i) }
{
    if frames.has_value(i) {
        return Ok(());
    }
    write!(out, " {i}")
}

// Appends the number of a register and the mark that it holds, if it holds one.
fn push_mark(out: &mut String, frames: &Frames, i: u8) -> Result<(), AllocError>
    requires { i < 16 }
    ensures { OnOk result (string_bytes out.new ≡ string_bytes out.old ++ mark_text frames.now.state i) }
{
    match frames.mark(i) {
        Some(mark) => write!(out, " {i}:{mark}"),
        None => Ok(()),
    }
}

// The numbers of the registers that have no value.
fn unset_in(alloc: Global, frames: &Frames) -> Result<String, AllocError>
    ensures { IfOk result (λ text. string_bytes text ≡ flat_map (unset_text frames.now.state) registers) }
{
    let mut text = String::new(alloc);
    for i in 0..16u8 {
        push_unset(&mut text, frames, i)?;
    }
    Ok(text)
}

// The numbers of the registers that hold marks, with the marks.
fn marks_in(alloc: Global, frames: &Frames) -> Result<String, AllocError>
    ensures { IfOk result (λ text. string_bytes text ≡ flat_map (mark_text frames.now.state) registers) }
{
    let mut text = String::new(alloc);
    for i in 0..16u8 {
        push_mark(&mut text, frames, i)?;
    }
    Ok(text)
}

// Appends a word and a list that is not empty.
fn push_listed(out: &mut String, word: &str, items: &str) -> Result<(), AllocError>
    ensures { OnOk result (string_bytes out.new ≡ string_bytes out.old ++ listed word.now items.now) }
{
    if items.is_empty() {
        return Ok(());
    }
    out.push_str(word)?;
    out.push_str(items)
}

// Appends the registers of the current frame that have no value, if there are any.
fn push_all_unset(alloc: Global, out: &mut String, frames: &Frames) -> Result<(), AllocError>
    ensures { OnOk result (string_bytes out.new ≡ string_bytes out.old ++ all_unset frames.now.state) }
{
    let unset = unset_in(alloc, frames)?;
    push_listed(out, " unset", &unset)
}

// Appends the marks of a nested interrupt, if there are any.
fn push_all_marks(alloc: Global, out: &mut String, frames: &Frames) -> Result<(), AllocError>
    ensures { OnOk result (string_bytes out.new ≡ string_bytes out.old ++ all_marks frames.now.state) }
{
    let marks = marks_in(alloc, frames)?;
    push_listed(out, " marks", &marks)
}

/// Appends that nothing is known of a core's frames.
pub fn push_no_frames(out: &mut String) -> Result<(), AllocError>
    ensures { (hi : ℕ) → OnOk result (string_bytes out.new ≡ string_bytes out.old ++ note_text hi None) }
{
    out.push_str(" | no frames")
}

/// Appends how many frames a core has, the save areas of its newest call, the registers of its current frame
/// that have no value, and the marks of a nested interrupt.
pub fn push_frames(alloc: Global, out: &mut String, frames: &Frames) -> Result<(), AllocError>
    ensures { OnOk result (string_bytes out.new ≡ string_bytes out.old ++ frames_text frames.now.bounds.range.hi frames.now.state) }
{
    push_depth(out, frames)?;
    push_areas(out, frames)?;
    push_all_unset(alloc, out, frames)?;
    push_all_marks(alloc, out, frames)
}

/// A line with a note before its newline. An empty line stays empty.
pub fn with_note(alloc: Global, line: Text, note: &str) -> Result<Text, AllocError>
    ensures { IfOk result (λ text. text ≡ with_note line note.now) }
{
    let bytes = line.as_slice();
    if bytes.is_empty() {
        return Ok(line);
    }
    let mut out = Vec::new(alloc);
    out.extend_from_slice(&bytes[..bytes.len() - 1])?;
    out.extend_from_slice(note.as_bytes())?;
    out.push(b'\n')?;
    Ok(Text::new(out))
}
