//! What `calls` prints.
ghost use Rattle.std.specs.Prelude.{◌≡◌, ◌≤◌, ◌++◌, ℕ, OnOk, Some, None, length, string_bytes};
ghost use Rattle.xt_debug.specs.Calls.{address_text, call_line, call_lines, call_mark, calls_text};

use std::alloc::{AllocError, Global};
use std::fmt::Write;
use xt_frames::Frames;
use xt_word::push_hex8;

// Appends an address, or `--------` where it is not known.
fn push_address(out: &mut String, address: Option<u32>) -> Result<(), AllocError>
    ensures { OnOk result (string_bytes out.new ≡ string_bytes out.old ++ address_text address) }
{
    match address {
        None => out.push_str("--------"),
        Some(address) => push_hex8(out, address),
    }
}

// Appends the size of the call by which frame `j` called another, if it did.
fn push_call_mark(out: &mut String, frames: &Frames, j: u32) -> Result<(), AllocError>
    requires { j ≤ length frames.now.state.frames }
    ensures { OnOk result (string_bytes out.new ≡ string_bytes out.old ++ call_mark frames.now.state j) }
{
    if j == frames.depth() {
        return Ok(());
    }
    let call = 4 * u32::from(frames.calls(j));
    write!(out, " call {call}")
}

// Appends the line of frame `j`.
#[tactic(auto, unfolding(crate::specs::Calls::call_line))]
fn push_call(out: &mut String, frames: &Frames, j: u32) -> Result<(), AllocError>
    requires { j ≤ length frames.now.state.frames }
    ensures { OnOk result (string_bytes out.new ≡ string_bytes out.old ++ call_line frames.now.bounds.range.hi frames.now.state j) }
{
    write!(out, "{j} pc ")?;
    push_address(out, frames.address(j))?;
    out.push_str(" sp ")?;
    push_hex8(out, frames.sp(j))?;
    let size = frames.size(j);
    write!(out, " size {size}")?;
    push_call_mark(out, frames, j)?;
    out.push_str("\n")
}

// Appends the lines of all frames, the newest first.
fn push_each_call(out: &mut String, frames: &Frames) -> Result<(), AllocError>
    ensures { OnOk result (string_bytes out.new ≡ string_bytes out.old ++ call_lines frames.now.bounds.range.hi frames.now.state (length frames.now.state.frames)) }
{
    let depth = frames.depth();
    for back in 0..depth {
        push_call(out, frames, depth - back)?;
    }
    push_call(out, frames, 0)?;
    Ok(())
}

/// Appends the line that says that the frames of a core are not known.
#[tactic(auto, unfolding(crate::specs::Calls::calls_text))]
pub fn push_unknown(alloc: Global, out: &mut Vec<u8>, core: u8) -> Result<(), AllocError>
    ensures { (hi : ℕ) → OnOk result (out.new.items ≡ out.old.items ++ calls_text core hi None) }
{
    let text = format!(in alloc; "calls {core} none\n")?;
    out.extend_from_slice(text.as_bytes())
}

/// Appends the lines of the frames of a core.
#[tactic(auto, unfolding(crate::specs::Calls::calls_text))]
pub fn push_known(
    alloc: Global,
    out: &mut Vec<u8>,
    core: u8,
    frames: &Frames,
) -> Result<(), AllocError>
    ensures { OnOk result (out.new.items ≡ out.old.items ++ calls_text core frames.now.bounds.range.hi (Some frames.now.state)) }
{
    let mut text = String::new(alloc);
    write!(&mut text, "calls {core}\n")?;
    push_each_call(&mut text, frames)?;
    out.extend_from_slice(text.as_bytes())
}
