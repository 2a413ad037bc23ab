//! What `ring` prints.
ghost use Rattle.std.specs.Prelude.{◌≡◌, ◌<◌, ◌++◌, [], OnOk, string_bytes, if◌then◌else◌};
ghost use Rattle.std.specs.List.{flat_map};
ghost use Rattle.xt_exec.specs.States.{file_state};
ghost use Rattle.xt_debug.specs.Printed.{heading, register_of, ring_text, window_line, windows};

use std::alloc::{AllocError, Global};
use std::fmt::Write;
use xt_exec::Regs;
use xt_window::ring::bit;
use xt_window::{WindowFile, Windows};
use xt_word::push_hex8;

/// Appends the line that names the core.
#[tactic(auto, unfolding(crate::specs::Printed::heading))]
pub fn push_heading(out: &mut String, core: u8) -> Result<(), AllocError>
    ensures { OnOk result (string_bytes out.new ≡ string_bytes out.old ++ heading core) }
{
    write!(out, "core {core}\n")
}

// Appends the register a(I) of a window of the ring.
fn push_register(
    out: &mut String,
    regs: &Regs<WindowFile>,
    window: u8,
    i: u8,
) -> Result<(), AllocError>
    requires window { window < 16 }
    requires i { i < 16 }
    ensures { OnOk result (string_bytes out.new ≡ string_bytes out.old ++ register_of (file_state regs.now) window i) }
{
    let mut there = regs.win;
    there.set_base(window);
    out.push_str(" ")?;
    push_hex8(out, there.read(i))
}

// Appends a mark where it holds.
fn push_mark(out: &mut String, holds: bool, mark: &str) -> Result<(), AllocError>
    ensures { OnOk result (string_bytes out.new ≡ string_bytes out.old ++ (if holds then mark.now else [])) }
{
    if holds { out.push_str(mark) } else { Ok(()) }
}

// Appends the line of a window: a0 to a3, and its marks.
#[tactic(auto, unfolding(crate::specs::Printed::window_line))]
fn push_window(out: &mut String, regs: &Regs<WindowFile>, window: u8) -> Result<(), AllocError>
    requires { window < 16 }
    ensures { OnOk result (string_bytes out.new ≡ string_bytes out.old ++ window_line (file_state regs.now) window) }
{
    write!(out, "{window}:")?;
    push_register(out, regs, window, 0)?;
    push_register(out, regs, window, 1)?;
    push_register(out, regs, window, 2)?;
    push_register(out, regs, window, 3)?;
    push_mark(out, window == regs.win.base(), " base")?;
    push_mark(out, bit(regs.win.start(), window), " start")?;
    out.push_str("\n")
}

fn push_windows(out: &mut String, regs: &Regs<WindowFile>) -> Result<(), AllocError>
    ensures { OnOk result (string_bytes out.new ≡ string_bytes out.old ++ flat_map (window_line (file_state regs.now)) windows) }
{
    for window in 0..16u8 {
        push_window(out, regs, window)?;
    }
    Ok(())
}

/// Appends the lines of a core's ring: its 64 registers, four in a line, with marks at WINDOWBASE and
/// where the bit of WINDOWSTART is set.
#[tactic(auto, unfolding(crate::specs::Printed::ring_text))]
pub fn push_ring(
    alloc: Global,
    out: &mut Vec<u8>,
    core: u8,
    regs: &Regs<WindowFile>,
) -> Result<(), AllocError>
    ensures { OnOk result (out.new.items ≡ out.old.items ++ ring_text core (file_state regs.now)) }
{
    let mut text = String::new(alloc);
    push_heading(&mut text, core)?;
    push_windows(&mut text, regs)?;
    out.extend_from_slice(text.as_bytes())
}
