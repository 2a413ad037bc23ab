//! What `regs` and `frames` print.
ghost use Rattle.std.specs.Prelude.{◌≡◌, ◌<◌, ◌++◌, OnOk, string_bytes};
ghost use Rattle.xt_exec.specs.States.{file_state};
ghost use Rattle.xt_debug.specs.Printed.{core_line, frames_text, register, registers_line, regs_text};

use std::alloc::{AllocError, Global};
use std::fmt::Write;
use xt_events::push_hex4;
use xt_exec::Regs;
use xt_window::{WindowFile, Windows};
use xt_word::push_hex8;

#[tactic(auto, unfolding(crate::specs::Printed::core_line))]
fn push_core(
    out: &mut String,
    core: u8,
    step: u32,
    regs: &Regs<WindowFile>,
) -> Result<(), AllocError>
    ensures { OnOk result (string_bytes out.new ≡ string_bytes out.old ++ core_line core step (file_state regs.now)) }
{
    write!(out, "core {core} step {step} pc ")?;
    push_hex8(out, regs.pc)?;
    out.push_str(" ps ")?;
    push_hex8(out, regs.sr.ps())?;
    let base = regs.win.base();
    write!(out, " wb {base} ws ")?;
    push_hex4(out, regs.win.start())?;
    out.push_str("\n")
}

fn push_register(out: &mut String, regs: &Regs<WindowFile>, i: u8) -> Result<(), AllocError>
    requires { i < 16 }
    ensures { OnOk result (string_bytes out.new ≡ string_bytes out.old ++ register (file_state regs.now) i) }
{
    out.push_str(" ")?;
    push_hex8(out, regs.win.read(i))
}

#[tactic(auto, unfolding(crate::specs::Printed::registers_line))]
fn push_registers(out: &mut String, regs: &Regs<WindowFile>, i: u8) -> Result<(), AllocError>
    requires { i < 13 }
    ensures { OnOk result (string_bytes out.new ≡ string_bytes out.old ++ registers_line (file_state regs.now) i) }
{
    write!(out, "a{i}")?;
    push_register(out, regs, i)?;
    push_register(out, regs, i + 1)?;
    push_register(out, regs, i + 2)?;
    push_register(out, regs, i + 3)?;
    out.push_str("\n")
}

/// Appends the lines of a core's registers: program counter, PS, WINDOWBASE, WINDOWSTART, and the
/// 16 visible registers. `step` is the number of its next step.
#[tactic(auto, unfolding(crate::specs::Printed::regs_text))]
pub fn push_regs(
    alloc: Global,
    out: &mut Vec<u8>,
    core: u8,
    step: u32,
    regs: &Regs<WindowFile>,
) -> Result<(), AllocError>
    ensures { OnOk result (out.new.items ≡ out.old.items ++ regs_text core step (file_state regs.now)) }
{
    let mut text = String::new(alloc);
    push_core(&mut text, core, step, regs)?;
    push_registers(&mut text, regs, 0)?;
    push_registers(&mut text, regs, 4)?;
    push_registers(&mut text, regs, 8)?;
    push_registers(&mut text, regs, 12)?;
    out.extend_from_slice(text.as_bytes())
}

/// Appends the line of how many frames a core has.
#[tactic(auto, unfolding(crate::specs::Printed::frames_text))]
pub fn push_frames(
    alloc: Global,
    out: &mut Vec<u8>,
    core: u8,
    depth: Option<u32>,
) -> Result<(), AllocError>
    ensures { OnOk result (out.new.items ≡ out.old.items ++ frames_text core depth) }
{
    let text = match depth {
        None => format!(in alloc; "frames {core} none\n")?,
        Some(depth) => format!(in alloc; "frames {core} depth {depth}\n")?,
    };
    out.extend_from_slice(text.as_bytes())
}
