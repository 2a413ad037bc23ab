//! What `special` prints.
ghost use Rattle.std.specs.Prelude.{◌≡◌, ◌++◌, OnOk, string_bytes};
ghost use Rattle.std.specs.List.{flat_map};
ghost use Rattle.xt_exec.specs.States.{file_state};
ghost use Rattle.xt_debug.specs.Printed.{special_line, special_text, special_value, specials};

use crate::ring::push_heading;
use std::alloc::{AllocError, Global};
use std::fmt::Write;
use xt_exec::Regs;
use xt_isa::number;
use xt_isa::special::can_read;
use xt_names::{Access, special_name};
use xt_window::{WindowFile, Windows};
use xt_word::push_hex8;

// What RSR of this number reads.
fn special_value(regs: &Regs<WindowFile>, n: u8) -> u32
    ensures { result ≡ special_value (file_state regs.now) n }
{
    match n {
        number::WINDOWBASE => u32::from(regs.win.base()),
        number::WINDOWSTART => u32::from(regs.win.start()),
        number::PS => regs.sr.ps(),
        _ => regs.sr.register(n),
    }
}

// Appends the line of the special register of this number.
#[tactic(auto, unfolding(crate::specs::Printed::special_line))]
fn push_special(out: &mut String, regs: &Regs<WindowFile>, n: u8) -> Result<(), AllocError>
    ensures { OnOk result (string_bytes out.new ≡ string_bytes out.old ++ special_line (file_state regs.now) n) }
{
    out.push_str(special_name(Access::Read, n))?;
    out.push_str(" ")?;
    push_hex8(out, special_value(regs, n))?;
    out.push_str("\n")
}

fn push_specials(out: &mut String, regs: &Regs<WindowFile>) -> Result<(), AllocError>
    ensures { OnOk result (string_bytes out.new ≡ string_bytes out.old ++ flat_map (special_line (file_state regs.now)) specials) }
{
    for n in 0..256u16 {
        let n = n as u8;
        if can_read(n) {
            push_special(out, regs, n)?;
        }
    }
    Ok(())
}

/// Appends a line for each special register of a core, by their numbers, and one for THREADPTR.
#[tactic(auto, unfolding(crate::specs::Printed::special_text))]
pub fn push_special_registers(
    alloc: Global,
    out: &mut Vec<u8>,
    core: u8,
    regs: &Regs<WindowFile>,
) -> Result<(), AllocError>
    ensures { OnOk result (out.new.items ≡ out.old.items ++ special_text core (file_state regs.now)) }
{
    let mut text = String::new(alloc);
    push_heading(&mut text, core)?;
    push_specials(&mut text, regs)?;
    text.push_str("threadptr ")?;
    push_hex8(&mut text, regs.sr.threadptr())?;
    text.push_str("\n")?;
    out.extend_from_slice(text.as_bytes())
}
