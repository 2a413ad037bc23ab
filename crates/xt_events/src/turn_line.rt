//! The line of a turn.
ghost use Rattle.std.specs.Prelude.{◌≡◌, ◌++◌, OnOk, string_bytes};
ghost use Rattle.xt_map.specs.Memory.{constant_byte};
ghost use Rattle.xt_map.specs.Fetching.{fetch_at};
ghost use Rattle.xt_events.specs.Lines.{bare_line, fetched_text, hex4, kept_text, turn_text, window_text};

use crate::filter::{Filter, holds};
use crate::told::{TurnLine, Window};
use std::alloc::{AllocError, Global};
use xt_codec::{Fetch, instruction_at};
use xt_disasm::insn_text;
use xt_map::Constants;
use xt_trace::{StepRecord, line};
use xt_word::push_hex2;

// Appends the trace line of a record without its newline.
fn push_bare(
    alloc: Global,
    out: &mut Vec<u8>,
    core: u8,
    step: u32,
    r: &StepRecord,
) -> Result<(), AllocError>
    ensures { OnOk result (out.new.items ≡ out.old.items ++ bare_line core step r.now) }
{
    let text = line(alloc, core, step, r)?;
    let bytes = text.as_slice();
    out.extend_from_slice(&bytes[..bytes.len().saturating_sub(1)])
}

// Appends the text of the instruction that an address fetches, if any.
fn push_fetched(
    alloc: Global,
    out: &mut Vec<u8>,
    code: &Constants,
    pc: u32,
) -> Result<(), AllocError>
    ensures { OnOk result (out.new.items ≡ out.old.items ++ fetched_text (fetch_at (constant_byte code.now) pc) pc) }
{
    match instruction_at::<TurnLine>(code, pc) {
        Fetch::Insn(insn, _) => {
            out.extend_from_slice(b" | ")?;
            let text = insn_text(alloc, &insn, pc)?;
            out.extend_from_slice(text.as_slice())
        }
        Fetch::Fails(_) | Fetch::Nothing => Ok(()),
    }
}

/// Appends 16 bits in four upper-case hexadecimal digits.
#[tactic(auto, using(crate::proofs::Halves::two_halves))]
pub fn push_hex4(out: &mut String, bits: u16) -> Result<(), AllocError>
    ensures { OnOk result (string_bytes out.new ≡ string_bytes out.old ++ hex4 bits) }
{
    push_hex2(out, (bits / 256) as u8)?;
    push_hex2(out, (bits % 256) as u8)
}

// Appends the windows after a turn, where it changed them.
fn push_window(
    alloc: Global,
    out: &mut Vec<u8>,
    before: Window,
    after: Window,
) -> Result<(), AllocError>
    ensures { OnOk result (out.new.items ≡ out.old.items ++ window_text before after) }
{
    if before.base == after.base && before.start == after.start {
        return Ok(());
    }
    let base = after.base;
    let mut text = format!(in alloc; " | wb {base} ws ")?;
    push_hex4(&mut text, after.start)?;
    out.extend_from_slice(text.as_bytes())
}

/// Appends the line of a turn with this record. The only error is running out of memory.
#[tactic(auto, unfolding(crate::specs::Lines::turn_text))]
pub fn push_turn(
    alloc: Global,
    out: &mut Vec<u8>,
    code: &Constants,
    told: &TurnLine,
    r: &StepRecord,
) -> Result<(), AllocError>
    ensures { OnOk result (out.new.items ≡ out.old.items ++ turn_text (constant_byte code.now) told.now r.now) }
{
    push_bare(alloc, out, told.core, told.step, r)?;
    push_fetched(alloc, out, code, r.pc)?;
    push_window(alloc, out, told.before, told.after)?;
    out.push(b'\n')?;
    Ok(())
}

/// Appends the line of a turn with this record, if the filter holds of it. The only error is running out of
/// memory.
pub fn push_kept(
    alloc: Global,
    out: &mut Vec<u8>,
    code: &Constants,
    filter: Filter,
    told: &TurnLine,
    r: &StepRecord,
) -> Result<(), AllocError>
    ensures { OnOk result (out.new.items ≡ out.old.items ++ kept_text (constant_byte code.now) filter told.now r.now) }
{
    if !holds(code, filter, told, r) {
        return Ok(());
    }
    push_turn(alloc, out, code, told, r)
}
