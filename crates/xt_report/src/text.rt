//! What is printed of the uses of a run.
ghost use Rattle.std.specs.Prelude.{◌≡◌, ◌++◌, ◌+◌, ◌<◌, ◌^◌, IfOk, OnOk, codes, string_bytes};
ghost use Rattle.xt_map.specs.Memory.{constant_byte};
ghost use Rattle.xt_map.specs.Fetching.{fetch_at};
ghost use Rattle.xt_core.specs.Runs.{IsRunOf};
ghost use Rattle.xt_report.specs.Breaches.{breach_text};
ghost use Rattle.xt_trace.specs.Lines.{line_text};
ghost use Rattle.xt_image.specs.ImageParts.{IsWellFormed};
ghost use Rattle.xt_report.specs.UsesText.{both_text, broken_text, held_text, insn_text, lack_text, lacks_text, listed_at, uses_text, whole_text};
ghost use Rattle.xt_report.specs.UseFindings.{IsUsesTold};

use crate::breach_text;
use crate::use_report::uses_of;
use std::alloc::{AllocError, Global};
use std::fmt::Write;
use xt_codec::{Fetch, instruction_at};
use xt_disasm::push_line;
use xt_frames::{Breach, BreachKind};
use xt_image::{Image, well_formed_is_placed};
use xt_map::{Constants, Text, code_three};
use xt_trace::{Run, StepRecord, line};
use xt_use_walk::{FirstUse, Uses};
use xt_uses::{Discipline, Lack};
use xt_word::push_hex8;

// Appends the line that a listing has of the bytes at an address and at the two after it.
fn push_listed(out: &mut String, code: &Constants, pc: u32) -> Result<(), AllocError>
    requires { pc + 4 < 2 ^ 32 }
    ensures { OnOk result (string_bytes out.new ≡ string_bytes out.old ++ listed_at (constant_byte code.now) pc) }
{
    let (first, second, third) = code_three(code, pc);
    push_line(out, pc, &[first, second, third])?;
    Ok(())
}

// Appends the line that a listing has of the instruction that an address fetches, if any.
fn push_insn(out: &mut String, code: &Constants, pc: u32) -> Result<(), AllocError>
    ensures { OnOk result (string_bytes out.new ≡ string_bytes out.old ++ insn_text (fetch_at (constant_byte code.now) pc) (constant_byte code.now) pc) }
{
    match instruction_at::<Uses>(code, pc) {
        Fetch::Insn(_, _) => push_listed(out, code, pc),
        Fetch::Fails(_) | Fetch::Nothing => Ok(()),
    }
}

// The line that a listing has of the instruction that an address fetches, if any.
fn insn_text(alloc: Global, code: &Constants, pc: u32) -> Result<String, AllocError>
    ensures { IfOk result (λ text. string_bytes text ≡ insn_text (fetch_at (constant_byte code.now) pc) (constant_byte code.now) pc) }
{
    let mut out = String::new(alloc);
    push_insn(&mut out, code, pc)?;
    Ok(out)
}

/// Appends the trace line of a record, and the line that a listing has of the instruction that its program counter fetches,
/// if any. The only error is running out of memory.
pub fn push_turn(
    alloc: Global,
    out: &mut Vec<u8>,
    code: &Constants,
    core: u8,
    step: u32,
    rec: &StepRecord,
) -> Result<(), AllocError>
    ensures { OnOk result (out.new.items ≡ out.old.items ++ (line_text core step rec.now ++ insn_text (fetch_at (constant_byte code.now) rec.now.pc) (constant_byte code.now) rec.now.pc)) }
{
    let record = line(alloc, core, step, rec)?;
    out.extend_from_slice(record.as_slice())?;
    let insn = insn_text(alloc, code, rec.pc)?;
    out.extend_from_slice(insn.as_bytes())
}

// Appends what a register holds.
fn push_held(out: &mut String, lack: Lack) -> Result<(), AllocError>
    ensures { OnOk result (string_bytes out.new ≡ string_bytes out.old ++ held_text lack lack.mark) }
{
    match lack.mark {
        Some(mark) => write!(out, "mark {mark}"),
        None => {
            push_hex8(out, lack.value)?;
            out.push_str(" known ")?;
            push_hex8(out, lack.mask)
        }
    }
}

// Appends the line of a register, if there is one.
fn push_lack(out: &mut String, lack: Option<Lack>) -> Result<(), AllocError>
    ensures { OnOk result (string_bytes out.new ≡ string_bytes out.old ++ lack_text lack) }
{
    let Some(lack) = lack else {
        return Ok(());
    };
    let number = lack.number;
    write!(out, "a{number} ")?;
    push_held(out, lack)?;
    out.push_str("\n")
}

/// A line `aK VALUE known MASK` or `aK mark J` for each register. The only error is running out of memory.
pub fn both_text(alloc: Global, lacks: (Option<Lack>, Option<Lack>)) -> Result<String, AllocError>
    ensures { IfOk result (λ text. string_bytes text ≡ both_text lacks) }
{
    let mut out = String::new(alloc);
    push_lack(&mut out, lacks.0)?;
    push_lack(&mut out, lacks.1)?;
    Ok(out)
}

// The lines of the registers that an Unset reads.
fn lacks_text(
    alloc: Global,
    kind: BreachKind,
    lacks: (Option<Lack>, Option<Lack>),
) -> Result<String, AllocError>
    ensures { IfOk result (λ text. string_bytes text ≡ lacks_text kind lacks) }
{
    if kind == BreachKind::Unset {
        both_text(alloc, lacks)
    } else {
        Ok(String::new(alloc))
    }
}

// The line of a breach.
fn breach_line(alloc: Global, breach: Breach) -> Result<Vec<u8>, AllocError>
    ensures { IfOk result (λ line. line.items ≡ codes "uses " ++ (breach_text breach ++ codes "\n")) }
{
    let breach = breach_text(alloc, breach)?;
    let line = format!(in alloc; "uses {breach}\n")?;
    Ok(line.into_bytes())
}

// What is printed of a breach.
fn broken_text(alloc: Global, code: &Constants, first: &FirstUse) -> Result<Text, AllocError>
    ensures { IfOk result (λ text. text ≡ broken_text (constant_byte code.now) first.now) }
{
    let breach = first.breach;
    let mut out = breach_line(alloc, breach)?;
    push_turn(alloc, &mut out, code, breach.core, breach.step, &first.rec)?;
    let lacks = lacks_text(alloc, breach.kind, first.lacks)?;
    out.extend_from_slice(lacks.as_bytes())?;
    Ok(Text::new(out))
}

// What is printed where nothing is judged.
fn none_text(alloc: Global) -> Result<Text, AllocError>
    ensures { IfOk result (λ text. text ≡ codes "uses none\n") }
{
    let text = format!(in alloc; "uses none\n")?;
    Ok(Text::new(text.into_bytes()))
}

// Appends the line of what is carried.
#[tactic(auto, unfolding(crate::specs::UsesText::whole_text))]
fn push_whole(out: &mut String, carried0: u32, carried1: u32) -> Result<(), AllocError>
    ensures { OnOk result (string_bytes out.new ≡ string_bytes out.old ++ whole_text carried0 carried1) }
{
    writeln!(out, "uses whole carried {carried0} {carried1}")
}

// What is printed where there is no breach.
fn whole_text(alloc: Global, carried0: u32, carried1: u32) -> Result<Text, AllocError>
    ensures { IfOk result (λ text. text ≡ whole_text carried0 carried1) }
{
    let mut out = String::new(alloc);
    push_whole(&mut out, carried0, carried1)?;
    Ok(Text::new(out.into_bytes()))
}

// What is printed of the uses of a run over this code.
fn said_text(alloc: Global, code: &Constants, uses: &Uses) -> Result<Text, AllocError>
    ensures { IfOk result (λ text. text ≡ uses_text (constant_byte code.now) uses.now) }
{
    match uses {
        Uses::Unchecked => none_text(alloc),
        Uses::Whole(carried0, carried1) => whole_text(alloc, *carried0, *carried1),
        Uses::Broken(first) => broken_text(alloc, code, first),
    }
}

/// What is printed of the uses of a run of an image, by this discipline: `uses none` where some window handler does not pass its check; `uses whole carried
/// N M`, how many judged steps of core 0 and core 1 wrote a register or stored bytes of which a bit is not known; or `uses breach KIND
/// core C step N`. Behind a breach stand the trace line of its record; where the record's PC fetches an instruction, the line that a
/// listing has of it; and for Unset a line `aK VALUE known MASK` or `aK mark J` for each register that the instruction reads and of
/// which not every bit is known before the step, in the order of their numbers. The only error is running out of memory.
///
/// Conditions: the image is well formed, and the run is the image's.
pub fn uses_text(
    alloc: Global,
    discipline: Discipline,
    image: &Image,
    run: &Run,
) -> Result<Text, AllocError>
    requires image { IsWellFormed image.now }
    requires run { IsRunOf image.now run.now }
    ensures { IfOk result (IsUsesTold discipline image.now run.now) }
{
    well_formed_is_placed();
    let uses = uses_of(alloc, discipline, image, run)?;
    let code = Constants::make(alloc, image.segments.as_slice())?;
    let text = said_text(alloc, &code, &uses)?;
    Ok(text)
}
