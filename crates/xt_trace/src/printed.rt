ghost use Rattle.std.specs.Prelude.{◌≡◌, ◌++◌, IfOk, OnOk, string_bytes};
ghost use Rattle.xt_trace.specs.Lines.{access_text, call_text, kind_text, line_text, write_text};

use crate::record::{RegWrite, StepKind, StepRecord};
use std::alloc::{AllocError, Global};
use std::fmt::Write;
use xt_map::{Access, Kind, Text};
use xt_word::push_hex8;

// Appends what a turn was.
fn push_kind(out: &mut String, kind: StepKind) -> Result<(), AllocError>
    ensures { OnOk result (string_bytes out.new ≡ string_bytes out.old ++ kind_text kind) }
{
    match kind {
        StepKind::Insn => out.push_str("insn"),
        StepKind::Window(vector) => write!(out, "window {vector}"),
        StepKind::Exc(cause) => write!(out, "exc {cause}"),
        StepKind::Interrupt(level) => write!(out, "int {level}"),
        StepKind::Wait => out.push_str("wait"),
        StepKind::Stop => out.push_str("stop"),
    }
}

// Appends the register that was written, if any.
fn push_write(out: &mut String, write: Option<RegWrite>) -> Result<(), AllocError>
    ensures { OnOk result (string_bytes out.new ≡ string_bytes out.old ++ write_text write) }
{
    match write {
        None => Ok(()),
        Some(RegWrite { reg, value }) => {
            write!(out, " a{reg}=")?;
            push_hex8(out, value)
        }
    }
}

// Appends an access and its reply.
fn push_call(
    out: &mut String,
    kind: Kind,
    addr: u32,
    size: u8,
    reply: u32,
) -> Result<(), AllocError>
    ensures { OnOk result (string_bytes out.new ≡ string_bytes out.old ++ call_text kind addr size reply) }
{
    match kind {
        Kind::Load => {
            write!(out, " ld{size} ")?;
            push_hex8(out, addr)?;
            out.push_str(" -> ")?;
            push_hex8(out, reply)
        }
        Kind::Store(value) => {
            write!(out, " st{size} ")?;
            push_hex8(out, addr)?;
            out.push_str(" ")?;
            push_hex8(out, value)
        }
        Kind::Cas(expected, new) => {
            out.push_str(" cas ")?;
            push_hex8(out, addr)?;
            out.push_str(" ")?;
            push_hex8(out, expected)?;
            out.push_str(" ")?;
            push_hex8(out, new)?;
            out.push_str(" -> ")?;
            push_hex8(out, reply)
        }
    }
}

// Appends the access of a turn, if any.
fn push_access(out: &mut String, access: Option<Access>, reply: u32) -> Result<(), AllocError>
    ensures { OnOk result (string_bytes out.new ≡ string_bytes out.old ++ access_text access reply) }
{
    match access {
        None => Ok(()),
        Some(Access { addr, size, kind }) => push_call(out, kind, addr, size, reply),
    }
}

/// The line of a record in a printed trace, which ends with a newline:
///
/// ```text
/// C STEP PC KIND [ aR=VALUE] [ ldS ADDR -> REPLY | stS ADDR VALUE | cas ADDR EXPECT NEW -> REPLY]
/// ```
///
/// C is the core, STEP the number of the turn and S the size of the access in bytes, in decimal; addresses and values are
/// eight upper-case hexadecimal digits. KIND is `insn`, `window V`, `exc CAUSE`, `int LEVEL`, `wait` or `stop`. The only
/// error is running out of memory.
#[tactic(auto, unfolding(crate::specs::Lines::line_text))]
pub fn line(alloc: Global, core: u8, step: u32, r: &StepRecord) -> Result<Text, AllocError>
    ensures { IfOk result (λ text. text ≡ line_text core step r.now) }
{
    let mut out = format!(in alloc; "{core} {step} ")?;
    push_hex8(&mut out, r.pc)?;
    out.push_str(" ")?;
    push_kind(&mut out, r.kind)?;
    push_write(&mut out, r.write)?;
    push_access(&mut out, r.access, r.reply)?;
    out.push_str("\n")?;
    Ok(Text::new(out.into_bytes()))
}
