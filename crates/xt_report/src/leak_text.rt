//! What is printed of the secrets of a run.
ghost use Rattle.std.specs.Prelude.{◌≡◌, ◌++◌, IfOk, OnOk, string_bytes};
ghost use Rattle.xt_map.specs.Memory.{constant_byte};
ghost use Rattle.xt_core.specs.Runs.{IsRunOf};
ghost use Rattle.xt_image.specs.ImageParts.{IsWellFormed};
ghost use Rattle.xt_report.specs.SecretFindings.{AreSecretsTold};
ghost use Rattle.xt_report.specs.SecretsText.{kept_text, leak_line, leak_text, secrets_text};

use crate::leaks::secrets_of;
use crate::text::{both_text, push_turn};
use std::alloc::{AllocError, Global};
use std::fmt::Write;
use xt_image::{Image, well_formed_is_placed};
use xt_map::{Constants, Text};
use xt_secret_walk::{FirstLeak, Secrets};
use xt_trace::Run;

/// The line `secrets leak core C step N`. The only error is running out of memory.
pub fn leak_line(alloc: Global, first: &FirstLeak) -> Result<Text, AllocError>
    ensures { IfOk result (λ text. text ≡ leak_line first.now) }
{
    let (core, step) = (first.core, first.step);
    let text = format!(in alloc; "secrets leak core {core} step {step}\n")?;
    Ok(Text::new(text.into_bytes()))
}

// What is printed of a leak.
fn leak_text(alloc: Global, code: &Constants, first: &FirstLeak) -> Result<Text, AllocError>
    ensures { IfOk result (λ text. text ≡ leak_text (constant_byte code.now) first.now) }
{
    let mut out = leak_line(alloc, first)?.into_vec();
    push_turn(alloc, &mut out, code, first.core, first.step, &first.rec)?;
    let lacks = both_text(alloc, first.lacks)?;
    out.extend_from_slice(lacks.as_bytes())?;
    Ok(Text::new(out))
}

// Appends the line of what is carried.
#[tactic(auto, unfolding(crate::specs::SecretsText::kept_text))]
fn push_kept(out: &mut String, carried0: u32, carried1: u32) -> Result<(), AllocError>
    ensures { OnOk result (string_bytes out.new ≡ string_bytes out.old ++ kept_text carried0 carried1) }
{
    writeln!(out, "secrets whole carried {carried0} {carried1}")
}

// What is printed if nothing leaks.
fn kept_text(alloc: Global, carried0: u32, carried1: u32) -> Result<Text, AllocError>
    ensures { IfOk result (λ text. text ≡ kept_text carried0 carried1) }
{
    let mut out = String::new(alloc);
    push_kept(&mut out, carried0, carried1)?;
    Ok(Text::new(out.into_bytes()))
}

// What is printed of the secrets of a run over this code.
fn said_text(alloc: Global, code: &Constants, secrets: &Secrets) -> Result<Text, AllocError>
    ensures { IfOk result (λ text. text ≡ secrets_text (constant_byte code.now) secrets.now) }
{
    match secrets {
        Secrets::Whole(carried0, carried1) => kept_text(alloc, *carried0, *carried1),
        Secrets::Leaks(first) => leak_text(alloc, code, first),
    }
}

/// What is printed of the secrets of a run of an image, which are the bytes of the first ranges except those of the second: `secrets
/// whole carried N M`, how many turns of core 0 and core 1 left a bit that depends on a secret in what they wrote or stored; or
/// `secrets leak core C step N`, the first turn that uses such a bit. After a leak come the trace line of its record; if the
/// record's PC fetches an instruction, the line that a listing has of it; and a line `aK VALUE known MASK` for each register that the
/// instruction reads and of which not every bit is known before the turn, in the order of their numbers. The only error is running
/// out of memory.
///
/// Conditions: the image is well formed, and the run is the image's.
pub fn secrets_text(
    alloc: Global,
    image: &Image,
    run: &Run,
    secret: &[(u32, u32)],
    public: &[(u32, u32)],
) -> Result<Text, AllocError>
    requires image { IsWellFormed image.now }
    requires run { IsRunOf image.now run.now }
    ensures { IfOk result (AreSecretsTold image.now run.now secret.now public.now) }
{
    well_formed_is_placed();
    let secrets = secrets_of(alloc, image, run, secret, public)?;
    let code = Constants::make(alloc, image.segments.as_slice())?;
    let text = said_text(alloc, &code, &secrets)?;
    Ok(text)
}
