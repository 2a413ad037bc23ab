//! Which requirement a run does not meet.
ghost use Rattle.std.specs.Prelude.{◌≡◌, IfOk, IfSome};
ghost use Rattle.xt_runs.specs.Requirements.{IsUnmet, IsUnmetBy, IsUnmetIn, secrets_of, unmet_break, unmet_race, unmet_secret, unmet_used, unmet_whole};
ghost use Rattle.xt_runs.specs.Verdicts.{whole_of};
ghost use Rattle.xt_core.specs.Runs.{IsRunOf};
ghost use Rattle.xt_image.specs.ImageParts.{IsWellFormed};
ghost use Rattle.xt_secret_walk.specs.Answers.{IsSecretsOf};

use crate::exits::{is_used_up, stop_line, unmet_exit};
use crate::verdicts::verdict_of;
use std::alloc::{AllocError, Global};
use xt_command_line::{Requirement, RunOptions, SecretOptions};
use xt_frames::Judged;
use xt_image::{Image, well_formed_is_placed};
use xt_map::Text;
use xt_race::{Race, first_race};
use xt_report::{breach_text, frames_line, leak_line, secrets_of, uses_of};
use xt_secret_walk::Secrets;
use xt_trace::Run;
use xt_use_walk::Uses;
use xt_uses::Discipline;

// The line of the first core that had turns and ended without a BREAK.
fn unmet_break(alloc: Global, run: &Run) -> Result<Option<Text>, AllocError>
    ensures { IfOk result (λ line. line ≡ unmet_break run.now) }
{
    if is_used_up(run.options.turns0, run.trace0.stop) {
        return Ok(Some(stop_line(alloc, 0)?));
    }
    if is_used_up(run.options.turns1, run.trace1.stop) {
        return Ok(Some(stop_line(alloc, 1)?));
    }
    Ok(None)
}

// The line of a verdict that is not `whole`.
fn unmet_whole(alloc: Global, judged: Judged) -> Result<Option<Text>, AllocError>
    ensures { IfOk result (λ line. line ≡ unmet_whole judged) }
{
    match judged {
        Judged::Whole => Ok(None),
        Judged::Unchecked => {
            let line = frames_line(alloc, Judged::Unchecked)?;
            Ok(Some(Text::new(line.into_bytes())))
        }
        Judged::Broken(breach) => {
            let line = frames_line(alloc, Judged::Broken(breach))?;
            Ok(Some(Text::new(line.into_bytes())))
        }
    }
}

// The line of uses that are not whole.
fn unmet_used(alloc: Global, uses: &Uses) -> Result<Option<Text>, AllocError>
    ensures { IfOk result (λ line. line ≡ unmet_used uses.now) }
{
    match uses {
        Uses::Unchecked => {
            let line = format!(in alloc; "uses none\n")?;
            Ok(Some(Text::new(line.into_bytes())))
        }
        Uses::Whole(_, _) => Ok(None),
        Uses::Broken(first) => {
            let breach = breach_text(alloc, first.breach)?;
            let line = format!(in alloc; "uses {breach}\n")?;
            Ok(Some(Text::new(line.into_bytes())))
        }
    }
}

// What is said of the secrets of a run, of which nothing is secret if no word says so.
fn secrets_by(
    alloc: Global,
    secrets: &Option<SecretOptions>,
    image: &Image,
    run: &Run,
) -> Result<Secrets, AllocError>
    requires image { IsWellFormed image.now }
    requires run { IsRunOf image.now run.now }
    ensures { IfOk result (IsSecretsOf image.now run.now (secrets_of secrets.now).secret (secrets_of secrets.now).public) }
{
    match secrets {
        Some(it) => secrets_of(
            alloc,
            image,
            run,
            it.secret.as_slice(),
            it.public.as_slice(),
        ),
        None => secrets_of(alloc, image, run, &[], &[]),
    }
}

// The line of a leak.
fn unmet_secret(alloc: Global, secrets: &Secrets) -> Result<Option<Text>, AllocError>
    ensures { IfOk result (λ line. line ≡ unmet_secret secrets.now) }
{
    match secrets {
        Secrets::Whole(_, _) => Ok(None),
        Secrets::Leaks(first) => {
            let line = leak_line(alloc, first)?;
            Ok(Some(line))
        }
    }
}

// The line of a race.
fn unmet_race(alloc: Global, found: Option<Race>) -> Result<Option<Text>, AllocError>
    ensures { IfOk result (λ line. line ≡ unmet_race found) }
{
    match found {
        None => Ok(None),
        Some(race) => {
            let line = format!(in alloc; "race {} {}\n", race.first, race.second)?;
            Ok(Some(Text::new(line.into_bytes())))
        }
    }
}

// The line that says that a run does not meet a requirement, if it does not.
fn unmet_by(
    alloc: Global,
    secrets: &Option<SecretOptions>,
    requirement: Requirement,
    image: &Image,
    run: &Run,
    known: Option<Judged>,
) -> Result<Option<Text>, AllocError>
    requires image { IsWellFormed image.now }
    requires run { IsRunOf image.now run.now }
    requires known { IfSome known (λ j. j ≡ (whole_of image.now run.now).judged) }
    ensures { IfOk result (IsUnmetBy secrets.now requirement image.now run.now) }
{
    match requirement {
        Requirement::Break => unmet_break(alloc, run),
        Requirement::Whole => {
            let judged = verdict_of(alloc, image, run, known)?;
            unmet_whole(alloc, judged)
        }
        Requirement::Used => {
            let uses = uses_of(alloc, Discipline::Strict, image, run)?;
            unmet_used(alloc, &uses)
        }
        Requirement::RaceFree => {
            well_formed_is_placed();
            let found = first_race(alloc, image, run)?;
            unmet_race(alloc, found)
        }
        Requirement::Exit0 => unmet_exit(alloc, image, run),
        Requirement::Secret => {
            let found = secrets_by(alloc, secrets, image, run)?;
            unmet_secret(alloc, &found)
        }
    }
}

// The line of the first of these requirements that a run does not meet.
fn unmet_in(
    alloc: Global,
    secrets: &Option<SecretOptions>,
    list: &[Requirement],
    image: &Image,
    run: &Run,
    known: Option<Judged>,
) -> Result<Option<Text>, AllocError>
    requires image { IsWellFormed image.now }
    requires run { IsRunOf image.now run.now }
    requires known { IfSome known (λ j. j ≡ (whole_of image.now run.now).judged) }
    ensures { IfOk result (IsUnmetIn secrets.now list.now image.now run.now) }
{
    for requirement in list {
        match unmet_by(alloc, secrets, *requirement, image, run, known)? {
            Some(line) => return Ok(Some(line)),
            None => {}
        }
    }
    Ok(None)
}

/// The line of the first requirement of the words that a run of an image does not meet, in their order; none where it
/// meets all. It is the line that says so in the report, or the first line of the text of `uses`, `race` or `secrets`; of a core
/// that ended without a BREAK it is `core C stop turns`, and of one that ended otherwise than `exit0` requires `core C
/// stop break pc ADDR` or `core C a2 VALUE`. The only error is running out of memory.
///
/// Conditions: the image is well formed, the run is one of this image, and the verdict that is known is the run's. If
/// none is known, the run is judged only where a requirement asks for its verdict.
pub fn unmet_of(
    alloc: Global,
    options: &RunOptions,
    image: &Image,
    run: &Run,
    known: Option<Judged>,
) -> Result<Option<Text>, AllocError>
    requires image { IsWellFormed image.now }
    requires run { IsRunOf image.now run.now }
    requires known { IfSome known (λ j. j ≡ (whole_of image.now run.now).judged) }
    ensures { IfOk result (IsUnmet options.now image.now run.now) }
{
    match &options.required {
        Some(list) => unmet_in(alloc, &options.secrets, list.as_slice(), image, run, known),
        None => Ok(None),
    }
}
