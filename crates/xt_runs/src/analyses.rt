//! The texts that `run` writes behind its report: memory, and the analyses that its words ask for.
ghost use Rattle.std.specs.Prelude.{◌≡◌, ◌++◌, IfOk};
ghost use Rattle.xt_runs.specs.Analyses.{AreAnalyses, IsEventsOf, IsProfileOf, IsRaceOf, IsSecretsText, IsUsesTextOf, IsWanted};
ghost use Rattle.xt_core.specs.Runs.{IsRunOf};
ghost use Rattle.xt_image.specs.ImageParts.{IsWellFormed};
ghost use Rattle.xt_map.specs.Placing.{IsPlaced};

use crate::memory::memory_text;
use std::alloc::{AllocError, Global};
use xt_command_line::{DEFAULT_DEPTH, RunOptions, SecretOptions};
use xt_events::events_text;
use xt_image::{Image, well_formed_is_placed};
use xt_map::Text;
use xt_profile::{profile, profile_text};
use xt_race::race_text;
use xt_report::{secrets_text, uses_text};
use xt_trace::Run;
use xt_uses::Discipline;

// The text of `events`, where it is wanted.
fn events(alloc: Global, wanted: bool, image: &Image, run: &Run) -> Result<Text, AllocError>
    requires run { IsRunOf image.now run.now }
    requires placed { IsPlaced image.now.segments }
    ensures { IfOk result (λ text. IsWanted wanted (IsEventsOf image.now run.now) text) }
{
    if wanted {
        events_text(alloc, image, run)
    } else {
        Ok(Text::new(Vec::new(alloc)))
    }
}

// The text of `race`, where it is wanted.
fn race(alloc: Global, wanted: bool, image: &Image, run: &Run) -> Result<Text, AllocError>
    requires run { IsRunOf image.now run.now }
    requires placed { IsPlaced image.now.segments }
    ensures { IfOk result (λ text. IsWanted wanted (IsRaceOf image.now run.now) text) }
{
    if wanted {
        race_text(alloc, image, run)
    } else {
        Ok(Text::new(Vec::new(alloc)))
    }
}

// The text of `profile`, where it is wanted.
fn profiled(alloc: Global, wanted: bool, image: &Image, run: &Run) -> Result<Text, AllocError>
    requires run { IsRunOf image.now run.now }
    requires placed { IsPlaced image.now.segments }
    ensures { IfOk result (λ text. IsWanted wanted (IsProfileOf image.now run.now) text) }
{
    if wanted {
        let profile = profile(alloc, DEFAULT_DEPTH, image, run)?;
        profile_text(alloc, DEFAULT_DEPTH, &profile)
    } else {
        Ok(Text::new(Vec::new(alloc)))
    }
}

// The text of `uses`, by the strict discipline, where it is wanted.
fn used(alloc: Global, wanted: bool, image: &Image, run: &Run) -> Result<Text, AllocError>
    requires image { IsWellFormed image.now }
    requires run { IsRunOf image.now run.now }
    ensures { IfOk result (λ text. IsWanted wanted (IsUsesTextOf image.now run.now) text) }
{
    if wanted {
        uses_text(alloc, Discipline::Strict, image, run)
    } else {
        Ok(Text::new(Vec::new(alloc)))
    }
}

// The text of `secrets`, if something is secret.
fn kept(
    alloc: Global,
    secrets: &Option<SecretOptions>,
    image: &Image,
    run: &Run,
) -> Result<Text, AllocError>
    requires image { IsWellFormed image.now }
    requires run { IsRunOf image.now run.now }
    ensures { IfOk result (IsSecretsText secrets.now image.now run.now) }
{
    match secrets {
        Some(it) => secrets_text(
            alloc,
            image,
            run,
            it.secret.as_slice(),
            it.public.as_slice(),
        ),
        None => Ok(Text::new(Vec::new(alloc))),
    }
}

// Six texts, one after another.
fn joined(
    memory: Text,
    events: &Text,
    race: &Text,
    profile: &Text,
    uses: &Text,
    secrets: &Text,
) -> Result<Text, AllocError>
    ensures { IfOk result (λ text. text ≡ memory ++ (events.now ++ (race.now ++ (profile.now ++ (uses.now ++ secrets.now))))) }
{
    let mut text = memory.into_vec();
    text.extend_from_slice(events.as_slice())?;
    text.extend_from_slice(race.as_slice())?;
    text.extend_from_slice(profile.as_slice())?;
    text.extend_from_slice(uses.as_slice())?;
    text.extend_from_slice(secrets.as_slice())?;
    Ok(Text::new(text))
}

/// What the words ask for of a run beside its report: the lines of `--memory`, and then the texts of `events`, `race`,
/// `profile`, `uses` and `secrets`. The only error is running out of memory.
///
/// Conditions: the image is well formed, and the run is one of this image.
pub fn analyses_text(
    alloc: Global,
    options: &RunOptions,
    image: &Image,
    run: &Run,
) -> Result<Text, AllocError>
    requires image { IsWellFormed image.now }
    requires run { IsRunOf image.now run.now }
    ensures { IfOk result (λ text. AreAnalyses options.now image.now run.now text) }
{
    well_formed_is_placed();
    let memory = memory_text(alloc, options, image, run)?;
    let events = events(alloc, options.events, image, run)?;
    let race = race(alloc, options.race, image, run)?;
    let profile = profiled(alloc, options.profile, image, run)?;
    let uses = used(alloc, options.uses, image, run)?;
    let secrets = kept(alloc, &options.secrets, image, run)?;
    joined(memory, &events, &race, &profile, &uses, &secrets)
}
