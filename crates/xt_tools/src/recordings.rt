//! The commands over recordings.
ghost use Rattle.std.specs.Prelude.{◌≡◌, ◌≢◌, IfOk, IfErr, Some, true, false};
ghost use Rattle.xt_map.specs.Placing.{IsPlaced};
ghost use Rattle.xt_core.specs.Runs.{IsRunOf};
ghost use Rattle.xt_record.specs.Fields.{image_in};
ghost use Rattle.xt_record.specs.Format.{run_in};
ghost use Rattle.xt_report.specs.Inputs.{recording_refusal};
ghost use Rattle.xt_report.specs.Writes.{Writes};
ghost use Rattle.xt_tools.specs.Commands.{IsCountsTold, IsMade, IsRaceTold, filter_of, events_output, migrated_recording, profile_by, profile_output, trace_output, trace_text};
ghost use Rattle.xt_tools.specs.Puts.{Puts};
ghost use Rattle.xt_report.specs.SecretFindings.{AreSecretsTold};
ghost use Rattle.xt_report.specs.UseFindings.{IsUsesTold};

use crate::turns::write_lines;
use std::alloc::{AllocError, Global};
use xt_command_line::{ProfileOptions, SecretOptions, Turns};
use xt_debug::FrameLines;
use xt_events::{Filter, TurnLines, counts_text, events_text};
use xt_image::{Image, well_formed_is_placed};
use xt_io::{Refused, Sink};
use xt_map::Text;
use xt_profile::{profile_text, whole_profile, whole_text};
use xt_race::race_text;
use xt_record::write_recording;
use xt_report::{Status, recording_in, secrets_text, status_after, uses_text};
use xt_trace::Run;
use xt_uses::Discipline;

/// The same recording in version 2, or the status of its first fault.
#[tactic(auto, unfolding(crate::specs::Commands::migrated_recording))]
pub fn migrate(alloc: Global, input: &[u8]) -> Result<Text, Status>
    ensures ok { IfOk result (λ bytes. IsMade (recording_refusal input.now) (bytes ≡ migrated_recording input.now)) }
    ensures refused { IfErr result (λ status. status ≢ Status.Memory → recording_refusal input.now ≡ Some status) }
{
    let (image, run) = recording_in(alloc, input)?;
    match write_recording(alloc, &image, &run) {
        Ok(bytes) => Ok(Text::new(bytes.into_vec())),
        Err(_) => Err(Status::Memory),
    }
}

/// What happened to each core in a recorded run, or the status of the recording's first fault.
#[tactic(auto, unfolding(crate::specs::Commands::events_output))]
pub fn events(alloc: Global, input: &[u8]) -> Result<Text, Status>
    ensures ok { IfOk result (λ bytes. IsMade (recording_refusal input.now) (bytes ≡ events_output input.now)) }
    ensures refused { IfErr result (λ status. status ≢ Status.Memory → recording_refusal input.now ≡ Some status) }
{
    let (image, run) = recording_in(alloc, input)?;
    well_formed_is_placed();
    match events_text(alloc, &image, &run) {
        Ok(text) => Ok(text),
        Err(_) => Err(Status::Memory),
    }
}

/// How often each core of a recorded run executed the instruction at each address, or the status of the
/// recording's first fault.
pub fn counts(alloc: Global, input: &[u8]) -> Result<Text, Status>
    ensures ok { IfOk result (λ bytes. IsMade (recording_refusal input.now) (IsCountsTold input.now bytes)) }
    ensures refused { IfErr result (λ status. status ≢ Status.Memory → recording_refusal input.now ≡ Some status) }
{
    let (image, run) = recording_in(alloc, input)?;
    well_formed_is_placed();
    match counts_text(alloc, &image, &run) {
        Ok(text) => Ok(text),
        Err(_) => Err(Status::Memory),
    }
}

/// The first data race of a recorded run, or the status of the recording's first fault.
pub fn race(alloc: Global, input: &[u8]) -> Result<Text, Status>
    ensures ok { IfOk result (λ bytes. IsMade (recording_refusal input.now) (IsRaceTold input.now bytes)) }
    ensures refused { IfErr result (λ status. status ≢ Status.Memory → recording_refusal input.now ≡ Some status) }
{
    let (image, run) = recording_in(alloc, input)?;
    well_formed_is_placed();
    match race_text(alloc, &image, &run) {
        Ok(text) => Ok(text),
        Err(_) => Err(Status::Memory),
    }
}

// The text of the call profile of a run, with these options. The only error is running out of memory.
#[tactic(auto, unfolding(crate::specs::Commands::profile_by))]
fn profile_by(
    alloc: Global,
    options: ProfileOptions,
    image: &Image,
    run: &Run,
) -> Result<Text, AllocError>
    requires placed { IsPlaced image.now.segments }
    requires run { IsRunOf image.now run.now }
    ensures { IfOk result (λ text. text ≡ profile_by options image.now run.now) }
{
    if options.after {
        let whole = whole_profile(alloc, options.depth, image, run)?;
        whole_text(alloc, options.depth, &whole)
    } else {
        let found = xt_profile::profile(alloc, options.depth, image, run)?;
        profile_text(alloc, options.depth, &found)
    }
}

/// The call profile of a recorded run, with these options, or the status of the recording's first fault.
#[tactic(auto, unfolding(crate::specs::Commands::profile_output))]
pub fn profile(alloc: Global, options: ProfileOptions, input: &[u8]) -> Result<Text, Status>
    ensures ok { IfOk result (λ bytes. IsMade (recording_refusal input.now) (bytes ≡ profile_output options input.now)) }
    ensures refused { IfErr result (λ status. status ≢ Status.Memory → recording_refusal input.now ≡ Some status) }
{
    let (image, run) = recording_in(alloc, input)?;
    well_formed_is_placed();
    match profile_by(alloc, options, &image, &run) {
        Ok(text) => Ok(text),
        Err(_) => Err(Status::Memory),
    }
}

/// The first breach of a recorded run by this discipline of uses, or the status of the recording's first fault.
pub fn uses(alloc: Global, discipline: Discipline, input: &[u8]) -> Result<Text, Status>
    ensures ok { IfOk result (λ bytes. IsMade (recording_refusal input.now) (IsUsesTold discipline (image_in input.now) (run_in input.now) bytes)) }
    ensures refused { IfErr result (λ status. status ≢ Status.Memory → recording_refusal input.now ≡ Some status) }
{
    let (image, run) = recording_in(alloc, input)?;
    match uses_text(alloc, discipline, &image, &run) {
        Ok(text) => Ok(text),
        Err(_) => Err(Status::Memory),
    }
}

/// What is said of these secrets in a recorded run, or the status of the recording's first fault.
pub fn secrets(alloc: Global, options: &SecretOptions, input: &[u8]) -> Result<Text, Status>
    ensures ok { IfOk result (λ bytes. IsMade (recording_refusal input.now) (AreSecretsTold (image_in input.now) (run_in input.now) options.now.secret options.now.public bytes)) }
    ensures refused { IfErr result (λ status. status ≢ Status.Memory → recording_refusal input.now ≡ Some status) }
{
    let (image, run) = recording_in(alloc, input)?;
    let (secret, public) = (options.secret.as_slice(), options.public.as_slice());
    match secrets_text(alloc, &image, &run, secret, public) {
        Ok(text) => Ok(text),
        Err(_) => Err(Status::Memory),
    }
}

// What is asked for of a turn.
fn filter_of(turns: Turns) -> Filter
    ensures { result ≡ filter_of turns }
{
    Filter {
        core: turns.core,
        accesses: turns.accesses,
        jumps: turns.jumps,
    }
}

// Writes the lines of these turns of a run with notes on frames, in writes of up to 65,536 bytes.
fn write_framed<K: Sink>(
    alloc: Global,
    turns: Turns,
    image: &Image,
    run: &Run,
    sink: &mut K,
) -> Result<(), Refused>
    requires placed { IsPlaced image.now.segments }
    requires run { IsRunOf image.now run.now }
    requires frames { turns.frames ≡ true }
    ensures { Writes result
        (K.told sink.old) (K.told sink.new) (K.faults sink.old) (K.faults sink.new)
        (trace_text turns image.now run.now) }
{
    let filter = filter_of(turns);
    let mut lines = FrameLines::make(alloc, image, run, filter, turns.from, turns.to)?;
    write_lines(alloc, &mut lines, sink)
}

// The same without the notes.
fn write_plain<K: Sink>(
    alloc: Global,
    turns: Turns,
    image: &Image,
    run: &Run,
    sink: &mut K,
) -> Result<(), Refused>
    requires placed { IsPlaced image.now.segments }
    requires run { IsRunOf image.now run.now }
    requires frames { turns.frames ≡ false }
    ensures { Writes result
        (K.told sink.old) (K.told sink.new) (K.faults sink.old) (K.faults sink.new)
        (trace_text turns image.now run.now) }
{
    let filter = filter_of(turns);
    let mut lines = TurnLines::filtered(alloc, image, run, filter, turns.from, turns.to)?;
    write_lines(alloc, &mut lines, sink)
}

// The lines of these turns, as the words ask for them.
fn write_turns<K: Sink>(
    alloc: Global,
    turns: Turns,
    image: &Image,
    run: &Run,
    sink: &mut K,
) -> Result<(), Refused>
    requires placed { IsPlaced image.now.segments }
    requires run { IsRunOf image.now run.now }
    ensures { Writes result
        (K.told sink.old) (K.told sink.new) (K.faults sink.old) (K.faults sink.new)
        (trace_text turns image.now run.now) }
{
    if turns.frames {
        return write_framed(alloc, turns, image, run, sink);
    }
    write_plain(alloc, turns, image, run, sink)
}

/// Writes the lines of these turns of a recorded run, in writes of up to 65,536 bytes, or ends with the
/// status of the recording's first fault.
pub fn trace<K: Sink>(alloc: Global, turns: Turns, input: &[u8], sink: &mut K) -> Status
    ensures { Puts (recording_refusal input.now) (λ bytes. bytes ≡ trace_output turns input.now)
        (K.told sink.old) (K.told sink.new) (K.faults sink.old) (K.faults sink.new) result }
{
    let (image, run) = match recording_in(alloc, input) {
        Ok(read) => read,
        Err(status) => return status,
    };
    well_formed_is_placed();
    status_after(write_turns(alloc, turns, &image, &run, sink))
}
