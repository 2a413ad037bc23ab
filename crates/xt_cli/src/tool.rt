//! The commands whose output is a function of their input.
ghost use Rattle.std.specs.Prelude.{◌≡◌, ◌≢◌, ◌≤◌, All, length, map, string_bytes, IfOk, IfErr, Ok, Some};
ghost use Rattle.xt_map.specs.Placing.{IsPlaced};
ghost use Rattle.xt_core.specs.Runs.{IsRunOf};
ghost use Rattle.xt_debug.specs.Grammar.{IsInRange};
ghost use Rattle.xt_debug.specs.Scripts.{script_outcome};
ghost use Rattle.xt_report.specs.Calls.{ends};
ghost use Rattle.xt_cli.specs.Orders.{IsFit, IsFitOrder, order_of};
ghost use Rattle.xt_cli.specs.Puts.{IsWhole, Puts, Replays, status_beyond};
ghost use Rattle.xt_cli.specs.Tools.{Answers, Finishes, IsComplete, IsMade, Makes, done_status, leads_beyond, limit_of, refusal_of, status_of};

use crate::orders::{Order, order_in};
use crate::outcomes::outcomes;
use std::alloc::{AllocError, Global};
use xt_command_line::{
    Beyond, Listing, OutcomeOptions, ProfileOptions, Refusal, SecretOptions, Turns,
};
use xt_debug::{Debugger, Printed, Script};
use xt_image::{Image, well_formed_is_placed};
use xt_io::{ReadError, Sink, Source, read_to_limit};
use xt_map::Text;
use xt_report::{IMAGE_LIMIT, RECORDING_LIMIT, Status, recording_in, status_after, write_text};
use xt_tools::{
    ELF_LIMIT, TEXT_LIMIT, check, converted_file, counts, events, image_file, list, map_text,
    migrate, profile, race, secrets, session, trace, uses,
};
use xt_trace::Run;
use xt_uses::Discipline;

/// A command whose output is a function of its input.
#[derive(Drop)]
pub enum Job {
    /// `asm`: the image of an assembly text.
    Assemble,
    /// `elf`: the image of an ELF executable.
    Convert,
    /// `dis`: an image's listing, in this way.
    List(Listing),
    /// `map`: the labels of an assembly text.
    Map,
    /// `check`: what an image holds, with its window handlers from this VECBASE on.
    Check(u32),
    /// `migrate`: a recording in version 2.
    Migrate,
    /// `replay`: what this script prints over a recording.
    Replay(Script, Beyond),
    /// `events`: what happened to each core in a recorded run.
    Events,
    /// `counts`: how often each core of a recorded run executed the instruction at each address.
    Counts,
    /// `trace`: the lines of these turns of a recorded run.
    Trace(Turns),
    /// `race`: the first data race of a recorded run.
    Race,
    /// `profile`: the call profile of a recorded run, with these options.
    Profile(ProfileOptions),
    /// `uses`: the first breach of a recorded run by this discipline of uses.
    Uses(Discipline),
    /// `secrets`: the first leak of these secrets in a recorded run.
    Secrets(SecretOptions),
    /// `outcomes`: everything that can come out of an image, with these options.
    Outcomes(OutcomeOptions),
}

/// What `tool_main` answers.
#[derive(Clone, Copy)]
pub enum Tool {
    /// The program ended with this status.
    Answer(Status),
    /// The words ask for `run`, `record` or `gen`. Nothing was read or written.
    Threaded,
}

// The status that a refusal of the words comes to.
pub(crate) fn status_of(refusal: Refusal) -> Status
    ensures { result ≡ status_of refusal }
{
    match refusal {
        Refusal::Usage(rule) => Status::Usage(rule),
        Refusal::Memory => Status::Memory,
    }
}

// The most bytes that the input of a command may have.
fn limit_of(job: &Job) -> usize
    ensures { result ≡ limit_of job.now }
{
    match job {
        Job::Assemble | Job::Map => TEXT_LIMIT,
        Job::Convert => ELF_LIMIT,
        Job::List(_) | Job::Check(_) | Job::Outcomes(_) => IMAGE_LIMIT,
        Job::Migrate
        | Job::Replay(_, _)
        | Job::Events
        | Job::Counts
        | Job::Trace(_)
        | Job::Race
        | Job::Profile(_)
        | Job::Uses(_)
        | Job::Secrets(_) => RECORDING_LIMIT,
    }
}

// What a script prints over a run of an image. The only error is running out of memory.
fn replayed(
    alloc: Global,
    image: &Image,
    run: &Run,
    script: &Script,
    beyond: Beyond,
) -> Result<Printed, AllocError>
    requires range { All IsInRange script.now }
    requires run { IsRunOf image.now run.now }
    requires placed { IsPlaced image.now.segments }
    ensures text { IfOk result (λ printed. printed.text ≡ (script_outcome beyond image.now run.now script.now 0).text) }
    ensures beyond { IfOk result (λ printed. printed.beyond ≡ (script_outcome beyond image.now run.now script.now 0).beyond) }
{
    let mut debugger = Debugger::make(alloc, image, run)?;
    debugger.run(alloc, script, beyond)
}

// What a script prints over a recording, or the status of the recording's first fault.
#[tactic(auto, unfolding(crate::specs::Tools::replayed))]
fn replay(alloc: Global, script: &Script, beyond: Beyond, input: &[u8]) -> Result<Printed, Status>
    requires { All IsInRange script.now }
    ensures ok { IfOk result (λ printed. IsMade (Job.Replay script.now beyond) input.now printed.text) }
    ensures beyond { IfOk result (λ printed. leads_beyond (Job.Replay script.now beyond) input.now ≡ printed.beyond) }
    ensures refused { IfErr result (λ status. status ≢ Status.Memory → refusal_of (Job.Replay script.now beyond) input.now ≡ Some status) }
{
    let (image, run) = recording_in(alloc, input)?;
    well_formed_is_placed();
    match replayed(alloc, &image, &run, script, beyond) {
        Ok(printed) => Ok(printed),
        Err(_) => Err(Status::Memory),
    }
}

// What a command writes for an input, or the status with which it refuses it. Its whole text is made.
fn make(alloc: Global, job: &Job, input: &[u8]) -> Result<Text, Status>
    requires at_once { IsWhole job.now }
    requires fit { IsFit job.now }
    requires limit { length input.now ≤ limit_of job.now }
    ensures ok { IfOk result (λ bytes. IsMade job.now input.now bytes) }
    ensures refused { IfErr result (λ status. status ≢ Status.Memory → refusal_of job.now input.now ≡ Some status) }
{
    match job {
        Job::Assemble => image_file(alloc, input),
        Job::Convert => converted_file(alloc, input),
        Job::List(way) => list(alloc, way, input),
        Job::Map => map_text(alloc, input),
        Job::Check(vecbase) => check(alloc, *vecbase, input),
        Job::Migrate => migrate(alloc, input),
        Job::Events => events(alloc, input),
        Job::Counts => counts(alloc, input),
        Job::Race => race(alloc, input),
        Job::Profile(options) => profile(alloc, *options, input),
        Job::Uses(discipline) => uses(alloc, *discipline, input),
        Job::Secrets(options) => secrets(alloc, options, input),
        Job::Outcomes(options) => outcomes(alloc, options, input),
        Job::Trace(_) => unreachable!(),
        Job::Replay(_, _) => unreachable!(),
    }
}

// Makes the text of a command, and then writes it.
fn put<K: Sink>(alloc: Global, job: &Job, input: &[u8], sink: &mut K) -> Status
    requires at_once { IsWhole job.now }
    requires fit { IsFit job.now }
    requires limit { length input.now ≤ limit_of job.now }
    ensures { Puts job.now input.now
        (K.told sink.old) (K.told sink.new) (K.faults sink.old) (K.faults sink.new) result }
{
    match make(alloc, job, input) {
        Ok(text) => status_after(write_text(&text, sink)),
        Err(status) => status,
    }
}

// The status where the whole output was written, and a script led beyond the run, or none did.
fn done_status(beyond: bool) -> Status
    ensures { result ≡ done_status beyond }
{
    if beyond {
        Status::PastEnd
    } else {
        Status::Done
    }
}

// The status that writing comes to, where a script led beyond the run, or did not.
fn status_beyond(beyond: bool, status: Status) -> Status
    ensures { result ≡ status_beyond beyond status }
{
    match status {
        Status::Done => done_status(beyond),
        _ => status,
    }
}

// Makes what a script prints over a recording, and then writes it.
fn put_replay<K: Sink>(
    alloc: Global,
    script: &Script,
    beyond: Beyond,
    input: &[u8],
    sink: &mut K,
) -> Status
    requires { All IsInRange script.now }
    ensures { Replays (Job.Replay script.now beyond) input.now
        (K.told sink.old) (K.told sink.new) (K.faults sink.old) (K.faults sink.new) result }
{
    match replay(alloc, script, beyond, input) {
        Ok(printed) => {
            let written = write_text(&printed.text, sink);
            status_beyond(printed.beyond, status_after(written))
        }
        Err(status) => status,
    }
}

// Reads the input of a command to its end, and writes what the command makes of it.
fn work<S: Source, K: Sink>(alloc: Global, job: &Job, source: &mut S, sink: &mut K) -> Status
    requires { IsFit job.now }
    ensures answers { Makes job.now
        (ends S.left S.faults source.old source.new K.told K.faults sink.old sink.new) result }
    ensures complete { Finishes job.now
        (ends S.left S.faults source.old source.new K.told K.faults sink.old sink.new) result }
{
    let limit = limit_of(job);
    let input = match read_to_limit(alloc, source, limit) {
        Ok(input) => input,
        Err(ReadError::Fault) => return Status::ReadFault,
        Err(ReadError::TooLarge) => return Status::TooLarge(limit as u32),
        Err(ReadError::Memory) => return Status::Memory,
    };
    match job {
        Job::Trace(turns) => trace(alloc, *turns, &input, sink),
        Job::Replay(script, beyond) => put_replay(alloc, script, *beyond, &input, sink),
        _ => put(alloc, job, &input, sink),
    }
}

// What an order comes to, where it needs no thread.
fn carry_out<S: Source, K: Sink>(alloc: Global, order: &Order, source: &mut S, sink: &mut K) -> Tool
    requires { IsFitOrder order.now }
    ensures answers { Answers (Ok order.now)
        (ends S.left S.faults source.old source.new K.told K.faults sink.old sink.new) result }
    ensures complete { IsComplete (Ok order.now)
        (ends S.left S.faults source.old source.new K.told K.faults sink.old sink.new) result }
{
    match order {
        Order::Work(job) => Tool::Answer(work(alloc, job, source, sink)),
        Order::Session(beyond) => Tool::Answer(session(alloc, *beyond, source, sink)),
        Order::Run(_, _) | Order::Generate(_) => Tool::Threaded,
    }
}

/// What the program does with the words after its name, a source and a sink, where it needs no
/// thread: it answers every word that has no meaning, and does the work of `asm`, `elf`, `dis`, `map`, `check`,
/// `migrate`, `replay`, `events`, `counts`, `trace`, `race`, `profile`, `uses`, `secrets` and `outcomes`, and a session of `replay`. It waits for nobody and returns.
///
/// Words that ask for `run`, `record` or `gen` are handed back as `Threaded`, and nothing was then read or
/// written.
/// After `Answer` the contract says of each status its cause, and what was written; running
/// out of memory is the only outcome left open.
pub fn tool_main<S: Source, K: Sink>(
    alloc: Global,
    words: &[String],
    source: &mut S,
    sink: &mut K,
) -> Tool
    ensures answers { Answers (order_of (map string_bytes words.now))
        (ends S.left S.faults source.old source.new K.told K.faults sink.old sink.new) result }
    ensures complete { IsComplete (order_of (map string_bytes words.now))
        (ends S.left S.faults source.old source.new K.told K.faults sink.old sink.new) result }
{
    match order_in(alloc, words) {
        Ok(order) => carry_out(alloc, &order, source, sink),
        Err(refusal) => Tool::Answer(status_of(refusal)),
    }
}
