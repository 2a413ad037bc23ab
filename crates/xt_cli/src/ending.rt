//! How the program ends: its line on standard error, and its code.
ghost use Rattle.std.specs.Prelude.{◌≡◌, ◌⊎◌, None, Some, map, string_bytes, IfErr, IfOk, MatchResult};
ghost use Rattle.xt_report.specs.Calls.{ends, IsUntouched};
ghost use Rattle.xt_cli.specs.Endings.{IsEndOf, IsEndOfCall, required_text};

use crate::top::xt_main;
use std::alloc::{AllocError, Global};
use std::env;
use std::io::ErrorKind;
use std::rt::Env;
use std::sync::Wait;
use std::thread::Threads;
use xt_io::{Gate, Sink, Source};
use xt_map::Text;
use xt_report::{Status, status_line};
use xt_runs::Outcome;

/// How the program ends.
#[derive(Drop)]
pub struct End {
    /// The line for standard error, None where the command did all of its work and its run meets what is required. The
    /// only error is running out of memory: then the code alone tells the status.
    pub line: Result<Option<Text>, AllocError>,
    /// The code with which the program ends.
    pub code: u8,
}

/// The words after the program's name. Words that are not UTF-8 match no command.
pub fn program_words(rt: &(impl Env + AllocGlobal)) -> Result<Vec<String>, Status>
    ensures { IfErr result (λ status. (status ≡ Status.Usage 3) ⊎ (status ≡ Status.Memory)) }
{
    let mut words = Vec::new(rt.alloc());
    let args = match env::args(rt) {
        Ok(args) => args,
        Err(error) if error.kind() == ErrorKind::InvalidData => return Err(Status::Usage(3)),
        Err(_) => return Err(Status::Memory),
    };
    for word in args.skip(1) {
        if words.push(word).is_err() {
            return Err(Status::Memory);
        }
    }
    Ok(words)
}

// The line of a run that does not meet a requirement, by the line that says so.
fn required_line(alloc: Global, line: &Text) -> Result<Text, AllocError>
    ensures { IfOk result (λ text. text ≡ required_text line.now) }
{
    let head = format!(in alloc; "xt: Required ")?;
    let mut text = head.into_bytes();
    text.extend_from_slice(line.as_slice())?;
    Ok(Text::new(text))
}

// How the program ends with a status.
fn ended(alloc: Global, status: &Status) -> End
    ensures { IsEndOf status.now None result }
{
    let line = match status {
        Status::Done => Ok(None),
        _ => status_line(alloc, status).map(Some),
    };
    End {
        line,
        code: status.code(),
    }
}

// How the program ends with a status after a run that does not meet a requirement, by the line that says so.
fn ended_unmet(alloc: Global, status: &Status, line: &Text) -> End
    ensures { IsEndOf status.now (Some line.now) result }
{
    match status {
        Status::Done => End {
            line: required_line(alloc, line).map(Some),
            code: 20,
        },
        _ => ended(alloc, status),
    }
}

// How the program ends after a call.
fn ended_after(alloc: Global, outcome: &Outcome) -> End
    ensures { IsEndOf outcome.now.status outcome.now.unmet result }
{
    match &outcome.unmet {
        Some(line) => ended_unmet(alloc, &outcome.status, line),
        None => ended(alloc, &outcome.status),
    }
}

/// All that the program does with its words, a source and a sink, up to its end. Words that could not
/// be read end in their status, and neither the source nor the sink is touched. Others end in the
/// status of `xt_main`, with all that it says of the call.
pub fn xt_program<S: Source, K: Sink, G: Gate, R: Threads + Wait + Sync>(
    rt: &R,
    alloc: Global,
    words: &Result<Vec<String>, Status>,
    source: &mut S,
    sink: &mut K,
    gate: &G,
) -> End
    ensures { MatchResult words.now
        (λ given. IsEndOfCall (map string_bytes given.items)
        (ends S.left S.faults source.old source.new K.told K.faults sink.old sink.new) result)
        (λ status. IsEndOf status None result
        × IsUntouched (ends S.left S.faults source.old source.new K.told K.faults sink.old sink.new)) }
{
    match words {
        Ok(given) => {
            let outcome = xt_main(rt, alloc, given.as_slice(), source, sink, gate);
            ended_after(alloc, &outcome)
        }
        Err(status) => ended(alloc, status),
    }
}
