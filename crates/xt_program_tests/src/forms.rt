//! The forms of cases.

use crate::asking::{Ended, asked, words_for, words_in, words_with, written};
use crate::cases::{
    bytes_of, has_lines, has_output, has_part, has_starts, is_output, lines_of, number_of, words_of,
};
use crate::devices::fails_in_turn;
use crate::gates::both_meet;
use crate::inputs::end_with_raw;
use crate::numbers::are_generated;
use std::alloc::Global;
use std::fs;
use std::rt::Files;
use std::sync::Wait;
use std::thread::Threads;
use xt_gen::seeded_order;

// The text of the program of a case: that of a file, or its lines.
fn program_of<R: Files + AllocGlobal>(rt: &R, case: &str, handlers: &str) -> Option<String> {
    let file = words_of(case, "file");
    if file.is_empty() {
        lines_of(rt.alloc(), case, "program", handlers)
    } else {
        fs::read_to_string(rt, file).ok()
    }
}

// The image of the program of a case; for `map` its text.
fn image_of<R: Files + Threads + Wait + Sync + AllocGlobal>(
    rt: &R,
    case: &str,
    handlers: &str,
) -> Option<Vec<u8>> {
    let program = program_of(rt, case, handlers)?;
    if program.is_empty() || words_of(case, "command") == "map" {
        return Some(program.into_bytes());
    }
    written(rt, words_in(rt.alloc(), &["asm"])?, program.as_bytes())
}

// An input up to the length that a case says, if it says one: with zeros, or with newlines.
fn filled(case: &str, input: Vec<u8>) -> Option<Vec<u8>> {
    let zeros = number_of(case, "zeros");
    let (length, byte) = match zeros {
        Some(length) => (length, 0),
        None => (number_of(case, "filled").unwrap_or(0), b'\n'),
    };
    let mut input = input;
    if length > 0 {
        input.resize(length as usize, byte).ok()?;
    }
    Some(input)
}

// The input of a case: its bytes, its text, or the image of its program, as long as the case says.
fn input_of<R: Files + Threads + Wait + Sync + AllocGlobal>(
    rt: &R,
    case: &str,
    handlers: &str,
) -> Option<Vec<u8>> {
    let input = if has_part(case, "bytes") {
        bytes_of(rt.alloc(), case, "bytes")?
    } else if has_part(case, "text") {
        lines_of(rt.alloc(), case, "text", "")?.into_bytes()
    } else {
        image_of(rt, case, handlers)?
    };
    filled(case, input)
}

// How the program ends with the words of a part, and behind them the script of another, if the case has one.
fn end_with<R: Threads + Wait + Sync + AllocGlobal>(
    rt: &R,
    case: &str,
    words: &str,
    script: &str,
    input: &[u8],
) -> Option<Ended> {
    let words = words_with(rt.alloc(), words_of(case, words), words_of(case, script))?;
    asked(rt, words, input)
}

// Whether an end is the one that a case says, with what it says of the output, if it says that.
fn is_end(alloc: Global, case: &str, end: &Ended) -> Option<bool> {
    let code = number_of(case, "code")?;
    let line = lines_of(alloc, case, "line", "")?;
    Some(
        end.code as u64 == code
            && end.line.as_slice() == line.as_bytes()
            && has_output(alloc, case, &end.output)?,
    )
}

// Whether the program ends as a case says.
fn ends_so<R: Threads + Wait + Sync + AllocGlobal>(
    rt: &R,
    case: &str,
    input: &[u8],
) -> Option<bool> {
    let end = if words_of(case, "raw").is_empty() {
        end_with(rt, case, "words", "script", input)?
    } else {
        end_with_raw(rt, case, input)?
    };
    is_end(rt.alloc(), case, &end)
}

// Whether words are accepted, and come to the same as others.
fn is_same<R: Threads + Wait + Sync + AllocGlobal>(
    rt: &R,
    case: &str,
    input: &[u8],
) -> Option<bool> {
    let one = end_with(rt, case, "words", "script", input)?;
    let other = end_with(rt, case, "same", "with", input)?;
    Some(
        one.code != 1
            && one.code == other.code
            && one.output == other.output
            && one.line == other.line,
    )
}

// Whether a command, with a script or without, prints the output of its case.
fn prints<R: Threads + Wait + Sync + AllocGlobal>(
    rt: &R,
    case: &str,
    command: &str,
    script: &str,
    input: &[u8],
) -> Option<bool> {
    let words = words_with(rt.alloc(), command, script)?;
    let output = written(rt, words, input)?;
    is_output(rt.alloc(), case, &output)
}

// A recording in version 2: but for the version and, after the bytes of version 1, the number of its checkpoints, the same.
fn second_of(alloc: Global, recording: &[u8]) -> Option<Vec<u8>> {
    let mut second = recording.to_vec(alloc).ok()?;
    if second.get(4).copied() == Some(1) {
        second.extend_from_slice(&[0; 4]).ok()?;
    }
    if let Some(version) = second.get_mut(4) {
        *version = 2;
    }
    Some(second)
}

// Whether a line says that a recording is refused, and how.
fn is_refusal(line: &[u8], answer: &str) -> Option<bool> {
    let said = line
        .strip_prefix(b"xt: Recording ".as_slice())?
        .strip_suffix(b"\n".as_slice())?;
    Some(said == answer.as_bytes())
}

// Whether a recording is answered as its case says; a good one is the same migrated, in version 2.
fn is_answered<R: Threads + Wait + Sync + AllocGlobal>(
    rt: &R,
    case: &str,
    input: &[u8],
) -> Option<bool> {
    let end = asked(rt, words_in(rt.alloc(), &["migrate"])?, input)?;
    let answer = words_of(case, "answer");
    if answer != "good" {
        return Some(end.output.is_empty() && is_refusal(&end.line, answer)?);
    }
    let second = second_of(rt.alloc(), input)?;
    Some(end.code == 0 && end.output == second)
}

// The cores of a list of parts `C*N`, each of which stands for N turns of core C.
fn cores_in(alloc: Global, list: &str) -> Option<Vec<u8>> {
    let mut cores = Vec::new(alloc);
    for part in list.split(' ') {
        let (core, times) = part.split_once('*')?;
        let core = core.parse::<u8>().ok()?;
        let end = cores.len().saturating_add(times.parse::<usize>().ok()?);
        cores.resize(end, core).ok()?;
    }
    Some(cores)
}

// Whether the list of a seed begins as its case says.
fn has_order(alloc: Global, case: &str) -> Option<bool> {
    let seed = words_of(case, "seed").parse::<u32>().ok()?;
    let cores = cores_in(alloc, words_of(case, "cores"))?;
    let order = seeded_order(alloc, seed, u32::try_from(cores.len()).ok()?).ok()?;
    Some(order == cores)
}

// Whether the last line of what `check` writes of an image is that of its case.
fn is_checked<R: Threads + Wait + Sync + AllocGlobal>(
    rt: &R,
    case: &str,
    input: &[u8],
) -> Option<bool> {
    let words = words_in(rt.alloc(), &["check", words_of(case, "options")])?;
    let output = written(rt, words, input)?;
    let (_, answers) = std::str::from_utf8(&output)
        .ok()?
        .split_once("\nhandlers ")?;
    Some(answers.trim() == words_of(case, "handlers"))
}

// Whether the command of a case prints this over the recording of its run.
fn prints_of_run<R: Threads + Wait + Sync + AllocGlobal>(
    rt: &R,
    case: &str,
    input: &[u8],
    output: &[u8],
) -> Option<bool> {
    let recording = written(rt, words_for(rt.alloc(), "record", case, "")?, input)?;
    let words = words_in(rt.alloc(), &[words_of(case, "analysis")])?;
    let printed = written(rt, words, &recording)?;
    Some(printed.as_slice() == output)
}

// Whether the last line of a report says this of the frames.
fn has_frames(report: &[u8], frames: &str) -> Option<bool> {
    let front = report
        .strip_suffix(b"\n".as_slice())?
        .strip_suffix(frames.as_bytes())?;
    Some(frames.is_empty() || front.ends_with(b"\nframes ".as_slice()))
}

// The words of `run` that stand for an analysis: a flag, or the lists of `secrets`; none if there are none.
fn flag_of(analysis: &str) -> &str {
    match analysis {
        "events" => "--events",
        "race" => "--race",
        "profile" => "--profile",
        "uses" => "--uses",
        _ => analysis.strip_prefix("secrets ").unwrap_or(""),
    }
}

// Whether `run` prints this behind its report, whose last line is that of the case, if the analysis of the case has a flag.
fn prints_behind_report<R: Threads + Wait + Sync + AllocGlobal>(
    rt: &R,
    case: &str,
    input: &[u8],
    output: &[u8],
) -> Option<bool> {
    let report = written(rt, words_for(rt.alloc(), "run", case, "")?, input)?;
    if !has_frames(&report, words_of(case, "frames"))? {
        return Some(false);
    }
    let flag = flag_of(words_of(case, "analysis"));
    if flag.is_empty() {
        return Some(true);
    }
    let whole = written(rt, words_for(rt.alloc(), "run", case, flag)?, input)?;
    Some(whole.as_slice().strip_prefix(report.as_slice()) == Some(output))
}

// Whether the command of a case prints the output of the case, and `run` prints it behind its report.
fn is_analysed<R: Threads + Wait + Sync + AllocGlobal>(
    rt: &R,
    case: &str,
    input: &[u8],
) -> Option<bool> {
    let output = lines_of(rt.alloc(), case, "output", "")?;
    Some(
        prints_of_run(rt, case, input, output.as_bytes())?
            && prints_behind_report(rt, case, input, output.as_bytes())?,
    )
}

// Whether `outcomes` prints the lines of a case in their order, between which those of the orders stand.
fn has_outcomes<R: Threads + Wait + Sync + AllocGlobal>(
    rt: &R,
    case: &str,
    input: &[u8],
) -> Option<bool> {
    let words = [
        "outcomes",
        words_of(case, "options"),
        words_of(case, "words"),
    ];
    let output = written(rt, words_in(rt.alloc(), &words)?, input)?;
    let found = lines_of(rt.alloc(), case, "found", "")?;
    Some(has_lines(std::str::from_utf8(&output).ok()?, found.as_str()))
}

// Whether what stands behind a report is the trace of its case, or nothing, or lines that begin as the case says.
fn goes_on(alloc: Global, case: &str, rest: &str, handlers: &str) -> Option<bool> {
    let trace = lines_of(alloc, case, "trace", handlers)?;
    let starts = lines_of(alloc, case, "threads", "")?;
    let is_whole = !has_part(case, "trace") || rest == trace.as_str();
    let is_report = !case.contains("\nschedule") || rest.is_empty();
    Some(is_whole && is_report && has_starts(rest, starts.as_str()))
}

// Whether an output begins with the report of a case, has the lines of the case, and goes on as it says.
fn is_run(alloc: Global, case: &str, output: &str, handlers: &str) -> Option<bool> {
    let report = lines_of(alloc, case, "report", "")?;
    let verdict = lines_of(alloc, case, "verdict", "")?;
    let lines = lines_of(alloc, case, "lines", handlers)?;
    let rest = output
        .strip_prefix(report.as_str())?
        .strip_prefix(verdict.as_str())?;
    Some(has_lines(output, lines.as_str()) && goes_on(alloc, case, rest, handlers)?)
}

// Whether a run writes the report of its case, and behind it a trace, or lines of both, or the beginnings of its next
// lines: as often as the case asks, where its cores run on threads.
fn runs_so<R: Threads + Wait + Sync + AllocGlobal>(
    rt: &R,
    case: &str,
    input: &[u8],
    handlers: &str,
) -> Option<bool> {
    let is_traced = has_part(case, "trace") || has_part(case, "lines");
    let flag = if is_traced { "--trace" } else { "" };
    for _time in 0..number_of(case, "times").unwrap_or(1) {
        let output = written(rt, words_for(rt.alloc(), "run", case, flag)?, input)?;
        let text = std::str::from_utf8(&output).ok()?;
        if !is_run(rt.alloc(), case, text, handlers)? {
            return Some(false);
        }
    }
    Some(true)
}

// Whether the case of an input agrees; none where it could not be asked.
fn is_so<R: Threads + Wait + Sync + AllocGlobal>(
    rt: &R,
    case: &str,
    input: &[u8],
    handlers: &str,
) -> Option<bool> {
    let script = words_of(case, "script");
    let command = words_of(case, "command");
    if !words_of(case, "each").is_empty() {
        fails_in_turn(rt, case, input)
    } else if !words_of(case, "meets").is_empty() {
        both_meet(rt, case, input)
    } else if !words_of(case, "numbers").is_empty() {
        are_generated(rt, case)
    } else if !words_of(case, "code").is_empty() {
        ends_so(rt, case, input)
    } else if !words_of(case, "same").is_empty() {
        is_same(rt, case, input)
    } else if !script.is_empty() {
        prints(rt, case, "replay --lenient", script, input)
    } else if !words_of(case, "answer").is_empty() {
        is_answered(rt, case, input)
    } else if !words_of(case, "cores").is_empty() {
        has_order(rt.alloc(), case)
    } else if !words_of(case, "handlers").is_empty() {
        is_checked(rt, case, input)
    } else if !command.is_empty() {
        prints(rt, case, command, "", input)
    } else if !words_of(case, "analysis").is_empty() {
        is_analysed(rt, case, input)
    } else if has_part(case, "found") {
        has_outcomes(rt, case, input)
    } else {
        runs_so(rt, case, input, handlers)
    }
}

/// Whether a case agrees; none where it could not be asked.
pub fn agrees<R: Files + Threads + Wait + Sync + AllocGlobal>(
    rt: &R,
    case: &str,
    handlers: &str,
) -> Option<bool> {
    let input = input_of(rt, case, handlers)?;
    is_so(rt, case, &input, handlers)
}
