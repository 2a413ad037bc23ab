//! The program, asked over an input in memory.

use crate::cases::{has_part, words_of};
use crate::gates::Meet;
use std::alloc::Global;
use std::sync::Wait;
use std::thread::Threads;
use xt_cli::{End, Status, xt_program};
use xt_io::{MemSink, MemSource};

/// How the program ended: its code, what it wrote, and its line for standard error.
#[derive(Drop)]
pub struct Ended {
    pub code: u8,
    pub output: Vec<u8>,
    pub line: Vec<u8>,
}

// Appends a word.
fn push_word(alloc: Global, words: &mut Vec<String>, word: &str) -> Option<()> {
    words.push(String::from_str(alloc, word).ok()?).ok()
}

// Appends the words of a line, between which blanks stand; `''` is an empty word.
fn push_words(alloc: Global, words: &mut Vec<String>, line: &str) -> Option<()> {
    for word in line.split(' ') {
        if word == "''" {
            push_word(alloc, words, "")?;
        } else if !word.is_empty() {
            push_word(alloc, words, word)?;
        }
    }
    Some(())
}

/// The words of these lines.
pub fn words_in(alloc: Global, lines: &[&str]) -> Option<Vec<String>> {
    let mut words = Vec::new(alloc);
    for line in lines {
        push_words(alloc, &mut words, line)?;
    }
    Some(words)
}

/// The words of a line, and behind them a script between bars, if there is one.
pub fn words_with(alloc: Global, line: &str, script: &str) -> Option<Vec<String>> {
    let mut words = words_in(alloc, &[line])?;
    if let Some(script) = script.strip_prefix("|") {
        push_word(alloc, &mut words, script.strip_suffix("|")?)?;
    }
    Some(words)
}

// Appends the order of a case's list of cores; if it has none, core 0 makes all of its turns first.
fn push_order(alloc: Global, words: &mut Vec<String>, case: &str) -> Option<()> {
    let list = words_of(case, "schedule").replace(alloc, " ", ",").ok()?;
    push_word(alloc, words, "--order")?;
    let cores = if list.is_empty() {
        "0*0"
    } else {
        list.as_str()
    };
    push_word(alloc, words, cores)
}

/// The words of `run` or `record` with the options of a case and these besides. If the options say neither a seed nor an
/// order and the cores do not run on threads, the list of the case is the order.
pub fn words_for(alloc: Global, command: &str, case: &str, more: &str) -> Option<Vec<String>> {
    let options = words_of(case, "options");
    let mut words = words_in(alloc, &[command, options, more])?;
    if !options.contains("--seed") && !options.contains("--order") && !has_part(case, "threads") {
        push_order(alloc, &mut words, case)?;
    }
    Some(words)
}

/// How many bytes a call moves at most, at least 1, and which calls of the source and of the sink fail.
#[derive(Clone, Copy)]
pub struct Devices<'a> {
    pub most: usize,
    pub failing_reads: &'a [u64],
    pub failing_writes: &'a [u64],
}

// The end of the program, which wrote this; none where there is no memory.
fn end_of(alloc: Global, end: &End, output: &[u8]) -> Option<Ended> {
    let line = match &end.line {
        Ok(Some(line)) => line.as_slice(),
        Ok(None) => b"".as_slice(),
        Err(_) => return None,
    };
    Some(Ended {
        code: end.code,
        output: output.to_vec(alloc).ok()?,
        line: line.to_vec(alloc).ok()?,
    })
}

/// Asks the program words, or what came in their place, over an input, these devices and a gate; none where there is no
/// memory. All questions go through here, since each further type of a device or a gate would have the program linked once
/// more.
pub fn asked_over<R: Threads + Wait + Sync + AllocGlobal>(
    rt: &R,
    words: &Result<Vec<String>, Status>,
    input: &[u8],
    devices: &Devices<'_>,
    gate: &Meet,
) -> Option<Ended> {
    let alloc = rt.alloc();
    let most = devices.most;
    if most == 0 {
        return None;
    }
    let mut source = MemSource::make(alloc, input, most, devices.failing_reads).ok()?;
    let mut sink = MemSink::make(alloc, most, devices.failing_writes).ok()?;
    let end = xt_program(rt, alloc, words, &mut source, &mut sink, gate);
    end_of(alloc, &end, sink.bytes())
}

/// Asks the program words, or what came in their place, over an input, of which one call moves all, and a gate.
pub fn asked_at<R: Threads + Wait + Sync + AllocGlobal>(
    rt: &R,
    words: &Result<Vec<String>, Status>,
    input: &[u8],
    gate: &Meet,
) -> Option<Ended> {
    let devices = Devices {
        most: 1_073_741_824,
        failing_reads: &[],
        failing_writes: &[],
    };
    asked_over(rt, words, input, &devices, gate)
}

/// Asks the program words over an input.
pub fn asked<R: Threads + Wait + Sync + AllocGlobal>(
    rt: &R,
    words: Vec<String>,
    input: &[u8],
) -> Option<Ended> {
    asked_at(rt, &Ok(words), input, &Meet::new(0))
}

/// What words write over an input, where all goes well.
pub fn written<R: Threads + Wait + Sync + AllocGlobal>(
    rt: &R,
    words: Vec<String>,
    input: &[u8],
) -> Option<Vec<u8>> {
    let ended = asked(rt, words, input)?;
    if ended.code == 0 {
        Some(ended.output)
    } else {
        None
    }
}
