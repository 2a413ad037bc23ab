//! Asks the program the cases of the files that its words name, and prints the name of each that does not agree, and how
//! many of a file's cases agree.
//!
//! A case is a program or other input with what comes out of it; the head of each file of cases says which parts it has.
//! What comes out was found without this program, by other means.
#![tactic(auto)]

mod asking;
mod cases;
mod devices;
mod forms;
mod gates;
mod inputs;
mod numbers;

use crate::cases::words_of;
use std::process::ExitCode;
use std::rt::{Env, Files};
use std::sync::Wait;
use std::thread::Threads;
use std::{env, fs};

// Asks the cases of a file's text, and prints how many agree; none where that failed.
fn show<R: Files + Print + Threads + Wait + Sync + AllocGlobal>(
    rt: &R,
    name: &str,
    text: &str,
    handlers: &str,
) -> Option<()> {
    let mut count = 0u64;
    let mut good = 0u64;
    for case in text.split("\nend\n") {
        let title = words_of(case, "case");
        if title.is_empty() {
            continue;
        }
        count = count.saturating_add(1);
        if forms::agrees(rt, case, handlers) == Some(true) {
            good = good.saturating_add(1);
        } else {
            println!(rt; "{name}: {title} differs").ok()?;
        }
    }
    println!(rt; "{name}: {good} of {count} cases agree").ok()
}

// Asks the cases of a file.
fn show_file<R: Files + Print + Threads + Wait + Sync + AllocGlobal>(
    rt: &R,
    name: &str,
    handlers: &str,
) -> Option<()> {
    let text = fs::read_to_string(rt, name).ok()?;
    show(rt, name, text.as_str(), handlers)
}

// Asks the cases of all files that the words name.
fn show_all<R: Env + Files + Print + Threads + Wait + Sync + AllocGlobal>(rt: &R) -> Option<()> {
    let handlers = fs::read_to_string(rt, "handlers.s").ok()?;
    for name in env::args(rt).ok()?.skip(1) {
        show_file(rt, name.as_str(), handlers.as_str())?;
    }
    Some(())
}

fn main(rt: HostRuntime) -> ExitCode {
    match show_all(&rt) {
        Some(()) => ExitCode::from(0),
        None => ExitCode::from(9),
    }
}
