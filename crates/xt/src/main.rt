//! The program `xt`: the top call of `xt_cli` over standard input, standard output and an open gate.
#![tactic(auto)]

use std::io;
use std::process::ExitCode;
use xt_cli::{End, program_words, xt_program};
use xt_io::{OpenGate, StdSink, StdSource};

// Prints the line of an end to standard error. Where standard error takes nothing, the exit code alone
// tells the status.
fn tell(rt: &(impl Eprint + AllocGlobal), end: &End) {
    if let Ok(Some(line)) = &end.line {
        if let Ok(text) = std::str::from_utf8(line.as_slice()) {
            let _ = eprint!(rt; "{text}");
        }
    }
}

fn main(rt: HostRuntime) -> ExitCode {
    let mut source = StdSource::new(rt.reader());
    let mut sink = StdSink::new(io::writer(&rt));
    let words = program_words(&rt);
    let end = xt_program(&rt, rt.alloc(), &words, &mut source, &mut sink, &OpenGate);
    tell(&rt, &end);
    ExitCode::from(end.code)
}
