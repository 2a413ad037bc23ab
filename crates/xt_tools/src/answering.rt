//! The answers to the lines of a session.
ghost use Rattle.std.specs.Prelude.{◌≡◌, ◌≤◌, All, IfOk, IfErr, IfSome};
ghost use Rattle.xt_debug.specs.Grammar.{IsInRange};
ghost use Rattle.xt_tools.specs.Reads.{EndsLines, status_of};
ghost use Rattle.xt_tools.specs.Session.{answer, printed, script_in};
ghost use Rattle.xt_report.specs.Calls.{ends};
ghost use Rattle.xt_report.specs.Writes.{Writes};

use crate::lines::{LINES_LIMIT, read_line};
use std::alloc::Global;
use std::str;
use xt_command_line::Beyond;
use xt_debug::{Debugger, Script, ScriptFault, parse_script};
use xt_io::{ReadError, Refused, Sink, Source};
use xt_map::Text;
use xt_report::{Status, status_after, write_text};

// The script that a line is, None if it is none. The only error is running out of memory.
#[tactic(auto, unfolding(crate::specs::Session::script_in))]
fn script_in(alloc: Global, line: &[u8]) -> Result<Option<Script>, Refused>
    ensures means { IfOk result (λ script. script ≡ script_in line.now) }
    ensures range { IfOk result (λ script. IfSome script (All IsInRange)) }
    ensures memory { IfErr result (λ e. e ≡ Refused.Memory) }
{
    let Ok(text) = str::from_utf8(line) else {
        return Ok(None);
    };
    match parse_script(alloc, text) {
        Ok(script) => Ok(Some(script)),
        Err(ScriptFault::Bad) => Ok(None),
        Err(ScriptFault::Memory) => Err(Refused::Memory),
    }
}

// What a line prints whose script begins at position 0. The only error is running out of memory.
fn printed(
    alloc: Global,
    debugger: &mut Debugger,
    beyond: Beyond,
    script: &Option<Script>,
) -> Result<Vec<u8>, Refused>
    requires { IfSome script.now (All IsInRange) }
    ensures text { IfOk result (λ v. v.items ≡ printed beyond debugger.old.image debugger.old.run script.now) }
    ensures run { IfOk result (λ v. (debugger.new.image ≡ debugger.old.image) × (debugger.new.run ≡ debugger.old.run)) }
    ensures memory { IfErr result (λ e. e ≡ Refused.Memory) }
{
    let Some(script) = script else {
        return Ok(b"Usage 9\n".to_vec(alloc)?);
    };
    let _ = debugger.seek(0);
    let printed = debugger.run(alloc, script, beyond)?;
    Ok(printed.text.into_vec())
}

// The answer to a line. The only error is running out of memory.
#[tactic(auto, unfolding(crate::specs::Session::answer))]
fn answer(
    alloc: Global,
    debugger: &mut Debugger,
    beyond: Beyond,
    line: &[u8],
) -> Result<Text, Refused>
    ensures text { IfOk result (λ text. text ≡ answer beyond debugger.old.image debugger.old.run line.now) }
    ensures run { IfOk result (λ text. (debugger.new.image ≡ debugger.old.image) × (debugger.new.run ≡ debugger.old.run)) }
    ensures memory { IfErr result (λ e. e ≡ Refused.Memory) }
{
    let script = script_in(alloc, line)?;
    let mut text = printed(alloc, debugger, beyond, &script)?;
    text.extend_from_slice(b".\n")?;
    Ok(Text::new(text))
}

// Writes the answer to a line.
fn put_answer<K: Sink>(
    alloc: Global,
    debugger: &mut Debugger,
    beyond: Beyond,
    line: &[u8],
    sink: &mut K,
) -> Result<(), Refused>
    ensures writes { Writes result
        (K.told sink.old) (K.told sink.new) (K.faults sink.old) (K.faults sink.new)
        (answer beyond debugger.old.image debugger.old.run line.now) }
    ensures run { IfOk result (λ _. (debugger.new.image ≡ debugger.old.image) × (debugger.new.run ≡ debugger.old.run)) }
{
    let text = answer(alloc, debugger, beyond, line)?;
    write_text(&text, sink)
}

// The status of a read that failed.
pub(crate) fn status_of(error: ReadError) -> Status
    ensures { result ≡ status_of error }
{
    match error {
        ReadError::Fault => Status::ReadFault,
        ReadError::TooLarge => Status::TooLarge(LINES_LIMIT),
        ReadError::Memory => Status::Memory,
    }
}

// Answers each line that a source has left, before it reads the next one.
pub(crate) fn answer_lines<S: Source, K: Sink>(
    alloc: Global,
    beyond: Beyond,
    debugger: &mut Debugger,
    source: &mut S,
    sink: &mut K,
) -> Status
    ensures answers { EndsLines beyond debugger.old.image debugger.old.run
        (ends S.left S.faults source.old source.new K.told K.faults sink.old sink.new) result }
    ensures later { S.faults source.old ≤ S.faults source.new }
{
    let mut spare = LINES_LIMIT;
    loop {
        let line = match read_line(alloc, source, &mut spare) {
            Ok(Some(line)) => line,
            Ok(None) => return Status::Done,
            Err(error) => return status_of(error),
        };
        let written = put_answer(alloc, debugger, beyond, line.as_slice(), sink);
        if written.is_err() {
            return status_after(written);
        }
    }
}
