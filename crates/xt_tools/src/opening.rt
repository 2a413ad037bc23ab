//! The recording at the head of a session's input.
ghost use Rattle.std.specs.Prelude.{◌≡◌, ◌≤◌, IfErr, IfOk};
ghost use Rattle.xt_tools.specs.Reads.{Misses, Opens};
ghost use Rattle.xt_tools.specs.Session.{number_in};

use crate::answering::status_of;
use crate::lines::{LINES_LIMIT, read_count, read_line};
use std::alloc::Global;
use std::str;
use xt_command_line::number;
use xt_io::Source;
use xt_record::RecordFault;
use xt_report::{RECORDING_LIMIT, Status};

// The number that a line says.
#[tactic(auto, unfolding(crate::specs::Session::number_in))]
fn number_in(line: &[u8]) -> Option<u32>
    ensures { result ≡ number_in line.now }
{
    match str::from_utf8(line) {
        Ok(text) => number(text),
        Err(_) => None,
    }
}

// Reads the first line, and as many bytes as it says.
pub(crate) fn read_opening<S: Source>(alloc: Global, source: &mut S) -> Result<Vec<u8>, Status>
    ensures opens { IfOk result (λ v. Opens (S.left source.old) (S.left source.new) v.items) }
    ensures misses { IfErr result
        (Misses (S.left source.old) (S.left source.new) (S.faults source.old) (S.faults source.new)) }
    ensures later { S.faults source.old ≤ S.faults source.new }
{
    let mut spare = LINES_LIMIT;
    let line = match read_line(alloc, source, &mut spare) {
        Ok(Some(line)) => line,
        Ok(None) => return Err(Status::Recording(RecordFault::Short)),
        Err(error) => return Err(status_of(error)),
    };
    let Some(count) = number_in(line.as_slice()) else {
        return Err(Status::Recording(RecordFault::Short));
    };
    let count = count as usize;
    if RECORDING_LIMIT < count {
        return Err(Status::TooLarge(RECORDING_LIMIT as u32));
    }
    let recording = match read_count(alloc, source, count) {
        Ok(recording) => recording,
        Err(error) => return Err(status_of(error)),
    };
    if recording.len() < count {
        return Err(Status::Recording(RecordFault::Short));
    }
    Ok(recording)
}
