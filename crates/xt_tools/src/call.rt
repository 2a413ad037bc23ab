//! A session over a recording.
ghost use Rattle.xt_tools.specs.Calls.{Sessions};
ghost use Rattle.xt_report.specs.Calls.{ends};

use crate::answering::answer_lines;
use crate::opening::read_opening;
use std::alloc::Global;
use xt_command_line::Beyond;
use xt_debug::Debugger;
use xt_image::well_formed_is_placed;
use xt_io::{Sink, Source};
use xt_report::{Status, recording_in};

/// Answers scripts over one recording: the source has a line with the number of bytes of the recording, the recording,
/// and then lines, each a script.
///
/// Each line is answered, before a byte behind it is read, by what its script prints that begins at position 0, and a line
/// `.`; a line that is no script by the lines `Usage 9` and `.`. What stands behind the last newline is no line. A script
/// that leads beyond the run does not end the session.
///
/// `Done` says that the source was read to its end and each line answered. `Recording` says that the whole input has no
/// such recording, and that nothing was written; so does `TooLarge` of `RECORDING_LIMIT`, which the number is above.
/// `TooLarge` of `LINES_LIMIT` says that the lines have more bytes, and `ReadFault` that the source counted a fault; the
/// lines before that are answered. `WriteFault` says that the sink counted a fault, `Memory` that memory ran out, and a
/// prefix of the answers was then written.
pub fn session<S: Source, K: Sink>(
    alloc: Global,
    beyond: Beyond,
    source: &mut S,
    sink: &mut K,
) -> Status
    ensures { Sessions beyond
        (ends S.left S.faults source.old source.new K.told K.faults sink.old sink.new) result }
{
    let recording = match read_opening(alloc, source) {
        Ok(recording) => recording,
        Err(status) => return status,
    };
    let (image, run) = match recording_in(alloc, &recording) {
        Ok(read) => read,
        Err(status) => return status,
    };
    well_formed_is_placed();
    let Ok(mut debugger) = Debugger::make(alloc, &image, &run) else {
        return Status::Memory;
    };
    answer_lines(alloc, beyond, &mut debugger, source, sink)
}
