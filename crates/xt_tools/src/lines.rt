//! Reading a source line by line.
ghost use Rattle.std.specs.Prelude.{◌≡◌, ◌≤◌, Ok, Err, IfOk, IfErr, IsErrOf};
ghost use Rattle.xt_io.specs.Causes.{Rose};
ghost use Rattle.xt_tools.specs.Reads.{ReadsCount, ReadsLine};

use std::alloc::Global;
use xt_io::{ReadError, Source};
use xt_map::Text;

/// The most bytes that the lines of a session may have.
pub const LINES_LIMIT: u32 = u32::MAX;

// How many bytes of a recording are asked for at a time.
const PIECE: usize = 4096;

// Reads the next line, and answers it without its newline; None if the source ends before one.
//
// It takes no byte behind the newline. `spare` is the number of bytes that may be taken; `TooLarge` says that one more was
// taken. `Fault` comes only if the source counted a fault in this call, `Memory` says that memory ran out.
pub(crate) fn read_line<S: Source>(
    alloc: Global,
    source: &mut S,
    spare: &mut u32,
) -> Result<Option<Text>, ReadError>
    ensures reads { ReadsLine result (S.left source.old) (S.left source.new) spare.old spare.new }
    ensures later { S.faults source.old ≤ S.faults source.new }
    ensures fault { IsErrOf result ReadError.Fault
        → Rose (S.faults source.old) (S.faults source.new) }
{
    let mut line = Vec::new(alloc);
    let mut byte = [0u8; 1];
    loop {
        let count = source.read(&mut byte)?;
        if count == 0 {
            return Ok(None);
        }
        if *spare == 0 {
            return Err(ReadError::TooLarge);
        }
        *spare -= 1;
        if byte[0] == b'\n' {
            return Ok(Some(Text::new(line)));
        }
        line.extend_from_slice(&byte)?;
    }
}

// Reads so many bytes, or fewer if the source ends before.
//
// `Fault` comes only if the source counted a fault in this call, `Memory` says that memory ran out.
pub(crate) fn read_count<S: Source>(
    alloc: Global,
    source: &mut S,
    count: usize,
) -> Result<Vec<u8>, ReadError>
    ensures read { IfOk result (λ v. ReadsCount (Ok v.items) (S.left source.old) (S.left source.new) count) }
    ensures unread { IfErr result (λ e. ReadsCount (Err e) (S.left source.old) (S.left source.new) count) }
    ensures later { S.faults source.old ≤ S.faults source.new }
    ensures fault { IsErrOf result ReadError.Fault
        → Rose (S.faults source.old) (S.faults source.new) }
{
    let mut bytes = Vec::new(alloc);
    let mut piece = [0u8; PIECE];
    while bytes.len() < count {
        let room = PIECE.min(count - bytes.len());
        let read = source.read(&mut piece[..room])?;
        if read == 0 {
            return Ok(bytes);
        }
        bytes.extend_from_slice(&piece[..read])?;
    }
    Ok(bytes)
}
