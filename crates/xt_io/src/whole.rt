//! Reading to the end of a source, and writing a whole list of bytes.
ghost use Rattle.std.specs.Prelude.{◌≡◌, ◌≢◌, ◌≤◌, ◌<◌, ◌+◌, ◌-◌, ◌^◌, length, IfOk, IfErr, OnOk, OnErr, IsErrOf};
ghost use Rattle.std.specs.Io.KnownBytes.{Appends, Consumes, IsAtEnd};
ghost use Rattle.xt_io.specs.Causes.{Rose};
ghost use Rattle.xt_io.specs.Whole.{Takes, AppendsPrefix};

use crate::{Failed, Refused, Sink, Source};
use std::alloc::{AllocError, Global};

/// Why a source was not read to its end.
#[derive(Clone, Copy)]
pub enum ReadError {
    /// The source failed, and counted that.
    Fault,
    /// The byte after the limit was read.
    TooLarge,
    /// There was no memory to keep the bytes.
    Memory,
}

impl From<Failed> for ReadError {
    ghost use Rattle.xt_io.specs.declared.whole.ReadError.TheVariants.{Fault};

    ghost from_gives = { λ _ e. e ≡ Fault };

    fn from(_: Failed) -> ReadError {
        ReadError::Fault
    }
}

impl From<AllocError> for ReadError {
    ghost use Rattle.xt_io.specs.declared.whole.ReadError.TheVariants.{Memory};

    ghost from_gives = { λ _ e. e ≡ Memory };

    fn from(_: AllocError) -> ReadError {
        ReadError::Memory
    }
}

// How many bytes are asked for at a time.
const PIECE: usize = 4096;

/// Reads all that a source has left, where that is at most `limit` bytes, less than `u64::MAX`.
///
/// `TooLarge` comes exactly where the byte after the limit was read, and no later byte was then
/// taken. `Fault` comes only where the source counted a fault in this call. `Memory` says that
/// memory ran out, and can come at any length.
pub fn read_to_limit<S: Source>(
    alloc: Global,
    source: &mut S,
    limit: usize,
) -> Result<Vec<u8>, ReadError>
    requires { limit < 2 ^ 64 - 1 }

    // What is read is all that was left, and within the limit.
    ensures whole { IfOk result (λ v. Consumes (S.left source.old) (S.left source.new) v.items) }
    ensures end { OnOk result (IsAtEnd (S.left source.new)) }
    ensures within { IfOk result (λ v. length v.items ≤ limit) }

    // `TooLarge` comes exactly where the byte after the limit was read.
    ensures too_large { IsErrOf result ReadError.TooLarge
        → Takes (S.left source.old) (S.left source.new) (λ n. n ≡ limit + 1) }
    ensures else_within { IfErr result (λ e. e ≢ ReadError.TooLarge
        → Takes (S.left source.old) (S.left source.new) (λ n. n ≤ limit)) }

    // The count of faults has not fallen, and has risen where the source is blamed.
    ensures later { S.faults source.old ≤ S.faults source.new }
    ensures fault { IsErrOf result ReadError.Fault
        → Rose (S.faults source.old) (S.faults source.new) }
{
    let mut taken = Vec::new(alloc);
    let mut piece = [0u8; PIECE];
    loop {
        let spare = limit - taken.len();
        let room = PIECE.min(spare + 1);
        let count = source.read(&mut piece[..room])?;
        if count == 0 {
            return Ok(taken);
        }
        if spare < count {
            return Err(ReadError::TooLarge);
        }
        taken.extend_from_slice(&piece[..count])?;
    }
}

/// Writes all of `bytes` to a sink, in as many calls as it takes.
///
/// After a refusal a prefix of `bytes` was written. `Failed` comes only where the sink counted a
/// fault in this call, which it also does where it takes no byte. `Memory` is the sink's.
pub fn write_all<K: Sink>(sink: &mut K, bytes: &[u8]) -> Result<(), Refused>
    ensures ok { OnOk result (Appends (K.told sink.old) (K.told sink.new) bytes.now) }
    ensures err { OnErr result (AppendsPrefix (K.told sink.old) (K.told sink.new) bytes.now) }

    // The count of faults has not fallen, and has risen where the sink is blamed.
    ensures later { K.faults sink.old ≤ K.faults sink.new }
    ensures fault { IsErrOf result Refused.Failed
        → Rose (K.faults sink.old) (K.faults sink.new) }
{
    let mut rest = bytes;
    while !rest.is_empty() {
        let count = sink.write(rest)?;
        if count == 0 {
            return Err(Refused::Failed);
        }
        rest = &rest[count..];
    }
    Ok(())
}
