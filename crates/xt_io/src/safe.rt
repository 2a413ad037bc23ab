//! A source and a sink in memory that never fail.
ghost use Rattle.std.specs.Prelude.{◌≡◌, [], Some, Ok, IfOk, IfErr, length, drop, min};
ghost use Rattle.std.specs.Io.{ReadsAtMost, WritesAtMost};
ghost use Rattle.std.specs.Io.KnownBytes.{ReadConsumes, WriteAppends};
ghost use Rattle.xt_io.specs.Causes.{HasCause, HasWriteCause};

use crate::unread::Unread;
use crate::{Failed, Refused, Sink, Source};
use std::alloc::{AllocError, Global};

/// A source over a list of bytes that never fails.
#[derive(Drop)]
pub struct SafeSource {
    bytes: Unread,
}

impl SafeSource {
    ghost use Rattle.xt_io.specs.Memory.{safe_left_of};

    /// A source of `bytes`. The error is running out of memory.
    pub fn make(alloc: Global, bytes: &[u8]) -> Result<SafeSource, AllocError>
        ensures { IfOk result (λ s. safe_left_of s ≡ bytes.now) }
    {
        Ok(SafeSource {
            bytes: Unread::new(alloc, bytes)?,
        })
    }
}

impl Source for SafeSource {
    ghost use Rattle.xt_io.specs.Memory.{safe_left_of};

    ghost left = { λ s. Some (safe_left_of s) };

    ghost faults = { λ _. 0 };

    /// Hands over as many bytes as are left and as `buf` has room for.
    fn read(&mut self, buf: &mut [u8]) -> Result<usize, Failed>
        ensures bound { ReadsAtMost result buf.new }
        ensures bytes { ReadConsumes (Some (safe_left_of self.old)) (Some (safe_left_of self.new))
            result buf.new }
        ensures cause { HasCause 0 0 result }

        ensures count { result ≡ Ok (min (length (safe_left_of self.old)) (length buf.new)) }
        ensures past { IfOk result (λ n. drop n buf.new ≡ drop n buf.old) }
    {
        Ok(self.bytes.hand_over(usize::MAX, buf))
    }
}

/// A sink that keeps what is written, and refuses only where memory ran out.
#[derive(Drop)]
pub struct SafeSink {
    bytes: Vec<u8>,
}

impl SafeSink {
    ghost use Rattle.xt_io.specs.Memory.{safely_written_to};

    /// An empty sink. The error is running out of memory.
    pub fn make(alloc: Global) -> Result<SafeSink, AllocError>
        ensures { IfOk result (λ s. safely_written_to s ≡ []) }
    {
        Ok(SafeSink {
            bytes: Vec::new(alloc),
        })
    }

    /// What was written.
    pub fn bytes(&self) -> &[u8]
        ensures { result.now ≡ safely_written_to self.now }
    {
        &self.bytes
    }
}

impl Sink for SafeSink {
    ghost use Rattle.xt_io.specs.Memory.{safely_written_to};

    ghost told = { λ s. Some (safely_written_to s) };

    ghost faults = { λ _. 0 };

    /// Takes all of the bytes, or finds no memory for them.
    fn write(&mut self, buf: &[u8]) -> Result<usize, Refused>
        ensures bound { WritesAtMost result buf.now }
        ensures bytes { WriteAppends (Some (safely_written_to self.old))
            (Some (safely_written_to self.new)) result buf.now }
        ensures cause { HasWriteCause 0 0 result buf.now }

        ensures count { IfOk result (λ n. n ≡ length buf.now) }
        ensures memory { IfErr result (λ e. e ≡ Refused.Memory) }
    {
        self.bytes.extend_from_slice(buf)?;
        Ok(buf.len())
    }
}
