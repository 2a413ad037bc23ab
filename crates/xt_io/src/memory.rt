//! A source and a sink in memory that fail when they are told to.
ghost use Rattle.std.specs.Prelude.{◌≡◌, ◌≤◌, ◌↔◌, [], Some, IfOk, OnErr, IsErr, IsTrue, length, drop, min};
ghost use Rattle.std.specs.Io.{ReadsAtMost, WritesAtMost};
ghost use Rattle.std.specs.Io.KnownBytes.{ReadConsumes, WriteAppends};
ghost use Rattle.xt_io.specs.Calls.{fails_next, most_of, IsUnused, CountsCall};
ghost use Rattle.xt_io.specs.Causes.{HasCause, HasWriteCause};

use crate::calls::Calls;
use crate::unread::Unread;
use crate::{Failed, Refused, Sink, Source};
use std::alloc::{AllocError, Global};

/// A source over a list of bytes. It hands over a bounded number of bytes at each call, and
/// fails at the calls whose numbers it was given.
#[derive(Drop)]
pub struct MemSource {
    bytes: Unread,
    calls: Calls,
}

impl MemSource {
    ghost use Rattle.xt_io.specs.Memory.{left_of, calls_of};

    /// A source of `bytes`, of which one call hands over at most `most`, at least 1. The calls
    /// whose numbers, from 0, stand in `fails` fail. The error is running out of memory.
    pub fn make(
        alloc: Global,
        bytes: &[u8],
        most: usize,
        fails: &[u64],
    ) -> Result<MemSource, AllocError>
        requires { 1 ≤ most }
        ensures left { IfOk result (λ s. left_of s ≡ bytes.now) }
        ensures calls { IfOk result (λ s. IsUnused most fails.now (calls_of s)) }
    {
        Ok(MemSource {
            bytes: Unread::new(alloc, bytes)?,
            calls: Calls::new(alloc, most, fails)?,
        })
    }
}

impl Source for MemSource {
    ghost use Rattle.xt_io.specs.Memory.{left_of, calls_of, read_faults_of};

    ghost left = { λ s. Some (left_of s) };

    ghost faults = { read_faults_of };

    /// Fails exactly at a call that is to fail, and hands over as many bytes as are left, as
    /// one call moves and as `buf` has room for at any other.
    fn read(&mut self, buf: &mut [u8]) -> Result<usize, Failed>
        ensures bound { ReadsAtMost result buf.new }
        ensures bytes { ReadConsumes (Some (left_of self.old)) (Some (left_of self.new))
            result buf.new }
        ensures cause { HasCause (read_faults_of self.old) (read_faults_of self.new) result }

        ensures failed { IsErr result ↔ IsTrue (fails_next (calls_of self.old)) }
        ensures count { let most = most_of (calls_of self.old) in
            IfOk result (λ n. n ≡ min (min (length (left_of self.old)) most) (length buf.new)) }
        ensures past { IfOk result (λ n. drop n buf.new ≡ drop n buf.old) }
        ensures untouched { OnErr result (buf.new ≡ buf.old) }
        ensures calls { CountsCall (calls_of self.old) (calls_of self.new) }
    {
        if self.calls.next_fails() {
            return Err(Failed);
        }
        Ok(self.bytes.hand_over(self.calls.most, buf))
    }
}

/// A sink that keeps what is written. It takes a bounded number of bytes at each call, and fails
/// at the calls whose numbers it was given.
#[derive(Drop)]
pub struct MemSink {
    bytes: Vec<u8>,
    calls: Calls,
}

impl MemSink {
    ghost use Rattle.xt_io.specs.Memory.{written_to, sink_calls_of};

    /// An empty sink, of which one call takes at most `most` bytes, at least 1. The calls whose
    /// numbers, from 0, stand in `fails` fail. The error is running out of memory.
    pub fn make(alloc: Global, most: usize, fails: &[u64]) -> Result<MemSink, AllocError>
        requires { 1 ≤ most }
        ensures told { IfOk result (λ s. written_to s ≡ []) }
        ensures calls { IfOk result (λ s. IsUnused most fails.now (sink_calls_of s)) }
    {
        Ok(MemSink {
            bytes: Vec::new(alloc),
            calls: Calls::new(alloc, most, fails)?,
        })
    }

    /// What was written.
    pub fn bytes(&self) -> &[u8]
        ensures { result.now ≡ written_to self.now }
    {
        &self.bytes
    }
}

impl Sink for MemSink {
    ghost use Rattle.xt_io.specs.Memory.{written_to, sink_calls_of, write_faults_of};

    ghost told = { λ s. Some (written_to s) };

    ghost faults = { write_faults_of };

    /// Fails exactly at a call that is to fail. At any other it takes as many bytes as `buf` has
    /// and as one call moves, or finds no memory for them.
    fn write(&mut self, buf: &[u8]) -> Result<usize, Refused>
        ensures bound { WritesAtMost result buf.now }
        ensures bytes { WriteAppends (Some (written_to self.old)) (Some (written_to self.new))
            result buf.now }
        ensures cause { HasWriteCause (write_faults_of self.old) (write_faults_of self.new)
            result buf.now }

        ensures failed { (result ≡ Err Refused.Failed)
            ↔ IsTrue (fails_next (sink_calls_of self.old)) }
        ensures count { let most = most_of (sink_calls_of self.old) in
            IfOk result (λ n. n ≡ min (length buf.now) most) }
        ensures calls { CountsCall (sink_calls_of self.old) (sink_calls_of self.new) }
    {
        if self.calls.next_fails() {
            return Err(Refused::Failed);
        }
        let count = buf.len().min(self.calls.most);
        self.bytes.extend_from_slice(&buf[..count])?;
        Ok(count)
    }
}
