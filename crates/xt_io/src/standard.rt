//! A source and a sink over the readers and the writers of std.
//!
//! They are the edge to the world: which bytes the reader of std gives and the writer of std
//! takes is told only as far as these tell it, and standard input and output tell nothing.
ghost use Rattle.std.specs.Prelude.{◌≡◌, is_err, IfErr};
ghost use Rattle.std.specs.Io.{ReadsAtMost, WritesAtMost};
ghost use Rattle.std.specs.Io.KnownBytes.{ReadConsumes, WriteAppends};
ghost use Rattle.xt_io.specs.Causes.{HasCause, HasWriteCause, count_after};

use crate::{Failed, Refused, Sink, Source};
use std::io::{Read, Write};

/// A reader of std, with a count of its errors, which stops at `u64::MAX`.
#[derive(Drop)]
pub struct StdSource<R> {
    inner: R,
    faults: u64,
}

impl<R> StdSource<R> {
    ghost use Rattle.xt_io.specs.Standard.{reader_of, read_errors_of};

    /// A source of what `inner` gives, with no error yet.
    pub fn new(inner: R) -> StdSource<R>
        ensures reader { reader_of result ≡ inner }
        ensures faults { read_errors_of result ≡ 0 }
    {
        StdSource { inner, faults: 0 }
    }
}

impl<R: Read> Source for StdSource<R> {
    ghost use Rattle.xt_io.specs.Standard.{reader_of, read_errors_of};

    ghost left = { λ s. R.remaining (reader_of s) };

    ghost faults = { read_errors_of };

    /// Reads once from the reader of std. Each of its errors is a fault and is counted.
    fn read(&mut self, buf: &mut [u8]) -> Result<usize, Failed>
        ensures bound { ReadsAtMost result buf.new }
        ensures bytes { ReadConsumes (R.remaining (reader_of self.old))
            (R.remaining (reader_of self.new)) result buf.new }
        ensures cause { HasCause (read_errors_of self.old) (read_errors_of self.new) result }
        ensures counts { read_errors_of self.new
            ≡ count_after (read_errors_of self.old) (is_err result) }
    {
        let read = self.inner.read(buf);
        if read.is_err() {
            self.faults = self.faults.saturating_add(1);
        }
        read.map_err(|_| Failed)
    }
}

/// A writer of std, with a count of its errors and of its writes that took no byte of a piece
/// that has some, which stops at `u64::MAX`.
#[derive(Drop)]
pub struct StdSink<W> {
    inner: W,
    faults: u64,
}

impl<W> StdSink<W> {
    ghost use Rattle.xt_io.specs.Standard.{writer_of, write_errors_of};

    /// A sink into `inner`, with no error yet.
    pub fn new(inner: W) -> StdSink<W>
        ensures writer { writer_of result ≡ inner }
        ensures faults { write_errors_of result ≡ 0 }
    {
        StdSink { inner, faults: 0 }
    }
}

impl<W: Write> Sink for StdSink<W> {
    ghost use Rattle.xt_io.specs.Standard.{writer_of, write_errors_of, is_write_fault};

    ghost told = { λ s. W.contents (writer_of s) };

    ghost faults = { write_errors_of };

    /// Writes once to the writer of std. Each of its errors is a fault and is counted, and so is
    /// a write that took no byte of a piece that has some. It never answers `Memory`.
    fn write(&mut self, buf: &[u8]) -> Result<usize, Refused>
        ensures bound { WritesAtMost result buf.now }
        ensures bytes { WriteAppends (W.contents (writer_of self.old))
            (W.contents (writer_of self.new)) result buf.now }
        ensures cause { HasWriteCause (write_errors_of self.old) (write_errors_of self.new)
            result buf.now }
        ensures counts { write_errors_of self.new
            ≡ count_after (write_errors_of self.old) (is_write_fault result buf.now) }
        ensures refused { IfErr result (λ e. e ≡ Refused.Failed) }
    {
        let written = self.inner.write(buf);
        let is_fault = match &written {
            Ok(count) => *count == 0 && !buf.is_empty(),
            Err(_) => true,
        };
        if is_fault {
            self.faults = self.faults.saturating_add(1);
        }
        written.map_err(|_| Refused::Failed)
    }
}
