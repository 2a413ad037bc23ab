//! A list of bytes that is read from its front on.
ghost use Rattle.std.specs.Prelude.{◌≡◌, ◌≤◌, ◌++◌, IfOk, length, take, drop, min};

use std::alloc::{AllocError, Global};

/// The bytes that were given, and how many of them were read.
#[derive(Drop)]
pub(crate) struct Unread {
    bytes: Vec<u8>,
    at: usize,
    ghost within: { at ≤ length bytes.items },
}

impl Unread {
    ghost use Rattle.xt_io.specs.Unread.{unread_bytes};

    /// All of the bytes are left. The error is running out of memory.
    pub(crate) fn new(alloc: Global, bytes: &[u8]) -> Result<Unread, AllocError>
        ensures { IfOk result (λ u. unread_bytes u ≡ bytes.now) }
    {
        Ok(Unread {
            bytes: bytes.to_vec(alloc)?,
            at: 0,
        })
    }

    /// Moves the next bytes to the front of `buf`, at most `most`, and answers how many.
    pub(crate) fn hand_over(&mut self, most: usize, buf: &mut [u8]) -> usize
        ensures count { result ≡ min (min (length (unread_bytes self.old)) most) (length buf.new) }
        ensures front { unread_bytes self.old ≡ take result buf.new ++ unread_bytes self.new }
        ensures past { drop result buf.new ≡ drop result buf.old }
    {
        let rest = &self.bytes[self.at..];
        let count = rest.len().min(most).min(buf.len());
        buf[..count].copy_from_slice(&rest[..count]);
        self.at += count;
        count
    }
}
