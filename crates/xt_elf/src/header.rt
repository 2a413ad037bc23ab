//! The program headers of a file.
ghost use Rattle.std.specs.Prelude.{◌≡◌, ◌≤◌, ◌<◌, ◌+◌, ◌*◌, length, IfOk};
ghost use Rattle.xt_elf.specs.Headers.{header_at, header_count, headers_of, headers_place, is_loaded_header};
ghost use Rattle.xt_elf.specs.Rules.{headers_end, padded_end, padding};

use std::alloc::{AllocError, Global};
use xt_image::{half, word};

/// A program header: where bytes stand in the file, and where they go in memory.
#[derive(Drop)]
pub(crate) struct Header {
    /// Bytes 0 to 3: the type, 1 for what is loaded.
    pub kind: u32,
    /// Bytes 4 to 7: where the bytes begin in the file.
    pub offset: u32,
    /// Bytes 8 to 11: the virtual address of the first.
    pub addr: u32,
    /// Bytes 16 to 19: how many stand in the file.
    pub file_size: u32,
    /// Bytes 20 to 23: how many bytes of memory there are.
    pub memory_size: u32,
}

fn header_at(bytes: &[u8], place: usize) -> Header
    requires { place + 32 ≤ length bytes.now }
    ensures { result ≡ header_at bytes.now place }
{
    Header {
        kind: word(bytes, place),
        offset: word(bytes, place + 4),
        addr: word(bytes, place + 8),
        file_size: word(bytes, place + 16),
        memory_size: word(bytes, place + 20),
    }
}

/// The program headers of a file in which they stand whole.
pub(crate) fn headers_of(alloc: Global, bytes: &[u8]) -> Result<Vec<Header>, AllocError>
    requires long { 52 ≤ length bytes.now }
    requires whole { 0 < header_count bytes.now → headers_end bytes.now ≤ length bytes.now }
    ensures { IfOk result (λ headers. headers.items ≡ headers_of bytes.now) }
{
    let mut headers = Vec::new(alloc);
    let mut place = word(bytes, 28) as usize;
    for _ in 0..half(bytes, 44) {
        headers.push(header_at(bytes, place))?;
        place += 32;
    }
    Ok(headers)
}

/// Whether a header is of type 1 and has bytes in the file.
pub(crate) fn is_loaded(header: &Header) -> bool
    ensures { result ≡ is_loaded_header header.now }
{
    header.kind == 1 && header.file_size > 0
}

/// How many bytes are missing to a multiple of 4.
pub(crate) fn padding(size: u32) -> usize
    ensures { result ≡ padding size }
{
    ((4 - size % 4) % 4) as usize
}

/// The address after the last byte of a header, padding included.
pub(crate) fn padded_end(header: &Header) -> u64
    ensures { result ≡ padded_end header.now }
{
    header.addr as u64 + (header.file_size as u64 + padding(header.file_size) as u64)
}
