//! The changed bytes of a memory.
ghost use Rattle.std.specs.Prelude.{◌≡◌, ◌+◌, ◌≤◌, ◌<◌, ◌^◌, true, IfOk, OnOk, [], ◌++◌, ◌∷◌};
ghost use Rattle.xt_map.specs.declared.contents.MemoryContents.{MemoryContents};
ghost use Rattle.xt_map.specs.Memory.{HasSizes, byte_at, with_byte, with_bytes, low_bytes};
ghost use Rattle.xt_map.specs.Regions.{is_mapped, is_size, is_uart};
ghost use Rattle.xt_map.specs.Serving.{contents_after, memory_past, number_at, access_reply, reply_to, with_sent};
ghost use Rattle.xt_search.specs.Changed.{IsLean, contents_of, digest_of};

use crate::places::{are_same, byte_of, put, take};
use std::alloc::{AllocError, Global};
use std::marker::Model;
use xt_bus::Memory;
use xt_map::{Access, Kind, UART_STATUS, UART_TRANSMIT, is_in_memory};

/// A byte at an address.
#[derive(Clone, Copy)]
pub struct Change {
    pub addr: u32,
    pub byte: u8,
}

/// What a memory holds, as the bytes that differ from those that it opened with, in rising order of
/// their addresses, and the bytes that UART0 has sent. Contracts see both lists.
pub struct Changes {
    bytes: Vec<Change>,
    sent: Vec<u8>,
}

// A `drop` of its own is one call at each place where a value is dropped.
impl Drop for Changes {
    fn drop(self) {
        let Changes { bytes: _, sent: _ } = self;
    }
}

impl Model for Changes {
    ghost use Rattle.xt_search.specs.Changed.{ChangesState, IsRising};

    ghost Value = { ChangesState };

    ghost view = { λ c. record { bytes = c.bytes.items; sent = c.sent.items } };

    ghost invariant = { λ c. IsRising c.bytes.items };
}

impl Changes {
    /// No byte was put, and none was sent.
    pub fn new(alloc: Global) -> Changes
        ensures { result ≡ record { bytes = []; sent = [] } }
    {
        Changes {
            bytes: Vec::new(alloc),
            sent: Vec::new(alloc),
        }
    }

    /// The byte at an address, where memory opened so.
    pub fn byte(&self, opening: &Memory, addr: u32) -> u8
        requires { HasSizes opening.now.contents }
        ensures { result ≡ byte_at (contents_of opening.now.contents self.now) addr }
    {
        if !is_in_memory(addr) {
            return 0;
        }
        byte_of(self.bytes.as_slice(), addr, opening.byte(addr))
    }

    /// The bytes that were sent.
    pub fn sent(&self) -> &[u8]
        ensures { result.now ≡ self.now.sent }
    {
        self.sent.as_slice()
    }

    // Puts a byte at an address. The only error is running out of memory; it changes nothing.
    fn put_byte(&mut self, opening: &Memory, addr: u32, byte: u8) -> Result<(), AllocError>
        requires { HasSizes opening.now.contents }
        ensures state { OnOk result (contents_of opening.now.contents self.new ≡ with_byte (contents_of opening.now.contents self.old) addr byte) }
        ensures lean { OnOk result (IsLean opening.now.contents self.old → IsLean opening.now.contents self.new) }
    {
        if !is_in_memory(addr) {
            return Ok(());
        }
        if opening.byte(addr) == byte {
            take(&mut self.bytes, addr);
            return Ok(());
        }
        put(&mut self.bytes, Change { addr, byte })
    }

    /// The little-endian number in the 1, 2 or 4 bytes from an address on.
    ///
    /// Conditions: the size is one of these, and the address lies at least 4 below 2^32.
    pub fn number(&self, opening: &Memory, addr: u32, size: u8) -> u32
        requires sizes { HasSizes opening.now.contents }
        requires size { is_size size ≡ true }
        requires low { addr + 4 ≤ 2 ^ 32 }
        ensures { result ≡ number_at (contents_of opening.now.contents self.now) addr size }
    {
        let first = self.byte(opening, addr) as u32;
        if size == 1 {
            return first;
        }
        let second = addr + 1;
        let half = first + 256 * (self.byte(opening, second) as u32);
        if size == 2 {
            return half;
        }
        let third = second + 1;
        let fourth = third + 1;
        half + 65536
            * (self.byte(opening, third) as u32 + 256 * (self.byte(opening, fourth) as u32))
    }

    // Puts the low 1, 2 or 4 bytes of a number from an address on, least byte first. The only error is
    // running out of memory.
    fn put_number(
        &mut self,
        opening: &Memory,
        addr: u32,
        size: u8,
        value: u32,
    ) -> Result<(), AllocError>
        requires sizes { HasSizes opening.now.contents }
        requires size { is_size size ≡ true }
        requires low { addr + 4 ≤ 2 ^ 32 }
        ensures state { OnOk result (contents_of opening.now.contents self.new ≡ with_bytes (contents_of opening.now.contents self.old) addr (low_bytes size value)) }
        ensures lean { OnOk result (IsLean opening.now.contents self.old → IsLean opening.now.contents self.new) }
    {
        self.put_byte(opening, addr, (value % 256) as u8)?;
        if size == 1 {
            return Ok(());
        }
        let second = addr + 1;
        let rest = value / 256;
        self.put_byte(opening, second, (rest % 256) as u8)?;
        if size == 2 {
            return Ok(());
        }
        let third = second + 1;
        let fourth = third + 1;
        let rest = rest / 256;
        self.put_byte(opening, third, (rest % 256) as u8)?;
        let rest = rest / 256;
        self.put_byte(opening, fourth, (rest % 256) as u8)
    }

    // Sends the low byte of a store. The only error is running out of memory.
    fn transmit(&mut self, kind: Kind) -> Result<(), AllocError>
        ensures state { OnOk result ((m : MemoryContents) → contents_of m self.new ≡ with_sent (contents_of m self.old) kind) }
        ensures bytes { OnOk result (self.new.bytes ≡ self.old.bytes) }
    {
        if let Kind::Store(value) = kind {
            self.sent.push((value % 256) as u8)?;
        }
        Ok(())
    }

    // An access to one of the two addresses of UART0. The only error is running out of memory.
    #[tactic(auto, unfolding(xt_map::specs::Serving::reply_to, xt_map::specs::Serving::memory_past))]
    fn serve_uart(&mut self, access: Access) -> Result<u32, AllocError>
        requires { is_uart access.addr ≡ true }
        ensures reply { IfOk result (λ r. (m : MemoryContents) → r ≡ reply_to m access) }
        ensures state { OnOk result ((m : MemoryContents) → contents_of m self.new ≡ memory_past (contents_of m self.old) access) }
        ensures bytes { OnOk result (self.new.bytes ≡ self.old.bytes) }
    {
        if access.addr == UART_TRANSMIT {
            self.transmit(access.kind)?;
        }
        Ok(0)
    }

    // An access to memory. The only error is running out of memory.
    fn act(&mut self, opening: &Memory, access: Access) -> Result<u32, AllocError>
        requires sizes { HasSizes opening.now.contents }
        requires size { is_size access.size ≡ true }
        requires low { access.addr + 4 ≤ 2 ^ 32 }
        ensures reply { IfOk result (λ r. r ≡ access_reply access.kind (number_at (contents_of opening.now.contents self.old) access.addr access.size)) }
        ensures state { OnOk result (contents_of opening.now.contents self.new ≡ contents_after (contents_of opening.now.contents self.old) access.addr access.size access.kind) }
        ensures lean { OnOk result (IsLean opening.now.contents self.old → IsLean opening.now.contents self.new) }
    {
        match access.kind {
            Kind::Load => Ok(self.number(opening, access.addr, access.size)),
            Kind::Store(value) => {
                self.put_number(opening, access.addr, access.size, value)?;
                Ok(0)
            }
            Kind::Cas(expected, new) => {
                let found = self.number(opening, access.addr, access.size);
                if found == expected {
                    self.put_number(opening, access.addr, access.size, new)?;
                }
                Ok(found)
            }
        }
    }

    /// The reply that an access would get.
    #[tactic(auto, unfolding(xt_map::specs::Serving::reply_to))]
    pub fn reply(&self, opening: &Memory, access: Access) -> u32
        requires sizes { HasSizes opening.now.contents }
        requires access { is_mapped access ≡ true }
        ensures { result ≡ reply_to (contents_of opening.now.contents self.now) access }
    {
        if access.addr == UART_TRANSMIT || access.addr == UART_STATUS {
            return 0;
        }
        match access.kind {
            Kind::Store(_) => 0,
            _ => self.number(opening, access.addr, access.size),
        }
    }

    /// Does one access, and answers its reply. The only error is running out of memory; then nothing is
    /// said of what it holds.
    #[tactic(auto, unfolding(xt_map::specs::Serving::reply_to, xt_map::specs::Serving::memory_past))]
    pub fn serve(&mut self, opening: &Memory, access: Access) -> Result<u32, AllocError>
        requires sizes { HasSizes opening.now.contents }
        requires access { is_mapped access ≡ true }
        ensures reply { IfOk result (λ r. r ≡ reply_to (contents_of opening.now.contents self.old) access) }
        ensures state { OnOk result (contents_of opening.now.contents self.new ≡ memory_past (contents_of opening.now.contents self.old) access) }
        ensures lean { OnOk result (IsLean opening.now.contents self.old → IsLean opening.now.contents self.new) }
    {
        if access.addr == UART_TRANSMIT || access.addr == UART_STATUS {
            return self.serve_uart(access);
        }
        self.act(opening, access)
    }

    /// The same changes. The only error is running out of memory.
    pub fn copy(&self, alloc: Global) -> Result<Changes, AllocError>
        ensures { IfOk result (λ c. c ≡ self.now) }
    {
        let mut bytes = Vec::new(alloc);
        bytes.extend_from_slice(self.bytes.as_slice())?;
        let mut sent = Vec::new(alloc);
        sent.extend_from_slice(self.sent.as_slice())?;
        Ok(Changes { bytes, sent })
    }

    /// Whether two memories have the same changes.
    pub fn is_same(&self, other: &Changes) -> bool
        ensures same { result ≡ true → self.now ≡ other.now }
        ensures equal { self.now ≡ other.now → result ≡ true }
    {
        self.sent.as_slice() == other.sent.as_slice()
            && are_same(self.bytes.as_slice(), other.bytes.as_slice())
    }

    /// A number that is the same for the same changes.
    pub fn digest(&self) -> u64
        ensures { result ≡ digest_of self.now }
    {
        let mut digest: u64 = self.sent.len() as u64;
        for change in self.bytes.as_slice() {
            let number = (change.addr as u64) * 256 + (change.byte as u64);
            digest = digest
                .wrapping_mul(0x9E37_79B9_7F4A_7C15)
                .wrapping_add(number);
        }
        digest
    }
}
