//! The memory behind the bus.
ghost use Rattle.std.specs.Prelude.{◌≡◌, ◌+◌, ◌<◌, ◌≤◌, true, length, vec_len, IfOk, if◌then◌else◌};
ghost use Rattle.xt_map.specs.Memory.{byte_at, cleared_memory, dram_first, dram_size, is_loaded, low_bytes, opening_memory, rtc_fast_data_first, rtc_fast_data_size, rtc_slow_first, rtc_slow_size, with_byte, with_bytes, with_segments, with_words, zeros};
ghost use Rattle.xt_map.specs.Regions.{is_mapped, is_uart};
ghost use Rattle.xt_map.specs.Serving.{reply_to, with_sent};
ghost use Rattle.xt_bus.specs.Places.{lies_apart};
ghost use Rattle.xt_bus.specs.States.{memory_state, part_bytes, memory_after_access};

use crate::Uart;
use crate::bytes::act;
use crate::places::{Place, place_of};
use std::alloc::{AllocError, Global};
use std::marker::Model;
use xt_map::{Access, Kind, Segment, UART_TRANSMIT};

const RTC_FAST_DATA_SIZE: usize = 8192;

const DRAM_SIZE: usize = 335872;

const RTC_SLOW_SIZE: usize = 8192;

/// The bytes of the three memory regions, and the bytes that UART0 has sent. Contracts see what it
/// holds, and how many bytes it has room to send in all.
pub struct Memory {
    rtc_fast_data: Vec<u8>,
    dram: Vec<u8>,
    rtc_slow: Vec<u8>,
    uart: Uart,
}

// A `drop` of its own is one call at each place where a value is dropped.
impl Drop for Memory {
    fn drop(self) {
        let Memory {
            rtc_fast_data: _,
            dram: _,
            rtc_slow: _,
            uart: _,
        } = self;
    }
}

impl Model for Memory {
    ghost use Rattle.xt_bus.specs.States.{MemoryState};

    ghost Value = { MemoryState };

    ghost use Rattle.xt_bus.specs.Keeps.{state_in, IsSized};

    ghost view = { state_in };

    ghost invariant = { IsSized };
}

// So many zero bytes.
#[tactic(auto, unfolding(xt_map::specs::Memory::zeros))]
fn zeroed(alloc: Global, n: usize) -> Result<Vec<u8>, AllocError>
    ensures items { IfOk result (λ v. v.items ≡ zeros n) }
    ensures len { IfOk result (λ v. vec_len v ≡ n) }
{
    vec![in alloc; 0; n]
}

// The low four bytes of a word, least byte first.
fn bytes_of(word: u32) -> [u8; 4]
    ensures { result ≡ low_bytes 4 word }
{
    let second = word / 256;
    let third = second / 256;
    let fourth = third / 256;
    [
        (word % 256) as u8,
        (second % 256) as u8,
        (third % 256) as u8,
        (fourth % 256) as u8,
    ]
}

// Whether the places of bytes end below the data memory, or lie between its end and the RTC slow
// memory, as those of constant regions do.
fn is_apart(addr: u32, bytes: &[u8]) -> bool
    ensures { result ≡ lies_apart addr (length bytes.now) }
{
    let end = addr as u64 + bytes.len() as u64;
    end <= 0x3FF80000 || (addr >= 0x40000000 && end <= 0x50000000)
}

// Writes a list over one of the same length.
fn copy_bytes(bytes: &mut Vec<u8>, others: &Vec<u8>)
    requires { vec_len bytes.old ≡ vec_len others.now }
    ensures items { bytes.new.items ≡ others.now.items }
    ensures len { vec_len bytes.new ≡ vec_len bytes.old }
{
    bytes.as_mut_slice().copy_from_slice(others.as_slice());
}

impl Memory {
    // Every byte is 0, and nothing was sent.
    #[tactic(auto, unfolding(xt_map::specs::Memory::cleared_memory))]
    fn cleared(alloc: Global, room: usize) -> Result<Memory, AllocError>
        ensures { IfOk result (λ m. m ≡ memory_state cleared_memory room) }
    {
        Ok(Memory {
            rtc_fast_data: zeroed(alloc, RTC_FAST_DATA_SIZE)?,
            dram: zeroed(alloc, DRAM_SIZE)?,
            rtc_slow: zeroed(alloc, RTC_SLOW_SIZE)?,
            uart: Uart::make(alloc, room)?,
        })
    }

    // Puts a byte at an address. Outside the memory regions nothing changes.
    fn put_byte(&mut self, addr: u64, b: u8)
        ensures { self.new ≡ memory_state (with_byte self.old.contents addr b) self.old.room }
    {
        match place_of(addr) {
            Place::RtcFastData(at) => self.rtc_fast_data[at] = b,
            Place::Dram(at) => self.dram[at] = b,
            Place::RtcSlow(at) => self.rtc_slow[at] = b,
            Place::Outside => (),
        }
    }

    // Puts bytes from an address on. Outside the memory regions nothing changes.
    fn put_bytes(&mut self, addr: u32, bytes: &[u8])
        ensures { self.new ≡ memory_state (with_bytes self.old.contents addr bytes.now) self.old.room }
    {
        if is_apart(addr, bytes) {
            return;
        }
        for (i, b) in bytes.iter().enumerate() {
            self.put_byte(addr as u64 + i as u64, *b);
        }
    }

    // Puts the bytes of a segment at their addresses, where it is loaded.
    fn put_segment(&mut self, segment: &Segment)
        ensures { self.new ≡ memory_state (if is_loaded segment.now then with_bytes self.old.contents segment.now.addr segment.now.bytes else self.old.contents) self.old.room }
    {
        if 0x10000000 <= segment.addr {
            self.put_bytes(segment.addr, segment.bytes.as_slice());
        }
    }

    // Puts the bytes of the loaded segments at their addresses, in order.
    fn put_segments(&mut self, segments: &[Segment])
        ensures { self.new ≡ memory_state (with_segments self.old.contents segments.now) self.old.room }
    {
        for segment in segments {
            self.put_segment(segment);
        }
    }

    // Puts words, each with its address, in order.
    fn put_words(&mut self, words: &[(u32, u32)])
        ensures { self.new ≡ memory_state (with_words self.old.contents words.now) self.old.room }
    {
        for link in words {
            self.put_bytes(link.0, &bytes_of(link.1));
        }
    }

    /// The opening memory of a run: the bytes of the loaded segments in file order, and then the
    /// words, each with its address. It has room to send `room` bytes. The only error is running out of
    /// memory.
    #[tactic(auto, unfolding(xt_map::specs::Memory::opening_memory))]
    pub fn make(
        alloc: Global,
        segments: &[Segment],
        words: &[(u32, u32)],
        room: usize,
    ) -> Result<Memory, AllocError>
        ensures { IfOk result (λ m. m ≡ memory_state (opening_memory segments.now words.now) room) }
    {
        let mut memory = Memory::cleared(alloc, room)?;
        memory.put_segments(segments);
        memory.put_words(words);
        Ok(memory)
    }

    /// Makes what it holds that of another memory, where there is room for the bytes that the other
    /// one sent. Takes no memory.
    pub fn copy_from(&mut self, other: &Memory)
        requires { length other.now.contents.sent ≤ self.old.room }
        ensures { self.new ≡ memory_state other.now.contents self.old.room }
    {
        copy_bytes(&mut self.rtc_fast_data, &other.rtc_fast_data);
        copy_bytes(&mut self.dram, &other.dram);
        copy_bytes(&mut self.rtc_slow, &other.rtc_slow);
        self.uart.copy_from(&other.uart);
    }

    /// The byte at an address, 0 outside the memory regions.
    pub fn byte(&self, addr: u32) -> u8
        ensures { result ≡ byte_at self.now.contents addr }
    {
        match place_of(addr as u64) {
            Place::RtcFastData(at) => self.rtc_fast_data.as_slice()[at],
            Place::Dram(at) => self.dram.as_slice()[at],
            Place::RtcSlow(at) => self.rtc_slow.as_slice()[at],
            Place::Outside => 0,
        }
    }

    /// The 8,192 bytes of RTC fast memory, from its first data address on.
    pub fn rtc_fast_data(&self) -> &[u8]
        ensures { result.now ≡ part_bytes self.now.contents rtc_fast_data_first rtc_fast_data_size }
    {
        self.rtc_fast_data.as_slice()
    }

    /// The 335,872 bytes of the internal data memory, from its first address on.
    pub fn dram(&self) -> &[u8]
        ensures { result.now ≡ part_bytes self.now.contents dram_first dram_size }
    {
        self.dram.as_slice()
    }

    /// The 8,192 bytes of RTC slow memory, from its first address on.
    pub fn rtc_slow(&self) -> &[u8]
        ensures { result.now ≡ part_bytes self.now.contents rtc_slow_first rtc_slow_size }
    {
        self.rtc_slow.as_slice()
    }

    /// The bytes that were stored to the transmit address of UART0, in order.
    pub fn sent(&self) -> &[u8]
        ensures { result.now ≡ self.now.contents.sent }
    {
        self.uart.sent()
    }

    // An access to the transmit address of UART0.
    fn transmit(&mut self, kind: Kind)
        requires { length self.old.contents.sent < self.old.room }
        ensures { self.new ≡ memory_state (with_sent self.old.contents kind) self.old.room }
    {
        if let Kind::Store(value) = kind {
            self.uart.send((value % 256) as u8);
        }
    }

    // An access to one of the two addresses of UART0.
    #[tactic(auto, unfolding(xt_map::specs::Serving::reply_to, xt_map::specs::Serving::memory_past))]
    fn serve_uart(&mut self, access: Access) -> u32
        requires uart { is_uart access.addr ≡ true }
        requires room { length self.old.contents.sent < self.old.room }
        ensures reply { result ≡ reply_to self.old.contents access }
        ensures state { self.new ≡ memory_after_access self.old access }
    {
        if access.addr == UART_TRANSMIT {
            self.transmit(access.kind);
            return 0;
        }
        0
    }

    /// Does one access, and answers its reply. Takes no memory: what is sent has its room.
    pub fn serve(&mut self, access: Access) -> u32
        requires access { is_mapped access ≡ true }
        requires room { length self.old.contents.sent < self.old.room }
        ensures reply { result ≡ reply_to self.old.contents access }
        ensures state { self.new ≡ memory_after_access self.old access }
    {
        match place_of(access.addr as u64) {
            Place::RtcFastData(at) => act(&mut self.rtc_fast_data, at, access),
            Place::Dram(at) => act(&mut self.dram, at, access),
            Place::RtcSlow(at) => act(&mut self.rtc_slow, at, access),
            Place::Outside => self.serve_uart(access),
        }
    }
}
