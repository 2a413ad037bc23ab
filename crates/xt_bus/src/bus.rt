//! The bus with its history.
ghost use Rattle.std.specs.Prelude.{◌≡◌, ◌<◌, true, IfOk};
ghost use Rattle.xt_map.specs.History.{memory_after, IsLegal, IsOfCores};
ghost use Rattle.xt_map.specs.Memory.{byte_at};
ghost use Rattle.xt_map.specs.Regions.{is_mapped};
ghost use Rattle.xt_map.specs.Serving.{reply_to};
ghost use Rattle.xt_bus.specs.States.{entry, opening_bus, bus_after_entry};

use crate::memory::Memory;
use std::alloc::{AllocError, Global};
use std::marker::Model;
use xt_map::{Access, Entry, History, Segment};

/// A memory with the history that led to it. Contracts see the memory that it opened with, which
/// never changes, the history, the memory with the sent bytes, and how many accesses it may yet
/// serve.
///
/// The history is always legal from the opening memory, each of its entries is of core 0 or 1, and
/// the memory with the sent bytes is what the history leaves; [`Bus::history`] tells so.
pub struct Bus {
    opening: Memory,
    memory: Memory,
    history: Vec<Entry>,
    spare: u32,
}

// A `drop` of its own is one call at each place where a value is dropped.
impl Drop for Bus {
    fn drop(self) {
        let Bus {
            opening: _,
            memory: _,
            history: _,
            spare: _,
        } = self;
    }
}

impl Model for Bus {
    ghost use Rattle.xt_bus.specs.States.{BusState};

    ghost Value = { BusState };

    ghost use Rattle.xt_bus.specs.BusKeeps.{bus_in, IsKept};

    ghost view = { bus_in };

    ghost invariant = { IsKept };
}

impl Bus {
    /// A bus with no history, that may serve `room` accesses: the opening memory has the bytes of the
    /// loaded segments in file order, and then the words of `links`, each with its address. The only
    /// error is running out of memory.
    pub fn make(
        alloc: Global,
        segments: &[Segment],
        links: &[(u32, u32)],
        room: u32,
    ) -> Result<Bus, AllocError>
        ensures { IfOk result (λ b. b ≡ opening_bus segments.now links.now room) }
    {
        Ok(Bus {
            opening: Memory::make(alloc, segments, links, 0)?,
            memory: Memory::make(alloc, segments, links, room as usize)?,
            history: Vec::with_capacity(alloc, room as usize)?,
            spare: room,
        })
    }

    /// Serves one access of a core: answers its reply, and appends it to the history. Takes no
    /// memory.
    pub fn step(&mut self, core: u8, access: Access) -> u32
        requires core { core < 2 }
        requires access { is_mapped access ≡ true }
        requires spare { 0 < self.old.spare }
        ensures reply { result ≡ reply_to self.old.memory access }
        ensures state { self.new ≡ bus_after_entry self.old (entry core access result) }
    {
        let reply = self.memory.serve(access);
        self.history.push_reserved(Entry {
            core,
            access,
            reply,
        });
        self.spare -= 1;
        reply
    }

    /// How many accesses it may yet serve.
    pub fn spare(&self) -> u32
        ensures { result ≡ self.now.spare }
    {
        self.spare
    }

    /// The history, and what is always known of it.
    pub fn history(&self) -> &[Entry]
        ensures entries { result.now ≡ self.now.history }
        ensures legal { IsLegal self.now.opening self.now.history }
        ensures cores { IsOfCores self.now.history }
        ensures left { self.now.memory ≡ memory_after self.now.opening self.now.history }
    {
        self.history.as_slice()
    }

    /// The history alone. Takes no memory.
    pub fn into_history(self) -> History
        ensures { result ≡ self.history }
    {
        let Bus {
            opening: _,
            memory: _,
            history,
            spare: _,
        } = self;
        History::new(history)
    }

    /// The byte at an address of memory as it now stands, 0 outside the memory regions.
    pub fn byte(&self, addr: u32) -> u8
        ensures { result ≡ byte_at self.now.memory addr }
    {
        self.memory.byte(addr)
    }

    /// The bytes that were stored to the transmit address of UART0, in order.
    pub fn sent(&self) -> &[u8]
        ensures { result.now ≡ self.now.memory.sent }
    {
        self.memory.sent()
    }
}
