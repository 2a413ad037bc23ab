//! Entries of a history, with the turns that made them.
ghost use Rattle.std.specs.Prelude.{◌≡◌};
ghost use Rattle.xt_map.specs.Memory.{constant_byte};
ghost use Rattle.xt_map.specs.Fetching.{fetch_at};
ghost use Rattle.xt_race.specs.Races.{acquires, order_in, order_of, releases, synchronises, writes};
ghost use Rattle.xt_race.specs.Clashes.{clash, shares_byte, touches_memory};

use crate::places::is_in_memory;
use xt_codec::{Fetch, instruction_at};
use xt_isa::Insn;
use xt_isa::memory::{Memory, WordName};
use xt_map::{Constants, Entry, Kind};
use xt_trace::StepRecord;

/// How an instruction orders the accesses of its core for the other one.
#[derive(Clone, Copy)]
pub enum Synchronization {
    /// Not at all.
    Plain,
    /// L32AI: what comes after it comes after what it acquires.
    Acquire,
    /// S32RI: what comes before it is released with it.
    Release,
    /// S32C1I: it acquires, and releases where it stored.
    Swap,
}

/// An entry of a history, and the turn of its core that made it.
#[derive(Clone, Copy)]
pub struct Event {
    /// The entry.
    pub entry: Entry,
    /// The number of the turn, from 0.
    pub turn: u32,
    /// The record of the turn.
    pub step: StepRecord,
    /// How the instruction that the record executes orders.
    pub order: Synchronization,
}

// How an instruction orders.
#[tactic(auto, unfolding(crate::specs::Races::order_in))]
fn order_in(insn: Insn) -> Synchronization
    ensures { result ≡ order_in insn }
{
    match insn {
        Insn::Memory(Memory::Word(WordName::L32ai, _, _, _)) => Synchronization::Acquire,
        Insn::Memory(Memory::Word(WordName::S32ri, _, _, _)) => Synchronization::Release,
        Insn::Memory(Memory::S32c1i(_, _, _)) => Synchronization::Swap,
        _ => Synchronization::Plain,
    }
}

/// How the instruction at an address orders.
pub fn order_at(code: &Constants, pc: u32) -> Synchronization
    ensures { result ≡ order_of (fetch_at (constant_byte code.now) pc) }
{
    match instruction_at::<Event>(code, pc) {
        Fetch::Insn(insn, _) => order_in(insn),
        _ => Synchronization::Plain,
    }
}

impl Event {
    /// Whether it writes: a store, or a compare-and-swap that stored.
    pub fn writes(&self) -> bool
        ensures { result ≡ writes self.now }
    {
        match self.entry.access.kind {
            Kind::Load => false,
            Kind::Store(_) => true,
            Kind::Cas(expected, _) => self.entry.reply == expected,
        }
    }

    /// Whether it releases: S32RI, or S32C1I that stored.
    pub fn releases(&self) -> bool
        ensures { result ≡ releases self.now }
    {
        match self.order {
            Synchronization::Release => true,
            Synchronization::Swap => self.writes(),
            _ => false,
        }
    }

    /// Whether it acquires: L32AI or S32C1I.
    pub fn acquires(&self) -> bool
        ensures { result ≡ acquires self.now }
    {
        match self.order {
            Synchronization::Acquire | Synchronization::Swap => true,
            _ => false,
        }
    }

    /// Whether it synchronises: L32AI, S32RI or S32C1I.
    pub fn synchronises(&self) -> bool
        ensures { result ≡ synchronises self.now }
    {
        match self.order {
            Synchronization::Plain => false,
            _ => true,
        }
    }

    // Whether it touches the byte at an address, which is one of the memory regions.
    fn touches_memory(&self, addr: u64) -> bool
        ensures { result ≡ touches_memory self.now addr }
    {
        let first = u64::from(self.entry.access.addr);
        first <= addr && addr < first + u64::from(self.entry.access.size) && is_in_memory(addr)
    }

    // Whether both touch a common byte of the memory regions.
    fn shares_byte(&self, other: &Event) -> bool
        ensures { result ≡ shares_byte self.now other.now }
    {
        for k in 0..self.entry.access.size {
            if other.touches_memory(u64::from(self.entry.access.addr) + u64::from(k)) {
                return true;
            }
        }
        false
    }

    /// Whether they conflict: their cores differ, they touch a common byte of the memory regions, at least one writes, and not both
    /// synchronise.
    pub fn conflicts(&self, other: &Event) -> bool
        ensures { result ≡ clash self.now other.now }
    {
        self.entry.core != other.entry.core
            && ((self.writes() || other.writes())
                && (!(self.synchronises() && other.synchronises()) && self.shares_byte(other)))
    }
}
