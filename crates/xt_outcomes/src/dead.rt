//! What a search takes for granted of registers: that nobody will read them.
ghost use Rattle.std.specs.Prelude.{◌≡◌, ◌==◌, ◌&&◌, ◌||◌, not};
ghost use Rattle.xt_map.specs.Memory.{constant_byte};
ghost use Rattle.xt_window.specs.Ring.{bit};
ghost use Rattle.xt_outcomes.specs.Dead.{are_fit, cleared, dead_at, has_compare, is_compare_fit, is_live, is_written, registers_in, stay_dead};
ghost use Rattle.xt_outcomes.specs.Passages.{AreUses};

use std::alloc::{AllocError, Global};
use xt_codec::{Fetch, instruction_at};
use xt_map::Constants;
use xt_rows::reads;
use xt_timeless::{reads_compare, reads_time, writes_compare};
use xt_trace::RegWrite;
use xt_window::ring::bit;
use xt_window::{WindowFile, Windows};

/// Up to two registers by number.
pub type Registers = (Option<u8>, Option<u8>);

/// Of each program counter a mask of the registers that are dead there: nobody reads them before they are
/// written. Bits 0 to 15 are of the visible registers, and bit 16 is of SCOMPARE1. Program counters far apart
/// may share a mask, and where there is none no register is dead.
#[derive(Drop)]
pub struct Dead {
    pub masks: Vec<u32>,
}

/// The visible registers of a mask.
pub fn registers_in(mask: u32) -> u16
    ensures { result ≡ registers_in mask }
{
    (mask % 65536) as u16
}

/// Whether a mask has SCOMPARE1.
pub fn has_compare(mask: u32) -> bool
    ensures { result ≡ has_compare mask }
{
    mask >= 65536
}

/// What an instruction does with registers: the visible ones that it reads, whether it reads and writes
/// SCOMPARE1, and whether it reads a register of time.
#[derive(Clone, Copy)]
pub struct Uses {
    pub reads: Registers,
    pub reads_compare: bool,
    pub writes_compare: bool,
    pub reads_time: bool,
}

impl Dead {
    ghost use Rattle.std.specs.Prelude.{[], IfOk};

    /// No register is dead.
    pub fn none(alloc: Global) -> Dead
        ensures { result.masks.items ≡ [] }
    {
        Dead {
            masks: Vec::new(alloc),
        }
    }

    /// The same masks once more. The only error is running out of memory.
    pub fn copy(&self, alloc: Global) -> Result<Dead, AllocError>
        ensures { IfOk result (λ d. d.masks.items ≡ self.now.masks.items) }
    {
        let mut masks = Vec::new(alloc);
        masks.extend_from_slice(self.masks.as_slice())?;
        Ok(Dead { masks })
    }

    /// The registers that are dead at a program counter.
    pub fn at(&self, pc: u32) -> u32
        ensures { result ≡ dead_at self.now.masks.items pc }
    {
        match self.masks.get((pc % 131072) as usize) {
            Some(mask) => *mask,
            None => 0,
        }
    }
}

/// Puts 0 into the registers of a mask.
pub(crate) fn forget(mask: u16, windows: &mut WindowFile)
    ensures { windows.new ≡ record windows.old { regs = cleared mask windows.old.base windows.old.regs 16 } }
{
    for i in 0..16u8 {
        if bit(mask, i) {
            windows.write(i, 0);
        }
    }
}

/// What the instruction at a program counter does with registers.
pub fn uses_at(code: &Constants, pc: u32) -> Uses
    ensures { AreUses (constant_byte code.now) pc result }
{
    match instruction_at::<Dead>(code, pc) {
        Fetch::Insn(insn, _) => Uses {
            reads: reads(insn),
            reads_compare: reads_compare(insn),
            writes_compare: writes_compare(insn),
            reads_time: reads_time(insn),
        },
        Fetch::Fails(_) | Fetch::Nothing => Uses {
            reads: (None, None),
            reads_compare: false,
            writes_compare: false,
            reads_time: false,
        },
    }
}

// Whether a register, if it is one, is none of a mask.
fn is_live(mask: u16, register: Option<u8>) -> bool
    ensures { result ≡ is_live mask register }
{
    match register {
        Some(number) => !bit(mask, number),
        None => true,
    }
}

// Whether a register is the one that is written.
fn is_written(write: Option<RegWrite>, register: u8) -> bool
    ensures { result ≡ is_written write register }
{
    match write {
        Some(write) => write.reg == register,
        None => false,
    }
}

// Whether a register that is dead before a turn is dead after it or written by it.
fn stays_dead(write: Option<RegWrite>, before: u16, after: u16, register: u8) -> bool
    ensures { result ≡ (not (bit before register) || (is_written write register || bit after register)) }
{
    if !bit(before, register) {
        return true;
    }
    is_written(write, register) || bit(after, register)
}

/// Whether both hold.
pub(crate) fn are_both(a: bool, b: bool) -> bool
    ensures { result ≡ (a && b) }
{
    a && b
}

// Whether each register that is dead before a turn is dead after it or written by it.
fn stay_dead(write: Option<RegWrite>, before: u16, after: u16) -> bool
    ensures { result ≡ stay_dead write before after 16 }
{
    let mut stay = true;
    for i in 0..16u8 {
        stay = are_both(stay, stays_dead(write, before, after, i));
    }
    stay
}

/// Whether a turn that reads and writes these registers uses no register that is dead before it, and
/// leaves these dead in the same window, or written; by the masks before and after.
pub(crate) fn are_fit(
    before: u16,
    reads: Registers,
    stays: bool,
    write: Option<RegWrite>,
    after: u16,
) -> bool
    ensures { result ≡ are_fit before reads stays write after }
{
    if before == 0 {
        return true;
    }
    if !is_live(before, reads.0) {
        return false;
    }
    if !is_live(before, reads.1) {
        return false;
    }
    if !stays {
        return false;
    }
    stay_dead(write, before, after)
}

/// Whether a turn that reads SCOMPARE1 or not, and writes it or not, does not read it if it is dead before
/// the turn, and leaves it dead then, or written; by the masks before and after.
pub(crate) fn is_compare_fit(before: u32, reads: bool, writes: bool, after: u32) -> bool
    ensures { result ≡ is_compare_fit before reads writes after }
{
    if !has_compare(before) {
        return true;
    }
    if reads {
        return false;
    }
    writes || has_compare(after)
}
