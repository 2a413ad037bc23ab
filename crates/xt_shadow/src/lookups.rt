//! The instructions of the code, each looked up once as long as no other takes its place.
#![tactic(auto)]

ghost use Rattle.std.specs.Prelude.{◌≡◌, ◌%◌, ℕ, true, All, IfOk, length, replicate, slice_index_or};
ghost use Rattle.xt_isa.specs.Ranges.{in_range};
ghost use Rattle.xt_map.specs.Memory.{constant_byte};
ghost use Rattle.xt_map.specs.Fetching.{Fetches, fetch_at};
ghost use Rattle.xt_shadow.specs.Lookups.{IsLookup, IsPlainInsn};
ghost use Rattle.xt_shadow.specs.declared.lookups.Lookup.{Lookup};

use crate::file::ShadowFile;
use crate::instructions::{is_common, is_no_epc1, is_operand};
use std::alloc::{AllocError, Global};
use std::marker::Model;
use xt_codec::{Fetch, instruction_at};
use xt_isa::Insn;
use xt_map::Constants;
use xt_rows::{highest_register, reads, special_reads};

/// How many places there are, one for each rest of an address.
const PLACES: u32 = 4096;

/// What stands at an address, and what is tested of it before a turn in step.
#[derive(Clone, Copy)]
pub struct Lookup {
    /// The address.
    pub pc: u32,
    /// The instruction, or why there is none.
    pub fetch: Fetch,
    /// The visible registers that the instruction reads.
    pub first: Option<u8>,
    pub second: Option<u8>,
    /// Up to how many windows ahead the instruction's registers lie.
    pub ahead: u8,
    /// Whether no breach names the instruction, it is no system instruction, and it reads no special
    /// register but SAR, BR and SCOMPARE1.
    pub is_plain: bool,
}

// Whether no breach names an instruction, it is no system instruction, and it reads no special
// register but SAR, BR and SCOMPARE1. All that no breach names and that are no system instructions
// read no other.
fn is_plain(i: Insn) -> bool
    requires { in_range i ≡ true }
    ensures { result ≡ true → IsPlainInsn i }
{
    let (special, other) = special_reads(i);
    is_common(i) && is_no_epc1(special) && is_no_epc1(other) && is_operand(special)
}

// What is tested of an instruction.
fn tested(pc: u32, i: Insn, len: u8) -> Lookup
    requires { in_range i ≡ true }
    ensures pc { result.pc ≡ pc }
    ensures lookup { (code : ℕ → ℕ) → fetch_at code pc ≡ Fetches i len → IsLookup code result }
{
    let (first, second) = reads(i);
    Lookup {
        pc,
        fetch: Fetch::Insn(i, len),
        first,
        second,
        ahead: highest_register(i) / 4,
        is_plain: is_plain(i),
    }
}

// What stands at an address, looked up.
#[inline(never)]
fn look_up(code: &Constants, pc: u32) -> Lookup
    ensures pc { result.pc ≡ pc }
    ensures lookup { IsLookup (constant_byte code.now) result }
{
    let fetch = instruction_at::<ShadowFile>(code, pc);
    if let Fetch::Insn(i, len) = fetch {
        return tested(pc, i, len);
    }
    Lookup {
        pc,
        fetch,
        first: None,
        second: None,
        ahead: 0,
        is_plain: false,
    }
}

/// The code, and what was looked up in it. Contracts see the segments of the code.
pub struct Lookups<'a> {
    code: Constants<'a>,
    // At each place what stands at an address with this rest.
    places: Vec<Lookup>,
}

// A `drop` of its own is one call at each place where a value is dropped.
impl Drop for Lookups<'_> {
    fn drop(self) {
        let Lookups { code: _, places: _ } = self;
    }
}

impl<'a> Model for Lookups<'a> {
    ghost use Rattle.std.specs.Prelude.{◌≡◌, List, All, length};
    ghost use Rattle.xt_map.specs.declared.segment.Segment.{Segment};
    ghost use Rattle.xt_map.specs.Memory.{constant_byte};
    ghost use Rattle.xt_shadow.specs.Lookups.{IsLookup};

    ghost Value = { List Segment };

    ghost view = { λ l. l.code };

    ghost invariant = { λ l. (length l.places.items ≡ 4096) × All (IsLookup (constant_byte l.code)) l.places.items };
}

// So many times the same.
fn filled(alloc: Global, lookup: Lookup, count: u32) -> Result<Vec<Lookup>, AllocError>
    ensures { IfOk result (λ places. places.items ≡ replicate count lookup) }
{
    let mut places = Vec::with_capacity(alloc, count as usize)?;
    for _place in 0..count {
        places.push(lookup)?;
    }
    Ok(places)
}

// Looks up what stands at an address, and keeps it.
#[inline(never)]
fn keep(code: &Constants, places: &mut [Lookup], pc: u32)
    requires len { length places.old ≡ 4096 }
    requires known { All (IsLookup (constant_byte code.now)) places.old }
    ensures len { length places.new ≡ 4096 }
    ensures known { All (IsLookup (constant_byte code.now)) places.new }
    ensures at { (d : Lookup) → (slice_index_or places.new (pc % 4096) d).pc ≡ pc }
{
    places[(pc % PLACES) as usize] = look_up(code, pc);
}

impl<'a> Lookups<'a> {
    /// Nothing but address 0 is looked up yet. The only error is running out of memory; all of it
    /// is taken here.
    pub fn make(alloc: Global, code: Constants<'a>) -> Result<Lookups<'a>, AllocError>
        ensures { IfOk result (λ lookups. lookups ≡ code.entry) }
    {
        let lookup = look_up(&code, 0);
        let places = filled(alloc, lookup, PLACES)?;
        Ok(Lookups { code, places })
    }

    /// The code.
    pub fn code(&self) -> &Constants<'a>
        ensures { result.now ≡ self.now }
    {
        &self.code
    }

    /// What stands at an address.
    #[inline(always)]
    pub fn at(&mut self, pc: u32) -> Lookup
        ensures pc { result.pc ≡ pc }
        ensures lookup { IsLookup (constant_byte self.old) result }
        ensures code { self.new ≡ self.old }
    {
        let place = (pc % PLACES) as usize;
        if self.places[place].pc == pc {
            return self.places[place];
        }
        keep(&self.code, &mut self.places, pc);
        self.places[place]
    }
}
