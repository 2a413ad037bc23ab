ghost use Rattle.std.specs.Prelude.{◌≡◌, ◌+◌, ◌<◌, ◌^◌, true, length, IfOk, IfSome, OnOk};
ghost use Rattle.xt_map.specs.Regions.{is_constant, region_of};
ghost use Rattle.xt_map.specs.Memory.{constant_byte};
ghost use Rattle.xt_map.specs.Placing.{IsPlaced};
ghost use Rattle.std.specs.List.Sorted.{IsNonDecreasingBy};
ghost use Rattle.xt_map.specs.declared.constants.Start.{Start};
ghost use Rattle.xt_map.specs.Index.{HasStarts, IsCountUpto, IsIndexed, has_bytes};

use crate::placing::is_segment_loaded;
use crate::segment::Segment;
use std::alloc::{AllocError, Global};
use std::marker::Model;

// Where a segment starts: its first address, and its number in the list.
#[derive(Clone, Copy)]
struct Start {
    addr: u32,
    number: usize,
}

/// Where segments start, by which their bytes are found. It borrows nothing and has none of the bytes.
/// Contracts see the starts of the segments that have bytes, in the order of the addresses.
#[derive(Drop)]
pub struct Index {
    starts: Vec<Start>,
}

impl Model for Index {
    ghost use Rattle.std.specs.Prelude.{List};
    ghost use Rattle.xt_map.specs.declared.constants.Start.{Start};

    ghost Value = { List Start };

    ghost view = { λ i. i.starts.items };
}

/// The contents of the constant regions, from which instructions are fetched and constants are
/// loaded. It borrows the segments that it is made of, and contracts see those.
///
/// A byte is found by a binary search over the segments in the order of their addresses.
pub struct Constants<'a> {
    segments: &'a [Segment],
    // The starts of the segments that have bytes, in the order of the addresses.
    starts: Vec<Start>,
}

// A `drop` of its own is one call at each place where a value is dropped.
impl Drop for Constants<'_> {
    fn drop(self) {
        let Constants {
            segments: _,
            starts: _,
        } = self;
    }
}

impl<'a> Model for Constants<'a> {
    ghost use Rattle.std.specs.Prelude.{List};
    ghost use Rattle.xt_map.specs.declared.segment.Segment.{Segment};
    ghost use Rattle.xt_map.specs.Index.{IsIndexed};

    ghost Value = { List Segment };

    ghost view = { λ c. c.segments.now };

    ghost invariant = { λ c. IsIndexed c.segments.now c.starts.items };
}

// Whether a segment is loaded and has a byte.
fn has_contents(segment: &Segment) -> bool
    ensures { result ≡ has_bytes segment.now }
{
    is_segment_loaded(segment) && segment.bytes.len() > 0
}

// The starts of the segments that have bytes, in file order.
fn starts_of(alloc: Global, segments: &[Segment]) -> Result<Vec<Start>, AllocError>
    ensures { IfOk result (λ starts. HasStarts segments.now (length segments.now) starts.items) }
{
    let mut starts = Vec::new(alloc);
    for (number, segment) in segments.iter().enumerate() {
        if has_contents(segment) {
            starts.push(Start {
                addr: segment.addr,
                number,
            })?;
        }
    }
    Ok(starts)
}

// The starts of the segments that have bytes, in the order of the addresses.
fn sorted_starts_of(alloc: Global, segments: &[Segment]) -> Result<Vec<Start>, AllocError>
    requires { IsPlaced segments.now }
    ensures { IfOk result (λ starts. IsIndexed segments.now starts.items) }
{
    let mut starts = starts_of(alloc, segments)?;
    starts.sort_unstable_by_key(|start| start.addr);
    Ok(starts)
}

// How many of the starts have an address up to this one. All have where the last one has, which is tried first: code
// mostly lies in the segment of the highest addresses.
#[inline(always)]
fn count_upto(starts: &[Start], addr: u32) -> usize
    requires { IsNonDecreasingBy (λ (s : Start). s.addr) starts.now }
    ensures { IsCountUpto starts.now addr result }
{
    let len = starts.len();
    if 0 < len && starts[len - 1].addr <= addr {
        return len;
    }
    starts.partition_point(|start| start.addr <= addr)
}

// The byte that a loaded segment has at an address of a constant region, else 0.
#[inline(always)]
fn byte_in(segments: &[Segment], starts: &[Start], addr: u32) -> u8
    requires constant { is_constant (region_of addr) ≡ true }
    requires indexed { IsIndexed segments.now starts.now }
    ensures { result ≡ constant_byte segments.now addr }
{
    let count = count_upto(starts, addr);
    if count == 0 {
        return 0;
    }
    let start = starts[count - 1];
    let bytes = segments[start.number].bytes.as_slice();
    let place = (addr - start.addr) as usize;
    if place < bytes.len() { bytes[place] } else { 0 }
}

// Three bytes of a segment, where it has them from an address on.
#[inline(always)]
fn three_in(segments: &[Segment], starts: &[Start], addr: u32) -> Option<(u8, u8, u8)>
    requires first { is_constant (region_of addr) ≡ true }
    requires second { is_constant (region_of (addr + 1)) ≡ true }
    requires third { is_constant (region_of (addr + 2)) ≡ true }
    requires indexed { IsIndexed segments.now starts.now }
    ensures { IfSome result (λ r. r ≡ (constant_byte segments.now addr, constant_byte segments.now (addr + 1), constant_byte segments.now (addr + 2))) }
{
    let count = count_upto(starts, addr);
    if count == 0 {
        return None;
    }
    let start = starts[count - 1];
    let bytes = segments[start.number].bytes.as_slice();
    let place = (addr - start.addr) as usize;
    if place < bytes.len() && 2 < bytes.len() - place {
        Some((bytes[place], bytes[place + 1], bytes[place + 2]))
    } else {
        None
    }
}

impl<'a> Constants<'a> {
    /// What the segments load. The only error is running out of memory.
    ///
    /// Each segment that is loaded and has a byte lies in one region other than UART0, and no two
    /// of them share a byte; `are_placed` tests this.
    pub fn make(alloc: Global, segments: &'a [Segment]) -> Result<Constants<'a>, AllocError>
        requires { IsPlaced segments.now }
        ensures { IfOk result (λ c. c ≡ segments.now) }
    {
        Ok(Constants {
            segments,
            starts: sorted_starts_of(alloc, segments)?,
        })
    }

    /// What segments load, whose index this is. It takes no memory.
    pub fn from_parts(segments: &'a [Segment], index: Index) -> Constants<'a>
        requires { IsIndexed segments.now index }
        ensures { result ≡ segments.now }
    {
        let Index { starts } = index;
        Constants { segments, starts }
    }

    /// The segments, and their index.
    pub fn into_parts(self) -> (&'a [Segment], Index)
        ensures segments { result.0.now ≡ self.entry }
        ensures indexed { IsIndexed result.0.now result.1 }
    {
        let Constants { segments, starts } = self;
        (segments, Index { starts })
    }

    /// The byte at an address of a constant region: what a loaded segment has there, else 0.
    ///
    /// It is found in a time that grows with the logarithm of the number of segments.
    #[inline(always)]
    pub fn byte(&self, addr: u32) -> u8
        requires { is_constant (region_of addr) ≡ true }
        ensures { result ≡ constant_byte self.now addr }
    {
        byte_in(self.segments, &self.starts, addr)
    }

    /// Three bytes from an address on, all of constant regions. They are found by one search.
    #[inline(always)]
    pub fn three(&self, addr: u32) -> (u8, u8, u8)
        requires first { is_constant (region_of addr) ≡ true }
        requires second { is_constant (region_of (addr + 1)) ≡ true }
        requires third { is_constant (region_of (addr + 2)) ≡ true }
        requires place { addr + 2 < 2 ^ 32 }
        ensures { result ≡ (constant_byte self.now addr, constant_byte self.now (addr + 1), constant_byte self.now (addr + 2)) }
    {
        match three_in(self.segments, &self.starts, addr) {
            Some(bytes) => bytes,
            None => (self.byte(addr), self.byte(addr + 1), self.byte(addr + 2)),
        }
    }
}
