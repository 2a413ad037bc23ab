//! What is wrong with a file, rule by rule.
ghost use Rattle.std.specs.Prelude.{◌≡◌, ◌≤◌, ◌<◌, ◌+◌, ◌↔◌, [], length, IsNone, IsTrue, position};
ghost use Rattle.std.specs.List.{list_any};
ghost use Rattle.xt_map.specs.Regions.{ranges, region_of};
ghost use Rattle.xt_elf.specs.Headers.{header_count};
ghost use Rattle.xt_image.specs.Findings.{first};
ghost use Rattle.xt_elf.specs.Rules.{do_overlap, ends_behind, entry_rules, file_rules, first_overlap, has_magic, header_rules, headers_end, is_larger_in_file, is_misplaced, loaded_count, padded_end, takes};
ghost use Rattle.xt_elf.specs.Spans.{AreApart, IsOneRegion};

use crate::fault::ElfFault;
use crate::header::{Header, is_loaded, padded_end};
use xt_image::{half, word};
use xt_map::regions::Region;
use xt_map::{can_execute_at, region};

/// What is wrong with the file header, or with where the program headers stand.
pub(crate) fn file_fault(bytes: &[u8]) -> Option<ElfFault>
    ensures first { result ≡ first (file_rules bytes.now) }
    ensures long { IsNone result → 52 ≤ length bytes.now }
    ensures whole { IsNone result → 0 < header_count bytes.now → headers_end bytes.now ≤ length bytes.now }
{
    if bytes.len() < 52 {
        return Some(ElfFault::Short);
    }
    if bytes[..4] != [0x7F, 0x45, 0x4C, 0x46] {
        return Some(ElfFault::Magic);
    }
    if bytes[4] != 1 || bytes[5] != 1 {
        return Some(ElfFault::Class);
    }
    let (kind, machine) = (half(bytes, 16), half(bytes, 18));
    if kind != 2 {
        return Some(ElfFault::FileType(kind));
    }
    if machine != 94 {
        return Some(ElfFault::Machine(machine));
    }
    let (size, count) = (half(bytes, 42), half(bytes, 44));
    if count == 0 {
        return None;
    }
    if size != 32 {
        return Some(ElfFault::HeaderSize(size));
    }
    if bytes.len() < word(bytes, 28) as usize + 32 * count as usize {
        return Some(ElfFault::HeaderEnd);
    }
    None
}

// The first loaded header whose bytes end after this place.
fn first_ending_behind(end: usize, headers: &[Header]) -> Option<usize>
    ensures { result ≡ position (ends_behind end) headers.now }
{
    for (i, header) in headers.iter().enumerate() {
        if is_loaded(header) && end < header.offset as usize + header.file_size as usize {
            return Some(i);
        }
    }
    None
}

// The first header of type 1 with more bytes in the file than in memory.
fn first_larger_in_file(headers: &[Header]) -> Option<usize>
    ensures { result ≡ position is_larger_in_file headers.now }
{
    for (i, header) in headers.iter().enumerate() {
        if header.kind == 1 && header.memory_size < header.file_size {
            return Some(i);
        }
    }
    None
}

// Whether two regions are there and are one, other than UART0.
fn is_one_region(first: Option<Region>, last: Option<Region>) -> bool
    ensures { IsTrue result ↔ IsOneRegion first last }
{
    match (first, last) {
        (Some(one), Some(other)) => one == other && one != Region::Uart,
        _ => false,
    }
}

// Whether two addresses lie in one region other than UART0.
fn lie_in_one_region(first: u32, last: u32) -> bool
    requires { first ≤ last }
    ensures { result ≡ list_any (takes first (last + 1)) ranges }
{
    is_one_region(region(first), region(last))
}

// Whether the padded bytes of a header lie whole in one region other than UART0.
fn is_placed(header: &Header) -> bool
    requires { 0 < header.now.file_size }
    ensures { result ≡ list_any (takes header.now.addr (padded_end header.now)) ranges }
{
    let last = padded_end(header) - 1;
    last <= u32::MAX as u64 && lie_in_one_region(header.addr, last as u32)
}

// The first loaded header whose padded bytes do not lie in one region.
fn first_misplaced(headers: &[Header]) -> Option<usize>
    ensures { result ≡ position is_misplaced headers.now }
{
    for (i, header) in headers.iter().enumerate() {
        if is_loaded(header) && !is_placed(header) {
            return Some(i);
        }
    }
    None
}

// Whether two headers are loaded and their padded bytes share one.
fn share_bytes(one: &Header, other: &Header) -> bool
    ensures { result ≡ do_overlap one.now other.now }
{
    let first = one.addr.max(other.addr) as u64;
    let behind = padded_end(one).min(padded_end(other));
    is_loaded(one) && is_loaded(other) && first < behind
}

// The first of some headers whose padded bytes share one with those of another.
fn first_sharing(before: &[Header], header: &Header) -> Option<usize>
    ensures { result ≡ position (λ k. do_overlap k header.now) before.now }
{
    for (i, other) in before.iter().enumerate() {
        if share_bytes(other, header) {
            return Some(i);
        }
    }
    None
}

// The first header whose padded bytes share one with a header before it, where so many at the front
// share none.
fn overlap_fault(headers: &[Header], apart: usize) -> Option<ElfFault>
    requires few { length headers.now < 65536 }
    requires within { apart ≤ length headers.now }
    requires apart { AreApart apart headers.now }
    ensures { result ≡ first_overlap [] headers.now }
{
    for j in apart..headers.len() {
        if let Some(i) = first_sharing(&headers[..j], &headers[j]) {
            return Some(ElfFault::Overlap(i as u16, j as u16));
        }
    }
    None
}

// How many headers are loaded.
fn loaded_count(headers: &[Header]) -> usize
    ensures { result ≡ loaded_count headers.now }
{
    headers.iter().filter(|header| is_loaded(*header)).count()
}

/// What is wrong with the program headers of a file of so many bytes, where so many headers at the
/// front share no byte.
pub(crate) fn header_fault(len: usize, headers: &[Header], apart: usize) -> Option<ElfFault>
    requires few { length headers.now < 65536 }
    requires within { apart ≤ length headers.now }
    requires apart { AreApart apart headers.now }
    ensures { result ≡ first (header_rules len headers.now) }
{
    if let Some(i) = first_ending_behind(len, headers) {
        return Some(ElfFault::SegmentEnd(i as u16));
    }
    if let Some(i) = first_larger_in_file(headers) {
        return Some(ElfFault::Sizes(i as u16));
    }
    if let Some(i) = first_misplaced(headers) {
        return Some(ElfFault::Place(i as u16));
    }
    if let Some(fault) = overlap_fault(headers, apart) {
        return Some(fault);
    }
    let count = loaded_count(headers);
    if count == 0 || count > 16 {
        return Some(ElfFault::Count(count as u16));
    }
    None
}

/// What is wrong with the entry.
pub(crate) fn entry_fault(bytes: &[u8]) -> Option<ElfFault>
    requires { 52 ≤ length bytes.now }
    ensures { result ≡ first (entry_rules bytes.now) }
{
    let entry = word(bytes, 24);
    if can_execute_at(entry) {
        None
    } else {
        Some(ElfFault::Entry(entry))
    }
}
