//! The options and the entries of a recording.
ghost use Rattle.std.specs.Prelude.{◌≡◌, ◌≤◌, ◌+◌, length, true, IsNone};
ghost use Rattle.xt_trace.specs.Validity.{IsValid};
ghost use Rattle.xt_record.specs.Fields.{access_of, entries_end, options_at, raw_at};
ghost use Rattle.xt_record.specs.Heads.{HasRead};
ghost use Rattle.xt_record.specs.Rules.{is_entry, is_valid, keeps_zeros, options_finding};

use crate::fault::RecordFault;
use crate::raw::RawEntry;
use std::alloc::Global;
use xt_image::word;
use xt_map::{Access, Entry, Kind, mapped};
use xt_trace::{Options, Stack};

/// The options that stand at the front of what follows the image.
#[tactic(auto, unfolding(crate::specs::Fields::options_at))]
pub(crate) fn options_in(rest: &[u8]) -> Options
    requires { 36 ≤ length rest.now }
    ensures { result ≡ options_at rest.now 0 }
{
    Options {
        turns0: word(rest, 0),
        turns1: word(rest, 4),
        entry1: word(rest, 8),
        vecbase: word(rest, 12),
        stack0: Stack {
            lo: word(rest, 16),
            hi: word(rest, 20),
        },
        stack1: Stack {
            lo: word(rest, 24),
            hi: word(rest, 28),
        },
    }
}

// Whether a run accepts options.
fn is_valid(options: &Options) -> bool
    ensures test { result ≡ is_valid options.now }
    ensures law { result ≡ true → IsValid options.now }
{
    options.valid()
}

/// What is wrong with the options of a recording of this version.
pub(crate) fn options_fault(version: u32, options: &Options) -> Option<RecordFault>
    ensures finding { result ≡ options_finding version options.now }
    ensures valid { IsNone result → IsValid options.now }
{
    let too_long = version == 1 && (options.turns0 > 1_000_000 || options.turns1 > 1_000_000);
    if !is_valid(options) || too_long {
        Some(RecordFault::Options)
    } else {
        None
    }
}

// The fields of the entry at a place.
#[tactic(auto, unfolding(crate::specs::Fields::raw_at))]
fn raw_at(bytes: &[u8], place: usize) -> RawEntry
    requires { place + 20 ≤ length bytes.now }
    ensures { result ≡ raw_at bytes.now place }
{
    RawEntry {
        core: bytes[place],
        kind: bytes[place + 1],
        size: bytes[place + 2],
        zero: bytes[place + 3],
        addr: word(bytes, place + 4),
        a: word(bytes, place + 8),
        b: word(bytes, place + 12),
        reply: word(bytes, place + 16),
    }
}

// The access of an entry.
fn access_of(raw: &RawEntry) -> Access
    ensures { result ≡ access_of raw.now }
{
    Access {
        addr: raw.addr,
        size: raw.size,
        kind: match raw.kind {
            0 => Kind::Load,
            1 => Kind::Store(raw.a),
            _ => Kind::Cas(raw.a, raw.b),
        },
    }
}

// Whether the operands that a kind does not use are 0.
fn keeps_zeros(kind: Kind, raw: &RawEntry) -> bool
    ensures { result ≡ keeps_zeros kind raw.now }
{
    match kind {
        Kind::Load => raw.a == 0 && raw.b == 0,
        Kind::Store(_) => raw.b == 0,
        Kind::Cas(_, _) => true,
    }
}

// Whether the fields are those of an access that the bus serves.
fn is_entry(raw: &RawEntry) -> bool
    ensures { result ≡ is_entry raw.now }
{
    let access = access_of(raw);
    raw.core < 2
        && raw.kind < 3
        && raw.zero == 0
        && keeps_zeros(access.kind, raw)
        && mapped(&access)
}

/// The entries, or the first that is none.
pub(crate) fn entries_in(alloc: Global, rest: &[u8]) -> Result<Vec<Entry>, RecordFault>
    requires { entries_end rest.now ≤ length rest.now }
    ensures { HasRead result rest.now }
{
    let count = word(rest, 32);
    let mut entries = Vec::with_capacity(alloc, count as usize)?;
    for i in 0..count {
        let raw = raw_at(rest, 36 + 20 * i as usize);
        if !is_entry(&raw) {
            return Err(RecordFault::Entry(i));
        }
        entries.push(Entry {
            core: raw.core,
            access: access_of(&raw),
            reply: raw.reply,
        })?;
    }
    Ok(entries)
}
