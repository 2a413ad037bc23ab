//! Changed bytes in rising order of their addresses.
ghost use Rattle.std.specs.Prelude.{◌≡◌, ◌≢◌, ◌≤◌, true, false, Some, OnOk, OnErr, length, slice_get};
ghost use Rattle.xt_search.specs.declared.changes.Change.{Change};
ghost use Rattle.xt_search.specs.Changed.{byte_in, place_in, put_in, without};

use crate::changes::Change;
use std::alloc::AllocError;

// How many are below an address.
fn place_of(changes: &[Change], addr: u32) -> usize
    ensures place { result ≡ place_in changes.now addr }
    ensures within { result ≤ length changes.now }
{
    let mut place = 0;
    for change in changes {
        if change.addr >= addr {
            return place;
        }
        place += 1;
    }
    place
}

/// The byte at an address, or another one where there is none.
pub(crate) fn byte_of(changes: &[Change], addr: u32, other: u8) -> u8
    ensures { result ≡ byte_in changes.now addr other }
{
    for change in changes {
        if change.addr >= addr {
            return if change.addr == addr {
                change.byte
            } else {
                other
            };
        }
    }
    other
}

// Whether the byte at a place is the one at an address.
fn is_hit(changes: &[Change], place: usize, addr: u32) -> bool
    ensures hit { result ≡ true → (c : Change) × (slice_get changes.now place ≡ Some c) × (c.addr ≡ addr) }
    ensures miss { result ≡ false → (c : Change) → slice_get changes.now place ≡ Some c → c.addr ≢ addr }
{
    match changes.get(place) {
        Some(change) => change.addr == addr,
        None => false,
    }
}

/// Puts a byte at its place, over the one at its address if there is one. The only error is running
/// out of memory; it changes nothing.
pub(crate) fn put(changes: &mut Vec<Change>, change: Change) -> Result<(), AllocError>
    ensures ok { OnOk result (changes.new.items ≡ put_in changes.old.items change) }
    ensures err { OnErr result (changes.new.items ≡ changes.old.items) }
{
    let place = place_of(changes.as_slice(), change.addr);
    if is_hit(changes.as_slice(), place, change.addr) {
        changes[place] = change;
        return Ok(());
    }
    changes.insert(place, change)?;
    Ok(())
}

/// Takes the byte at an address away, if there is one.
pub(crate) fn take(changes: &mut Vec<Change>, addr: u32)
    ensures { changes.new.items ≡ without changes.old.items addr }
{
    let place = place_of(changes.as_slice(), addr);
    if is_hit(changes.as_slice(), place, addr) {
        changes.remove(place);
    }
}

/// Whether two lists are equal.
pub(crate) fn are_same(changes: &[Change], others: &[Change]) -> bool
    ensures same { result ≡ true → changes.now ≡ others.now }
    ensures equal { changes.now ≡ others.now → result ≡ true }
{
    if changes.len() != others.len() {
        return false;
    }
    for at in 0..changes.len() {
        let change = changes[at];
        let other = others[at];
        if change.addr != other.addr || change.byte != other.byte {
            return false;
        }
    }
    true
}
