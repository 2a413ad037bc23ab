//! Positions that commands look for.
ghost use Rattle.std.specs.Prelude.{◌≡◌, ◌<◌, ◌≤◌, ◌+◌, ◌==◌, suc, IfSome, Some, if◌then◌else◌};
ghost use Rattle.std.specs.List.{list_any};
ghost use Rattle.std.specs.Option.{option_map};
ghost use Rattle.xt_replay.specs.Shown.{replay_at};
ghost use Rattle.xt_debug.specs.Grammar.{HasCore};
ghost use Rattle.xt_debug.specs.Runs.{Arrives, or_else};
ghost use Rattle.xt_debug.specs.Searches.{end_of, first_step, hits, is_next, last_before, next_position, prior_position, stores, stores_at, stores_word};

use crate::targets::{Breakpoint, Target};
use xt_map::{Entry, Kind, is_in_memory};
use xt_replay::{Replay, end_of};

// How many positions a search back goes over at a time: as many as lie between two copies of a replay.
const PART: u32 = 65536;

/// Moves to a position.
///
/// Condition: the run has it.
pub fn reach(replay: &mut Replay, position: u32)
    requires { position ≤ end_of replay.old.run }
    ensures { replay.new ≡ replay_at replay.old position }
{
    let _ = replay.seek(position);
}

fn is_among(addresses: &[u32], pc: u32) -> bool
    ensures { result ≡ list_any (λ address. address == pc) addresses.now }
{
    addresses.iter().any(|address| *address == pc)
}

// The next step is this core's, and the core's program counter is one of the addresses.
#[tactic(auto, unfolding(crate::specs::Searches::is_next))]
fn is_next(replay: &Replay, breakpoint: &Breakpoint) -> bool
    requires { breakpoint.now.core < 2 }
    ensures { result ≡ is_next replay.now.image replay.now.run breakpoint.now replay.now.position }
{
    match replay.next_core() {
        Some(next) => {
            next == breakpoint.core
                && is_among(
                    breakpoint.addresses.as_slice(),
                    replay.state().regs(breakpoint.core).pc,
                )
        }
        None => false,
    }
}

// An access with this reply stores.
fn stores(kind: Kind, reply: u32) -> bool
    ensures { result ≡ stores kind reply }
{
    match kind {
        Kind::Load => false,
        Kind::Store(_) => true,
        Kind::Cas(expected, _) => reply == expected,
    }
}

// An entry stores into the word that holds an address.
#[tactic(auto, unfolding(crate::specs::Searches::stores_at))]
fn stores_at(addr: u32, entry: &Entry) -> bool
    ensures { result ≡ stores_at addr entry.now }
{
    is_in_memory(entry.access.addr)
        && entry.access.addr / 4 == addr / 4
        && stores(entry.access.kind, entry.reply)
}

fn any_stores(addr: u32, entries: &[Entry]) -> bool
    ensures { result ≡ list_any (stores_at addr) entries.now }
{
    entries.iter().any(|entry| stores_at(addr, entry))
}

// Makes the next step, and answers whether it stores into the word at this address.
fn step_stores(replay: &mut Replay, addr: u32) -> bool
    requires { replay.old.position < end_of replay.old.run }
    ensures moved { replay.new ≡ replay_at replay.old (replay.old.position + 1) }
    ensures stores { result ≡ stores_word replay.old.image replay.old.run addr replay.old.position }
{
    let before = replay.served() as usize;
    replay.step();
    let after = replay.served() as usize;
    before < after && any_stores(addr, &replay.run().history.as_slice()[before..after])
}

// Makes the next step, and answers whether the target is found where it begins.
fn step_hits(replay: &mut Replay, target: &Target) -> bool
    requires core { HasCore target.now }
    requires more { replay.old.position < end_of replay.old.run }
    ensures moved { replay.new ≡ replay_at replay.old (replay.old.position + 1) }
    ensures hits { result ≡ hits replay.old.image replay.old.run target.now replay.old.position }
{
    match target {
        Target::Store(addr) => step_stores(replay, *addr),
        Target::Execution(breakpoint) => {
            let found = is_next(replay, breakpoint);
            replay.step();
            found
        }
    }
}

// The first position from here on at which the target is found. It moves somewhere.
fn first(replay: &mut Replay, target: &Target) -> Option<u32>
    requires { HasCore target.now }
    ensures found { result ≡ first_step (hits replay.old.image replay.old.run target.now) replay.old.run replay.old.position }
    ensures range { IfSome result (λ q. q < end_of replay.old.run) }
    ensures moved { replay.new ≡ replay_at replay.old replay.new.position }
{
    let end = end_of(replay);
    for position in replay.position()..end {
        if step_hits(replay, target) {
            return Some(position);
        }
    }
    None
}

// A position that was found, or else what was found before.
fn newer(is_found: bool, position: u32, found: Option<u32>) -> Option<u32>
    ensures { result ≡ (if is_found then Some position else found) }
{
    if is_found { Some(position) } else { found }
}

// The last position from here on to before another at which the target is found. It moves to the other one.
fn last_until(replay: &mut Replay, target: &Target, to: u32) -> Option<u32>
    requires core { HasCore target.now }
    requires from { replay.old.position ≤ to }
    requires within { to ≤ end_of replay.old.run }
    ensures found { let test = hits replay.old.image replay.old.run target.now in
        or_else result (last_before test replay.old.position) ≡ last_before test to }
    ensures range { IfSome result (λ q. q < to) }
    ensures moved { replay.new ≡ replay_at replay.old to }
{
    let mut found = None;
    for position in replay.position()..to {
        let is_found = step_hits(replay, target);
        found = newer(is_found, position, found);
    }
    found
}

// Moves to a position that was found; if none was, to where the search began.
fn arrive(replay: &mut Replay, found: Option<u32>, start: u32) -> bool
    requires found { IfSome found (λ q. q ≤ end_of replay.old.run) }
    requires start { start ≤ end_of replay.old.run }
    ensures { Arrives found (replay_at replay.old start) result replay.new }
{
    match found {
        Some(position) => {
            reach(replay, position);
            true
        }
        None => {
            reach(replay, start);
            false
        }
    }
}

// The position after a step that was found.
fn after(found: Option<u32>) -> Option<u32>
    requires { IfSome found (λ q. q < 8000000) }
    ensures { result ≡ option_map suc found }
{
    match found {
        Some(position) => Some(position + 1),
        None => None,
    }
}

// Moves directly after the first step from here on at which the target is found.
fn find_store(replay: &mut Replay, target: &Target) -> bool
    requires { HasCore target.now }
    ensures { Arrives (option_map suc (first_step (hits replay.old.image replay.old.run target.now) replay.old.run replay.old.position)) replay.old result replay.new }
{
    let start = replay.position();
    let found = first(replay, target);
    arrive(replay, after(found), start)
}

/// Moves to where a search on arrives: at the first later position at which a core is next as is asked for, or directly
/// after the first step from here on that stores as is asked for. If there is none, nothing changes.
///
/// Condition: the core, if the target has one, is 0 or 1.
pub fn find_ahead(replay: &mut Replay, target: &Target) -> bool
    requires { HasCore target.now }
    ensures { Arrives (next_position replay.old.image replay.old.run target.now replay.old.position) replay.old result replay.new }
{
    let start = replay.position();
    match target {
        Target::Execution(_) => {
            reach(replay, end_of(replay).min(start + 1));
            let found = first(replay, target);
            arrive(replay, found, start)
        }
        Target::Store(_) => find_store(replay, target),
    }
}

/// Moves to the last earlier position at which the target is found. If there is none, nothing changes.
///
/// Condition: the core, if the target has one, is 0 or 1.
pub fn find_behind(replay: &mut Replay, target: &Target) -> bool
    requires { HasCore target.now }
    ensures { Arrives (prior_position replay.old.image replay.old.run target.now replay.old.position) replay.old result replay.new }
{
    let start = replay.position();
    let mut to = start;
    'parts: while 0 < to {
        reach(replay, (to - 1) - (to - 1) % PART);
        if let Some(position) = last_until(replay, target, to) {
            return arrive(replay, Some(position), start);
        }
        to = (to - 1) - (to - 1) % PART;
    }
    arrive(replay, None, start)
}
