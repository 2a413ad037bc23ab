//! Two threads make a thousand accesses each on words that both use, and the history is replayed.
ghost use Rattle.std.specs.Prelude.{◌≡◌};

use std::alloc::{AllocError, Global};
use std::sync::{Barrier, Wait};
use std::test::Fail;
use std::thread::{Threads, join};
use xt_bus::Bus;
use xt_map::{Access, Entry, Kind, mapped};
use xt_sharedbus::{CoreSeat, NoMemory, SharedBus};

const EACH: u32 = 1000;

const UART: u32 = 0x3FF40000;

/// An access by a pseudo-random number: of one of two words, a half or a byte of it, or of UART0.
fn access_of(random: u32) -> Access {
    let word = 0x3FFB0000 + 4 * (random / 8 % 2);
    let (half, byte) = (word + 2 * (random / 16 % 2), word + random / 16 % 4);
    let (addr, size, kind) = match random % 8 {
        0 => (word, 4, Kind::Load),
        1 => (half, 2, Kind::Load),
        2 => (byte, 1, Kind::Load),
        3 => (word, 4, Kind::Store(random)),
        4 => (half, 2, Kind::Store(random % 65536)),
        5 => (byte, 1, Kind::Store(random / 64 % 256)),
        6 => (word, 4, Kind::Cas(0, random)),
        _ => (UART, 1, Kind::Store(random / 64 % 256)),
    };
    Access { addr, size, kind }
}

/// The compare-and-swap again, with the word that it found, where it found another than expected.
fn retry_of(access: Access, reply: u32) -> Option<Access> {
    match access.kind {
        Kind::Cas(expected, new) if reply != expected => Some(Access {
            addr: access.addr,
            size: access.size,
            kind: Kind::Cas(reply, new),
        }),
        _ => None,
    }
}

/// Makes one access, where the bus serves it and the seat has one left.
fn make<R: Wait>(rt: &R, bus: &SharedBus, seat: &mut CoreSeat, access: Access) -> Option<u32>
    requires { seat.old.bus ≡ bus.now }
    ensures { (seat.new.bus ≡ seat.old.bus) × (seat.new.core ≡ seat.old.core) }
{
    if seat.left() == 0 || !mapped(&access) {
        return None;
    }
    Some(bus.access(rt, seat, access))
}

type Calls = Vec<(Access, u32)>;

/// Makes all accesses of one core, and answers them with their replies.
fn make_all<R: Wait>(
    rt: &R,
    alloc: Global,
    bus: &SharedBus,
    mut seat: CoreSeat,
    mut random: u32,
) -> (CoreSeat, Result<Calls, AllocError>)
    requires { seat.bus ≡ bus.now }
    ensures { (result.0.bus ≡ seat.bus) × (result.0.core ≡ seat.core) }
{
    let mut calls = Vec::new(alloc);
    let mut retry = None;
    for _ in 0..EACH {
        random = random.wrapping_mul(1664525).wrapping_add(1013904223);
        let access = retry.unwrap_or(access_of(random / 256));
        if let Some(reply) = make(rt, bus, &mut seat, access) {
            retry = retry_of(access, reply);
            if calls.push((access, reply)).is_err() {
                return (seat, Err(AllocError));
            }
        }
    }
    (seat, Ok(calls))
}

/// Makes the accesses of both cores, each on a thread, and answers the bus and the two lists.
fn make_both<R: Threads + Wait + Sync>(
    rt: &R,
    alloc: Global,
    shared: SharedBus,
    seat0: CoreSeat,
    seat1: CoreSeat,
) -> Result<(Bus, Calls, Calls), AllocError>
    requires buses { (seat0.bus ≡ shared) × (seat1.bus ≡ shared) }
    requires cores { (seat0.core ≡ 0) × (seat1.core ≡ 1) }
{
    let bus = &shared;
    let barrier = Barrier::new(2);
    let start = &barrier;
    let ((seat0, calls0), (seat1, calls1)) = join(
        rt,
        move || -> (CoreSeat, Result<Calls, AllocError>)
            requires { seat0.bus ≡ bus.now }
            ensures { (result.0.bus ≡ seat0.bus) × (result.0.core ≡ seat0.core) }
        {
            start.wait(rt);
            make_all(rt, alloc, bus, seat0, 1)
        },
        move || -> (CoreSeat, Result<Calls, AllocError>)
            requires { seat1.bus ≡ bus.now }
            ensures { (result.0.bus ≡ seat1.bus) × (result.0.core ≡ seat1.core) }
        {
            start.wait(rt);
            make_all(rt, alloc, bus, seat1, 2)
        },
    );
    let bus = shared.close(rt, seat0, seat1);
    Ok((bus, calls0?, calls1?))
}

/// Whether a core's entries are these accesses with their replies.
fn has_calls(history: &[Entry], core: u8, calls: &[(Access, u32)]) -> bool {
    let mut rest = calls.iter();
    for entry in history {
        if entry.core == core {
            match rest.next() {
                Some(call) if *call == (entry.access, entry.reply) => (),
                _ => return false,
            }
        }
    }
    rest.next().is_none()
}

/// The byte that an entry wrote at an address.
fn written_by(entry: &Entry, addr: u32) -> Option<u8> {
    let value = match entry.access.kind {
        Kind::Store(value) => value,
        Kind::Cas(expected, new) if entry.reply == expected => new,
        _ => return None,
    };
    let place = addr.wrapping_sub(entry.access.addr);
    if place >= entry.access.size as u32 {
        return None;
    }
    value.to_le_bytes().get(place as usize).copied()
}

/// The byte at an address after these entries: what the last of them that wrote it wrote.
fn byte_after(front: &[Entry], addr: u32) -> u8 {
    for entry in front.iter().rev() {
        if let Some(byte) = written_by(entry, addr) {
            return byte;
        }
    }
    0
}

/// The reply to an access after these entries.
fn reply_after(front: &[Entry], access: &Access) -> u32 {
    if access.addr == UART || matches!(access.kind, Kind::Store(_)) {
        return 0;
    }
    let mut bytes = [0; 4];
    for (byte, place) in bytes.iter_mut().zip(0..access.size) {
        *byte = byte_after(front, access.addr.wrapping_add(place as u32));
    }
    u32::from_le_bytes(bytes)
}

/// Whether each reply is the one after the entries before it.
fn is_legal(history: &[Entry]) -> bool {
    for (k, entry) in history.iter().enumerate() {
        if entry.reply != reply_after(&history[..k], &entry.access) {
            return false;
        }
    }
    true
}

/// Whether these are the bytes stored to UART0, in order.
fn has_sent(history: &[Entry], sent: &[u8]) -> bool {
    let mut rest = sent.iter();
    for entry in history {
        if entry.access.addr == UART && rest.next().copied() != written_by(entry, UART) {
            return false;
        }
    }
    rest.next().is_none()
}

#[test]
fn two_threads_on_one_bus(rt: HostRuntime) -> Result<(), Fail> {
    let alloc = rt.alloc();
    let bus = Bus::make(alloc, &[], &[], 2 * EACH)?;
    let (shared, seat0, seat1) = match SharedBus::make(&rt, alloc, bus, EACH, EACH) {
        Ok(made) => made,
        Err(NoMemory { .. }) => return Err(AllocError.into()),
    };
    let (bus, calls0, calls1) = make_both(&rt, alloc, shared, seat0, seat1)?;
    let history = bus.history();
    assert_eq!(rt; history.len(), 2000);
    assert!(rt; has_calls(history, 0, &calls0) && has_calls(history, 1, &calls1));
    assert!(rt; is_legal(history) && has_sent(history, bus.sent()));
    Ok(())
}
