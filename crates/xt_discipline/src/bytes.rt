//! The bytes of internal data memory: which lie in live save areas, and which are stale.
#![tactic(auto)]

ghost use Rattle.std.specs.Prelude.{◌≡◌, ◌+◌, ◌≤◌, ◌<◌, ◌^◌, length};
ghost use Rattle.xt_discipline.specs.ByteMarks.{IsChanged, byte_after_change, held_at, nothing};

/// The first address of internal data memory.
const FIRST: u64 = 0x3FFA_E000;

/// What is known of a byte.
#[derive(Clone, Copy)]
pub struct Held {
    /// It lies in a live save area of core 0.
    pub live0: bool,
    /// It lies in a live save area of core 1.
    pub live1: bool,
    /// It lies in no live save area, was in one, and no judged store has written it since.
    pub stale: bool,
}

/// What becomes of a byte.
#[derive(Clone, Copy)]
pub enum Change {
    /// It comes into a live save area of this core.
    Enters(u8),
    /// It leaves a live save area of this core.
    Leaves(u8),
    /// A judged store writes it.
    Stored,
}

/// A byte that lies in no live save area and is not stale.
pub fn nothing() -> Held
    ensures { result ≡ nothing }
{
    Held {
        live0: false,
        live1: false,
        stale: false,
    }
}

/// A byte after a change.
pub fn byte_after_change(change: Change, held: Held) -> Held
    ensures { result ≡ byte_after_change change held }
{
    let Held {
        live0,
        live1,
        stale,
    } = held;
    match change {
        Change::Enters(0) => Held {
            live0: true,
            live1,
            stale: false,
        },
        Change::Enters(_) => Held {
            live0,
            live1: true,
            stale: false,
        },
        Change::Leaves(0) => Held {
            live0: false,
            live1,
            stale: !live1,
        },
        Change::Leaves(_) => Held {
            live0,
            live1: false,
            stale: !live0,
        },
        Change::Stored => Held {
            live0,
            live1,
            stale: false,
        },
    }
}

/// What is known of the byte at an address.
pub fn held_at(marks: &[Held], addr: u64) -> Held
    ensures { result ≡ held_at marks.now addr }
{
    if addr < FIRST {
        return nothing();
    }
    let place = addr - FIRST;
    if place < marks.len() as u64 {
        marks[place as usize]
    } else {
        nothing()
    }
}

/// Changes what is known of one byte, where it is one of internal data memory.
fn change_byte(marks: &mut [Held], change: Change, addr: u64)
    ensures len { length marks.new ≡ length marks.old }
    ensures bytes { IsChanged change addr 1 marks.old marks.new }
{
    if addr < FIRST {
        return;
    }
    let place = addr - FIRST;
    if place < marks.len() as u64 {
        let held = marks[place as usize];
        marks[place as usize] = byte_after_change(change, held);
    }
}

/// Changes what is known of so many bytes from an address on, as far as they are bytes of internal data memory.
pub fn change_bytes(marks: &mut [Held], change: Change, from: u64, size: u64)
    requires { from + size < 2 ^ 64 }
    ensures len { length marks.new ≡ length marks.old }
    ensures bytes { IsChanged change from size marks.old marks.new }
{
    for k in 0..size {
        change_byte(marks, change, from + k);
    }
}
