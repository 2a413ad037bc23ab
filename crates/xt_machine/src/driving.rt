//! One core on one thread.
ghost use Rattle.std.specs.Prelude.{◌≡◌, ◌≤◌, None};
ghost use Rattle.xt_map.specs.Memory.{constant_byte};
ghost use Rattle.xt_machine.specs.Driving.{WasDriven};

use std::sync::Wait;
use xt_core::{Begin, Core};
use xt_io::Gate;
use xt_map::Constants;
use xt_sharedbus::{CoreSeat, SharedBus};
use xt_window::Windows;

/// Makes the turns of one core over its seat, until it has stopped or has no turn left. Before its
/// k-th access, counted from 0, it passes the gate. It may wait, and takes no memory.
///
/// Conditions: the seat is one of this bus and of this core, no access waits, and the seat has as
/// many accesses left as the core has turns, or more.
pub fn drive<W: Windows, G: Gate, R: Wait>(
    rt: &R,
    core: &mut Core<W>,
    code: &Constants,
    bus: &SharedBus,
    seat: &mut CoreSeat,
    gate: &G,
)
    requires bus { seat.old.bus ≡ bus.now }
    requires core { seat.old.core ≡ core.old.core }
    requires waiting { core.old.waiting ≡ None }
    requires left { core.old.left ≤ seat.old.left }
    ensures driven { WasDriven (constant_byte code.now) core.old core.new seat.old.list seat.new.list }
    ensures seat { (seat.new.bus ≡ seat.old.bus) × (seat.new.core ≡ seat.old.core) × (seat.new.opening ≡ seat.old.opening) }
{
    let number = seat.core();
    let room = seat.left();
    let mut calls = 0;
    'turns: loop {
        match core.turn_begin(code) {
            Begin::Ended => return,
            Begin::Local => (),
            Begin::Bus(access) => {
                gate.before(number, calls);
                let reply = bus.access(rt, seat, access);
                core.turn_end(reply);
                calls += 1;
            }
        }
    }
}
