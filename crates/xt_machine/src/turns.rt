//! One turn of a core over the bus.
ghost use Rattle.std.specs.Prelude.{◌≡◌, ◌+◌, ◌<◌, ◌≤◌, true, false, None, nat_lt};
ghost use Rattle.xt_map.specs.Memory.{constant_byte};
ghost use Rattle.xt_trace.specs.Short.{short_line};
ghost use Rattle.xt_exec.specs.Chips.{processor};
ghost use Rattle.xt_machine.specs.Shorts.{core_after_bus_turn, line_of};

use xt_bus::Bus;
use xt_core::{Begin, Core};
use xt_map::Constants;
use xt_window::Windows;

/// One turn of a core, or nothing where it has ended. It answers whether there was a turn. Takes no
/// memory.
#[inline(always)]
pub fn make_turn<W: Windows>(
    core: &mut Core<W>,
    number: u8,
    code: &Constants,
    bus: &mut Bus,
) -> bool
    requires waiting { core.old.waiting ≡ None }
    requires number { number < 2 }
    requires room { core.old.left ≤ bus.old.spare }
    ensures made { result ≡ nat_lt 0 core.old.left }
    ensures core { core.new ≡ core_after_bus_turn (constant_byte code.now) core.old.left core.old (line_of bus.old) }
    ensures line { line_of bus.new ≡ short_line (processor (constant_byte code.now)) number core.old.left core.old.state (line_of bus.old) }
    ensures spare { bus.old.spare + core.new.left ≤ bus.new.spare + core.old.left }
{
    match core.turn_begin(code) {
        Begin::Ended => false,
        Begin::Local => true,
        Begin::Bus(access) => {
            let reply = bus.step(number, access);
            core.turn_end(reply);
            true
        }
    }
}
