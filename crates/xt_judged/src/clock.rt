//! Whether a step of the frame machine uses time.
ghost use Rattle.std.specs.Prelude.{◌≡◌, ◌==◌, ◌||◌, not, bit_and};
ghost use Rattle.xt_map.specs.Memory.{constant_byte};
ghost use Rattle.xt_map.specs.Fetching.{fetch_at};
ghost use Rattle.xt_timeless.specs.Time.{fetches_time, timer_bits};

use xt_codec::{Fetch, instruction_at};
use xt_frames::Frames;
use xt_map::Constants;
use xt_outcomes::has_timer;
use xt_timeless::reads_time;

// Whether the instruction at an address is RSR or XSR of a register of time.
fn fetches_time(code: &Constants, pc: u32) -> bool
    ensures { result ≡ fetches_time (fetch_at (constant_byte code.now) pc) }
{
    match instruction_at::<Frames>(code, pc) {
        Fetch::Insn(insn, _) => reads_time(insn),
        Fetch::Fails(_) => false,
        Fetch::Nothing => false,
    }
}

// Whether one of them is true.
fn is_either(a: bool, b: bool) -> bool
    ensures { result ≡ (a || b) }
{
    a || b
}

// Whether the instruction at an address is RSR or XSR of a register of time, by that of another address.
fn reads_time_at(code: &Constants, pc: u32, other: u32, is_so: bool) -> bool
    requires { is_so ≡ fetches_time (fetch_at (constant_byte code.now) other) }
    ensures { result ≡ fetches_time (fetch_at (constant_byte code.now) pc) }
{
    if pc == other {
        return is_so;
    }
    fetches_time(code, pc)
}

/// Whether a core's next step of the frame machine uses time, by INTENABLE and the program counter that it
/// finds.
pub fn uses_time(code: &Constants, intenable: u32, pc: u32) -> bool
    ensures { result ≡ (not (bit_and intenable timer_bits == 0) || fetches_time (fetch_at (constant_byte code.now) pc)) }
{
    is_either(has_timer(intenable), fetches_time(code, pc))
}

/// The same, where the instruction at another address reads a register of time or not.
pub fn uses_time_by(code: &Constants, intenable: u32, pc: u32, other: u32, is_so: bool) -> bool
    requires { is_so ≡ fetches_time (fetch_at (constant_byte code.now) other) }
    ensures { result ≡ (not (bit_and intenable timer_bits == 0) || fetches_time (fetch_at (constant_byte code.now) pc)) }
{
    is_either(has_timer(intenable), reads_time_at(code, pc, other, is_so))
}
