//! Whether the next turn of a core uses time.
ghost use Rattle.std.specs.Prelude.{◌≡◌, ℕ, ◌==◌, ◌&&◌, ◌||◌, not, true, slice_index};
ghost use Rattle.xt_isa.specs.Ranges.{in_range};
ghost use Rattle.xt_map.specs.Memory.{constant_byte};
ghost use Rattle.xt_map.specs.Fetching.{Fetches, fetch_at};
ghost use Rattle.xt_special.specs.Numbers as numbers;
ghost use Rattle.xt_special.specs.Interrupts.{pending_level};
ghost use Rattle.xt_exec.specs.States.{state_of};
ghost use Rattle.xt_exec.specs.Turn.{planned_turn, window_check};
ghost use Rattle.xt_timeless.specs.Time.{executes, fetches_time, is_of_time, reads_compare, reads_time, uses_time, writes_compare};

use crate::clearing::TIMER_BITS;
use xt_codec::{Fetch, instruction_at};
use xt_exec::Regs;
use xt_isa::Insn;
use xt_isa::memory::Memory;
use xt_isa::system::{SpecialName, System};
use xt_map::Constants;
use xt_rows::highest_register;
use xt_special::{Special, number};
use xt_window::Windows;

// Whether a special register is one of time.
fn is_of_time(n: u8) -> bool
    ensures { result ≡ is_of_time n }
{
    match n {
        number::CCOUNT | number::INTERRUPT => true,
        number::CCOMPARE0..=number::CCOMPARE2 => true,
        _ => false,
    }
}

/// Whether an instruction is RSR or XSR of a register of time.
pub fn reads_time(insn: Insn) -> bool
    ensures { result ≡ reads_time insn }
{
    match insn {
        Insn::System(System::Special(SpecialName::Rsr, _, n)) => is_of_time(n),
        Insn::System(System::Special(SpecialName::Xsr, _, n)) => is_of_time(n),
        _ => false,
    }
}

/// Whether an instruction is S32C1I, or RSR or XSR of SCOMPARE1.
pub fn reads_compare(insn: Insn) -> bool
    ensures { result ≡ reads_compare insn }
{
    match insn {
        Insn::Memory(Memory::S32c1i(_, _, _)) => true,
        Insn::System(System::Special(SpecialName::Rsr, _, n)) => n == number::SCOMPARE1,
        Insn::System(System::Special(SpecialName::Xsr, _, n)) => n == number::SCOMPARE1,
        _ => false,
    }
}

/// Whether an instruction is WSR of SCOMPARE1.
pub fn writes_compare(insn: Insn) -> bool
    ensures { result ≡ writes_compare insn }
{
    match insn {
        Insn::System(System::Special(SpecialName::Wsr, _, n)) => n == number::SCOMPARE1,
        _ => false,
    }
}

// Whether no interrupt is taken.
fn is_calm(s: &Special) -> bool
    ensures { result ≡ (pending_level (slice_index s.now.file numbers.interrupt) (slice_index s.now.file numbers.intenable) s.now.ps == 0) }
{
    xt_special::entries::pending(s).is_none()
}

// Whether no window stands in the way of an instruction that reads a register of time.
fn is_free<W: Windows>(r: &Regs<W>, insn: Insn) -> bool
    requires range { in_range insn ≡ true }
    requires time { reads_time insn ≡ true }
    ensures { result ≡ (window_check insn (state_of W.regs W.base W.start r.now) == 0) }
{
    if !r.sr.woe() || r.sr.excm() {
        return true;
    }
    r.win.check(highest_register(insn) / 4).is_none()
}

// Whether all three hold.
fn are_all(a: bool, b: bool, c: bool) -> bool
    ensures { result ≡ (a && (b && c)) }
{
    a && b && c
}

// Whether the next turn executes this instruction, which is the one at the program counter and reads a
// register of time.
fn is_executed<W: Windows>(r: &Regs<W>, insn: Insn) -> bool
    requires range { in_range insn ≡ true }
    requires time { reads_time insn ≡ true }
    ensures { let s = state_of W.regs W.base W.start r.now in
        (code : ℕ → ℕ) (len : ℕ) → fetch_at code s.control.pc ≡ Fetches insn len → result ≡ executes (planned_turn code s).kind }
{
    are_all(is_calm(&r.sr), !r.waiting, is_free(r, insn))
}

// Whether the next turn executes an instruction that reads a register of time.
fn executes_time<W: Windows>(r: &Regs<W>, code: &Constants) -> bool
    ensures { let s = state_of W.regs W.base W.start r.now in
        result ≡ (executes (planned_turn (constant_byte code.now) s).kind && fetches_time (fetch_at (constant_byte code.now) s.control.pc)) }
{
    match instruction_at::<W>(code, r.pc) {
        Fetch::Insn(insn, _) => {
            if reads_time(insn) {
                is_executed(r, insn)
            } else {
                false
            }
        }
        Fetch::Fails(_) => false,
        Fetch::Nothing => false,
    }
}

/// Whether the next turn of a core uses time.
pub fn uses_time<W: Windows>(r: &Regs<W>, code: &Constants) -> bool
    ensures { result ≡ uses_time (constant_byte code.now) (state_of W.regs W.base W.start r.now) }
{
    let enabled = r.sr.register(number::INTENABLE) & TIMER_BITS;
    enabled != 0 || executes_time(r, code)
}
