//! One turn of a core, from a world that is kept.
ghost use Rattle.std.specs.Prelude.{◌≡◌, ◌-◌, ◌<◌, ◌≤◌, ◌==◌, ◌||◌, if◌then◌else◌, not, true, bit_and, IfOk, IfSome, OnOk};
ghost use Rattle.xt_map.specs.Fetching.{fetch_at};
ghost use Rattle.xt_timeless.specs.Time.{fetches_time, timer_bits};
ghost use Rattle.xt_map.specs.Memory.{HasSizes, constant_byte};
ghost use Rattle.xt_map.specs.Regions.{is_mapped};
ghost use Rattle.xt_map.specs.Code.{AreBytes};
ghost use Rattle.xt_trace.specs.Calls.{is_stop};
ghost use Rattle.xt_trace.specs.Worlds.{answer, left_past};
ghost use Rattle.xt_search.specs.Changed.{contents_of};
ghost use Rattle.xt_exec.specs.States.{file_state};
ghost use Rattle.xt_rows.specs.RowLaws.{IsWord};
ghost use Rattle.xt_exec.specs.Turn.{demand, turn};
ghost use Rattle.xt_exec.specs.TurnLaws.{IsShaped};
ghost use Rattle.xt_outcomes.specs.Ahead.{IsAhead, IsReady};
ghost use Rattle.xt_outcomes.specs.Dead.{compare_cleared, forgotten, side_forgotten};
ghost use Rattle.xt_outcomes.specs.SpotRaces.{next_of};
ghost use Rattle.xt_outcomes.specs.Spots.{more_kept, side_bars, state_kept};

use crate::dead::{Dead, forget, has_compare, registers_in};
use crate::sides::Side;
use xt_bus::Memory;
use xt_core::{StartedTurn, end_turn, start_turn};
use xt_exec::Regs;
use xt_map::{Access, Constants};
use xt_search::Changes;
use xt_special::{Special, number};
use xt_timeless::{clear_time, uses_time};
use xt_trace::{StepKind, StepRecord};
use xt_window::WindowFile;

/// A core's next turn: the registers after it, and its record. Its access is not served yet.
#[derive(Clone, Copy)]
pub struct Ahead {
    pub regs: Regs<WindowFile>,
    pub record: StepRecord,
}

// The turns that are left after one, of so many. Where it is not timed, one stands for all.
fn left_after(left: u32, stops: bool, timed: bool) -> u32
    requires { 0 < left }
    ensures { result ≡ (if stops then 0 else more_kept timed (left - 1)) }
{
    if stops {
        0
    } else if timed {
        left - 1
    } else {
        1
    }
}

/// Leaves time out of registers, where it is not timed.
pub(crate) fn leave_time(regs: &mut Regs<WindowFile>, timed: bool)
    requires { IsShaped (file_state regs.old) }
    ensures state { file_state regs.new ≡ state_kept timed (file_state regs.old) }
    ensures shaped { IsShaped (file_state regs.new) }
{
    if timed {
        return;
    }
    clear_time(&mut regs.sr);
}

// Whether one of them is true.
fn is_either(a: bool, b: bool) -> bool
    ensures { result ≡ (a || b) }
{
    a || b
}

// The bits of INTERRUPT that the timers set: 6, 15 and 16.
const TIMER_BITS: u32 = 0x1_8040;

/// Whether INTENABLE has the bit of a timer.
pub fn has_timer(intenable: u32) -> bool
    ensures { result ≡ not (bit_and intenable timer_bits == 0) }
{
    intenable & TIMER_BITS != 0
}

// Whether a turn of this kind stops its core.
fn stops(kind: StepKind) -> bool
    ensures { result ≡ is_stop kind }
{
    matches!(kind, StepKind::Stop)
}

// Puts 0 into SCOMPARE1, if it is dead.
fn forget_compare(is_dead: bool, special: &mut Special)
    ensures { special.new ≡ record special.old { file = compare_cleared is_dead special.old.file } }
{
    if is_dead {
        special.set_register(number::SCOMPARE1, 0);
    }
}

// Leaves the registers out that are dead.
fn leave_dead(regs: &mut Regs<WindowFile>, dead: &Dead)
    requires { IsShaped (file_state regs.old) }
    ensures state { file_state regs.new ≡ forgotten dead.now.masks.items (file_state regs.old) }
    ensures shaped { IsShaped (file_state regs.new) }
{
    let mask = dead.at(regs.pc);
    forget(registers_in(mask), &mut regs.win);
    forget_compare(has_compare(mask), &mut regs.sr);
}

// One turn with the reply that its access gets, and its record.
fn begun_turn(
    regs: &mut Regs<WindowFile>,
    code: &Constants,
    opening: &Memory,
    changes: &Changes,
) -> StepRecord
    requires sizes { HasSizes opening.now.contents }
    ensures turn { let code = constant_byte code.now in let s = file_state regs.old in
        (result, file_state regs.new) ≡ turn code s (answer (demand code s) (contents_of opening.now.contents changes.now)) }
    ensures word { IsWord (answer (demand (constant_byte code.now) (file_state regs.old)) (contents_of opening.now.contents changes.now)) }
{
    match start_turn(regs, code) {
        StartedTurn::Local(record) => record,
        StartedTurn::Asks(pending) => {
            let reply = changes.reply(opening, pending.access);
            end_turn(regs, pending, reply)
        }
    }
}

impl Side {
    /// The access of the core's next turn; None: it makes none, or the core has ended.
    pub fn next_access(&self, code: &Constants) -> Option<Access>
        ensures access { result ≡ next_of (constant_byte code.now) self.now }
        ensures mapped { IfSome result (λ a. is_mapped a ≡ true) }
    {
        if self.left == 0 {
            return None;
        }
        let mut regs = self.regs;
        match start_turn(&mut regs, code) {
            StartedTurn::Local(_) => None,
            StartedTurn::Asks(pending) => Some(pending.access),
        }
    }

    /// Whether the core's next turn uses time, where it is not timed.
    pub fn bars(&self, code: &Constants, timed: bool) -> bool
        ensures { result ≡ side_bars (constant_byte code.now) timed self.now }
    {
        if timed {
            return false;
        }
        self.left != 0 && uses_time(&self.regs, code)
    }

    /// The same, where the instruction at the program counter reads a register of time or not.
    pub fn bars_by(&self, code: &Constants, timed: bool, reads_time: bool) -> bool
        requires { reads_time ≡ fetches_time (fetch_at (constant_byte code.now) self.now.state.control.pc) }
        ensures { result ≡ side_bars (constant_byte code.now) timed self.now }
    {
        if timed || self.left == 0 {
            return false;
        }
        if reads_time {
            return uses_time(&self.regs, code);
        }
        has_timer(self.regs.sr.register(number::INTENABLE))
    }

    /// The core's next turn, with the reply that its access gets.
    #[inline(always)]
    pub fn ahead(&self, code: &Constants, opening: &Memory, changes: &Changes) -> Ahead
        requires sizes { HasSizes opening.now.contents }
        requires bytes { AreBytes (constant_byte code.now) }
        ensures { IsAhead (constant_byte code.now) self.now.state (contents_of opening.now.contents changes.now) result }
    {
        let mut regs = self.regs;
        let record = begun_turn(&mut regs, code, opening, changes);
        Ahead { regs, record }
    }

    /// Puts the core's next turn, with the reply that its access gets, in place of another one.
    ///
    /// Condition: the registers of that are those of the core.
    #[inline(always)]
    pub fn look_ahead(
        &self,
        code: &Constants,
        opening: &Memory,
        changes: &Changes,
        ahead: &mut Ahead,
    )
        requires sizes { HasSizes opening.now.contents }
        requires bytes { AreBytes (constant_byte code.now) }
        requires ready { IsReady self.now.state ahead.old }
        ensures { IsAhead (constant_byte code.now) self.now.state (contents_of opening.now.contents changes.now) ahead.new }
    {
        ahead.record = begun_turn(&mut ahead.regs, code, opening, changes);
    }

    /// The core comes past its next turn; without time, where it is not timed.
    ///
    /// Condition: the core has a turn left.
    #[inline(always)]
    pub(crate) fn come_past(&mut self, ahead: &Ahead, timed: bool)
        requires left { 0 < self.old.left }
        requires shaped { IsShaped (file_state ahead.now.regs) }
        ensures { self.new ≡ record {
          state = state_kept timed (file_state ahead.now.regs);
          left = left_past ahead.now.record (more_kept timed (self.old.left - 1));
          stopped = self.old.stopped || is_stop ahead.now.record.kind;
        } }
    {
        let stops = stops(ahead.record.kind);
        self.left = left_after(self.left, stops, timed);
        self.stopped = is_either(self.stopped, stops);
        self.regs = ahead.regs;
        leave_time(&mut self.regs, timed);
    }

    /// The core comes past its next turn; without time, where it is not timed, and without the registers that
    /// are dead. The registers of the turn become those of the core.
    ///
    /// Condition: the core has a turn left.
    #[inline(always)]
    pub(crate) fn go_past(&mut self, ahead: &mut Ahead, timed: bool, dead: &Dead)
        requires left { 0 < self.old.left }
        requires shaped { IsShaped (file_state ahead.old.regs) }
        ensures side { self.new ≡ side_forgotten dead.now.masks.items (record {
          state = state_kept timed (file_state ahead.old.regs);
          left = left_past ahead.old.record (more_kept timed (self.old.left - 1));
          stopped = self.old.stopped || is_stop ahead.old.record.kind;
        }) }
        ensures ready { IsReady self.new.state ahead.new }
    {
        let stops = stops(ahead.record.kind);
        self.left = left_after(self.left, stops, timed);
        self.stopped = is_either(self.stopped, stops);
        leave_time(&mut ahead.regs, timed);
        leave_dead(&mut ahead.regs, dead);
        self.regs = ahead.regs;
    }

    /// Leaves the registers out that are dead.
    pub fn forget(&mut self, dead: &Dead)
        ensures { self.new ≡ side_forgotten dead.now.masks.items self.old }
    {
        leave_dead(&mut self.regs, dead);
    }
}
