//! A core whose timers fire at any moment.
ghost use Rattle.std.specs.Prelude.{◌≡◌, ◌≢◌, ◌<◌, IfOk, OnOk, bit_or};
ghost use Rattle.xt_map.specs.Memory.{HasSizes, constant_byte};
ghost use Rattle.xt_map.specs.Code.{AreBytes};
ghost use Rattle.xt_trace.specs.Validity.{IsValid};
ghost use Rattle.xt_special.specs.Control.{special_of};
ghost use Rattle.xt_special.specs.Numbers as numbers;
ghost use Rattle.xt_map.specs.Fetching.{fetch_at};
ghost use Rattle.xt_trace.specs.Calls.{is_stop};
ghost use Rattle.xt_trace.specs.Worlds.{answer, memory_left};
ghost use Rattle.xt_search.specs.Changed.{contents_of};
ghost use Rattle.xt_core.specs.Runs.{opening_at};
ghost use Rattle.xt_rows.specs.RowLaws.{IsWord};
ghost use Rattle.xt_exec.specs.States.{file_state};
ghost use Rattle.xt_exec.specs.Turn.{demand, turn};
ghost use Rattle.xt_exec.specs.TurnLaws.{IsServed, IsShaped};
ghost use Rattle.xt_moments.specs.Moments.{armed_in, core_fired, core_past, is_armed, opening_core, memory_past, with_special, with_timers};
ghost use Rattle.xt_moments.specs.WorldLaws.{begun, turn_of};

use crate::arming::{armed_by, interrupt_past, timer_bit, without_bits};
use std::alloc::AllocError;
use std::marker::Model;
use xt_bus::Memory;
use xt_codec::{Fetch, instruction_at};
use xt_core::{StartedTurn, end_turn, start_turn};
use xt_exec::Regs;
use xt_map::{Access, Constants};
use xt_search::Changes;
use xt_special::number;
use xt_trace::{Options, StepKind, StepRecord};
use xt_window::WindowFile;

/// A core between two moves: its registers, the bits of INTERRUPT whose timers are armed, and
/// whether it has stopped. Contracts see its state in place of the registers.
#[derive(Drop)]
pub struct Actor {
    regs: Regs<WindowFile>,
    armed: u32,
    stopped: bool,
}

impl Model for Actor {
    ghost use Rattle.xt_exec.specs.States.{file_state};
    ghost use Rattle.xt_exec.specs.TurnLaws.{IsShaped};
    ghost use Rattle.xt_moments.specs.Moments as moments;

    ghost Value = { moments.MomentCore };

    ghost view = { λ a. record { state = file_state a.regs; armed = a.armed; stopped = a.stopped } };

    ghost invariant = { λ a. IsShaped (file_state a.regs) };
}

// The bit whose timer a turn of this kind arms at this program counter, 0 if it arms none.
fn armed_in(kind: StepKind, code: &Constants, pc: u32) -> u32
    ensures { result ≡ armed_in kind (fetch_at (constant_byte code.now) pc) }
{
    match kind {
        StepKind::Insn => match instruction_at::<WindowFile>(code, pc) {
            Fetch::Insn(insn, _) => armed_by(insn),
            Fetch::Fails(_) => 0,
            Fetch::Nothing => 0,
        },
        StepKind::Window(_)
        | StepKind::Exc(_)
        | StepKind::Interrupt(_)
        | StepKind::Wait
        | StepKind::Stop => 0,
    }
}

// The registers with this value in a special register.
fn with_register(regs: Regs<WindowFile>, n: u8, value: u32) -> Regs<WindowFile>
    requires shaped { IsShaped (file_state regs) }
    requires sar { n ≢ 3 }
    requires vecbase { n ≢ 231 }
    ensures state { file_state result ≡ with_special n value (file_state regs) }
    ensures shaped { IsShaped (file_state result) }
{
    let mut kept = regs;
    kept.sr.set_register(n, value);
    kept
}

// One turn with the reply that its access gets, and its record.
fn begun_turn(
    regs: &mut Regs<WindowFile>,
    code: &Constants,
    opening: &Memory,
    changes: &Changes,
) -> StepRecord
    requires sizes { HasSizes opening.now.contents }
    ensures turn { let code = constant_byte code.now in let s = file_state regs.old in
        (result, file_state regs.new) ≡ turn code s (answer (demand code s) (contents_of opening.now.contents changes.now)) }
    ensures word { IsWord (answer (demand (constant_byte code.now) (file_state regs.old)) (contents_of opening.now.contents changes.now)) }
{
    match start_turn(regs, code) {
        StartedTurn::Local(record) => record,
        StartedTurn::Asks(pending) => {
            let reply = changes.reply(opening, pending.access);
            end_turn(regs, pending, reply)
        }
    }
}

// Serves the access of a turn, if there is one. The only error is running out of memory.
fn serve(access: Option<Access>, opening: &Memory, changes: &mut Changes) -> Result<(), AllocError>
    requires sizes { HasSizes opening.now.contents }
    requires served { IsServed access }
    ensures { OnOk result (contents_of opening.now.contents changes.new ≡ memory_left access (contents_of opening.now.contents changes.old)) }
{
    if let Some(access) = access {
        changes.serve(opening, access)?;
    }
    Ok(())
}

impl Actor {
    /// A core that opens at `pc`, with this core's stack of the options. None of its timers is
    /// armed.
    ///
    /// Conditions: the core is 0 or 1, and the options are valid.
    pub fn open(core: u8, pc: u32, options: &Options) -> Actor
        requires core { core < 2 }
        requires valid { IsValid options.now }
        ensures { result ≡ opening_core (opening_at core pc options.now) }
    {
        let stack = if core == 0 {
            options.stack0
        } else {
            options.stack1
        };
        Actor {
            regs: Regs::open(core, pc, options.vecbase, stack.hi, WindowFile::new()),
            armed: 0,
            stopped: false,
        }
    }

    /// The same core.
    pub fn copy(&self) -> Actor
        ensures { result ≡ self.now }
    {
        Actor {
            regs: self.regs,
            armed: self.armed,
            stopped: self.stopped,
        }
    }

    /// The program counter.
    pub fn pc(&self) -> u32
        ensures { result ≡ self.now.state.control.pc }
    {
        self.regs.pc
    }

    /// Whether the core has stopped.
    pub fn has_stopped(&self) -> bool
        ensures { result ≡ self.now.stopped }
    {
        self.stopped
    }

    /// Whether a timer is armed.
    ///
    /// Condition: `timer` is 0, 1 or 2.
    pub fn is_armed(&self, timer: u8) -> bool
        requires { timer < 3 }
        ensures { result ≡ is_armed timer self.now }
    {
        self.armed & timer_bit(timer) != 0
    }

    /// The core after a timer has fired, or as it is if the timer is not armed.
    ///
    /// Condition: `timer` is 0, 1 or 2.
    pub fn fired(&self, timer: u8) -> Actor
        requires { timer < 3 }
        ensures { result ≡ core_fired timer self.now }
    {
        if !self.is_armed(timer) {
            return self.copy();
        }
        let interrupt = self.regs.sr.register(number::INTERRUPT) | timer_bit(timer);
        Actor {
            regs: with_register(self.regs, number::INTERRUPT, interrupt),
            armed: without_bits(self.armed, timer_bit(timer)),
            stopped: self.stopped,
        }
    }

    // The core after a turn of this kind, which began with these registers and left those.
    // INTERRUPT is still as the turn left it.
    fn past(
        &self,
        code: &Constants,
        before: &Regs<WindowFile>,
        after: Regs<WindowFile>,
        kind: StepKind,
    ) -> Actor
        requires { IsShaped (file_state after) }
        ensures { let s = file_state before.now in let armed = armed_in kind (fetch_at (constant_byte code.now) s.control.pc) in
            result ≡ record {
              state = with_timers (special_of s.control numbers.interrupt) armed (file_state after);
              armed = bit_or self.now.armed armed;
              stopped = is_stop kind;
            } }
    {
        let armed = armed_in(kind, code, before.pc);
        let interrupt = interrupt_past(
            before.sr.register(number::INTERRUPT),
            armed,
            after.sr.register(number::INTERRUPT),
        );
        Actor {
            regs: with_register(after, number::INTERRUPT, interrupt),
            armed: self.armed | armed,
            stopped: stops(kind),
        }
    }

    /// The registers with which the core's next turn begins, at which CCOUNT is this number.
    pub fn begun(&self, count: u32) -> Regs<WindowFile>
        ensures state { file_state result ≡ begun count self.now }
        ensures shaped { IsShaped (file_state result) }
    {
        with_register(self.regs, number::CCOUNT, count)
    }

    /// The record of the core's next turn, at which CCOUNT is this number, and the registers that
    /// the processor leaves. The access is not served.
    pub fn next_turn(
        &self,
        code: &Constants,
        opening: &Memory,
        changes: &Changes,
        count: u32,
    ) -> (StepRecord, Regs<WindowFile>)
        requires { HasSizes opening.now.contents }
        ensures { (result.0, file_state result.1) ≡ turn_of (constant_byte code.now) count self.now (contents_of opening.now.contents changes.now) }
    {
        let mut regs = self.begun(count);
        let record = begun_turn(&mut regs, code, opening, changes);
        (record, regs)
    }

    /// The core after its next turn, at which CCOUNT is this number, or as it is if it has stopped.
    /// The access is served. The only error is running out of memory.
    pub fn turned(
        &self,
        code: &Constants,
        opening: &Memory,
        changes: &mut Changes,
        count: u32,
    ) -> Result<Actor, AllocError>
        requires sizes { HasSizes opening.now.contents }
        requires bytes { AreBytes (constant_byte code.now) }
        ensures core { IfOk result (λ a. a ≡ core_past (constant_byte code.now) count self.now (contents_of opening.now.contents changes.old)) }
        ensures memory { OnOk result (contents_of opening.now.contents changes.new ≡ memory_past (constant_byte code.now) count self.now (contents_of opening.now.contents changes.old)) }
    {
        if self.stopped {
            return Ok(self.copy());
        }
        let before = with_register(self.regs, number::CCOUNT, count);
        let mut after = before;
        let record = begun_turn(&mut after, code, opening, changes);
        serve(record.access, opening, changes)?;
        Ok(self.past(code, &before, after, record.kind))
    }
}

// Whether a turn of this kind stops its core.
fn stops(kind: StepKind) -> bool
    ensures { result ≡ is_stop kind }
{
    matches!(kind, StepKind::Stop)
}
