//! A frame state without its list of frames, and its step.
#![tactic(auto)]

ghost use Rattle.std.specs.Prelude.{◌≡◌, ◌<◌, ◌≤◌, ◌^◌, ◌%◌, ℕ, IfSome, List, [], None, false, true, slice_index_or, slice_set};
ghost use Rattle.xt_isa.specs.Ranges.{in_range};
ghost use Rattle.xt_map.specs.Memory.{constant_byte};
ghost use Rattle.xt_special.specs.Control.{special_of};
ghost use Rattle.xt_special.specs.Numbers as numbers;
ghost use Rattle.xt_special.specs.Interrupts.{pending_of};
ghost use Rattle.xt_special.specs.Timers.{after_tick};
ghost use Rattle.xt_rows.specs.Effects.{puts, no_change};
ghost use Rattle.xt_rows.specs.RowLaws.{IsAny, IsProper, IsProperEffect, IsProperStep, IsProperWrite, IsRegister, IsShiftAmount};
ghost use Rattle.xt_rows.specs.Operands.{special_reads};
ghost use Rattle.xt_map.specs.Fetching.{Fetched};
ghost use Rattle.xt_codec.specs.Fetches.{IsFetched, IsGoodFetch};
ghost use Rattle.xt_rows.specs.Outcomes.{outcome_at, value_of};
ghost use Rattle.xt_rows.specs.Settling.{after_effect, after_flow, after_outcome, settled_interrupt, settled_wait};
ghost use Rattle.xt_rows.specs.declared.outcome.Flow.TheVariants.{Falls};
ghost use Rattle.xt_frames.specs.Frames.{Frame, value_or_zero, opening_frame, seen_after_write};
ghost use Rattle.xt_frames.specs.FrameStep.{Inputs, done_in_frame, fetched_step, in_frame, with_inputs, step_with_inputs, return_in_frame, entry_in_frame, exception_in_frame, windowed_in_frame};
ghost use Rattle.xt_frames.specs.Breaches.{inputs_of, lacks};
ghost use Rattle.xt_frames.specs.declared.view.Call.TheVariants.{Stays};
ghost use Rattle.xt_special.specs.Shape.{IsPs};
ghost use Rattle.xt_frames.specs.Nesting.{current, nested_view, with_kept_frame};
ghost use Rattle.xt_frames.specs.declared.holes.UndefinedParts.{UndefinedParts};
ghost use Rattle.xt_frames.specs.KeptFrameState.{IsGood, IsNewest, IsPlan, IsSmall, Upper, no_holes, state_at, turn_as};
ghost use Rattle.xt_frames.specs.Stepped.{covered_of};

use crate::holes::{Nested, UndefinedParts};
use crate::registers::{Seen, after_call, after_return, kept_of};
use std::marker::Model;
use xt_codec::{Fetch, instruction_at};
use xt_isa::Insn;
use xt_map::{Access, Constants};
use xt_rows::settling::{self, reply_write, special_value};
use xt_rows::{
    Effect, Flow, Outcome, Values, WindowStep, cause, outcome_of, reads, special_reads, write_to,
};
use xt_special::{Ps, Special, number};
use xt_trace::{RegWrite, StepKind, StepRecord};

/// A frame that has called another.
#[derive(Clone, Copy)]
pub struct Caller {
    /// By how many windows the call moved, 1 to 3.
    pub by: u8,
    /// Its registers a0 to a11, of which the first four times as many are kept for it.
    pub kept: [Option<u32>; 12],
}

/// What a step does to the list of frames.
#[derive(Clone, Copy)]
pub enum Call {
    /// Nothing.
    Stays,
    /// The frame calls another.
    Calls(Caller),
    /// The newest caller goes on.
    Returns,
}

/// What a step was, beside the view that it leaves.
#[derive(Clone, Copy)]
pub struct StepSummary {
    /// What the step is.
    pub kind: StepKind,
    /// The visible register that it writes.
    pub write: Option<RegWrite>,
    /// The access that it makes.
    pub access: Option<Access>,
    /// What it does to the list of frames.
    pub call: Call,
}

/// What the next step is.
#[derive(Clone, Copy)]
pub enum NextEvent {
    /// An interrupt of this level is taken.
    Interrupt(u8),
    /// The core waits.
    Waits,
    /// The bytes at PC are executed, or raise a cause.
    Fetched(Fetch),
}

/// The registers over which the inputs of a record are laid.
#[derive(Clone, Copy)]
pub struct RecordInputs {
    /// CCOUNT.
    pub ccount: u32,
    /// INTERRUPT.
    pub interrupt: u32,
    /// PS.OWB, 0 to 15.
    pub owb: u8,
}

/// The 16 visible registers and the control state.
#[derive(Clone, Copy)]
pub struct FrameRegisters {
    pub(crate) pc: u32,
    pub(crate) seen: Seen,
    pub(crate) special: Special,
    pub(crate) waits: bool,
}

impl Model for FrameRegisters {
    ghost use Rattle.xt_special.specs.Values.{control_at, specials_of};
    ghost use Rattle.xt_frames.specs.KeptFrameState.{Upper};

    ghost Value = { Upper };

    ghost view = { λ v. record { seen = v.seen; control = control_at v.pc v.waits v.special } };

    ghost inverse = { λ v. record { pc = v.control.pc; seen = v.seen; special = specials_of v.control; waits = v.control.waits } };
}

/// A step that stays in its frame and asks for no access.
fn without_access(kind: StepKind, write: Option<RegWrite>) -> StepSummary
    ensures { result ≡ record { kind = kind; write = write; access = None; call = Stays } }
{
    StepSummary {
        kind,
        write,
        access: None,
        call: Call::Stays,
    }
}

impl FrameRegisters {
    /// The state in which a core opens.
    ///
    /// Conditions: the core is 0 or 1, `vecbase` is a multiple of 1024, and `stack_end` is at least 64.
    #[tactic(auto, unfolding(crate::specs::Frames::opening_seen))]
    pub fn open(core: u8, pc: u32, vecbase: u32, stack_end: u32) -> FrameRegisters
        requires vecbase { vecbase % 2 ^ 10 ≡ 0 }
        requires stack { 64 ≤ stack_end }
        ensures { state_at [] no_holes result ≡ opening_frame core pc vecbase stack_end }
    {
        let prid = if core == 0 { 0xCDCD } else { 0xABAB };
        let mut seen = [Some(0); 16];
        seen[1] = Some(stack_end - 64);
        seen[8] = Some(0x8000_0000);
        FrameRegisters {
            pc,
            seen,
            special: Special::new(prid, vecbase),
            waits: false,
        }
    }

    /// The inputs of a record, laid over the state.
    pub fn lay(&mut self, rec: &StepRecord)
        ensures { (frames : List Frame) (h : UndefinedParts) → state_at frames h self.new ≡ with_inputs (inputs_of rec.now) (state_at frames h self.old) }
    {
        self.special.set_register(number::CCOUNT, rec.ccount);
        self.special.set_register(number::INTERRUPT, rec.interrupt);
        self.special.set_owb(rec.owb % 16);
    }

    /// Makes SCOMPARE1 0.
    pub fn clear_compare(&mut self)
        ensures { self.new ≡ record self.old { control = record self.old.control { special = slice_set self.old.control.special numbers.scompare1 0 } } }
    {
        self.special.set_register(number::SCOMPARE1, 0);
    }

    /// Whether the next step executes what is fetched: no interrupt is taken, and the core does not wait.
    pub fn executes(&self) -> bool
        ensures { result ≡ true → (pending_of self.now.control ≡ 0) × (self.now.control.waits ≡ false) }
    {
        match xt_special::entries::pending(&self.special) {
            Some(_) => false,
            None => !self.waits,
        }
    }

    /// What the inputs of a record will be laid over.
    pub fn covered(&self) -> RecordInputs
        ensures value { result ≡ covered_of self.now }
        ensures range { result.owb < 16 }
    {
        RecordInputs {
            ccount: self.special.register(number::CCOUNT),
            interrupt: self.special.register(number::INTERRUPT),
            owb: self.special.owb(),
        }
    }

    /// Takes the inputs of a record off again.
    pub fn uncover(&mut self, covered: RecordInputs)
        requires { covered.owb < 16 }
        ensures { (old : Upper) (inp : Inputs) (frames : List Frame) (h : UndefinedParts) → covered ≡ covered_of old
            → state_at frames h self.old ≡ with_inputs inp (state_at frames h old) → self.new ≡ old }
    {
        self.special.set_register(number::CCOUNT, covered.ccount);
        self.special
            .set_register(number::INTERRUPT, covered.interrupt);
        self.special.set_owb(covered.owb);
    }

    /// The value of a visible register, 0 where it has none.
    pub fn value_or_zero(&self, i: u8) -> u32
        requires { i < 16 }
        ensures { result ≡ value_or_zero self.now.seen i }
    {
        match self.seen[i as usize] {
            Some(value) => value,
            None => 0,
        }
    }

    /// A visible register, with its value or none.
    pub fn visible(&self, i: u8) -> Option<u32>
        requires { i < 16 }
        ensures { result ≡ slice_index_or self.now.seen i None }
    {
        self.seen[i as usize]
    }

    /// A visible register receives a value or none.
    pub fn put(&mut self, i: u8, value: Option<u32>)
        requires { i < 16 }
        ensures { self.new ≡ record self.old { seen = slice_set self.old.seen i value } }
    {
        self.seen[i as usize] = value;
    }

    /// The value of the first special register that an instruction reads, 0 where it reads none.
    pub fn special_read(&self, i: Insn) -> u32
        requires { in_range i ≡ true }
        ensures value { result ≡ value_of (special_of self.now.control) (special_reads i).0 }
        ensures sar { IsShiftAmount i result }
    {
        let (special, _other) = special_reads(i);
        special_value(&self.special, special)
    }

    /// Whether there is a register, and it has no value.
    pub fn lacks(&self, register: Option<u8>) -> bool
        requires { IsRegister register }
        ensures { result ≡ lacks self.now.seen register }
    {
        match register {
            Some(i) => self.seen[i as usize].is_none(),
            None => false,
        }
    }

    /// The state of a nested interrupt: its PC, registers and PS, and all else of this.
    pub fn nested_view(&self, nested: &Nested) -> FrameRegisters
        requires { IsPs nested.now.ps }
        ensures { (frames : List Frame) (h : UndefinedParts) → state_at frames h result ≡ nested_view nested.now (state_at frames h self.now) }
    {
        let mut view = *self;
        view.pc = nested.pc;
        view.seen = nested.seen;
        view.special.set_ps_fields(nested.ps);
        view
    }

    /// What the next step finds: the state of a nested interrupt where there is one.
    pub fn current(&self, holes: &UndefinedParts) -> FrameRegisters
        requires { IfSome holes.now.nested (λ x. IsPs x.ps) }
        ensures { (frames : List Frame) → state_at frames holes.now result ≡ current (state_at frames holes.now self.now) }
    {
        match &holes.nested {
            Some(nested) => self.nested_view(nested),
            None => *self,
        }
    }

    /// The program counter of what the next step finds: that of a nested interrupt where there is one.
    pub fn current_pc(&self, holes: &UndefinedParts) -> u32
        ensures { (frames : List Frame) → result ≡ (current (state_at frames holes.now self.now)).control.pc }
    {
        match &holes.nested {
            Some(nested) => nested.pc,
            None => self.pc,
        }
    }

    /// A special register.
    pub fn special(&self, number: u8) -> u32
        ensures { result ≡ special_of self.now.control number }
    {
        self.special.register(number)
    }

    /// Takes what a step has left, but for PC, registers and PS.
    pub fn keep(&mut self, after: &FrameRegisters)
        ensures { (frames : List Frame) (h : UndefinedParts) → state_at frames h self.new ≡ with_kept_frame (state_at frames h self.old) (state_at frames h after.now) }
    {
        let ps = self.special.ps_fields();
        self.special = after.special;
        self.special.set_ps_fields(ps);
        self.waits = after.waits;
    }

    /// The 16 visible registers.
    pub fn seen(&self) -> Seen
        ensures { result ≡ self.now.seen }
    {
        self.seen
    }

    /// PS.
    pub fn ps(&self) -> Ps
        ensures value { result ≡ self.now.control.ps }
        ensures range { IsPs result }
    {
        self.special.ps_fields()
    }

    /// The program counter.
    #[inline(always)]
    pub fn pc(&self) -> u32
        ensures { result ≡ self.now.control.pc }
    {
        self.pc
    }

    /// Exception mode.
    #[inline(always)]
    pub fn excm(&self) -> bool
        ensures { result ≡ self.now.control.ps.excm }
    {
        self.special.excm()
    }

    /// Whether windows are looked after.
    pub fn woe(&self) -> bool
        ensures { result ≡ self.now.control.ps.woe }
    {
        self.special.woe()
    }

    /// By how many windows the last call moved.
    pub fn callinc(&self) -> u8
        ensures value { result ≡ self.now.control.ps.callinc }
        ensures range { result < 4 }
    {
        self.special.callinc()
    }

    /// VECBASE.
    #[inline(always)]
    pub fn vecbase(&self) -> u32
        ensures { result ≡ special_of self.now.control numbers.vecbase }
    {
        self.special.vecbase()
    }

    #[inline(always)]
    pub(crate) fn tick(&mut self)
        ensures { self.new ≡ record self.old { control = after_tick self.old.control } }
    {
        xt_special::timers::tick(&mut self.special);
    }

    /// Goes on to the next instruction, or back in a loop.
    fn falls(&mut self, len: u8)
        ensures { self.new ≡ record self.old { control = after_flow Falls len self.old.control } }
    {
        self.pc = settling::falls(&mut self.special, self.pc, len);
    }

    /// What an instruction of this length changes beside the visible registers.
    #[inline(always)]
    pub(crate) fn apply(&mut self, e: Effect, len: u8)
        requires { IsProperEffect IsAny e }
        ensures { self.new ≡ record self.old { control = after_effect e len self.old.control } }
    {
        self.pc = settling::apply(&mut self.special, self.pc, e, len);
        self.waits = e.waits;
    }

    #[inline(always)]
    pub(crate) fn write(&mut self, write: Option<RegWrite>)
        requires { IsProperWrite IsAny write }
        ensures { self.new ≡ record self.old { seen = seen_after_write write self.old.seen } }
    {
        if let Some(w) = write {
            self.seen[w.reg as usize] = Some(w.value);
        }
    }

    fn raise(&mut self, cause: u8, addr: Option<u32>) -> StepSummary
        requires { cause < 64 }
        ensures turn { (frames : List Frame) (h : UndefinedParts) → turn_as result frames h self.new ≡ exception_in_frame cause addr (state_at frames h self.old) }
        ensures write { IsProperWrite IsAny result.write }
    {
        self.pc = xt_special::entries::general(&mut self.special, self.pc, cause, addr);
        self.tick();
        without_access(StepKind::Exc(cause), None)
    }

    /// Takes an interrupt.
    pub fn interrupt(&mut self, level: u8) -> StepSummary
        requires low { 1 ≤ level }
        requires high { level ≤ 5 }
        ensures turn { (frames : List Frame) (h : UndefinedParts) → turn_as result frames h self.new ≡ in_frame (settled_interrupt level self.old.control) 0 (state_at frames h self.old) }
        ensures write { IsProperWrite IsAny result.write }
    {
        self.pc = xt_special::entries::interrupt(&mut self.special, self.pc, level);
        self.waits = false;
        self.tick();
        without_access(StepKind::Interrupt(level), None)
    }

    fn wait(&mut self) -> StepSummary
        ensures turn { (frames : List Frame) (h : UndefinedParts) → turn_as result frames h self.new ≡ in_frame (settled_wait self.old.control) 0 (state_at frames h self.old) }
        ensures write { IsProperWrite IsAny result.write }
    {
        self.tick();
        without_access(StepKind::Wait, None)
    }

    /// ENTRY outside exception mode.
    #[tactic(auto, unfolding(crate::specs::FrameStep::entry_in_frame))]
    fn enter(&mut self, number: u8, value: u32, len: u8) -> StepSummary
        requires { number < 16 }
        ensures turn { (frames : List Frame) (h : UndefinedParts) → turn_as result frames h self.new ≡ entry_in_frame number value len (state_at frames h self.old) }
        ensures write { IsProperWrite IsAny result.write }
    {
        let by = self.special.callinc();
        let kept = kept_of(&self.seen);
        self.seen = after_call(&self.seen, by, None);
        self.seen[number as usize] = Some(value);
        self.falls(len);
        self.tick();
        StepSummary {
            kind: StepKind::Insn,
            write: write_to(number, value),
            access: None,
            call: Call::Calls(Caller { by, kept }),
        }
    }

    /// RETW outside exception mode, with this value of a0.
    #[tactic(auto, unfolding(crate::specs::FrameStep::return_in_frame))]
    fn leave(&mut self, a0: u32, newest: &Option<Caller>) -> StepSummary
        requires { IsSmall newest.now }
        ensures turn { (frames : List Frame) (h : UndefinedParts) → IsNewest newest.now frames → turn_as result frames h self.new ≡ return_in_frame a0 (state_at frames h self.old) }
        ensures write { IsProperWrite IsAny result.write }
    {
        let Some(caller) = *newest else {
            return self.raise(cause::ILLEGAL_INSTRUCTION, None);
        };
        self.seen = after_return(&caller.kept, &self.seen, caller.by);
        self.pc = settling::return_pc(self.pc, a0);
        self.tick();
        StepSummary {
            kind: StepKind::Insn,
            write: None,
            access: None,
            call: Call::Returns,
        }
    }

    /// The value of the register, 0 where there is none, or it has no value.
    #[inline(always)]
    pub fn visible_value(&self, register: Option<u8>) -> u32
        requires { IsRegister register }
        ensures { result ≡ value_of (value_or_zero self.now.seen) register }
    {
        match register {
            Some(number) => self.value_or_zero(number),
            None => 0,
        }
    }

    /// What comes of the instruction at PC.
    fn outcome(&self, code: &Constants, i: Insn) -> Outcome
        requires { in_range i ≡ true }
        ensures formula { result ≡ outcome_at (constant_byte code.now) i (value_or_zero self.now.seen) self.now.control }
        ensures proper { IsProper IsAny result }
    {
        let (first, second) = reads(i);
        let (special, other) = special_reads(i);
        let values = Values {
            x: self.visible_value(first),
            y: self.visible_value(second),
            u: special_value(&self.special, special),
            v: special_value(&self.special, other),
        };
        let ps = self.special.ps_fields();
        outcome_of::<Self>(code, i, self.pc, values, ps, self.special.threadptr())
    }

    fn windowed(&mut self, step: WindowStep, len: u8, newest: &Option<Caller>) -> StepSummary
        requires proper { IsProperStep step }
        requires small { IsSmall newest.now }
        ensures turn { (frames : List Frame) (h : UndefinedParts) (reply : ℕ) → IsNewest newest.now frames → turn_as result frames h self.new ≡ windowed_in_frame step len reply (state_at frames h self.old) }
        ensures write { IsProperWrite IsAny result.write }
    {
        match step {
            WindowStep::Enters(number, value) => {
                if self.excm() {
                    self.raise(cause::ILLEGAL_INSTRUCTION, None)
                } else {
                    self.enter(number, value, len)
                }
            }
            WindowStep::Returns(a0) => {
                if self.excm() {
                    self.raise(cause::ILLEGAL_INSTRUCTION, None)
                } else {
                    self.leave(a0, newest)
                }
            }
            _ => {
                self.tick();
                without_access(StepKind::Insn, None)
            }
        }
    }

    /// What an outcome leaves.
    fn carry_out(
        &mut self,
        outcome: Outcome,
        len: u8,
        reply: u32,
        newest: &Option<Caller>,
    ) -> StepSummary
        requires proper { IsProper IsAny outcome }
        requires small { IsSmall newest.now }
        ensures turn { (frames : List Frame) (h : UndefinedParts) → IsNewest newest.now frames → turn_as result frames h self.new ≡ done_in_frame outcome len reply (state_at frames h self.old) }
        ensures write { IsProperWrite IsAny result.write }
    {
        match outcome {
            Outcome::Does(e) => {
                self.apply(e, len);
                self.tick();
                self.write(e.write);
                without_access(StepKind::Insn, e.write)
            }
            Outcome::Raises(cause, addr) => self.raise(cause, addr),
            Outcome::Asks(access, awaited, e) => {
                let write = reply_write(awaited, reply);
                self.apply(e, len);
                self.tick();
                self.write(write);
                StepSummary {
                    kind: StepKind::Insn,
                    write,
                    access: Some(access),
                    call: Call::Stays,
                }
            }
            Outcome::Stops => {
                self.tick();
                without_access(StepKind::Stop, None)
            }
            Outcome::Windowed(step) => self.windowed(step, len, newest),
        }
    }

    /// MOVSP of this length, where it raises nothing: the register receives the value.
    pub fn move_stack(&mut self, number: u8, value: u32, len: u8) -> StepSummary
        requires { number < 16 }
        ensures turn { (frames : List Frame) (h : UndefinedParts) → turn_as result frames h self.new
            ≡ in_frame (after_outcome (puts number value (no_change self.old.control.ps self.old.control.threadptr)) len self.old.control) 0 (state_at frames h self.old) }
        ensures write { IsProperWrite IsAny result.write }
    {
        let e = Effect {
            write: write_to(number, value),
            sets: (None, None, None),
            ps: self.special.ps_fields(),
            threadptr: self.special.threadptr(),
            flow: Flow::Falls,
            waits: false,
        };
        self.apply(e, len);
        self.tick();
        self.write(e.write);
        without_access(StepKind::Insn, e.write)
    }

    /// What the next step is, where the inputs of a record are laid over the state.
    pub fn plan(&self, code: &Constants) -> NextEvent
        ensures plan { IsPlan result (constant_byte code.now) self.now.control }
        ensures good { IsGood result }
    {
        match xt_special::entries::pending(&self.special) {
            Some(level) => NextEvent::Interrupt(level),
            None => {
                if self.waits {
                    NextEvent::Waits
                } else {
                    NextEvent::Fetched(instruction_at::<Self>(code, self.pc))
                }
            }
        }
    }

    /// The step of a fetched instruction.
    fn fetched_step(
        &mut self,
        code: &Constants,
        fetch: Fetch,
        reply: u32,
        newest: &Option<Caller>,
    ) -> StepSummary
        requires small { IsSmall newest.now }
        requires good { IsGoodFetch fetch }
        ensures turn { (frames : List Frame) (h : UndefinedParts) (f : Fetched) → IsFetched fetch f → IsNewest newest.now frames
            → turn_as result frames h self.new ≡ fetched_step f (constant_byte code.now) reply (state_at frames h self.old) }
        ensures write { IsProperWrite IsAny result.write }
    {
        match fetch {
            Fetch::Fails(addr) => self.raise(cause::FETCH_ERROR, Some(addr)),
            Fetch::Nothing => self.raise(cause::ILLEGAL_INSTRUCTION, None),
            Fetch::Insn(i, len) => {
                let outcome = self.outcome(code, i);
                self.carry_out(outcome, len, reply, newest)
            }
        }
    }

    /// The step that was planned, with the reply to its access, where this is the newest caller.
    #[tactic(auto, unfolding(crate::specs::FrameStep::step_with_inputs))]
    pub fn step(
        &mut self,
        code: &Constants,
        plan: NextEvent,
        reply: u32,
        newest: &Option<Caller>,
    ) -> StepSummary
        requires plan { IsPlan plan (constant_byte code.now) self.old.control }
        requires small { IsSmall newest.now }
        requires good { IsGood plan }
        ensures turn { (frames : List Frame) (h : UndefinedParts) → IsNewest newest.now frames
            → turn_as result frames h self.new ≡ step_with_inputs (constant_byte code.now) reply (state_at frames h self.old) }
        ensures write { IsProperWrite IsAny result.write }
    {
        match plan {
            NextEvent::Interrupt(level) => self.interrupt(level),
            NextEvent::Waits => self.wait(),
            NextEvent::Fetched(fetch) => self.fetched_step(code, fetch, reply, newest),
        }
    }
}
