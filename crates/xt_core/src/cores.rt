use crate::begin::Begin;
use crate::begun::StartedTurn;
use crate::ends::{left_past, stops};
use crate::turn::{begin, end};
use std::alloc::{AllocError, Global};
use std::marker::Model;
use xt_exec::Regs;
use xt_exec::plans::Pending;
use xt_map::Constants;
use xt_trace::{Options, Places, StepRecord, Stop, Trace};
use xt_window::{WindowFile, Windows};

/// A core at work. Contracts see its number, its state, what waits for the reply to an access, the turns that are left, whether it
/// has stopped, how many turns it made and which of them had an access, and for how many turns it has room.
#[derive(Drop)]
pub struct Core<W: Windows> {
    core: u8,
    regs: Regs<W>,
    waiting: Option<Pending>,
    left: u32,
    stopped: bool,
    count: u32,
    places: Vec<u32>,
    turns: u32,
}

impl<W: Windows> Model for Core<W> {
    ghost use Rattle.xt_core.specs.Cores.{CoreState};

    ghost Value = { CoreState };

    ghost use Rattle.std.specs.Prelude.{◌+◌, ◌≤◌, vec_capacity, vec_len};
    ghost use Rattle.xt_exec.specs.States.{state_of};
    ghost use Rattle.xt_core.specs.Cores.{IsWaiting};

    ghost view = { λ c. record { core = c.core; state = state_of W.regs W.base W.start c.regs; waiting = c.waiting; left = c.left; stopped = c.stopped; count = c.count; places = c.places.items; turns = c.turns } };

    ghost invariant = { λ c. (c.count + c.left ≤ c.turns) × (vec_len c.places ≤ c.count) × (c.turns ≤ vec_capacity c.places) × IsWaiting c.waiting c.left };
}

impl<W: Windows> Core<W> {
    ghost use Rattle.std.specs.Prelude.{◌≡◌, ◌≢◌, ℕ, ◌<◌, None};
    ghost use Rattle.xt_map.specs.Memory.{constant_byte};
    ghost use Rattle.xt_exec.specs.States.{state_of};
    ghost use Rattle.xt_core.specs.Cores.{AwaitsReply, Begins, core_after_record, core_after_turn};

    /// Begins the next turn, and makes the whole of it unless it makes a bus access. `Ended` comes exactly where the core has stopped
    /// or has no turn left. Each turn raises the count by one. Takes no memory.
    ///
    /// Condition: no access waits.
    #[inline(always)]
    pub fn turn_begin(&mut self, code: &Constants) -> Begin
        requires { self.old.waiting ≡ None }
        ensures { Begins result (constant_byte code.now) self.old self.new }
    {
        if self.left == 0 {
            return Begin::Ended;
        }
        match begin(&mut self.regs, code) {
            StartedTurn::Local(record) => {
                self.keep(record);
                Begin::Local
            }
            StartedTurn::Asks(pending) => {
                self.waiting = Some(pending);
                Begin::Bus(pending.access)
            }
        }
    }

    /// Ends the turn whose access waits, with the reply to it. Its number is one more of the places. Takes no memory.
    ///
    /// Condition: an access waits.
    #[inline(always)]
    pub fn turn_end(&mut self, reply: u32)
        requires { self.old.waiting ≢ None }
        ensures { (code : ℕ → ℕ) → AwaitsReply code self.old → self.new ≡ core_after_turn code reply self.old }
    {
        match self.waiting {
            Some(pending) => {
                let record = end(&mut self.regs, pending, reply);
                self.keep(record);
            }
            None => unreachable!(),
        }
    }

    // Counts a turn with this record, and notes its number where it has an access.
    #[inline(always)]
    fn keep(&mut self, step: StepRecord)
        requires { 0 < self.old.left }
        ensures { self.new ≡ core_after_record step self.old }
    {
        if step.access.is_some() {
            self.places.push_reserved(self.count);
        }
        self.waiting = None;
        self.left = left_past(step, self.left - 1);
        self.stopped = self.stopped || stops(step.kind);
        self.count += 1;
    }

    /// How many turns it made since `make` or the last `restart`: the number of its next one.
    pub fn count(&self) -> u32
        ensures { result ≡ self.now.count }
    {
        self.count
    }

    /// The registers.
    pub fn regs(&self) -> &Regs<W>
        ensures { state_of W.regs W.base W.start result.now ≡ self.now.state }
    {
        &self.regs
    }

    /// The turns that are left: none after a Stop.
    pub fn left(&self) -> u32
        ensures { result ≡ self.now.left }
    {
        self.left
    }
}

impl<W: Windows + Drop> Core<W> {
    ghost use Rattle.std.specs.Prelude.{◌≡◌, None};
    ghost use Rattle.xt_core.specs.Cores.{trace_of};

    /// What is kept of the turns since `make` or the last `restart`. Takes no memory.
    ///
    /// Conditions: the core has stopped or has no turn left, and no access waits.
    pub fn into_trace(self) -> Trace
        requires ended { self.left ≡ 0 }
        requires waiting { self.waiting ≡ None }
        ensures { result ≡ trace_of self }
    {
        let Core {
            core,
            regs,
            stopped,
            count,
            places,
            ..
        } = self;
        Trace {
            core,
            count,
            places: Places::new(places),
            stop: if stopped { Stop::Break } else { Stop::Turns },
            pc: regs.pc,
        }
    }
}

impl<W: Windows + Drop> Core<W> {
    ghost use Rattle.std.specs.Prelude.{◌≡◌, ◌<◌, ◌≤◌, IfOk};
    ghost use Rattle.xt_trace.specs.Validity.{IsValid};
    ghost use Rattle.xt_window.specs.Ring.{cleared_regs};
    ghost use Rattle.xt_core.specs.Cores.{opening_core_state};
    ghost use Rattle.xt_core.specs.Runs.{opening_at, turns_of};

    /// A core that opens at `pc`, with this core's turns and stack of the options. All memory that its turns need is taken here; the
    /// only error is running out of memory.
    ///
    /// Conditions: the core is 0 or 1, the options are valid, and `win` has 64 registers that hold 0, WINDOWBASE 0 and WINDOWSTART 1.
    pub fn make(
        alloc: Global,
        core: u8,
        pc: u32,
        options: &Options,
        win: W,
    ) -> Result<Core<W>, AllocError>
        requires core { core < 2 }
        requires valid { IsValid options.now }
        requires regs { W.regs win ≡ cleared_regs }
        requires base { W.base win ≡ 0 }
        requires start { W.start win ≡ 1 }
        ensures { IfOk result (λ k. k ≡ opening_core_state core (opening_at core pc options.now) (turns_of core options.now)) }
    {
        let (turns, stack) = if core == 0 {
            (options.turns0, options.stack0)
        } else {
            (options.turns1, options.stack1)
        };
        Ok(Core {
            core,
            regs: Regs::open(core, pc, options.vecbase, stack.hi, win),
            waiting: None,
            left: turns,
            stopped: false,
            count: 0,
            places: Vec::with_capacity(alloc, turns as usize)?,
            turns,
        })
    }
}

impl Core<WindowFile> {
    ghost use Rattle.std.specs.Prelude.{◌≡◌, ◌≤◌, None};
    ghost use Rattle.xt_exec.specs.States.{file_state};
    ghost use Rattle.xt_core.specs.Cores.{core_restarted_at};

    /// Goes back to these registers, with so many turns left and no turn made. Takes no memory.
    ///
    /// Conditions: no access waits, and `left` is at most the turns that the core was made with.
    pub fn restart(&mut self, regs: Regs<WindowFile>, left: u32)
        requires waiting { self.old.waiting ≡ None }
        requires left { left ≤ self.old.turns }
        ensures { self.new ≡ core_restarted_at (file_state regs) left self.old }
    {
        self.regs = regs;
        self.left = left;
        self.stopped = false;
        self.count = 0;
        self.places.clear();
    }
}
