//! Two cores at work over one memory.
ghost use Rattle.std.specs.Prelude.{◌≡◌, ◌+◌, ◌<◌, ◌≤◌, None, ◌^◌, ℕ, IfOk, length, if◌then◌else◌};
ghost use Rattle.xt_map.specs.Memory.{constant_byte};
ghost use Rattle.xt_trace.specs.Validity.{IsValid};
ghost use Rattle.xt_trace.specs.Worlds.{answer, memory_left};
ghost use Rattle.xt_bus.specs.States.{memory_state};
ghost use Rattle.xt_exec.specs.States.{file_state};
ghost use Rattle.xt_exec.specs.Turn.{demand, turn};
ghost use Rattle.xt_core.specs.Cores.{core_after_turn};
ghost use Rattle.xt_core.specs.Runs.{opening_of};
ghost use Rattle.xt_replay.specs.Stands.{entries_past, HasRoom, IsAsRoomy, IsReply, made_in, mark_stand, next_reply, stand_of, stand_opening, stand_past};

use crate::pair::{Mark, Pair};
use std::alloc::{AllocError, Global};
use xt_bus::Memory;
use xt_core::{Begin, Core, StartedTurn, end_turn, stack_links, start_turn};
use xt_exec::Regs;
use xt_image::Image;
use xt_map::Constants;
use xt_trace::{Options, Run, StepRecord};
use xt_window::WindowFile;

// One turn of a core that has one left. It answers whether the turn made an access.
fn make_turn(core: &mut Core<WindowFile>, code: &Constants, memory: &mut Memory) -> bool
    requires waiting { core.old.waiting ≡ None }
    requires left { 0 < core.old.left }
    requires room { length memory.old.contents.sent < memory.old.room }
    ensures asks { (n : ℕ) → entries_past (demand (constant_byte code.now) core.old.state) n ≡ (if result then n + 1 else n) }
    ensures core { core.new ≡ core_after_turn (constant_byte code.now) (answer (demand (constant_byte code.now) core.old.state) memory.old.contents) core.old }
    ensures memory { memory.new ≡ memory_state (memory_left (demand (constant_byte code.now) core.old.state) memory.old.contents) memory.old.room }
{
    match core.turn_begin(code) {
        Begin::Bus(access) => {
            let reply = memory.serve(access);
            core.turn_end(reply);
            true
        }
        Begin::Local => false,
        Begin::Ended => false,
    }
}

/// The reply of the next entry of a run's history, where so many were served; 0 after the last one.
pub fn next_reply(run: &Run, used: u32) -> u32
    ensures { result ≡ next_reply run.now.history used }
{
    match run.history.as_slice().get(used as usize) {
        Some(entry) => entry.reply,
        None => 0,
    }
}

/// The record of a turn from these registers, whose access, if it makes one, has this reply.
pub fn record_from(regs: &Regs<WindowFile>, code: &Constants, reply: u32) -> StepRecord
    ensures { let s = file_state regs.now in
        (right : ℕ) → IsReply (demand (constant_byte code.now) s) reply right → result ≡ (turn (constant_byte code.now) s right).0 }
{
    let mut regs = *regs;
    match start_turn(&mut regs, code) {
        StartedTurn::Local(record) => record,
        StartedTurn::Asks(pending) => end_turn(&mut regs, pending, reply),
    }
}

impl Pair {
    /// Both cores and memory as a run of the image opens.
    ///
    /// Condition: the options are valid.
    pub fn open(alloc: Global, image: &Image, options: &Options) -> Result<Pair, AllocError>
        requires { IsValid options.now }
        ensures stand { IfOk result (λ p. stand_of p ≡ stand_opening (opening_of image.now options.now)) }
        ensures room { IfOk result (λ p. HasRoom p options.now) }
    {
        let links = stack_links(options);
        let room = options.turns0 + options.turns1;
        Ok(Pair {
            core0: Core::make(alloc, 0, image.entry, options, WindowFile::new())?,
            core1: Core::make(alloc, 1, options.entry1, options, WindowFile::new())?,
            memory: Memory::make(alloc, image.segments.as_slice(), &links, room as usize)?,
            step0: 0,
            step1: 0,
            used: 0,
        })
    }

    /// One turn of core 0.
    ///
    /// Conditions: it has one left, and memory has room for a byte more that is sent.
    pub fn give0(&mut self, code: &Constants)
        requires left { 0 < self.old.core0.left }
        requires room { length self.old.memory.contents.sent < self.old.memory.room }
        requires steps { self.old.step0 + 1 < 2 ^ 32 }
        requires used { self.old.used + 1 < 2 ^ 32 }
        ensures stand { stand_of self.new ≡ stand_past (constant_byte code.now) 0 (stand_of self.old) }
        ensures room { IsAsRoomy self.old self.new }
    {
        let asks = make_turn(&mut self.core0, code, &mut self.memory);
        self.step0 += 1;
        if asks {
            self.used += 1;
        }
    }

    /// One turn of core 1.
    ///
    /// Conditions: it has one left, and memory has room for a byte more that is sent.
    pub fn give1(&mut self, code: &Constants)
        requires left { 0 < self.old.core1.left }
        requires room { length self.old.memory.contents.sent < self.old.memory.room }
        requires steps { self.old.step1 + 1 < 2 ^ 32 }
        requires used { self.old.used + 1 < 2 ^ 32 }
        ensures stand { stand_of self.new ≡ stand_past (constant_byte code.now) 1 (stand_of self.old) }
        ensures room { IsAsRoomy self.old self.new }
    {
        let asks = make_turn(&mut self.core1, code, &mut self.memory);
        self.step1 += 1;
        if asks {
            self.used += 1;
        }
    }

    /// A copy, which has room for so many bytes that are sent. The only error is running out of memory.
    ///
    /// Condition: the bytes that were sent find room.
    pub fn mark(&self, alloc: Global, room: usize) -> Result<Mark, AllocError>
        requires { length self.now.memory.contents.sent ≤ room }
        ensures stand { IfOk result (λ m. mark_stand m ≡ stand_of self.now) }
        ensures room { IfOk result (λ m. m.room ≡ room) }
    {
        let mut memory = Memory::make(alloc, &[], &[], room)?;
        memory.copy_from(&self.memory);
        Ok(Mark {
            regs0: *self.core0.regs(),
            regs1: *self.core1.regs(),
            left0: self.core0.left(),
            left1: self.core1.left(),
            step0: self.step0,
            step1: self.step1,
            memory,
            used: self.used,
        })
    }

    /// Goes back to a copy.
    ///
    /// Conditions: the turns that the copy has left and the bytes that it has sent find room.
    pub fn restore(&mut self, mark: &Mark)
        requires left0 { mark.now.stand.side0.left ≤ self.old.core0.turns }
        requires left1 { mark.now.stand.side1.left ≤ self.old.core1.turns }
        requires room { length mark.now.stand.memory.sent ≤ self.old.memory.room }
        ensures stand { stand_of self.new ≡ mark_stand mark.now }
        ensures room { IsAsRoomy self.old self.new }
    {
        self.core0.restart(mark.regs0, mark.left0);
        self.core1.restart(mark.regs1, mark.left1);
        self.memory.copy_from(&mark.memory);
        self.step0 = mark.step0;
        self.step1 = mark.step1;
        self.used = mark.used;
    }
}

impl Mark {
    /// How many steps a core has made.
    pub fn made(&self, core: u8) -> u32
        ensures { result ≡ made_in core self.now }
    {
        if core == 0 { self.step0 } else { self.step1 }
    }

    /// Makes it the copy of others. Takes no memory.
    ///
    /// Condition: the bytes that they have sent find room.
    pub fn copy_from(&mut self, pair: &Pair)
        requires { length pair.now.memory.contents.sent ≤ self.old.room }
        ensures stand { mark_stand self.new ≡ stand_of pair.now }
        ensures room { self.new.room ≡ self.old.room }
    {
        self.regs0 = *pair.core0.regs();
        self.regs1 = *pair.core1.regs();
        self.left0 = pair.core0.left();
        self.left1 = pair.core1.left();
        self.step0 = pair.step0;
        self.step1 = pair.step1;
        self.memory.copy_from(&pair.memory);
        self.used = pair.used;
    }
}
