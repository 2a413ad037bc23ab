//! Positions of a run.
ghost use Rattle.std.specs.Prelude.{◌≡◌, drop};
ghost use Rattle.xt_replay.specs.Stands.{next_of};

use crate::ends::end_of;
use crate::pair::{Checkpoint, Mark, Pair};
use crate::state::State;
use crate::turns::{next_reply, record_from};
use std::alloc::{AllocError, Global};
use std::marker::Model;
use xt_image::Image;
use xt_map::Constants;
use xt_trace::{Run, StepRecord};

// How many steps lie between two checkpoints.
const APART: u32 = 65536;

// How many steps lie at most between the near copy and a position to which a walk begins there.
const NEAR: u32 = 1024;

/// The position lies beyond the end of the run.
#[derive(Clone, Copy)]
pub struct PastEnd;

/// A run of an image at a position: a number of steps of the run's schedule. Contracts see the image,
/// the run and the position.
pub struct Replay<'a> {
    image: &'a Image,
    run: &'a Run,
    code: Constants<'a>,
    pair: Pair,
    opening: Mark,
    checkpoints: Vec<Checkpoint>,
    near: Checkpoint,
    position: u32,
}

impl<'a> Model for Replay<'a> {
    ghost use Rattle.xt_replay.specs.Shown.{ReplayState};

    ghost Value = { ReplayState };

    ghost use Rattle.xt_replay.specs.ReplayFields.{replay_in, IsKept};

    ghost view = { replay_in };

    ghost invariant = { IsKept };
}

impl Drop for Replay<'_> {
    fn drop(self) {
        let Replay {
            image: _,
            run: _,
            code: _,
            pair: _,
            opening: _,
            checkpoints: _,
            near: _,
            position: _,
        } = self;
    }
}

// The core of the next step of a run that goes on, where so many accesses were served and core 0 has
// made so many steps: the core of the next entry of the history; after the last one core 0 as long as
// it has steps left.
fn next_of(run: &Run, used: u32, step0: u32) -> u8
    ensures { result ≡ next_of (drop used run.now.history) step0 run.now.trace0.count }
{
    match run.history.as_slice().get(used as usize) {
        Some(entry) => entry.core,
        None => { if step0 < run.trace0.count { 0 } else { 1 } }
    }
}

impl Checkpoint {
    ghost use Rattle.std.specs.Prelude.{◌≡◌, ◌<◌, ◌≤◌, true};
    ghost use Rattle.xt_replay.specs.Stands.{made_in};

    // Whether it is not after a position, and another place is after that position or farther before
    // it.
    fn is_closer(&self, from: u32, position: u32) -> bool
        ensures { result ≡ true → self.now.position ≤ position }
    {
        self.position <= position && (position < from || from < self.position)
    }

    // Whether a walk on from here comes to a core's step with this number or, where that is how
    // many steps the core makes in all, to the place after its last one.
    fn is_before(&self, core: u8, step: u32, count: u32) -> bool
        ensures most { result ≡ true → made_in core self.now.mark ≤ step }
        ensures left { result ≡ true → made_in core self.now.mark < count }
    {
        let made = self.mark.made(core);
        made <= step && made < count
    }
}

// How many of the copies come before a core's step with this number: those before the first that does not.
fn copies_before(copies: &[Checkpoint], core: u8, step: u32, count: u32) -> usize {
    for n in 0..copies.len() {
        if !copies[n].is_before(core, step, count) {
            return n;
        }
    }
    copies.len()
}

impl<'a> Replay<'a> {
    ghost use Rattle.std.specs.Prelude.{◌≡◌, ◌+◌, ◌<◌, ◌≤◌, true, false, IfOk, MatchResult, Some, length, slice_get, take};
    ghost use Rattle.xt_map.specs.Placing.{IsPlaced};
    ghost use Rattle.xt_core.specs.Positions.{schedule_in, world_at};
    ghost use Rattle.xt_core.specs.Runs.{IsRunOf, records_of};
    ghost use Rattle.xt_replay.specs.Places.{position_of, trace_in};
    ghost use Rattle.xt_replay.specs.Shown.{IsNextTurn, replay_at, shown_at, step_in};
    ghost use Rattle.xt_replay.specs.Stands.{Comes};

    /// The run at position 0. All memory is taken here, also that of copies of what the run has at
    /// each multiple of 65,536 steps; the only error is running out of memory.
    ///
    /// Conditions: the run is the image's. The image's segments lie in one region each and share no
    /// byte, as those of every image that was read.
    pub fn make(alloc: Global, image: &'a Image, run: &'a Run) -> Result<Replay<'a>, AllocError>
        requires run { IsRunOf image.now run.now }
        requires placed { IsPlaced image.now.segments }
        ensures { IfOk result (λ r. r ≡ record { image = image.now; run = run.now; position = 0 }) }
    {
        let pair = Pair::open(alloc, image, &run.options)?;
        let room = (run.options.turns0 + run.options.turns1) as usize;
        let sent = pair.memory.sent().len();
        let opening = pair.mark(alloc, sent)?;
        let near = Checkpoint {
            position: 0,
            mark: pair.mark(alloc, room)?,
        };
        let mut replay = Replay {
            image,
            run,
            code: Constants::make(alloc, image.segments.as_slice())?,
            pair,
            opening,
            checkpoints: Vec::new(alloc),
            near,
            position: 0,
        };
        replay.keep_all(alloc)?;
        replay.restart();
        Ok(replay)
    }

    /// The image.
    pub fn image(&self) -> &'a Image
        ensures image { result.now ≡ self.now.image }
        ensures placed { IsPlaced self.now.image.segments }
    {
        self.image
    }

    /// The run, which is the image's.
    pub fn run(&self) -> &'a Run
        ensures run { result.now ≡ self.now.run }
        ensures is { IsRunOf self.now.image self.now.run }
    {
        self.run
    }

    /// The image's constants, from which the cores fetch.
    pub fn code(&self) -> &Constants<'a>
        ensures { result.now ≡ self.now.image.segments }
    {
        &self.code
    }

    /// The position: how many steps of the schedule were made. It is at most the schedule's length.
    pub fn position(&self) -> u32
        ensures position { result ≡ self.now.position }
        ensures within { self.now.position ≤ length (schedule_in self.now.run) }
        ensures bound { length (schedule_in self.now.run) ≤ 8000000 }
    {
        self.position
    }

    /// What the run from the start has at this position.
    pub fn state(&self) -> State<'_>
        ensures { result ≡ shown_at self.now.image self.now.run self.now.position }
    {
        State {
            core0: &self.pair.core0,
            core1: &self.pair.core1,
            memory: &self.pair.memory,
            code: &self.code,
            step0: self.pair.step0,
            step1: self.pair.step1,
        }
    }

    // Goes back to the start.
    fn restart(&mut self)
        ensures { self.new ≡ replay_at self.old 0 }
    {
        self.pair.restore(&self.opening);
        self.position = 0;
    }

    /// One step on.
    ///
    /// Condition: the position is before the end of the schedule.
    pub fn step(&mut self)
        requires { self.old.position < length (schedule_in self.old.run) }
        ensures { self.new ≡ replay_at self.old (self.old.position + 1) }
    {
        if next_of(self.run, self.pair.used, self.pair.step0) == 0 {
            self.pair.give0(&self.code);
        } else {
            self.pair.give1(&self.code);
        }
        self.position += 1;
    }

    // Goes back to the start where it stands after a position.
    fn back(&mut self, position: u32)
        ensures moved { self.new ≡ replay_at self.old self.new.position }
        ensures within { self.new.position ≤ position }
    {
        if position < self.position() {
            self.restart();
        }
    }

    // Goes to the near copy, where the walk from there to a position is short, and shorter than
    // from where it stands.
    fn resume_near(&mut self, position: u32)
        ensures { self.new ≡ replay_at self.old self.new.position }
    {
        if self.near.is_closer(self.position, position) && position - self.near.position <= NEAR {
            self.pair.restore(&self.near.mark);
            self.position = self.near.position;
        }
    }

    // Goes to the last checkpoint that is not after a position, where the walk from there is
    // shorter than from where it stands.
    fn resume_checkpoint(&mut self, position: u32)
        ensures { self.new ≡ replay_at self.old self.new.position }
    {
        let n = self.checkpoints.len().min((position / APART) as usize);
        if n > 0
            && let Some(checkpoint) = self.checkpoints.as_slice().get(n - 1)
            && checkpoint.is_closer(self.position, position)
        {
            self.pair.restore(&checkpoint.mark);
            self.position = checkpoint.position;
        }
    }

    // Walks on to a position.
    fn walk(&mut self, position: u32)
        requires from { self.old.position ≤ position }
        requires within { position ≤ length (schedule_in self.old.run) }
        ensures { self.new ≡ replay_at self.old position }
    {
        'steps: while self.position() < position {
            self.step();
        }
    }

    // Keeps a copy of where it stands.
    fn keep(&mut self, alloc: Global) -> Result<(), AllocError>
        ensures { self.new ≡ self.old }
    {
        let room = self.pair.memory.sent().len();
        let mark = self.pair.mark(alloc, room)?;
        self.checkpoints.push(Checkpoint {
            position: self.position,
            mark,
        })?;
        Ok(())
    }

    // Keeps a copy at each multiple of 65,536 steps that lies before the end.
    fn keep_all(&mut self, alloc: Global) -> Result<(), AllocError>
        ensures { self.new ≡ replay_at self.old self.new.position }
    {
        'copies: while APART < end_of(self) - self.position() {
            self.walk(self.position() + APART);
            self.keep(alloc)?;
        }
        Ok(())
    }

    // Makes the near copy that of where it stands.
    fn note(&mut self)
        ensures { self.new ≡ self.old }
    {
        self.near.mark.copy_from(&self.pair);
        self.near.position = self.position;
    }

    // Where the walk to a position is long, walks on until it is not, and makes the near copy
    // there: further steps back begin from it.
    fn keep_near(&mut self, position: u32)
        requires from { self.old.position ≤ position }
        requires within { position ≤ length (schedule_in self.old.run) }
        ensures moved { self.new ≡ replay_at self.old self.new.position }
        ensures within { self.new.position ≤ position }
    {
        if NEAR < position - self.position() {
            self.walk(position - NEAR);
            self.note();
        }
    }

    /// Stands at a position. PastEnd comes exactly beyond the end of the schedule, and then nothing
    /// changes. Takes no memory.
    pub fn seek(&mut self, position: u32) -> Result<(), PastEnd>
        ensures { MatchResult result
            (λ _. (position ≤ length (schedule_in self.old.run)) × (self.new ≡ replay_at self.old position))
            (λ _. (length (schedule_in self.old.run) < position) × (self.new ≡ self.old)) }
    {
        if end_of(self) < position {
            return Err(PastEnd);
        }
        let from = self.position();
        self.resume_near(position);
        self.resume_checkpoint(position);
        self.back(position);
        if position < from && from - position <= NEAR {
            self.keep_near(position);
        }
        self.walk(position);
        Ok(())
    }

    // How many steps a core has made.
    fn made(&self, core: u8) -> u32
        requires { core < 2 }
        ensures { result ≡ step_in core (shown_at self.now.image self.now.run self.now.position) }
    {
        if core == 0 {
            self.pair.step0
        } else {
            self.pair.step1
        }
    }

    // How many steps a core makes in all.
    fn count(&self, core: u8) -> u32
        requires { core < 2 }
        ensures { result ≡ (trace_in core self.now.run).count }
    {
        if core == 0 {
            self.run.trace0.count
        } else {
            self.run.trace1.count
        }
    }

    /// The core of the next step. None comes exactly at the end of the schedule.
    pub fn next_core(&self) -> Option<u8>
        ensures { result ≡ slice_get (schedule_in self.now.run) self.now.position }
    {
        if self.position == end_of(self) {
            return None;
        }
        Some(next_of(self.run, self.pair.used, self.pair.step0))
    }

    /// How many entries of the run's history come before this position.
    pub fn served(&self) -> u32
        ensures served { result ≡ length (world_at self.now.image self.now.run self.now.position).line.history }
        ensures entries { (world_at self.now.image self.now.run self.now.position).line.history ≡ take result self.now.run.history }
    {
        self.pair.used
    }

    // The record of the next turn, which is this core's.
    fn record(&self, core: u8) -> StepRecord
        requires core { core < 2 }
        requires next { slice_get (schedule_in self.now.run) self.now.position ≡ Some core }
        ensures { slice_get (records_of core self.now.image self.now.run).records (step_in core (shown_at self.now.image self.now.run self.now.position)) ≡ Some result }
    {
        let reply = next_reply(self.run, self.pair.used);
        if core == 0 {
            record_from(self.pair.core0.regs(), &self.code, reply)
        } else {
            record_from(self.pair.core1.regs(), &self.code, reply)
        }
    }

    /// The core of the next turn, 0 or 1, and the turn's record. None comes exactly at the end of the schedule.
    pub fn next_turn(&self) -> Option<(u8, StepRecord)>
        ensures { IsNextTurn result self.now }
    {
        let _ = &self.image;
        match self.next_core() {
            Some(core) => Some((core, self.record(core))),
            None => None,
        }
    }

    // Whether it stands directly before a core's step with this number, or after its last.
    fn is_at(&self, core: u8, step: u32) -> bool
        requires core { core < 2 }
        requires step { step ≤ (trace_in core self.now.run).count }
        requires comes { Comes self.now.image self.now.run core step self.now.position }
        ensures here { result ≡ true → self.now.position ≡ position_of core step self.now.run }
        ensures before { result ≡ false → self.now.position < length (schedule_in self.now.run) }
        ensures on { result ≡ false → Comes self.now.image self.now.run core step (self.now.position + 1) }
    {
        let _ = &self.image;
        if self.made(core) != step {
            return false;
        }
        if self.count(core) == step {
            return true;
        }
        match self.next_core() {
            Some(next) => next == core,
            None => false,
        }
    }

    // Goes to the last checkpoint from which a walk on comes to a core's step with this number, or
    // else to the start.
    fn resume_before(&mut self, core: u8, step: u32)
        requires core { core < 2 }
        requires step { step ≤ (trace_in core self.old.run).count }
        ensures moved { self.new ≡ replay_at self.old self.new.position }
        ensures comes { Comes self.new.image self.new.run core step self.new.position }
    {
        let count = self.count(core);
        let n = copies_before(self.checkpoints.as_slice(), core, step, count);
        if n > 0
            && let Some(checkpoint) = self.checkpoints.as_slice().get(n - 1)
            && checkpoint.is_before(core, step, count)
        {
            self.pair.restore(&checkpoint.mark);
            self.position = checkpoint.position;
        } else {
            self.restart();
        }
    }

    // Walks on to a core's step with this number.
    fn find(&mut self, core: u8, step: u32)
        requires core { core < 2 }
        requires step { step ≤ (trace_in core self.old.run).count }
        requires comes { Comes self.old.image self.old.run core step self.old.position }
        ensures { self.new ≡ replay_at self.old (position_of core step self.old.run) }
    {
        'steps: while !self.is_at(core, step) {
            self.step();
        }
    }

    /// Stands directly before a core's step with this number. Where the number is the length of the
    /// core's trace it stands directly after that core's last step, and at position 0 where the trace
    /// is empty. PastEnd comes exactly where the number exceeds that length, and then nothing changes.
    /// Takes no memory.
    ///
    /// Condition: the core is 0 or 1.
    pub fn goto(&mut self, core: u8, step: u32) -> Result<(), PastEnd>
        requires { core < 2 }
        ensures { MatchResult result
            (λ _. (step ≤ (trace_in core self.old.run).count) × (self.new ≡ replay_at self.old (position_of core step self.old.run)))
            (λ _. ((trace_in core self.old.run).count < step) × (self.new ≡ self.old)) }
    {
        if self.count(core) < step {
            return Err(PastEnd);
        }
        self.resume_before(core, step);
        self.find(core, step);
        Ok(())
    }
}
