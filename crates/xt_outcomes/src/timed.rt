//! The machine of an image: timed, with the turns that the options give, or with any number of turns
//! and without time.
ghost use Rattle.std.specs.Prelude.{◌≡◌, ◌==◌, ◌&&◌, ◌<◌};
ghost use Rattle.xt_map.specs.declared.contents.MemoryContents.{MemoryContents};
ghost use Rattle.xt_map.specs.Memory.{HasSizes, constant_byte};
ghost use Rattle.xt_map.specs.Code.{AreBytes};
ghost use Rattle.xt_timeless.specs.Time.{executes};

use crate::dead::{Dead, Uses, are_both, are_fit, is_compare_fit, registers_in, uses_at};
use crate::desk::Desk;
use crate::paths::Passage;
use crate::places::Places;
use crate::recording::serve;
use crate::sides::Side;
use crate::turns::Ahead;
use crate::world::World;
use std::alloc::{AllocError, Global};
use xt_bus::Memory;
use xt_core::stack_links;
use xt_image::Image;
use xt_map::Constants;
use xt_search::{Changes, Machine};
use xt_trace::{Options, StepKind};
use xt_window::Windows;

/// The constant bytes of an image, what memory holds as its runs open, whether time is part of the
/// worlds, which turns meet nothing of the other core, which registers are dead, and how many of those turns
/// are made at once at most. A search has to end before a turn that uses time, if time is no part of the
/// worlds, and before one that does not fit the dead registers.
pub struct Timed<'a> {
    pub code: Constants<'a>,
    pub opening: Memory,
    pub timed: bool,
    pub(crate) places: Places,
    pub dead: Dead,
    pub(crate) most_local: u16,
    alloc: Global,
    ghost sizes: { HasSizes opening.contents },
    ghost bytes: { AreBytes (constant_byte code) },
}

// A `drop` of its own is one call at each place where a value is dropped.
impl Drop for Timed<'_> {
    fn drop(self) {
        let Timed {
            code: _,
            opening: _,
            timed: _,
            places: _,
            dead: _,
            most_local: _,
            alloc: _,
        } = self;
    }
}

/// A world, and how many turns of a core led to it.
#[derive(Drop)]
pub struct WorldRun {
    pub world: World,
    pub turns: u32,
}

impl<'a> Timed<'a> {
    ghost use Rattle.std.specs.Prelude.{IfOk};
    ghost use Rattle.xt_map.specs.Placing.{IsPlaced};
    ghost use Rattle.xt_trace.specs.Validity.{IsValid};
    ghost use Rattle.xt_image.specs.ImageParts.{FitsImage};
    ghost use Rattle.xt_core.specs.Runs.{memory_of};

    /// The machine of an image. The only error is running out of memory.
    ///
    /// Conditions: the options are valid, and the image's segments lie in one region each and share no
    /// byte, as those of every image that was read.
    #[tactic(auto, using(crate::proofs::CodeBytes::code_bytes, crate::proofs::CodeBytes::memory_sizes))]
    pub fn make(
        alloc: Global,
        image: &'a Image,
        options: &Options,
        timed: bool,
        places: Places,
        dead: Dead,
        most_local: u16,
    ) -> Result<Timed<'a>, AllocError>
        requires valid { IsValid options.now }
        requires fits { FitsImage image.now }
        requires placed { IsPlaced image.now.segments }
        ensures code { IfOk result (λ t. t.code ≡ image.now.segments) }
        ensures opening { IfOk result (λ t. t.opening.contents ≡ memory_of image.now options.now) }
        ensures timed { IfOk result (λ t. t.timed ≡ timed) }
        ensures places { IfOk result (λ t. t.places ≡ places) }
        ensures dead { IfOk result (λ t. t.dead ≡ dead) }
    {
        let links = stack_links(options);
        Ok(Timed {
            code: Constants::make(alloc, image.segments.as_slice())?,
            opening: Memory::make(alloc, image.segments.as_slice(), &links, 0)?,
            timed,
            places,
            dead,
            most_local,
            alloc,
        })
    }

    /// The machine of an image, where both cores may come to each place, no register is dead, and each turn
    /// is made alone. The only error is running out of memory.
    ///
    /// Conditions: the options are valid, and the image's segments lie in one region each and share no
    /// byte, as those of every image that was read.
    pub fn plain(
        alloc: Global,
        image: &'a Image,
        options: &Options,
        timed: bool,
    ) -> Result<Timed<'a>, AllocError>
        requires valid { IsValid options.now }
        requires fits { FitsImage image.now }
        requires placed { IsPlaced image.now.segments }
        ensures code { IfOk result (λ t. t.code ≡ image.now.segments) }
        ensures opening { IfOk result (λ t. t.opening.contents ≡ memory_of image.now options.now) }
        ensures timed { IfOk result (λ t. t.timed ≡ timed) }
    {
        let places = Places::met(alloc);
        Timed::make(alloc, image, options, timed, places, Dead::none(alloc), 0)
    }
}

impl<'a> Timed<'a> {
    ghost use Rattle.std.specs.Prelude.{true, false, not, IfOk, IfSome, IfNone, OnOk};
    ghost use Rattle.xt_exec.specs.Chips.{processor};
    ghost use Rattle.xt_search.specs.Meetings.{after};
    ghost use Rattle.xt_search.specs.Changed.{IsLean, contents_of};
    ghost use Rattle.xt_outcomes.specs.Ahead.{IsAhead, IsReady};
    ghost use Rattle.xt_outcomes.specs.Dead.{fits, spot_forgotten};
    ghost use Rattle.xt_outcomes.specs.Passages.{AreUses, passage_fits};
    ghost use Rattle.xt_outcomes.specs.KeptWorlds.{bars, moved_spot, spot_of};
    ghost use Rattle.xt_outcomes.specs.Nexts.{TurnsFit, next_bars, side_next, spot_next};
    ghost use Rattle.xt_outcomes.specs.Places.{is_local, is_told, spot_run, turns_of};
    ghost use Rattle.xt_outcomes.specs.Spots.{memory_given, side_bars, spot_past};

    /// One turn of a core, of which nothing is left out but time. The only error is running out of memory.
    ///
    /// Condition: the core is 0 or 1.
    pub(crate) fn make_turn(
        &self,
        desk: &mut Desk,
        world: &World,
        core: u8,
    ) -> Result<World, AllocError>
        requires { core < 2 }
        ensures { IfOk result (λ w. spot_of self.now.opening.contents w ≡ spot_past (processor (constant_byte self.now.code)) self.now.timed core (spot_of self.now.opening.contents world.now)) }
    {
        let mut changes = world.changes.copy(self.alloc)?;
        let side = world.side(core);
        if side.left() == 0 {
            let next = desk
                .shared
                .moved(self.alloc, world, core, side.copy(), changes)?;
            return Ok(next);
        }
        let (side, _) = side.recorded(&self.code, &self.opening, &mut changes, self.timed)?;
        let next = desk.shared.moved(self.alloc, world, core, side, changes)?;
        Ok(next)
    }

    /// The same world without the registers that are dead. The only error is running out of memory.
    pub(crate) fn forgetting(&self, desk: &mut Desk, world: &World) -> Result<World, AllocError>
        ensures spot { IfOk result (λ w. spot_of self.now.opening.contents w ≡ spot_forgotten self.now.dead.masks.items (spot_of self.now.opening.contents world.now)) }
        ensures lean { IfOk result (λ w. w.changes.value ≡ world.now.changes.value) }
    {
        let mut side0 = world.side(0).copy();
        side0.forget(&self.dead);
        let mut side1 = world.side(1).copy();
        side1.forget(&self.dead);
        let changes = world.changes.copy(self.alloc)?;
        let next = desk.shared.world(self.alloc, side0, side1, changes)?;
        Ok(next)
    }

    // What matters for dead registers of a core's next turn, which is this one, at whose program counter the
    // instruction uses these.
    fn passage(&self, side: &Side, ahead: &Ahead, uses: Uses) -> Passage
        requires { AreUses (constant_byte self.now.code) side.now.state.control.pc uses }
        ensures { (m : MemoryContents) → IsAhead (constant_byte self.now.code) side.now.state m ahead.now
            → passage_fits self.now.dead.masks.items result ≡ fits (constant_byte self.now.code) self.now.dead.masks.items side.now.state }
    {
        Passage {
            from: side.pc(),
            to: ahead.regs.pc,
            reads: uses.reads,
            write: ahead.record.write,
            stays: ahead.regs.win.base() == side.base(),
            reads_compare: uses.reads_compare,
            writes_compare: are_both(executes(ahead.record.kind), uses.writes_compare),
        }
    }

    // Whether a turn fits what is taken for granted of registers.
    fn fits(&self, passage: &Passage) -> bool
        ensures { result ≡ passage_fits self.now.dead.masks.items passage.now }
    {
        let before = self.dead.at(passage.from);
        let after = self.dead.at(passage.to);
        are_fit(
            registers_in(before),
            passage.reads,
            passage.stays,
            passage.write,
            registers_in(after),
        ) && is_compare_fit(before, passage.reads_compare, passage.writes_compare, after)
    }

    // Whether a core's next turn, which is this one, fits what is taken for granted of registers. It is
    // noted. The only error is running out of memory.
    fn is_fit(
        &self,
        desk: &mut Desk,
        side: &Side,
        core: u8,
        ahead: &Ahead,
        uses: Uses,
    ) -> Result<bool, AllocError>
        requires { AreUses (constant_byte self.now.code) side.now.state.control.pc uses }
        ensures { (m : MemoryContents) → IsAhead (constant_byte self.now.code) side.now.state m ahead.now → IfOk result (λ b. b ≡ fits (constant_byte self.now.code) self.now.dead.masks.items side.now.state) }
    {
        let passage = self.passage(side, ahead, uses);
        let fits = self.fits(&passage);
        desk.note(core, ahead.record.access, &passage, fits)?;
        Ok(fits)
    }

    // Whether the search need not end before a core's next turn, which is this one. The only error is
    // running out of memory.
    fn is_free(
        &self,
        desk: &mut Desk,
        side: &Side,
        core: u8,
        ahead: &Ahead,
    ) -> Result<bool, AllocError>
        requires left { 0 < side.now.left }
        ensures { (m : MemoryContents) → IsAhead (constant_byte self.now.code) side.now.state m ahead.now → IfOk result (λ b. b ≡ not (next_bars (constant_byte self.now.code) self.now.timed self.now.dead.masks.items side.now)) }
    {
        let uses = uses_at(&self.code, side.pc());
        if side.bars_by(&self.code, self.timed, uses.reads_time) {
            return Ok(false);
        }
        let fits = self.is_fit(desk, side, core, ahead, uses)?;
        Ok(fits)
    }

    // Puts the next turn of a core in place of another one, whose registers are those of the core, and answers
    // whether it meets nothing of the other core. The only error is running out of memory.
    fn local(
        &self,
        desk: &mut Desk,
        side: &Side,
        core: u8,
        changes: &Changes,
        ahead: &mut Ahead,
    ) -> Result<bool, AllocError>
        requires ready { IsReady side.now.state ahead.old }
        ensures local { IfOk result (λ b. b ≡ is_local (constant_byte self.now.code) self.now.timed self.now.dead.masks.items self.now.places.list.items core side.now) }
        ensures left { IfOk result (λ b. b ≡ true → 0 < side.now.left) }
        ensures ahead { IfOk result (λ b. b ≡ true → IsAhead (constant_byte self.now.code) side.now.state (contents_of self.now.opening.contents changes.now) ahead.new) }
    {
        if side.left() == 0 {
            return Ok(false);
        }
        side.look_ahead(&self.code, &self.opening, changes, ahead);
        if !self.is_free(desk, side, core, ahead)? {
            return Ok(false);
        }
        Ok(self.places.is_own(core, ahead.record.access))
    }

    /// A core makes its next turn, whose access is served, and forgets its dead registers. The registers of the
    /// turn become those of the core. The only error is running out of memory.
    ///
    /// Conditions: the core has a turn left, and the turn is its next one.
    #[inline(always)]
    pub fn go_on(
        &self,
        side: &mut Side,
        ahead: &mut Ahead,
        changes: &mut Changes,
    ) -> Result<(), AllocError>
        requires left { 0 < side.old.left }
        requires ahead { IsAhead (constant_byte self.now.code) side.old.state (contents_of self.now.opening.contents changes.old) ahead.old }
        ensures side { OnOk result (side.new ≡ side_next (processor (constant_byte self.now.code)) self.now.timed self.now.dead.masks.items side.old.left side.old (contents_of self.now.opening.contents changes.old)) }
        ensures memory { OnOk result (contents_of self.now.opening.contents changes.new ≡ memory_given (processor (constant_byte self.now.code)) side.old.left side.old.state (contents_of self.now.opening.contents changes.old)) }
        ensures lean { OnOk result (IsLean self.now.opening.contents changes.old → IsLean self.now.opening.contents changes.new) }
        ensures ready { OnOk result (IsReady side.new.state ahead.new) }
    {
        serve(ahead.record.access, &self.opening, changes)?;
        side.go_past(ahead, self.timed, &self.dead);
        Ok(())
    }

    /// Whether a core's next turn, which is this one, fits what is taken for granted of registers; the
    /// instruction at its program counter uses these.
    pub fn fits_next(&self, side: &Side, ahead: &Ahead, uses: Uses) -> bool
        requires { AreUses (constant_byte self.now.code) side.now.state.control.pc uses }
        ensures { (m : MemoryContents) → IsAhead (constant_byte self.now.code) side.now.state m ahead.now → result ≡ fits (constant_byte self.now.code) self.now.dead.masks.items side.now.state }
    {
        self.fits(&self.passage(side, ahead, uses))
    }

    /// Whether the places tell of the next turn of a core.
    pub fn is_told(&self, side: &Side, core: u8) -> bool
        ensures { result ≡ is_told (constant_byte self.now.code) self.now.places.list.items core side.now }
    {
        let access = side.next_access(&self.code);
        self.places.may_access(core, access)
    }

    /// Whether a search has to end before the next turn of a core since it uses time, and not since what is
    /// taken for granted of registers does not fit it. The only error is running out of memory.
    pub fn is_timely(&self, desk: &mut Desk, side: &Side, core: u8) -> Result<bool, AllocError>
        ensures time { IfOk result (λ b. b ≡ true → side_bars (constant_byte self.now.code) self.now.timed side.now ≡ true) }
        ensures fits { IfOk result (λ b. b ≡ true → fits (constant_byte self.now.code) self.now.dead.masks.items side.now.state ≡ true) }
    {
        if !side.bars(&self.code, self.timed) {
            return Ok(false);
        }
        let none = Changes::new(self.alloc);
        let ahead = side.ahead(&self.code, &self.opening, &none);
        let uses = uses_at(&self.code, side.pc());
        self.is_fit(desk, side, core, &ahead, uses)
    }

    // A turn of a core more, unless the search has to end before it. The only error is running out of memory.
    fn watch_turn(
        &self,
        desk: &mut Desk,
        side: &mut Side,
        core: u8,
        changes: &mut Changes,
    ) -> Result<(), AllocError> {
        if side.left() == 0 {
            return Ok(());
        }
        let mut ahead = side.ahead(&self.code, &self.opening, changes);
        if !self.is_free(desk, side, core, &ahead)? {
            return Ok(());
        }
        self.go_on(side, &mut ahead, changes)
    }

    // So many turns of a core more. The only error is running out of memory.
    fn watch_turns(
        &self,
        desk: &mut Desk,
        side: Side,
        core: u8,
        changes: &mut Changes,
        turns: u32,
    ) -> Result<Side, AllocError> {
        let mut side = side;
        for _ in 0..turns {
            self.watch_turn(desk, &mut side, core, changes)?;
        }
        Ok(side)
    }

    /// Makes turns of both cores and notes them: so often so many of this core, and as many of the other one.
    /// The only error is running out of memory.
    ///
    /// Condition: the core is 0 or 1.
    pub(crate) fn watch(
        &self,
        desk: &mut Desk,
        opening: &World,
        first: u8,
        often: u32,
        turns: u32,
    ) -> Result<(), AllocError>
        requires { first < 2 }
    {
        let second = 1 - first;
        let mut changes = Changes::new(self.alloc);
        let mut side = opening.side(first).copy();
        let mut other = opening.side(second).copy();
        for _ in 0..often {
            side = self.watch_turns(desk, side, first, &mut changes, turns)?;
            other = self.watch_turns(desk, other, second, &mut changes, turns)?;
        }
        Ok(())
    }

    // The world in which a core has come so far by so many turns. The only error is running out of memory.
    #[inline(always)]
    fn run_to(
        &self,
        desk: &mut Desk,
        world: &World,
        core: u8,
        side: Side,
        changes: Changes,
        turns: u32,
    ) -> Result<WorldRun, AllocError>
        ensures turns { IfOk result (λ r. r.turns ≡ turns) }
        ensures changes { IfOk result (λ r. r.world.changes.value ≡ changes) }
        ensures spot { IfOk result (λ r. (m : MemoryContents) → spot_of m r.world ≡ moved_spot core side (contents_of m changes) (spot_of m world.now)) }
    {
        let world = desk.shared.moved(self.alloc, world, core, side, changes)?;
        Ok(WorldRun { world, turns })
    }

    /// A turn of a core, and then its turns that meet nothing; None: the search has to end before the first
    /// one. The only error is running out of memory.
    ///
    /// Condition: the core is 0 or 1.
    pub fn run(
        &self,
        desk: &mut Desk,
        world: &World,
        core: u8,
    ) -> Result<Option<WorldRun>, AllocError>
        requires core { core < 2 }
        ensures run { IfOk result (λ o. IfSome o (λ r. spot_of self.now.opening.contents r.world ≡ spot_run (constant_byte self.now.code) self.now.timed self.now.dead.masks.items self.now.places.list.items self.now.most_local core (spot_of self.now.opening.contents world.now))) }
        ensures turns { IfOk result (λ o. IfSome o (λ r. spot_of self.now.opening.contents r.world ≡ after (spot_next (processor (constant_byte self.now.code)) self.now.timed self.now.dead.masks.items) (turns_of core r.turns) (spot_of self.now.opening.contents world.now))) }
        ensures free { IfOk result (λ o. IfSome o (λ r. TurnsFit (constant_byte self.now.code) self.now.timed self.now.dead.masks.items (turns_of core r.turns) (spot_of self.now.opening.contents world.now))) }
        ensures lean { IfOk result (λ o. IfSome o (λ r. IsLean self.now.opening.contents world.now.changes.value → IsLean self.now.opening.contents r.world.changes.value)) }
        ensures begins { IfOk result (λ o. IfSome o (λ r. bars (constant_byte self.now.code) self.now.timed self.now.dead.masks.items self.now.opening.contents core world.now ≡ false)) }
        ensures barred { IfOk result (λ o. IfNone o (bars (constant_byte self.now.code) self.now.timed self.now.dead.masks.items self.now.opening.contents core world.now ≡ true)) }
    {
        let mut changes = world.changes.copy(self.alloc)?;
        let first = world.side(core);
        if first.left() == 0 {
            let run = self.run_to(desk, world, core, first.copy(), changes, 1)?;
            return Ok(Some(run));
        }
        let mut ahead = first.ahead(&self.code, &self.opening, &changes);
        if !self.is_free(desk, first, core, &ahead)? {
            return Ok(None);
        }
        let mut side = first.copy();
        self.go_on(&mut side, &mut ahead, &mut changes)?;
        let mut turns = 1;
        for made in 0..self.most_local {
            if !self.local(desk, &side, core, &changes, &mut ahead)? {
                let run = self.run_to(desk, world, core, side, changes, turns)?;
                return Ok(Some(run));
            }
            self.go_on(&mut side, &mut ahead, &mut changes)?;
            turns += 1;
        }
        let run = self.run_to(desk, world, core, side, changes, turns)?;
        Ok(Some(run))
    }
}

impl<'a> Timed<'a> {
    ghost use Rattle.std.specs.Prelude.{false, IfOk};
    ghost use Rattle.xt_exec.specs.Chips.{processor};
    ghost use Rattle.xt_search.specs.Meetings.{after};
    ghost use Rattle.xt_outcomes.specs.KeptWorlds.{bars, spot_of};
    ghost use Rattle.xt_outcomes.specs.Nexts.{TurnsFit, spot_next};
    ghost use Rattle.xt_outcomes.specs.Places.{spot_run, turns_of};

    /// A turn of a core, before which the search need not end, and then its turns that meet nothing. The only
    /// error is running out of memory.
    ///
    /// Condition: the core is 0 or 1.
    pub(crate) fn made(
        &self,
        desk: &mut Desk,
        world: &World,
        core: u8,
    ) -> Result<WorldRun, AllocError>
        requires core { core < 2 }
        requires free { bars (constant_byte self.now.code) self.now.timed self.now.dead.masks.items self.now.opening.contents core world.now ≡ false }
        ensures run { IfOk result (λ r. spot_of self.now.opening.contents r.world ≡ spot_run (constant_byte self.now.code) self.now.timed self.now.dead.masks.items self.now.places.list.items self.now.most_local core (spot_of self.now.opening.contents world.now)) }
        ensures turns { IfOk result (λ r. spot_of self.now.opening.contents r.world ≡ after (spot_next (processor (constant_byte self.now.code)) self.now.timed self.now.dead.masks.items) (turns_of core r.turns) (spot_of self.now.opening.contents world.now)) }
        ensures free { IfOk result (λ r. TurnsFit (constant_byte self.now.code) self.now.timed self.now.dead.masks.items (turns_of core r.turns) (spot_of self.now.opening.contents world.now)) }
    {
        let Some(run) = self.run(desk, world, core)? else {
            unreachable!();
        };
        Ok(run)
    }
}

// Whether a turn of this kind executes an instruction.
fn executes(kind: StepKind) -> bool
    ensures { result ≡ executes kind }
{
    matches!(kind, StepKind::Insn)
}

// Whether neither core has a turn left.
fn have_ended(side0: &Side, side1: &Side) -> bool
    ensures { result ≡ ((side0.now.left == 0) && (side1.now.left == 0)) }
{
    side0.left() == 0 && side1.left() == 0
}

impl<'a> Machine for Timed<'a> {
    ghost use Rattle.xt_outcomes.specs.KeptWorlds as kept;
    ghost use Rattle.xt_outcomes.specs.Marks.{IsSameWorld, world_mark};
    ghost use Rattle.xt_outcomes.specs.MarkLaws.{same_marks};

    type World = World;

    type Desk = Desk;

    ghost Leads = { λ t c v w. kept.Leads (constant_byte t.code) t.timed t.dead.masks.items t.places.list.items t.most_local t.opening.contents c v w };

    ghost bars = { λ t c w. kept.bars (constant_byte t.code) t.timed t.dead.masks.items t.opening.contents c w };

    ghost Same = { λ _ v w. IsSameWorld v w };

    ghost IsMark = { λ _ w d. d ≡ world_mark w };

    ghost ends = { λ t w. (w.side0.value.left == 0) && (w.side1.value.left == 0) };

    fn turned(
        &self,
        desk: &mut Desk,
        world: &World,
        core: u8,
    ) -> Result<Option<World>, AllocError> {
        match self.run(desk, world, core)? {
            Some(run) => Ok(Some(run.world)),
            None => Ok(None),
        }
    }

    fn is_same(&self, a: &World, b: &World) -> bool {
        a.is_same(b)
    }

    fn is_end(&self, world: &World) -> bool {
        have_ended(world.side0.as_ref(), world.side1.as_ref())
    }

    fn digest(&self, world: &World) -> u64 {
        let side0 = world.side(0).digest();
        let side1 = world.side(1).digest();
        world
            .changes
            .digest()
            .wrapping_add(side0.wrapping_mul(31))
            .wrapping_add(side1.wrapping_mul(1009))
    }

    ghost marks_agree = { λ t v w m n. same_marks v w m n };
}
