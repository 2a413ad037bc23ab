//! The machine of an image whose timers fire at any moment.
ghost use Rattle.std.specs.Prelude.{◌≡◌, ◌<◌, ◌+◌, ◌^◌, None, IfOk, IfSome, OnOk};
ghost use Rattle.std.specs.List.{All};
ghost use Rattle.xt_map.specs.Memory.{constant_byte};
ghost use Rattle.xt_moments.specs.Moments.{IsMove};
ghost use Rattle.xt_moment_search.specs.Covering.{Becomes, Forgets, HasRun, Leads, Led, LedIn, TurnsTo};
ghost use Rattle.xt_moment_search.specs.Covering.{chosen, snapshot_of, step_of};
ghost use Rattle.xt_moment_search.specs.Opened.{IsOpen};
ghost use Rattle.xt_moment_search.specs.Turns.{MakesMove};
ghost use Rattle.xt_moments.specs.declared.moves.Move.{Move};
ghost use Rattle.xt_moment_search.specs.declared.snapshots.Snapshot.{Snapshot};

use crate::bytes::Bytes;
use crate::choices::choices;
use crate::forcing::forced;
use crate::forgetting::{Leaving, Saved, forget, left_by_next};
use crate::ground::Ground;
use crate::sides::Side;
use crate::snapshots::Snapshot;
use crate::worlds::{Shared, World};
use std::alloc::{AllocError, Global};
use xt_image::Image;
use xt_moments::Move;
use xt_search::{Changes, Machine};
use xt_trace::Options;

/// What is searched.
#[derive(Drop)]
pub struct Moments<'a> {
    pub ground: Ground<'a>,
    pub alloc: Global,
    /// Whether it forgets what an interrupt has saved.
    pub forgets: bool,
}

/// A world on its way, and the moves that led there.
#[derive(Drop)]
pub struct Run {
    pub at: Snapshot,
    pub trail: Vec<Move>,
}

// How many turns are made at once at most.
const MOST_TURNS: u32 = 2000;

// Whether a world is kept after a turn of this core that began at `from` and left this.
fn is_cut(side: &Side, from: u32, leaves: Leaving) -> bool {
    if side.is_interrupted() {
        return false;
    }
    !matches!(leaves, Leaving::Nothing) || side.pc() < from
}

/// What a step of a search does.
#[derive(Clone, Copy)]
pub enum Step {
    /// It makes a move.
    Makes(Move),
    /// It passes moves over, so many of them now.
    Passes(usize),
    /// It does nothing: no move is left.
    Rests,
}

impl<'a> Moments<'a> {
    ghost use Rattle.xt_trace.specs.Validity.{IsValid};

    /// The world in which the runs of an image open. The only error is running out of memory.
    ///
    /// Condition: the options are valid.
    pub fn open(
        &self,
        shared: &mut Shared,
        image: &Image,
        options: &Options,
    ) -> Result<World, AllocError>
        requires { IsValid options.now }
        ensures { IfOk result (IsOpen image.now options.now) }
    {
        let side0 = Side::open(0, image.entry, options);
        let side1 = Side::open(1, options.entry1, options);
        let bytes = Bytes {
            held: Changes::new(self.alloc),
            hidden: Changes::new(self.alloc),
        };
        let world = shared.world(self.alloc, side0, side1, bytes)?;
        Ok(world)
    }

    // Forgets what no turn may use once an interrupt is over. The only error is running out of memory.
    fn forget_after(
        &self,
        leaves: Leaving,
        core: u8,
        at: &mut Snapshot,
        saved: &mut Saved,
    ) -> Result<(), AllocError>
        requires { core < 2 }
        ensures { OnOk result (Forgets self.now.ground.opening.contents self.now.ground.cleared.contents at.old at.new) }
    {
        if !self.forgets || leaves != Leaving::Interrupt || at.side(core).is_interrupted() {
            return Ok(());
        }
        forget(&self.ground, core, at, saved)
    }

    // Makes the turn of a core, and forgets what no turn after it may use. None: it uses what is not
    // known, and nothing has changed. The only error is running out of memory.
    fn turn(
        &self,
        at: &mut Snapshot,
        core: u8,
        saved: &mut Saved,
    ) -> Result<Option<Leaving>, AllocError>
        requires { core < 2 }
        ensures none { IfOk result (λ r. r ≡ None → at.new ≡ at.old) }
        ensures turns { IfOk result (λ r. IfSome r (λ _. TurnsTo (constant_byte self.now.ground.code) self.now.ground.opening.contents self.now.ground.cleared.contents core at.old at.new)) }
    {
        let leaves = left_by_next(&self.ground, at.side(core));
        let side = at.side(core).copy();
        let made = self.ground.turned(&side, &mut at.bytes, saved)?;
        let Some(next) = made else {
            return Ok(None);
        };
        at.put(core, next);
        self.forget_after(leaves, core, at, saved)?;
        Ok(Some(leaves))
    }

    // A copy of a kept world after a move. None: a turn uses what is not known. The only error is
    // running out of memory.
    fn begin(
        &self,
        world: &World,
        made: Move,
        saved: &mut Saved,
    ) -> Result<Option<Snapshot>, AllocError>
        requires { IsMove made }
        ensures { IfOk result (λ r. IfSome r (Becomes (constant_byte self.now.ground.code) self.now.ground.opening.contents self.now.ground.cleared.contents made (snapshot_of world.now))) }
    {
        let mut at = Snapshot::of(self.alloc, world)?;
        match made {
            Move::Turn(core) => {
                let turned = self.turn(&mut at, core, saved)?;
                let Some(_leaves) = turned else {
                    return Ok(None);
                };
                Ok(Some(at))
            }
            Move::Fires(core, timer) => {
                let next = at.side(core).fired(timer);
                at.put(core, next);
                Ok(Some(at))
            }
        }
    }

    // Makes a turn that may come before all other moves. Whether another one is to be made. The only
    // error is running out of memory.
    fn go_on(&self, run: &mut Run, saved: &mut Saved) -> Result<bool, AllocError>
        ensures { IfOk result (λ _. (made : Move) (v : Snapshot)
            → HasRun (constant_byte self.now.ground.code) self.now.ground.opening.contents self.now.ground.cleared.contents made v run.old
            → HasRun (constant_byte self.now.ground.code) self.now.ground.opening.contents self.now.ground.cleared.contents made v run.new) }
    {
        let Some(core) = forced(&self.ground, &run.at) else {
            return Ok(false);
        };
        let from = run.at.side(core).pc();
        let turned = self.turn(&mut run.at, core, saved)?;
        let Some(leaves) = turned else {
            return Ok(false);
        };
        run.trail.push(Move::Turn(core))?;
        Ok(!is_cut(run.at.side(core), from, leaves))
    }

    /// A copy of a kept world after a move, and after turns that may come before other moves. None: the
    /// turn uses what is not known. The only error is running out of memory.
    pub fn run(&self, world: &World, made: Move) -> Result<Option<Run>, AllocError>
        requires { IsMove made }
        ensures { IfOk result (λ r. IfSome r (HasRun (constant_byte self.now.ground.code) self.now.ground.opening.contents self.now.ground.cleared.contents made (snapshot_of world.now))) }
    {
        let mut saved = Saved::new(self.alloc);
        let begun = self.begin(world, made, &mut saved)?;
        let Some(at) = begun else {
            return Ok(None);
        };
        let mut run = Run {
            at,
            trail: Vec::new(self.alloc),
        };
        run.trail.push(made)?;
        for _ in 0..MOST_TURNS {
            let more = self.go_on(&mut run, &mut saved)?;
            if !more {
                return Ok(Some(run));
            }
        }
        Ok(Some(run))
    }

    /// The world after a move, and after turns that may come before other moves. None: the turn uses
    /// what is not known. The only error is running out of memory.
    pub fn made(
        &self,
        shared: &mut Shared,
        world: &World,
        made: Move,
    ) -> Result<Option<World>, AllocError>
        requires { IsMove made }
        ensures passed { IfOk result (λ r. IfSome r (λ w. w.passed ≡ 0)) }
        ensures leads { IfOk result (λ r. IfSome r (λ w. Leads (constant_byte self.now.ground.code) self.now.ground.opening.contents self.now.ground.cleared.contents made world.now w)) }
    {
        let ran = self.run(world, made)?;
        let Some(run) = ran else {
            return Ok(None);
        };
        let Run { at, trail: _ } = run;
        let Snapshot {
            side0,
            side1,
            bytes,
        } = at;
        let next = shared.world(self.alloc, side0, side1, bytes)?;
        Ok(Some(next))
    }

    // What a step of a search does in a world. The only error is running out of memory.
    fn next_step(&self, world: &World, number: u8) -> Result<Step, AllocError>
        ensures { IfOk result (λ s. s ≡ step_of world.now number) }
    {
        let moves = choices(self.alloc, world)?;
        if world.passed >= moves.len() {
            return Ok(Step::Rests);
        }
        let moves = moves.as_slice();
        Ok(chosen(&moves[world.passed..], world.passed, number))
    }

    /// What a step of a search does in a world: the step 0 makes the first move that is not passed over. The step 1 passes
    /// it over, or makes the second one if there are no more. The only error is running out of memory.
    pub fn step(&self, world: &World, number: u8) -> Result<Step, AllocError>
        ensures step { IfOk result (λ s. s ≡ step_of world.now number) }
        ensures makes { IfOk result MakesMove }
    {
        let step = self.next_step(world, number)?;
        Ok(step)
    }

    /// The world after a step. None: its turn uses what is not known. The only error is running out of memory.
    pub fn stepped(
        &self,
        shared: &mut Shared,
        world: &World,
        step: Step,
    ) -> Result<Option<World>, AllocError>
        requires { MakesMove step }
        ensures { IfOk result (λ r. IfSome r (Led (constant_byte self.now.ground.code) self.now.ground.opening.contents self.now.ground.cleared.contents step world.now)) }
    {
        match step {
            Step::Makes(made) => self.made(shared, world, made),
            Step::Passes(passed) => {
                let next = world.passing(passed)?;
                Ok(Some(next))
            }
            Step::Rests => {
                let next = world.passing(0)?;
                Ok(Some(next))
            }
        }
    }
}

// What a step does, where these moves are left, and so many are passed over.
fn chosen(rest: &[Move], passed: usize, number: u8) -> Step
    requires { passed + 1 < 2 ^ 64 }
    ensures { result ≡ chosen rest.now passed number }
{
    match rest {
        [] => Step::Rests,
        [first] => Step::Makes(*first),
        [first, second] => {
            if number == 0 {
                Step::Makes(*first)
            } else {
                Step::Makes(*second)
            }
        }
        [first, ..] => {
            if number == 0 {
                Step::Makes(*first)
            } else {
                Step::Passes(passed + 1)
            }
        }
    }
}

impl<'a> Machine for Moments<'a> {
    ghost use Rattle.std.specs.Prelude.{true, ◌&&◌};

    type World = World;

    type Desk = Shared;

    ghost Leads = { λ s c v w. LedIn s.ground c v w };

    ghost bars = { λ _ _ _. true };

    // That no two worlds are the same is not claimed.
    ghost Same = { λ _ _ _. ⊥ };

    ghost IsMark = { λ _ _ _. Unit {0} };

    ghost ends = { λ _ w. w.side0.value.stopped && w.side1.value.stopped };

    fn turned(
        &self,
        desk: &mut Shared,
        world: &World,
        core: u8,
    ) -> Result<Option<World>, AllocError> {
        let step = self.step(world, core)?;
        self.stepped(desk, world, step)
    }

    fn is_same(&self, a: &World, b: &World) -> bool {
        a.is_same(b)
    }

    fn is_end(&self, world: &World) -> bool {
        world.has_ended()
    }

    fn digest(&self, world: &World) -> u64 {
        world.digest()
    }

    ghost marks_agree = { λ t a b m n same. absurd same };
}
