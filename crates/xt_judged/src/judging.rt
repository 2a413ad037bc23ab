//! The turns of two cores that the judge sees. A core that has made a turn without an access goes on
//! alone up to its next access: so the turns stand as in the schedule of the run that they make.
ghost use Rattle.std.specs.Prelude.{◌≡◌, ◌<◌, Some, IfOk};
ghost use Rattle.xt_map.specs.Memory.{constant_byte};
ghost use Rattle.xt_map.specs.declared.contents.MemoryContents.{MemoryContents};
ghost use Rattle.xt_judged.specs.Alone.{is_other, only_after};
ghost use Rattle.xt_judged.specs.Scenes.{is_idle, seen_at};
ghost use Rattle.xt_judged.specs.Kept.{IsTurn, bars, bounds0, bounds1, goes_on, moved_scene, other_of, own_of, scene_of, stretch};
ghost use Rattle.xt_judged.specs.Lives.{AreApart};
ghost use Rattle.xt_judged.specs.Seen.{IsApartPast, IsKnownPast};
ghost use Rattle.xt_judged.specs.Stales.{renewed};
ghost use Rattle.xt_judged.specs.WatchedKept.{watched_of};
ghost use Rattle.xt_trace.specs.Validity.{IsValid};

use crate::clock::uses_time;
use crate::moved::{is_same_world, moved_world};
use crate::record::{Known, see_record};
use crate::scene::{Scene, Shown, Standing};
use crate::stale::Stale;
use crate::watched::{OwnJudge, Watched};
use std::alloc::{AllocError, Global};
use std::rc::Rc;
use xt_frames::{BreachKind, Frames};
use xt_outcomes::{Shared, Shelf, Side, Timed};
use xt_search::{Changes, Machine};
use xt_special::number;
use xt_trace::{Options, StepRecord};

/// The machine of an image, whose turns the judge sees.
pub struct Judging<'a> {
    pub timed: Timed<'a>,
    /// How many turns a core makes alone at once at most, after a turn.
    pub most_alone: u16,
    pub alloc: Global,
}

// A `drop` of its own is one call at each place where a value is dropped.
impl Drop for Judging<'_> {
    fn drop(self) {
        let Judging {
            timed: _,
            most_alone: _,
            alloc: _,
        } = self;
    }
}

/// What the kept states of a search share, and a core that makes turns.
pub struct SceneDesk {
    shared: Shared,
    standings: Shelf<Standing>,
    stales: Shelf<Stale>,
    judges: Shelf<OwnJudge>,
    /// The frames of the core that makes a turn, and those of the other one, where the judge looks at it.
    pub own: Frames,
    pub other: Frames,
}

impl Drop for SceneDesk {
    fn drop(self) {
        let SceneDesk {
            shared: _,
            standings: _,
            stales: _,
            judges: _,
            own: _,
            other: _,
        } = self;
    }
}

impl SceneDesk {
    /// Nothing is shared yet. The only error is running out of memory.
    ///
    /// Condition: the options are valid.
    #[tactic(auto, using(xt_discipline::proofs::Opens::range_of_core))]
    pub fn make(alloc: Global, options: &Options) -> Result<SceneDesk, AllocError>
        requires { IsValid options.now }
    {
        Ok(SceneDesk {
            shared: Shared::new(alloc)?,
            standings: Shelf::new(alloc)?,
            stales: Shelf::new(alloc)?,
            judges: Shelf::new(alloc)?,
            own: Frames::make(alloc, 0, 0, options)?,
            other: Frames::make(alloc, 1, 0, options)?,
        })
    }

    // Puts parts that are shared in place of those of a scene. The only error is running out of memory.
    fn keep_scene(&mut self, scene: &mut Scene) -> Result<(), AllocError>
        ensures scene { (m : MemoryContents) → scene_of m scene.new ≡ scene_of m scene.old }
        ensures same0 { bounds0 scene.new ≡ bounds0 scene.old }
        ensures same1 { bounds1 scene.new ≡ bounds1 scene.old }
    {
        self.shared.keep(&mut scene.world)?;
        self.standings.keep(&mut scene.standing0)?;
        self.standings.keep(&mut scene.standing1)?;
        self.stales.keep(&mut scene.stale)
    }

    /// Puts parts that are shared in place of these. The only error is running out of memory.
    pub fn keep_watched(&mut self, watched: &mut Watched) -> Result<(), AllocError>
        ensures { (m : MemoryContents) → watched_of m watched.new ≡ watched_of m watched.old }
    {
        // Judges of equal cores are mostly equal.
        let mark0 = watched.world.side(0).digest();
        let mark1 = watched.world.side(1).digest();
        self.shared.keep(&mut watched.world)?;
        self.judges.keep_by(&mut watched.judge0, mark0)?;
        self.judges.keep_by(&mut watched.judge1, mark1)
    }
}

// The stale bytes past a record: those before it, where there are no others. The only error is running out
// of memory.
fn renewed(alloc: Global, old: &Rc<Stale>, new: Option<Stale>) -> Result<Rc<Stale>, AllocError>
    ensures { IfOk result (λ rc. rc.value ≡ renewed old.now.value new) }
{
    match new {
        Some(stale) => {
            let stale = Rc::new(alloc, stale)?;
            Ok(stale)
        }
        None => {
            let stale = old.clone()?;
            Ok(stale)
        }
    }
}

// Whether another core than this one goes on alone.
fn is_other(core: u8, only: Option<u8>) -> bool
    ensures { result ≡ is_other core only }
{
    match only {
        Some(only) => only != core,
        None => false,
    }
}

// Whether a core makes no turn: a breach came, the other core goes on alone, or it has ended.
fn is_idle(scene: &Scene, core: u8) -> bool
    ensures { (m : MemoryContents) → result ≡ is_idle core (scene_of m scene.now) }
{
    if scene.breach.is_some() {
        return true;
    }
    if is_other(core, scene.only) {
        return true;
    }
    scene.side(core).left() == 0
}

// The core that has to go on alone after a turn with this record.
fn only_after(core: u8, rec: &StepRecord) -> Option<u8>
    ensures { result ≡ only_after core rec.now.access }
{
    match rec.access {
        Some(_) => None,
        None => Some(core),
    }
}

impl<'a> Judging<'a> {
    // What the judge sees in the record of a core's turn. The only error is running out of memory.
    fn seen(
        &self,
        desk: &mut SceneDesk,
        scene: &Scene,
        core: u8,
        rec: &StepRecord,
    ) -> Result<Result<Known, BreachKind>, AllocError>
        ensures known { (m : MemoryContents) → IfOk result (IsKnownPast (own_of core scene.now).frames.bounds scene.now.stale.value (seen_at (constant_byte self.now.timed.code) (bounds0 scene.now) (bounds1 scene.now) core (scene_of m scene.now) rec.now)) }
        ensures apart { IfOk result (IsApartPast (Some (other_of core scene.now).frames) scene.now.stale.value) }
    {
        let own = scene.own(core);
        desk.own.reload(self.alloc, &own.frames)?;
        desk.other.reload(self.alloc, &scene.other(core).frames)?;
        see_record(
            self.alloc,
            &self.timed.code,
            own,
            &mut desk.own,
            Some(&desk.other),
            scene.stale.as_ref(),
            rec,
        )
    }

    // The scene past a turn of a core, which came so far and showed no breach, and after which so much is
    // known. The only error is running out of memory.
    fn past(
        &self,
        scene: &Scene,
        core: u8,
        side: Side,
        changes: Changes,
        known: Known,
        rec: &StepRecord,
    ) -> Result<Scene, AllocError>
        requires apart { AreApart known.standing.frames (Some (other_of core scene.now).frames) (renewed scene.now.stale.value known.stale) }
        requires same { known.standing.frames.bounds ≡ (own_of core scene.now).frames.bounds }
        ensures scene { IfOk result (λ s. (m : MemoryContents) → scene_of m s ≡ moved_scene m core scene.now side changes known.standing (renewed scene.now.stale.value known.stale) (only_after core rec.now.access)) }
        ensures same0 { IfOk result (λ s. bounds0 s ≡ bounds0 scene.now) }
        ensures same1 { IfOk result (λ s. bounds1 s ≡ bounds1 scene.now) }
    {
        let Known { standing, stale } = known;
        let stale = renewed(self.alloc, &scene.stale, stale)?;
        let standing = Rc::new(self.alloc, standing)?;
        let world = moved_world(self.alloc, &scene.world, core, side, changes)?;
        scene.moved(core, world, standing, stale, only_after(core, rec))
    }

    // The scene past a turn of a core. The only error is running out of memory.
    //
    // Condition: the core is 0 or 1.
    fn turn(&self, desk: &mut SceneDesk, scene: &Scene, core: u8) -> Result<Scene, AllocError>
        requires { core < 2 }
        ensures { IfOk result (IsTurn (constant_byte self.now.timed.code) self.now.timed.timed self.now.timed.opening.contents core scene.now) }
    {
        if is_idle(scene, core) {
            return scene.with_breach(scene.breach);
        }
        let mut changes = scene.world.changes.copy(self.alloc)?;
        let (side, rec) = scene.side(core).recorded(
            &self.timed.code,
            &self.timed.opening,
            &mut changes,
            self.timed.timed,
        )?;
        match self.seen(desk, scene, core, &rec)? {
            Ok(known) => self.past(scene, core, side, changes, known, &rec),
            Err(kind) => {
                let pc = rec.pc;
                scene.with_breach(Some(Shown { core, pc, kind }))
            }
        }
    }

    // Whether the search has to end before a core makes its turn, since that uses time.
    fn bars(&self, scene: &Scene, core: u8) -> bool
        ensures { result ≡ bars (constant_byte self.now.timed.code) self.now.timed.timed self.now.timed.opening.contents core scene.now }
    {
        if is_idle(scene, core) {
            return false;
        }
        if scene.side(core).bars(&self.timed.code, self.timed.timed) {
            return true;
        }
        if self.timed.timed {
            return false;
        }
        let frames = &scene.own(core).frames;
        uses_time(
            &self.timed.code,
            frames.special(number::INTENABLE),
            frames.current_pc(),
        )
    }

    // Whether a core goes on alone, by a turn that uses no time.
    fn goes_on(&self, scene: &Scene, core: u8) -> bool
        ensures { result ≡ goes_on (constant_byte self.now.timed.code) self.now.timed.timed core (scene_of self.now.timed.opening.contents scene.now) }
    {
        if is_idle(scene, core) {
            return false;
        }
        if scene.only.is_none() {
            return false;
        }
        !self.bars(scene, core)
    }

    // A turn of a core, and then those that it makes alone. The only error is running out of memory.
    //
    // Condition: the core is 0 or 1.
    fn run(&self, desk: &mut SceneDesk, scene: &Scene, core: u8) -> Result<Scene, AllocError>
        requires { core < 2 }
        ensures stretch { let t = self.now.timed in IfOk result (λ s. scene_of t.opening.contents s ≡ stretch (constant_byte t.code) (bounds0 scene.now) (bounds1 scene.now) t.timed self.now.most_alone core (scene_of t.opening.contents scene.now)) }
        ensures same0 { IfOk result (λ s. bounds0 s ≡ bounds0 scene.now) }
        ensures same1 { IfOk result (λ s. bounds1 s ≡ bounds1 scene.now) }
    {
        let mut next = self.turn(desk, scene, core)?;
        let mut turns = 1;
        for made in 0..self.most_alone {
            if !self.goes_on(&next, core) {
                next.turns = turns;
                return Ok(next);
            }
            next = self.turn(desk, &next, core)?;
            turns += 1;
        }
        next.turns = turns;
        Ok(next)
    }
}

impl<'a> Machine for Judging<'a> {
    ghost use Rattle.std.specs.Prelude.{◌==◌, ◌&&◌};

    type World = Scene;

    type Desk = SceneDesk;

    ghost use Rattle.xt_judged.specs.Kept as kept;

    ghost Leads = { λ t c v w. kept.Leads (constant_byte t.timed.code) t.timed.timed t.most_alone t.timed.opening.contents c v w };

    ghost bars = { λ t c w. kept.bars (constant_byte t.timed.code) t.timed.timed t.timed.opening.contents c w };

    // That no two scenes are the same is not claimed.
    ghost Same = { λ _ _ _. ⊥ };

    ghost IsMark = { λ _ _ _. Unit {0} };

    ghost ends = { λ _ w. (w.world.side0.value.left == 0) && (w.world.side1.value.left == 0) };

    fn turned(
        &self,
        desk: &mut SceneDesk,
        scene: &Scene,
        core: u8,
    ) -> Result<Option<Scene>, AllocError> {
        if self.bars(scene, core) {
            return Ok(None);
        }
        let mut next = self.run(desk, scene, core)?;
        desk.keep_scene(&mut next)?;
        Ok(Some(next))
    }

    fn is_same(&self, a: &Scene, b: &Scene) -> bool {
        is_same_world(&a.world, &b.world) && a.is_judged_as(b)
    }

    fn is_end(&self, scene: &Scene) -> bool {
        scene.world.side0.left() == 0 && scene.world.side1.left() == 0
    }

    fn digest(&self, scene: &Scene) -> u64 {
        let core = match scene.only {
            Some(core) => u64::from(core).wrapping_add(1),
            None => 0,
        };
        self.timed
            .digest(&scene.world)
            .wrapping_add(scene.standing0.digest().wrapping_mul(131))
            .wrapping_add(scene.standing1.digest().wrapping_mul(65_537))
            .wrapping_add(scene.stale.digest())
            .wrapping_add(core)
    }

    ghost marks_agree = { λ t a b m n same. absurd same };
}
