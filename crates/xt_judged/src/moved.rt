//! Scenes past a turn.
ghost use Rattle.std.specs.Prelude.{◌≡◌, Some, true, IfOk, option_map};
ghost use Rattle.xt_map.specs.declared.contents.MemoryContents.{MemoryContents};
ghost use Rattle.xt_search.specs.Changed.{contents_of};
ghost use Rattle.xt_outcomes.specs.KeptWorlds.{moved_spot, spot_of};
ghost use Rattle.xt_outcomes.specs.Spots.{side_of};
ghost use Rattle.xt_judged.specs.Kept.{IsJudgedAs, bounds0, bounds1, other_of, own_of, scene_of, scene_with, told_of};
ghost use Rattle.xt_judged.specs.Lives.{AreApart};

use crate::scene::{Scene, Shown, Standing, is_same_breach, is_same_core};
use crate::stale::Stale;
use std::alloc::{AllocError, Global};
use std::rc::Rc;
use xt_outcomes::{Side, World};
use xt_search::Changes;

/// The same world. The only error is that a part of it has too many owners.
pub(crate) fn same_world(world: &World) -> Result<World, AllocError>
    ensures { IfOk result (λ w. (m : MemoryContents) → spot_of m w ≡ spot_of m world.now) }
{
    Ok(World {
        side0: world.side0.clone()?,
        side1: world.side1.clone()?,
        changes: world.changes.clone()?,
    })
}

/// Whether two worlds are seen to hold the same.
pub(crate) fn is_same_world(a: &World, b: &World) -> bool
    ensures { result ≡ true → (m : MemoryContents) → spot_of m a.now ≡ spot_of m b.now }
{
    if !a.side0.is_same(b.side0.as_ref()) {
        return false;
    }
    if !a.side1.is_same(b.side1.as_ref()) {
        return false;
    }
    a.changes.is_same(b.changes.as_ref())
}

/// The world in which a core has come so far. The only error is running out of memory.
#[inline(always)]
pub(crate) fn moved_world(
    alloc: Global,
    world: &World,
    core: u8,
    side: Side,
    changes: Changes,
) -> Result<World, AllocError>
    ensures { IfOk result (λ w. (m : MemoryContents) → spot_of m w ≡ moved_spot core side (contents_of m changes) (spot_of m world.now)) }
{
    let side = Rc::new(alloc, side)?;
    let changes = Rc::new(alloc, changes)?;
    if core == 0 {
        Ok(World {
            side0: side,
            side1: world.side1.clone()?,
            changes,
        })
    } else {
        Ok(World {
            side0: world.side0.clone()?,
            side1: side,
            changes,
        })
    }
}

impl Scene {
    /// A core, 0 or 1.
    pub fn side(&self, core: u8) -> &Side
        ensures { (m : MemoryContents) → result.now ≡ side_of core (scene_of m self.now).spot }
    {
        self.world.side(core)
    }

    /// What the judge knows of a core, 0 or 1.
    pub fn own(&self, core: u8) -> &Standing
        ensures { result.now ≡ own_of core self.now }
    {
        if core == 0 {
            self.standing0.as_ref()
        } else {
            self.standing1.as_ref()
        }
    }

    /// What the judge knows of the other core.
    pub fn other(&self, core: u8) -> &Standing
        ensures { result.now ≡ other_of core self.now }
    {
        if core == 0 {
            self.standing1.as_ref()
        } else {
            self.standing0.as_ref()
        }
    }

    /// The same scene, but for a breach. The only error is that a part of it has too many owners.
    pub fn with_breach(&self, breach: Option<Shown>) -> Result<Scene, AllocError>
        ensures scene { IfOk result (λ s. (m : MemoryContents) → scene_of m s ≡ record (scene_of m self.now) { breach = option_map told_of breach }) }
        ensures same0 { IfOk result (λ s. bounds0 s ≡ bounds0 self.now) }
        ensures same1 { IfOk result (λ s. bounds1 s ≡ bounds1 self.now) }
    {
        Ok(Scene {
            world: same_world(&self.world)?,
            standing0: self.standing0.clone()?,
            standing1: self.standing1.clone()?,
            stale: self.stale.clone()?,
            only: self.only,
            breach,
            turns: self.turns,
        })
    }

    /// The scene in which a core has come so far: with this world, what is known of the core, the stale
    /// bytes, and the core that goes on alone. The only error is that a part of it has too many owners.
    ///
    /// Conditions: no stale byte is live, and the core is judged by the same as before.
    pub fn moved(
        &self,
        core: u8,
        world: World,
        standing: Rc<Standing>,
        stale: Rc<Stale>,
        only: Option<u8>,
    ) -> Result<Scene, AllocError>
        requires apart { AreApart standing.value.frames (Some (other_of core self.now).frames) stale.value }
        requires same { standing.value.frames.bounds ≡ (own_of core self.now).frames.bounds }
        ensures scene { IfOk result (λ s. (m : MemoryContents) → scene_of m s ≡ scene_with m core self.now (spot_of m world) standing.value stale.value only) }
        ensures same0 { IfOk result (λ s. bounds0 s ≡ bounds0 self.now) }
        ensures same1 { IfOk result (λ s. bounds1 s ≡ bounds1 self.now) }
    {
        if core == 0 {
            Ok(Scene {
                world,
                standing0: standing,
                standing1: self.standing1.clone()?,
                stale,
                only,
                breach: None,
                turns: self.turns,
            })
        } else {
            Ok(Scene {
                world,
                standing0: self.standing0.clone()?,
                standing1: standing,
                stale,
                only,
                breach: None,
                turns: self.turns,
            })
        }
    }

    /// Whether all that the judge knows is seen to be the same.
    pub fn is_judged_as(&self, other: &Scene) -> bool
        ensures { result ≡ true → IsJudgedAs self.now other.now }
    {
        if !is_same_core(self.only, other.only) {
            return false;
        }
        if !is_same_breach(self.breach, other.breach) {
            return false;
        }
        if !self.stale.is_same(other.stale.as_ref()) {
            return false;
        }
        if !self.standing0.is_same(other.standing0.as_ref()) {
            return false;
        }
        self.standing1.is_same(other.standing1.as_ref())
    }
}
