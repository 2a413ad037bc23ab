//! Two cores whose timers fire at any moment, and memory.
ghost use Rattle.std.specs.Prelude.{◌≡◌, ◌<◌, IfOk};
ghost use Rattle.xt_map.specs.declared.contents.MemoryContents.{MemoryContents};
ghost use Rattle.xt_map.specs.Memory.{HasSizes, constant_byte};
ghost use Rattle.xt_map.specs.Code.{AreBytes};
ghost use Rattle.xt_trace.specs.Validity.{IsValid};
ghost use Rattle.xt_core.specs.Runs.{memory_of, opening_of};
ghost use Rattle.xt_moments.specs.Made.{world_of};
ghost use Rattle.xt_moments.specs.Moments.{IsMove, moved, opening_world};
ghost use Rattle.xt_moments.specs.Outcomes.{have_stopped};

use crate::actors::Actor;
use crate::moves::Move;
use std::alloc::{AllocError, Global};
use xt_bus::Memory;
use xt_image::Image;
use xt_map::Constants;
use xt_search::Changes;
use xt_trace::Options;

/// Two cores between two moves, and what memory holds.
#[derive(Drop)]
pub struct Actors {
    pub core0: Actor,
    pub core1: Actor,
    pub changes: Changes,
}

impl Actors {
    /// The world in which the runs of an image open.
    ///
    /// Condition: the options are valid.
    pub fn open(alloc: Global, image: &Image, options: &Options) -> Actors
        requires { IsValid options.now }
        ensures { world_of (memory_of image.now options.now) result ≡ opening_world (opening_of image.now options.now) }
    {
        Actors {
            core0: Actor::open(0, image.entry, options),
            core1: Actor::open(1, options.entry1, options),
            changes: Changes::new(alloc),
        }
    }

    /// Whether both cores have stopped.
    pub fn have_stopped(&self) -> bool
        ensures { (m : MemoryContents) → result ≡ have_stopped (world_of m self.now) }
    {
        self.core0.has_stopped() && self.core1.has_stopped()
    }

    /// The world after a move, at which CCOUNT is this number. The only error is running out of
    /// memory.
    ///
    /// Condition: the core is 0 or 1, and the timer 0, 1 or 2.
    pub fn moved(
        self,
        code: &Constants,
        opening: &Memory,
        count: u32,
        made: Move,
    ) -> Result<Actors, AllocError>
        requires sizes { HasSizes opening.now.contents }
        requires bytes { AreBytes (constant_byte code.now) }
        requires made { IsMove made }
        ensures { IfOk result (λ w. world_of opening.now.contents w ≡ moved (constant_byte code.now) count made (world_of opening.now.contents self)) }
    {
        let Actors {
            core0,
            core1,
            mut changes,
        } = self;
        match made {
            Move::Turn(0) => {
                let core0 = core0.turned(code, opening, &mut changes, count)?;
                Ok(Actors {
                    core0,
                    core1,
                    changes,
                })
            }
            Move::Turn(_) => {
                let core1 = core1.turned(code, opening, &mut changes, count)?;
                Ok(Actors {
                    core0,
                    core1,
                    changes,
                })
            }
            Move::Fires(0, timer) => {
                let core0 = core0.fired(timer);
                Ok(Actors {
                    core0,
                    core1,
                    changes,
                })
            }
            Move::Fires(_, timer) => {
                let core1 = core1.fired(timer);
                Ok(Actors {
                    core0,
                    core1,
                    changes,
                })
            }
        }
    }
}
