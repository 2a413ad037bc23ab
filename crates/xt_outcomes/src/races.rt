//! Races of the next turns of both cores.
ghost use Rattle.std.specs.Prelude.{◌≡◌, ◌≤◌, ◌<◌, true, None, Some, IfOk, IfSome, IfNone, MatchOption};
ghost use Rattle.xt_map.specs.declared.access.Access.{Access};
ghost use Rattle.xt_map.specs.Memory.{HasSizes, constant_byte};
ghost use Rattle.xt_map.specs.Regions.{is_mapped};
ghost use Rattle.xt_map.specs.Placing.{IsPlaced};
ghost use Rattle.xt_trace.specs.Validity.{IsValid};
ghost use Rattle.xt_image.specs.ImageParts.{FitsImage};
ghost use Rattle.xt_exec.specs.Chips.{processor};
ghost use Rattle.xt_exec.specs.Turn.{demand};
ghost use Rattle.xt_core.specs.Runs.{code_of, memory_of, opening_of};
ghost use Rattle.xt_search.specs.Changed.{contents_of};
ghost use Rattle.xt_search.specs.Worlds.{IsOrder};
ghost use Rattle.xt_outcomes.specs.KeptWorlds.{spot_of};
ghost use Rattle.xt_outcomes.specs.Racing.{HasNoRace, IsRaceAfter};
ghost use Rattle.xt_outcomes.specs.Searched.{IsComplete, IsSearch};
ghost use Rattle.xt_outcomes.specs.SpotRaces.{IsSpotRace, event_at, next_of};

use crate::found::{Search, order_of};
use crate::nexts::{NextTurn, next_turns};
use crate::sides::Side;
use crate::timed::Timed;
use crate::world::World;
use std::alloc::{AllocError, Global};
use xt_bus::Memory;
use xt_image::Image;
use xt_map::{Access, Constants, Entry};
use xt_race::{Event, order_at};
use xt_search::Changes;
use xt_trace::{Options, StepKind, StepRecord};

/// An order after which the next turns of both cores make these accesses, which conflict.
#[derive(Drop)]
pub struct NextRace {
    /// The cores that make the turns, one by one.
    pub order: Vec<u8>,
    pub access0: Access,
    pub access1: Access,
    /// The next turn of core 0.
    pub turn0: NextTurn,
    /// The next turn of core 1.
    pub turn1: NextTurn,
}

// The next turn of a core as an entry of a history, but for its record.
fn event_of(
    core: u8,
    side: &Side,
    opening: &Memory,
    changes: &Changes,
    code: &Constants,
    access: Access,
) -> Event
    requires sizes { HasSizes opening.now.contents }
    requires access { is_mapped access ≡ true }
    ensures { result ≡ event_at (constant_byte code.now) core side.now (contents_of opening.now.contents changes.now) access }
{
    let reply = changes.reply(opening, access);
    let pc = side.regs.pc;
    Event {
        entry: Entry {
            core,
            access,
            reply,
        },
        turn: 0,
        step: StepRecord {
            pc,
            kind: StepKind::Insn,
            write: None,
            access: Some(access),
            reply,
            ccount: 0,
            owb: 0,
            interrupt: 0,
        },
        order: order_at(code, pc),
    }
}

// The accesses of the next turns of two cores with this memory, where they conflict.
fn race_between(
    machine: &Timed,
    side0: &Side,
    side1: &Side,
    changes: &Changes,
) -> Option<(Access, Access)>
    ensures { MatchOption result ((a b : Access) → IsSpotRace (constant_byte machine.now.code) (record { side0 = side0.now; side1 = side1.now; memory = contents_of machine.now.opening.contents changes.now }) a b → ⊥) (λ r. IsSpotRace (constant_byte machine.now.code) (record { side0 = side0.now; side1 = side1.now; memory = contents_of machine.now.opening.contents changes.now }) r.0 r.1) }
{
    let access0 = side0.next_access(&machine.code)?;
    let access1 = side1.next_access(&machine.code)?;
    let event0 = event_of(0, side0, &machine.opening, changes, &machine.code, access0);
    let event1 = event_of(1, side1, &machine.opening, changes, &machine.code, access1);
    if event0.conflicts(&event1) {
        Some((access0, access1))
    } else {
        None
    }
}

// The accesses of the next turns of both cores, where they conflict.
fn race_in(machine: &Timed, world: &World) -> Option<(Access, Access)>
    ensures { MatchOption result ((a b : Access) → IsSpotRace (constant_byte machine.now.code) (spot_of machine.now.opening.contents world.now) a b → ⊥) (λ r. IsSpotRace (constant_byte machine.now.code) (spot_of machine.now.opening.contents world.now) r.0 r.1) }
{
    race_between(
        machine,
        world.side0.as_ref(),
        world.side1.as_ref(),
        world.changes.as_ref(),
    )
}

/// A race of the next turns of both cores after one of the orders whose next turns were made; None:
/// if the search came to its end and its places are right, no order leads to one. The only error is running out of memory.
///
/// Conditions: the options are valid, and the image's segments lie in one region each and share no byte, as
/// those of every image that was read.
pub fn race_of(
    alloc: Global,
    image: &Image,
    options: &Options,
    search: &Search,
) -> Result<Option<NextRace>, AllocError>
    requires search { IsSearch image.now options.now search.now }
    requires valid { IsValid options.now }
    requires fits { FitsImage image.now }
    requires placed { IsPlaced image.now.segments }
    ensures race { IfOk result (λ r. IfSome r (λ x. IsRaceAfter (code_of image.now) search.now.machine.timed (opening_of image.now options.now) x)) }
    ensures none { IfOk result (λ r. IsComplete search.now → IfNone r (HasNoRace (code_of image.now) search.now.machine.timed (opening_of image.now options.now))) }
{
    for number in 0..search.graph.nexts.len() {
        let found = race_in(&search.machine, &search.graph.kept[number].world);
        if let Some((access0, access1)) = found {
            let order = order_of(alloc, image, options, search, number)?;
            let timed = search.machine.timed;
            let accesses = (access0, access1);
            let turns = next_turns(alloc, image, options, timed, order.as_slice(), accesses)?;
            return Ok(Some(NextRace {
                order,
                access0,
                access1,
                turn0: turns.0,
                turn1: turns.1,
            }));
        }
    }
    Ok(None)
}
