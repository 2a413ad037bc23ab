//! One turn of a core with its record, from a world that is kept.
ghost use Rattle.std.specs.Prelude.{◌≡◌, ◌<◌, IfOk, OnOk};
ghost use Rattle.xt_map.specs.Memory.{HasSizes, constant_byte};
ghost use Rattle.xt_map.specs.Code.{AreBytes};
ghost use Rattle.xt_trace.specs.Worlds.{answer, memory_left};
ghost use Rattle.xt_search.specs.Changed.{IsLean, contents_of};
ghost use Rattle.xt_exec.specs.Chips.{processor};
ghost use Rattle.xt_exec.specs.Turn.{demand, turn};
ghost use Rattle.xt_exec.specs.TurnLaws.{IsServed};
ghost use Rattle.xt_outcomes.specs.Spots.{memory_given, side_given};

use crate::sides::Side;
use std::alloc::AllocError;
use xt_bus::Memory;
use xt_map::{Access, Constants};
use xt_search::Changes;
use xt_trace::StepRecord;

/// Serves the access of a turn, if it makes one. The only error is running out of memory.
pub(crate) fn serve(
    access: Option<Access>,
    opening: &Memory,
    changes: &mut Changes,
) -> Result<(), AllocError>
    requires sizes { HasSizes opening.now.contents }
    requires served { IsServed access }
    ensures memory { OnOk result (contents_of opening.now.contents changes.new ≡ memory_left access (contents_of opening.now.contents changes.old)) }
    ensures lean { OnOk result (IsLean opening.now.contents changes.old → IsLean opening.now.contents changes.new) }
{
    if let Some(access) = access {
        changes.serve(opening, access)?;
    }
    Ok(())
}

impl Side {
    /// The core after its next turn, and the record of that; without time, where it is not timed. The
    /// only error is running out of memory.
    ///
    /// Condition: the core has a turn left.
    pub fn recorded(
        &self,
        code: &Constants,
        opening: &Memory,
        changes: &mut Changes,
        timed: bool,
    ) -> Result<(Side, StepRecord), AllocError>
        requires left { 0 < self.now.left }
        requires sizes { HasSizes opening.now.contents }
        requires bytes { AreBytes (constant_byte code.now) }
        ensures side { IfOk result (λ r. r.0 ≡ side_given (processor (constant_byte code.now)) timed self.now.left self.now (contents_of opening.now.contents changes.old)) }
        ensures record { IfOk result (λ r. r.1 ≡ (turn (constant_byte code.now) self.now.state (answer (demand (constant_byte code.now) self.now.state) (contents_of opening.now.contents changes.old))).0) }
        ensures memory { OnOk result (contents_of opening.now.contents changes.new ≡ memory_given (processor (constant_byte code.now)) self.now.left self.now.state (contents_of opening.now.contents changes.old)) }
    {
        let ahead = self.ahead(code, opening, changes);
        serve(ahead.record.access, opening, changes)?;
        let mut side = self.copy();
        side.come_past(&ahead, timed);
        Ok((side, ahead.record))
    }
}
