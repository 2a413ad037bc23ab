ghost use Rattle.std.specs.Prelude.{◌≡◌, true};
ghost use Rattle.xt_isa.specs.Ranges.{in_range};
ghost use Rattle.xt_map.specs.Memory.{constant_byte};
ghost use Rattle.xt_special.specs.Shape.{IsPs};
ghost use Rattle.xt_rows.specs.RowLaws.{AsksWith, IsAny, IsProper, IsShiftAmount};
ghost use Rattle.xt_rows.specs.Effects.{no_change};
ghost use Rattle.xt_rows.specs.Outcomes.{outcome};

use crate::boolean::boolean_outcome;
use crate::control::control_outcome;
use crate::density::density_outcome;
use crate::effects::no_change;
use crate::memory::memory_outcome;
use crate::outcome::Outcome;
use crate::shift::shift_outcome;
use crate::system::system_outcome;
use crate::three::three_outcome;
use xt_isa::Insn;
use xt_map::Constants;
use xt_special::Ps;

/// The values of the registers that an instruction reads, 0 where there is none.
#[derive(Clone, Copy)]
pub struct Values {
    /// Of the first visible register.
    pub x: u32,
    /// Of the second.
    pub y: u32,
    /// Of the first special register.
    pub u: u32,
    /// Of the second.
    pub v: u32,
}

// The row's formula. `U` names the user alone: each has a copy, which can be inlined into its one caller.
#[tactic(auto, unfolding(crate::specs::Outcomes::outcome))]
#[inline(always)]
fn row_outcome<U>(
    code: &Constants,
    i: Insn,
    pc: u32,
    values: Values,
    ps: Ps,
    threadptr: u32,
) -> Outcome
    requires range { in_range i ≡ true }
    requires sar { IsShiftAmount i values.u }
    requires ps { IsPs ps }
    ensures { result ≡ outcome (constant_byte code.now) i pc values.x values.y values.u values.v ps threadptr }
{
    let e = no_change(ps, threadptr);
    let Values { x, y, u, v } = values;
    match i {
        Insn::Three(i) => three_outcome::<U>(i, x, y, u, e),
        Insn::Shift(i) => shift_outcome::<U>(i, x, u, e),
        Insn::Memory(i) => memory_outcome::<U>(code, i, pc, x, y, u, e),
        Insn::Control(i) => control_outcome::<U>(i, pc, x, y, e),
        Insn::System(i) => system_outcome::<U>(i, x, u, v, e),
        Insn::Density(i) => density_outcome::<U>(code, i, pc, x, y, e),
        Insn::Boolean(i) => boolean_outcome::<U>(i, pc, x, u, e),
    }
}

/// What the instruction at `pc` does, where the registers that it reads have these values.
///
/// Conditions: its operands are in their ranges, as those of every instruction that is spelled; of
/// an instruction that shifts by SAR the value of SAR is below 64; and the fields of PS are in their
/// ranges. Then it writes registers that there are, asks for an access that the bus serves, and puts
/// into a special register what it can hold; and an instruction that asks for an access changes
/// nothing else. `U` names the user alone: each has a copy of its own, which can be inlined into its
/// one caller.
#[inline(always)]
pub fn outcome_of<U>(
    code: &Constants,
    i: Insn,
    pc: u32,
    values: Values,
    ps: Ps,
    threadptr: u32,
) -> Outcome
    requires range { in_range i ≡ true }
    requires sar { IsShiftAmount i values.u }
    requires ps { IsPs ps }
    ensures formula { result ≡ outcome (constant_byte code.now) i pc values.x values.y values.u values.v ps threadptr }
    ensures proper { IsProper IsAny result }
    ensures alone { AsksWith (no_change ps threadptr) result }
{
    row_outcome::<U>(code, i, pc, values, ps, threadptr)
}
