//! A record that has to be judged as a whole.
#![tactic(auto)]

ghost use Rattle.std.specs.Prelude.{◌≡◌, ◌+◌, ◌<◌, ◌^◌, ℕ, Bool, true, false, IfSome};
ghost use Rattle.xt_map.specs.Memory.{constant_byte};
ghost use Rattle.xt_map.specs.Regions.{is_mapped};
ghost use Rattle.xt_discipline.specs.declared.roles.Role.TheVariants.{Own};
ghost use Rattle.xt_discipline.specs.Phases.{role_of};
ghost use Rattle.xt_uses.specs.UseWalk.{use_seen};
ghost use Rattle.xt_use_walk.specs.MaskedBytes.{AreFull, KnowsBytes};
ghost use Rattle.xt_use_walk.specs.Sides.{IsUseSeen, IsUseSide, live_in, standing_of};
ghost use Rattle.xt_use_shadow.specs.Shadows.{IsSawn};

use std::alloc::AllocError;
use xt_discipline::{Role, phase_after, role_of};
use xt_map::Constants;
use xt_trace::StepRecord;
use xt_use_walk::{Bytes, FirstUse, Side};
use xt_uses::JudgeError;

/// How the walk ends before its schedule does.
#[derive(Clone, Copy)]
pub enum End {
    /// A core has no turn left.
    NoTurn,
    /// A breach, which is told apart.
    Breaks,
    /// There is too little memory.
    NoMemory(AllocError),
    /// A turn was made in step that has to be judged as a whole.
    Lost,
}

/// Judges a record of the program itself, without the short way of most records,
/// which this one is not taken to go.
fn judge(
    side: &mut Side,
    code: &Constants,
    bytes: &mut Bytes,
    rec: &StepRecord,
) -> Result<(), JudgeError>
    requires side { IsUseSide side.old }
    requires room { side.old.steps + 1 < 2 ^ 32 }
    requires own { Own ≡ role_of side.old.phase rec.now.kind }
    requires served { IfSome rec.now.access (λ a. is_mapped a ≡ true) }
    requires full { AreFull bytes.old }
    ensures full { AreFull bytes.new }
    ensures seen { (others : ℕ → Bool) (masks : ℕ → ℕ) → KnowsBytes side.old.core bytes.old (live_in side.old.uses) others masks
        → IsUseSeen side.old side.new bytes.new others masks
        (use_seen (constant_byte code.now) side.old.uses.bounds (standing_of side.old) others masks rec.now) result }
{
    let touched = bytes.touched(rec);
    let next = phase_after(code, side.phase, rec);
    side.judge_whole(code, bytes, rec, false, next, &touched)
}

/// Sees the core's next record, which is a handler step or judged. `special` says that it is taken not
/// to go the short way of most records.
fn look(
    side: &mut Side,
    code: &Constants,
    bytes: &mut Bytes,
    rec: &StepRecord,
    special: bool,
) -> Result<(), JudgeError>
    requires side { IsUseSide side.old }
    requires room { side.old.steps + 1 < 2 ^ 32 }
    requires served { IfSome rec.now.access (λ a. is_mapped a ≡ true) }
    requires full { AreFull bytes.old }
    ensures full { AreFull bytes.new }
    ensures seen { (others : ℕ → Bool) (masks : ℕ → ℕ) → KnowsBytes side.old.core bytes.old (live_in side.old.uses) others masks
        → IsUseSeen side.old side.new bytes.new others masks
        (use_seen (constant_byte code.now) side.old.uses.bounds (standing_of side.old) others masks rec.now) result }
{
    match role_of(side.phase, rec.kind) {
        Role::Own if special => judge(side, code, bytes, rec),
        _ => side.see(code, bytes, rec),
    }
}

/// The same. A breach is told in `first`.
pub fn see(
    side: &mut Side,
    code: &Constants,
    bytes: &mut Bytes,
    rec: StepRecord,
    special: bool,
    first: &mut Option<FirstUse>,
) -> Result<(), End>
    requires side { IsUseSide side.old }
    requires room { side.old.steps + 1 < 2 ^ 32 }
    requires served { IfSome rec.access (λ a. is_mapped a ≡ true) }
    requires full { AreFull bytes.old }
    ensures full { AreFull bytes.new }
    ensures seen { (others : ℕ → Bool) (masks : ℕ → ℕ) → KnowsBytes side.old.core bytes.old (live_in side.old.uses) others masks
        → IsSawn (constant_byte code.now) side.old side.new bytes.new others masks rec first.new result }
{
    match look(side, code, bytes, &rec, special) {
        Ok(()) => Ok(()),
        Err(JudgeError::Breaks(breach)) => {
            *first = Some(FirstUse {
                breach,
                rec,
                lacks: side.lacks(code, &rec),
            });
            Err(End::Breaks)
        }
        Err(JudgeError::NoMemory(error)) => Err(End::NoMemory(error)),
    }
}
