//! A record that has to be judged as a whole.
#![tactic(auto)]

ghost use Rattle.std.specs.Prelude.{◌≡◌, ◌+◌, ◌<◌, ◌^◌, ℕ, Bool, false, length};
ghost use Rattle.xt_map.specs.Memory.{constant_byte};
ghost use Rattle.xt_frames.specs.Frames.{FrameState};
ghost use Rattle.xt_frames.specs.Judging.{seen_record};
ghost use Rattle.xt_frames.specs.Stacks.{Moves, Stack};
ghost use Rattle.xt_discipline.specs.declared.roles.Role.TheVariants.{Own};
ghost use Rattle.xt_discipline.specs.ByteMarks.{KnowsOf};
ghost use Rattle.xt_discipline.specs.Phases.{role_of};
ghost use Rattle.xt_discipline.specs.Sides.{IsCallOf, IsFollowed, IsSeen, IsSide, live_in, standing_of};

use xt_discipline::{
    Areas, Change, Held, Role, Side, areas, change_areas, loads, newest, phase_after, role_of,
    saves, store,
};
use xt_frames::Breach;
use xt_map::Constants;
use xt_trace::StepRecord;

/// The marks follow the frames, which were `depth` in number before the step, with the newest call's
/// areas `call`.
fn follow(side: &Side, marks: &mut [Held], depth: u32, call: Option<Areas>)
    requires { IsSide side.now }
    ensures len { length marks.new ≡ length marks.old }
    ensures stack { Stack side.now.frames.bounds.range.lo side.now.frames.bounds.range.hi side.now.frames.state.seen side.now.frames.state.frames }
    ensures follows { (g : FrameState) (m : Moves g side.now.frames.state) → depth ≡ length g.frames → IsCallOf call side.now.hi g
        → IsFollowed side.now.core side.now.hi g side.now.frames.state m marks.old marks.new }
{
    if depth < side.frames.depth() {
        change_areas(
            marks,
            Change::Enters(side.core),
            areas(&side.frames, side.hi),
        );
    } else if side.frames.depth() < depth {
        if let Some(areas) = call {
            change_areas(marks, Change::Leaves(side.core), areas);
        }
    }
}

/// Judges a record of the program itself, without the short way of most records,
/// which this one is not taken to go.
fn judge(
    side: &mut Side,
    code: &Constants,
    marks: &mut [Held],
    rec: &StepRecord,
) -> Result<(), Breach>
    requires side { IsSide side.old }
    requires room { side.old.steps + 1 < 2 ^ 32 }
    requires own { Own ≡ role_of side.old.phase rec.now.kind }
    requires len { length marks.old ≡ 0x52000 }
    ensures len { length marks.new ≡ length marks.old }
    ensures seen { (others stale : ℕ → Bool) → KnowsOf side.old.core marks.old (live_in side.old.frames) others stale
        → IsSeen side.old side.new marks.new others stale
        (seen_record (constant_byte code.now) side.old.frames.bounds (standing_of side.old) others stale rec.now) result }
{
    let next = phase_after(code, side.phase, rec);
    let saves = saves(marks, rec.access);
    let stale = loads(marks, rec.access);
    let depth = side.frames.depth();
    let call = newest(&side.frames, side.hi);
    side.frames
        .judge_whole(code, side.steps, rec, false, saves, stale)?;
    side.phase = next;
    side.steps += 1;
    store(marks, rec.access);
    follow(side, marks, depth, call);
    Ok(())
}

/// Sees the core's next record, which is a handler step or judged. `special` says that it is taken
/// not to go the short way of most records.
pub fn see(
    side: &mut Side,
    code: &Constants,
    marks: &mut [Held],
    rec: &StepRecord,
    special: bool,
) -> Result<(), Breach>
    requires side { IsSide side.old }
    requires room { side.old.steps + 1 < 2 ^ 32 }
    requires len { length marks.old ≡ 0x52000 }
    ensures len { length marks.new ≡ length marks.old }
    ensures seen { (others stale : ℕ → Bool) → KnowsOf side.old.core marks.old (live_in side.old.frames) others stale
        → IsSeen side.old side.new marks.new others stale
        (seen_record (constant_byte code.now) side.old.frames.bounds (standing_of side.old) others stale rec.now) result }
{
    match role_of(side.phase, rec.kind) {
        Role::Own if special => judge(side, code, marks, rec),
        _ => side.see(code, marks, rec),
    }
}
