//! Steps that begin, continue and end an interrupt in the middle of a window handler.
#![tactic(auto)]

ghost use Rattle.std.specs.Prelude.{◌≡◌, ℕ, Bool, true, IfOk, IfSome, List, Some};
ghost use Rattle.xt_map.specs.Memory.{constant_byte};
ghost use Rattle.xt_frames.specs.Frames.{Frame};
ghost use Rattle.xt_frames.specs.FrameStep.{with_inputs};
ghost use Rattle.xt_isa.specs.Ranges.{in_range};
ghost use Rattle.xt_special.specs.Shape.{IsPs};
ghost use Rattle.xt_rows.specs.RowLaws.{IsAny, IsProperWrite};
ghost use Rattle.xt_frames.specs.declared.holes.UndefinedParts.{UndefinedParts};
ghost use Rattle.xt_frames.specs.Marks.{mark_read, unset_written};
ghost use Rattle.xt_map.specs.Fetching.{Fetched};
ghost use Rattle.xt_codec.specs.Fetches.{IsFetched, IsGoodFetch};
ghost use Rattle.xt_frames.specs.Nesting.{nested_entry, with_kept_frame, nested_after, nested_fetched};
ghost use Rattle.xt_frames.specs.Stacks.{Stack};
ghost use Rattle.xt_frames.specs.Breaches.{inputs_of};
ghost use Rattle.xt_frames.specs.KeptFrameState.{IsCase, IsSmall, Upper, state_at, turn_as};
ghost use Rattle.xt_frames.specs.Stepped.{IsDone, IsKept, found_by};

use crate::breach::{Case, breach_of, fresh_after, planned};
use crate::holes::{NESTED_LEVEL, Nested, UndefinedParts, ends_nested, mark_read, moved_to};
use crate::judged::Done;
use crate::kinds::BreachKind;
use crate::view::{Call, FrameRegisters, StepSummary};
use xt_codec::Fetch;
use xt_isa::Insn;
use xt_map::Constants;
use xt_special::number;
use xt_trace::StepRecord;

/// The marks with which a nested interrupt begins: each of a0 to a3 holds its own.
const OWN_MARKS: [Option<u8>; 16] = [
    Some(0),
    Some(1),
    Some(2),
    Some(3),
    None,
    None,
    None,
    None,
    None,
    None,
    None,
    None,
    None,
    None,
    None,
    None,
];

/// Takes an interrupt in the middle of a window handler.
pub fn begin(view: &mut FrameRegisters, holes: &mut UndefinedParts, rec: &StepRecord)
    ensures state { (frames : List Frame) → state_at frames holes.new view.new ≡ (nested_entry (with_inputs (inputs_of rec.now) (state_at frames holes.old view.old))).after }
    ensures ps { IfSome holes.new.nested (λ x. IsPs x.ps) }
{
    view.lay(rec);
    let mut inner = *view;
    let _step = inner.interrupt(NESTED_LEVEL);
    holes.unset[number::EPC5 as usize] = true;
    holes.unset[number::EPS5 as usize] = true;
    holes.nested = Some(Nested {
        pc: inner.pc(),
        seen: [None; 16],
        ps: inner.ps(),
        marks: OWN_MARKS,
        saved: [None; 256],
    });
    view.keep(&inner);
}

/// The interrupt after a step inside that moves no mark.
fn other(old: &Nested, inner: &FrameRegisters) -> Nested
    ensures range { IsPs result.ps }
    ensures pc { result.pc ≡ inner.now.control.pc }
    ensures seen { result.seen ≡ inner.now.seen }
    ensures ps { result.ps ≡ inner.now.control.ps }
    ensures marks { result.marks ≡ old.now.marks }
    ensures saved { result.saved ≡ old.now.saved }
{
    Nested {
        pc: inner.pc(),
        seen: inner.seen(),
        ps: inner.ps(),
        marks: old.marks,
        saved: old.saved,
    }
}

/// The interrupt after the step of an instruction inside: it moves marks between visible and special registers, and puts numbers in
/// place of marks.
fn continued(
    i: Insn,
    old: &Nested,
    unset: &mut [bool; 256],
    step: &StepSummary,
    inner: &FrameRegisters,
) -> Nested
    requires i { in_range i ≡ true }
    requires write { IsProperWrite IsAny step.now.write }
    ensures nested { (frames : List Frame) (h : UndefinedParts) → result ≡ nested_after i (mark_read i old.now.saved) old.now (turn_as step.now frames h inner.now) }
    ensures unset { unset.new ≡ unset_written i old.now.marks unset.old }
    ensures range { IsPs result.ps }
{
    let mark = mark_read(i, old);
    let mut new = other(old, inner);
    if let Some((t, n)) = moved_to(i) {
        let moved = old.marks[t as usize];
        unset[n as usize] = moved.is_some();
        new.saved[n as usize] = moved;
    }
    if let Some(write) = step.write {
        new.marks[write.reg as usize] = mark;
        if mark.is_some() {
            new.seen[write.reg as usize] = None;
        }
    }
    new
}

/// What is left beside a view by a step inside, where this stood at its PC.
pub fn go_on(
    holes: &mut UndefinedParts,
    nested: &Nested,
    fetch: Fetch,
    step: &StepSummary,
    inner: &FrameRegisters,
)
    requires fetch { IsGoodFetch fetch }
    requires write { IsProperWrite IsAny step.now.write }
    ensures state { (frames : List Frame) (v w : Upper) (at : Fetched) (value : ℕ) → IsFetched fetch at
        → state_at frames holes.old w ≡ with_kept_frame (state_at frames holes.old v) (state_at frames holes.old inner.now)
        → state_at frames holes.new w ≡ (nested_fetched at value nested.now (state_at frames holes.old v) (turn_as step.now frames holes.old inner.now)).after }
    ensures ps { IfSome holes.new.nested (λ x. IsPs x.ps) }
{
    match fetch {
        Fetch::Insn(i, _) => {
            if ends_nested(i) {
                holes.nested = None;
            } else {
                let next = continued(i, nested, &mut holes.unset, step, inner);
                holes.nested = Some(next);
            }
        }
        Fetch::Fails(_) | Fetch::Nothing => {
            holes.nested = Some(other(nested, inner));
        }
    }
}

/// Steps a nested interrupt by a record, or says which breach the step shows first. After a breach nothing has changed.
pub fn judge_nested(
    view: &mut FrameRegisters,
    holes: &mut UndefinedParts,
    nested: &Nested,
    case: &Case,
    code: &Constants,
    rec: &StepRecord,
) -> Result<Done, BreachKind>
    requires small { IsSmall case.now.newest }
    requires nested { holes.old.nested ≡ Some nested.now }
    requires ps { IsPs nested.now.ps }
    ensures ps { IfSome holes.new.nested (λ x. IsPs x.ps) }
    ensures done { (begins : Bool) (frames : List Frame) (live stale : ℕ → Bool) → IsCase case.now rec.now frames live stale
        → IsDone (found_by case.now (constant_byte code.now) live stale begins rec.now (state_at frames holes.old view.old))
        case.now.fresh (constant_byte code.now) begins rec.now (state_at frames holes.old view.old) result (λ fs. state_at fs holes.new view.new) }
    ensures kept { (frames : List Frame) → Stack case.now.limits.lo case.now.limits.hi view.old.seen frames
        → IfOk result (λ done. IsKept case.now.limits.lo case.now.limits.hi (state_at frames holes.old view.old) done (λ fs. state_at fs holes.new view.new)) }
{
    let mut inner = view.nested_view(nested);
    inner.lay(rec);
    let before = inner;
    let plan = before.plan(code);
    let step = inner.step(code, plan, rec.reply, &case.newest);
    if let Some(kind) = breach_of(case, holes, plan, rec, &before, &step, &inner) {
        return Err(kind);
    }
    view.keep(&inner);
    go_on(holes, nested, planned(plan, code, &before), &step, &inner);
    let after = view.current(holes);
    Ok(Done {
        call: Call::Stays,
        fresh: fresh_after(case.fresh, step.kind, plan, code, &before, &after),
    })
}
