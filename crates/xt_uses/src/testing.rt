//! The breaches of the discipline of uses that a judged step shows.
#![tactic(auto)]

ghost use Rattle.std.specs.Prelude.{◌≡◌, ℕ, Bool, List, false, true};
ghost use Rattle.xt_isa.specs.Ranges.{in_range};
ghost use Rattle.xt_map.specs.Memory.{constant_byte};
ghost use Rattle.xt_codec.specs.Fetches.{IsFetched, IsGoodFetch};
ghost use Rattle.xt_map.specs.Fetching.{Fetched, fetch_at};
ghost use Rattle.xt_frames.specs.Breaches.{first_shown};
ghost use Rattle.xt_frames.specs.Frames.{Frame};
ghost use Rattle.xt_frames.specs.FrameStep.{FrameTurn, step_with_inputs};
ghost use Rattle.xt_frames.specs.KeptFrameState.{IsGood, IsNewest, IsPlan, Upper, shown_tests, state_at, turn_as};
ghost use Rattle.xt_frames.specs.SaveAreas.{before};
ghost use Rattle.xt_frames.specs.Walked.{bounds_of};
ghost use Rattle.xt_frames.specs.declared.holes.UndefinedParts.{UndefinedParts};
ghost use Rattle.xt_uses.specs.UseBreaches.{breaks_stack, fetched_return_use, fetched_uses, has_no_number, holds_mark, keeps_stack, laid_use, reads_mark, reads_no_number, shown_here, underflows, use_tests, uses_unknown};
ghost use Rattle.xt_uses.specs.UseParts.{IsTouched, IsUseCase, use_at};

use crate::masks::TopMasks;
use crate::used::{keeps_unknown, used_are_known};
use xt_codec::{Fetch, instruction_at};
use xt_frames::{
    BreachKind, Caller, Case, FrameRegisters, NextEvent, StepSummary, Tested, UndefinedParts,
    ends_nested, insn_tests, is_return, moves_marks, other_tests, return_tests, vector_breach,
};
use xt_isa::Insn;
use xt_isa::shift::Shift;
use xt_map::Constants;
use xt_rows::{reads, special_reads};
use xt_trace::{StepKind, StepRecord};

/// What a record's access touches.
#[derive(Clone, Copy)]
pub struct Touched {
    /// Whether it stores to a live save area of either core.
    pub saves: bool,
    /// Whether it is an S32C1I that touches a byte of which a bit is not known.
    pub swaps: bool,
    /// The mask of its reply.
    pub reply: u32,
}

/// Of the tests of the stack discipline, those that this one has in their place.
#[derive(Clone, Copy)]
struct Exchanged {
    unset: bool,
    stale: bool,
    movsp: bool,
}

fn holds_mark(marks: &[Option<u8>; 16], register: Option<u8>) -> bool
    ensures { result ≡ holds_mark marks.now register }
{
    match register {
        Some(n) if n < 16 => marks[n as usize].is_some(),
        _ => false,
    }
}

fn keeps_mark(saved: &[Option<u8>; 256], register: Option<u8>) -> bool
    ensures { result ≡ holds_mark saved.now register }
{
    match register {
        Some(n) => saved[n as usize].is_some(),
        None => false,
    }
}

/// Whether it reads a mark otherwise than by moving it.
fn reads_mark(i: Insn, holes: &UndefinedParts) -> bool
    requires { in_range i ≡ true }
    ensures { result ≡ reads_mark holes.now.nested i }
{
    let (first, second) = reads(i);
    let (special, other) = special_reads(i);
    match &holes.nested {
        None => false,
        Some(x) => {
            !moves_marks(i)
                && (holds_mark(&x.marks, first)
                    || holds_mark(&x.marks, second)
                    || keeps_mark(&x.saved, special)
                    || keeps_mark(&x.saved, other))
        }
    }
}

fn has_no_number(unset: &[bool; 256], register: Option<u8>) -> bool
    ensures { result ≡ has_no_number unset.now register }
{
    match register {
        Some(n) => !keeps_unknown(n) && unset[n as usize],
        None => false,
    }
}

/// Whether it reads a special register that has no number and keeps nothing unknown.
fn reads_no_number(i: Insn, holes: &UndefinedParts) -> bool
    requires { in_range i ≡ true }
    ensures { (frames : List Frame) (v : Upper) → result ≡ reads_no_number i (state_at frames holes.now v) }
{
    let (special, other) = special_reads(i);
    !(holes.nested.is_some() && ends_nested(i))
        && (has_no_number(&holes.unset, special) || has_no_number(&holes.unset, other))
}

/// Whether it uses something that is not known.
fn uses_unknown(i: Insn, masks: &TopMasks, view: &FrameRegisters, holes: &UndefinedParts) -> bool
    requires { in_range i ≡ true }
    ensures { (frames : List Frame) (kept : List (List ℕ)) (v : Upper)
        → result ≡ uses_unknown i (use_at frames kept holes.now v masks.now) (state_at frames holes.now view.now) }
{
    if reads_mark(i, holes) {
        return true;
    }
    if reads_no_number(i, holes) {
        return true;
    }
    let operands = masks.operands(i, view, holes);
    !used_are_known(masks.discipline, i, operands.x, operands.y)
}

/// Whether the new stack pointer is one that ENTRY may leave to the newest frame. The opening frame has none.
fn keeps_stack(case: &Case, sp: u32) -> bool
    ensures { (frames : List Frame) → IsNewest case.now.newest frames → case.now.under ≡ before case.now.limits.hi frames
        → result ≡ keeps_stack (bounds_of case.now.limits).range sp frames }
{
    case.newest.is_some()
        && sp % 16 == 0
        && u64::from(case.limits.lo) + 16 <= u64::from(sp)
        && u64::from(sp) + 16 <= u64::from(case.under)
}

/// Whether it is a MOVSP that does not keep the stack.
#[tactic(auto, using(crate::proofs::UseRanges::movsp_from), unfolding(crate::specs::UseBreaches::breaks_stack))]
fn breaks_stack(case: &Case, i: Insn, kind: StepKind, view: &FrameRegisters) -> bool
    requires { in_range i ≡ true }
    ensures { (frames : List Frame) (h : UndefinedParts) → IsNewest case.now.newest frames → case.now.under ≡ before case.now.limits.hi frames
        → result ≡ breaks_stack (bounds_of case.now.limits).range i kind (state_at frames h view.now) }
{
    match i {
        Insn::Shift(Shift::Movsp(t, s)) => {
            !(kind == StepKind::Insn
                && t == 1
                && !view.excm()
                && keeps_stack(case, view.value_or_zero(s)))
        }
        _ => false,
    }
}

fn shown_here(t: Tested, own: Exchanged) -> bool
    ensures { result ≡ shown_here t.kind own.unset own.stale own.movsp t.shown }
{
    match t.kind {
        BreachKind::Unset => own.unset,
        BreachKind::StaleLoad => own.stale,
        BreachKind::Movsp => own.movsp,
        _ => t.shown,
    }
}

/// The first kind that is shown, where some tests are exchanged.
fn first_use(tests: &[Tested], own: Exchanged) -> Option<BreachKind>
    ensures { result ≡ first_shown (use_tests own.unset own.stale own.movsp (shown_tests tests.now)) }
{
    for t in tests {
        if shown_here(*t, own) {
            return Some(t.kind);
        }
    }
    None
}

/// The first breach of a step that fetches this.
///
/// Condition: the test of the stack discipline for StaleLoad is not asked for.
fn fetched_use(
    case: &Case,
    touched: &Touched,
    masks: &TopMasks,
    holes: &UndefinedParts,
    fetch: Fetch,
    rec: &StepRecord,
    view: &FrameRegisters,
    step: &StepSummary,
    after: &FrameRegisters,
) -> Option<BreachKind>
    requires good { IsGoodFetch fetch }
    requires stale { case.now.stale ≡ false }
    ensures { (frames : List Frame) (kept : List (List ℕ)) (v : Upper) (live : ℕ → Bool) (bytes : ℕ → ℕ) (at : Fetched) (u : FrameTurn)
        → IsUseCase case.now touched.now frames → IsTouched touched.now rec.now live bytes → IsFetched fetch at
        → turn_as step.now frames holes.now after.now ≡ u
        → result ≡ first_shown (fetched_uses (bounds_of case.now.limits) case.now.fresh live bytes at rec.now (use_at frames kept holes.now v masks.now) (state_at frames holes.now view.now) u) }
{
    match fetch {
        Fetch::Insn(i, _) => {
            let own = Exchanged {
                unset: uses_unknown(i, masks, view, holes),
                stale: touched.swaps,
                movsp: breaks_stack(case, i, rec.kind, view),
            };
            let tests = insn_tests(case, holes, i, rec, view, step, after);
            first_use(&tests, own)
        }
        Fetch::Fails(_) | Fetch::Nothing => {
            let own = Exchanged {
                unset: false,
                stale: touched.swaps,
                movsp: false,
            };
            let tests = other_tests(case, holes, rec, view, step, after);
            first_use(&tests, own)
        }
    }
}

/// The first breach of a step that was planned so, where the inputs of its record are laid over the state before it.
///
/// Condition: the test of the stack discipline for StaleLoad is not asked for.
pub fn use_breach(
    case: &Case,
    touched: &Touched,
    masks: &TopMasks,
    holes: &UndefinedParts,
    plan: NextEvent,
    rec: &StepRecord,
    view: &FrameRegisters,
    step: &StepSummary,
    after: &FrameRegisters,
) -> Option<BreachKind>
    requires good { IsGood plan }
    requires stale { case.now.stale ≡ false }
    ensures { (code : ℕ → ℕ) (frames : List Frame) (kept : List (List ℕ)) (v : Upper) (live : ℕ → Bool) (bytes : ℕ → ℕ)
        → IsUseCase case.now touched.now frames → IsTouched touched.now rec.now live bytes → IsPlan plan code view.now.control
        → turn_as step.now frames holes.now after.now ≡ step_with_inputs code rec.now.reply (state_at frames holes.now view.now)
        → result ≡ laid_use (bounds_of case.now.limits) case.now.fresh code live bytes rec.now (use_at frames kept holes.now v masks.now) (state_at frames holes.now view.now) }
{
    match plan {
        NextEvent::Interrupt(_) | NextEvent::Waits => vector_breach(case.limits, view),
        NextEvent::Fetched(fetch) => {
            fetched_use(case, touched, masks, holes, fetch, rec, view, step, after)
        }
    }
}

/// Whether a record of this kind is tested for the RETW at PC: one of an underflow.
pub fn underflows(kind: StepKind) -> bool
    ensures { result ≡ underflows kind }
{
    match kind {
        StepKind::Window(vector) => vector == 1 || vector == 3 || vector == 5,
        _ => false,
    }
}

/// The first breach that the record of an underflow shows of the RETW at PC.
pub fn return_use(
    code: &Constants,
    view: &FrameRegisters,
    masks: &TopMasks,
    holes: &UndefinedParts,
    newest: &Option<Caller>,
) -> Option<BreachKind>
    ensures { (frames : List Frame) (kept : List (List ℕ)) (v : Upper) → IsNewest newest.now frames
        → result ≡ fetched_return_use (fetch_at (constant_byte code.now) view.now.control.pc) (use_at frames kept holes.now v masks.now) (state_at frames holes.now view.now) }
{
    match instruction_at::<Caller>(code, view.pc()) {
        Fetch::Insn(i, _) => {
            if is_return(i) {
                let own = Exchanged {
                    unset: uses_unknown(i, masks, view, holes),
                    stale: false,
                    movsp: false,
                };
                let tests = return_tests(i, view, holes, newest);
                first_use(&tests, own)
            } else {
                None
            }
        }
        Fetch::Fails(_) | Fetch::Nothing => None,
    }
}
