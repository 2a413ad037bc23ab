//! The breaches that a judged step shows.
#![tactic(auto)]

ghost use Rattle.std.specs.Prelude.{◌≡◌, ℕ, Bool, List, [], ◌∷◌, None, true, false};
ghost use Rattle.xt_isa.specs.Ranges.{in_range};
ghost use Rattle.xt_map.specs.Memory.{constant_byte};
ghost use Rattle.xt_map.specs.Fetching.{fetch_at};
ghost use Rattle.xt_codec.specs.Fetches.{IsFetched};
ghost use Rattle.xt_frames.specs.Frames.{Frame, FrameState};
ghost use Rattle.xt_frames.specs.SaveAreas.{Range, before};
ghost use Rattle.xt_frames.specs.FrameStep.{step_with_inputs};
ghost use Rattle.xt_frames.specs.Breaches.{breaks_nested, fetched_return_breach, first_shown, fresh_after, has_no_caller, insn_tests, is_in_vectors, is_movsp, is_return, is_sp, is_windowing, laid_breach, leaves_range, loses_epc1, may_write_sp, misaligns_sp, moves_vectors, names_high, names_window_register, opens_nothing, other_frame_size, other_tests, reads_epc1, reads_lost, reads_no_mark, reads_none, reads_unset, return_tests, returns_elsewhere, sets_epc1, vector_test, window_breach, writes_epc1, writes_sp};
ghost use Rattle.xt_frames.specs.declared.view.StepSummary.{StepSummary};
ghost use Rattle.xt_frames.specs.declared.holes.UndefinedParts.{UndefinedParts};
ghost use Rattle.xt_frames.specs.KeptFrameState.{IsCase, IsGood, IsNewest, IsPlan, Upper, shown_tests, state_at, turn_as};
ghost use Rattle.xt_frames.specs.Walked.{bounds_of};

use crate::holes::{
    Nested, UndefinedParts, disturbs_nested, ends_nested, has_own_marks, is_unset, lacks_mark,
    lacks_saved, moves_marks,
};
use crate::kinds::BreachKind;
use crate::view::{Caller, FrameRegisters, NextEvent, StepSummary};
use xt_codec::{Fetch, instruction_at};
use xt_isa::Insn;
use xt_isa::control::{Control, ReturnName};
use xt_isa::density::{BareName, Density};
use xt_isa::memory::Memory;
use xt_isa::shift::Shift;
use xt_isa::system::{ExceptionReturnName, SpecialName, System};
use xt_map::Constants;
use xt_rows::{highest_register, minus, natural, reads, special_reads};
use xt_special::number;
use xt_trace::{RegWrite, StepKind, StepRecord};

/// What a core is judged by: its stack range, and VECBASE as it opened.
#[derive(Clone, Copy)]
pub struct Limits {
    pub lo: u32,
    pub hi: u32,
    pub vecbase: u32,
}

/// A kind of breach, and whether the step shows it.
#[derive(Clone, Copy)]
pub struct Tested {
    pub kind: BreachKind,
    pub shown: bool,
}

/// What a judged step is tested by, beside its instruction.
#[derive(Clone, Copy)]
pub struct Case {
    /// The stack range, and VECBASE as it opened.
    pub limits: Limits,
    /// Whether EPC1 has what was last written.
    pub fresh: bool,
    /// Whether the record stores to a live save area of either core.
    pub saves: bool,
    /// Whether the record loads a stale byte, or one of a live save area.
    pub stale: bool,
    /// The newest caller, if any.
    pub newest: Option<Caller>,
    /// The stack pointer of the newest caller, or HI.
    pub under: u32,
}

fn test(kind: BreachKind, shown: bool) -> Tested
    ensures { result ≡ record { kind = kind; shown = shown } }
{
    Tested { kind, shown }
}

/// The first kind that is shown.
pub fn first_shown(tests: &[Tested]) -> Option<BreachKind>
    ensures { result ≡ first_shown (shown_tests tests.now) }
{
    for t in tests {
        if t.shown {
            return Some(t.kind);
        }
    }
    None
}

/// Whether it reads a visible or special register that has no number.
fn reads_unset(i: Insn, view: &FrameRegisters, holes: &UndefinedParts) -> bool
    requires { in_range i ≡ true }
    ensures { (frames : List Frame) → result ≡ reads_unset i (state_at frames holes.now view.now) }
{
    let (first, second) = reads(i);
    let (special, other) = special_reads(i);
    view.lacks(first)
        || view.lacks(second)
        || is_unset(&holes.unset, special)
        || is_unset(&holes.unset, other)
}

/// Whether it reads a register that has neither a number nor a mark.
fn reads_no_mark(i: Insn, x: &Nested, view: &FrameRegisters, holes: &UndefinedParts) -> bool
    requires { in_range i ≡ true }
    ensures { (frames : List Frame) → result ≡ reads_no_mark i x.now (state_at frames holes.now view.now) }
{
    let (register, _second) = reads(i);
    let (special, _other) = special_reads(i);
    (view.lacks(register) && lacks_mark(x, register))
        || (is_unset(&holes.unset, special) && lacks_saved(x, special))
}

fn reads_none(i: Insn, view: &FrameRegisters, holes: &UndefinedParts) -> bool
    requires { in_range i ≡ true }
    ensures { (frames : List Frame) → result ≡ reads_none i (state_at frames holes.now view.now) }
{
    match &holes.nested {
        None => reads_unset(i, view, holes),
        Some(x) => {
            if moves_marks(i) {
                reads_no_mark(i, x, view, holes)
            } else {
                !ends_nested(i) && reads_unset(i, view, holes)
            }
        }
    }
}

#[tactic(auto, unfolding(crate::specs::Breaches::may_write_sp))]
fn may_write_sp(i: Insn) -> bool
    ensures { result ≡ may_write_sp i }
{
    matches!(
        i,
        Insn::Control(Control::Entry(_, _)) | Insn::Shift(Shift::Movsp(_, _))
    )
}

pub fn is_sp(write: Option<RegWrite>) -> bool
    ensures { result ≡ is_sp write }
{
    match write {
        Some(w) => w.reg == 1,
        None => false,
    }
}

fn writes_sp(i: Insn, shown: Option<RegWrite>, write: Option<RegWrite>) -> bool
    ensures { result ≡ writes_sp i shown write }
{
    !may_write_sp(i) && (is_sp(shown) || is_sp(write))
}

#[tactic(auto, unfolding(crate::specs::Breaches::other_frame_size))]
fn other_frame_size(i: Insn, view: &FrameRegisters, under: u32) -> bool
    ensures { (r : Range) (frames : List Frame) (h : UndefinedParts) → under ≡ before r.hi frames → result ≡ other_frame_size r i (state_at frames h view.now) }
{
    match i {
        Insn::Control(Control::Entry(number, size)) => {
            let size = natural(size);
            let sp = u64::from(view.value_or_zero(1));
            number != 1 || size < 16 || u64::from(under) < sp + 16 * u64::from(view.callinc())
        }
        _ => false,
    }
}

#[tactic(auto, unfolding(crate::specs::Breaches::leaves_range))]
fn leaves_range(i: Insn, view: &FrameRegisters, limits: Limits) -> bool
    ensures { (frames : List Frame) (h : UndefinedParts) → result ≡ leaves_range (bounds_of limits).range i (state_at frames h view.now) }
{
    match i {
        Insn::Control(Control::Entry(_, size)) => {
            let sp = minus(view.value_or_zero(1), natural(size));
            u64::from(sp) < u64::from(limits.lo) + 16 || limits.hi < sp
        }
        _ => false,
    }
}

#[tactic(auto, unfolding(crate::specs::Breaches::misaligns_sp))]
fn misaligns_sp(i: Insn, view: &FrameRegisters) -> bool
    ensures { (frames : List Frame) (h : UndefinedParts) → result ≡ misaligns_sp i (state_at frames h view.now) }
{
    match i {
        Insn::Control(Control::Entry(_, size)) => {
            minus(view.value_or_zero(1), natural(size)) % 16 != 0
        }
        _ => false,
    }
}

#[tactic(auto, unfolding(crate::specs::Breaches::opens_nothing))]
fn opens_nothing(i: Insn, view: &FrameRegisters) -> bool
    ensures { (frames : List Frame) (h : UndefinedParts) → result ≡ opens_nothing i (state_at frames h view.now) }
{
    match i {
        Insn::Control(Control::Entry(_, _)) => view.callinc() == 0,
        _ => false,
    }
}

/// Whether it is RETW.
#[tactic(auto, unfolding(crate::specs::Breaches::is_return))]
pub fn is_return(i: Insn) -> bool
    ensures { result ≡ is_return i }
{
    matches!(
        i,
        Insn::Control(Control::Return(ReturnName::Retw))
            | Insn::Density(Density::Bare(BareName::Retw))
    )
}

fn returns_elsewhere(i: Insn, view: &FrameRegisters, newest: &Option<Caller>) -> bool
    ensures { (frames : List Frame) (h : UndefinedParts) → IsNewest newest.now frames → result ≡ returns_elsewhere i (state_at frames h view.now) }
{
    is_return(i)
        && match *newest {
            Some(caller) => view.value_or_zero(0) / 0x4000_0000 != u32::from(caller.by),
            None => false,
        }
}

fn has_no_caller(i: Insn, newest: &Option<Caller>) -> bool
    ensures { (frames : List Frame) (h : UndefinedParts) (v : Upper) → IsNewest newest.now frames → result ≡ has_no_caller i (state_at frames h v) }
{
    is_return(i) && newest.is_none()
}

#[tactic(auto, unfolding(crate::specs::Breaches::is_windowing))]
fn is_windowing(i: Insn) -> bool
    ensures { result ≡ is_windowing i }
{
    matches!(
        i,
        Insn::Memory(Memory::Window(_, _, _, _))
            | Insn::System(
                System::ExceptionReturn(ExceptionReturnName::Rfwo | ExceptionReturnName::Rfwu)
                    | System::Rotw(_)
            )
    )
}

#[tactic(auto, unfolding(crate::specs::Breaches::names_window_register))]
fn names_window_register(i: Insn) -> bool
    ensures { result ≡ names_window_register i }
{
    match i {
        Insn::System(System::Special(_, _, n)) => {
            n == number::WINDOWBASE || n == number::WINDOWSTART
        }
        _ => false,
    }
}

pub fn reads_lost(fresh: bool, register: Option<u8>) -> bool
    ensures { result ≡ reads_lost fresh register }
{
    match register {
        Some(n) => n == number::EPC1 && !fresh,
        None => false,
    }
}

fn reads_epc1(fresh: bool, i: Insn) -> bool
    requires { in_range i ≡ true }
    ensures { result ≡ reads_epc1 fresh i }
{
    let (first, second) = special_reads(i);
    reads_lost(fresh, first) || reads_lost(fresh, second)
}

fn loses_epc1(holes: &UndefinedParts, fresh: bool, i: Insn) -> bool
    requires { in_range i ≡ true }
    ensures { result ≡ loses_epc1 holes.now.nested fresh i }
{
    if holes.nested.is_none() {
        reads_epc1(fresh, i)
    } else {
        reads_epc1(false, i) || sets_epc1(i)
    }
}

fn breaks_nested(holes: &UndefinedParts, i: Insn, step: &StepSummary) -> bool
    ensures { (frames : List Frame) (after : Upper) → result ≡ breaks_nested holes.now.nested i (turn_as step.now frames holes.now after) }
{
    match &holes.nested {
        None => false,
        Some(x) => {
            matches!(step.kind, StepKind::Exc(_))
                || disturbs_nested(i)
                || (ends_nested(i) && !has_own_marks(x))
        }
    }
}

#[tactic(auto, unfolding(crate::specs::Breaches::is_movsp))]
fn is_movsp(i: Insn) -> bool
    ensures { result ≡ is_movsp i }
{
    matches!(i, Insn::Shift(Shift::Movsp(_, _)))
}

pub fn is_in_vectors(limits: Limits, pc: u32) -> bool
    ensures { result ≡ is_in_vectors limits.vecbase pc }
{
    limits.vecbase <= pc && u64::from(pc) < u64::from(limits.vecbase) + 0x180
}

fn names_high(i: Insn, view: &FrameRegisters) -> bool
    ensures { (frames : List Frame) (h : UndefinedParts) → result ≡ names_high i (state_at frames h view.now) }
{
    view.excm() && 4 <= highest_register(i)
}

fn moves_vectors(limits: Limits, after: &FrameRegisters) -> bool
    ensures { (frames : List Frame) (h : UndefinedParts) (step : StepSummary) → result ≡ moves_vectors (bounds_of limits) (turn_as step frames h after.now) }
{
    after.vecbase() != limits.vecbase
}

/// The tests of a step that fetches an instruction, in their order: `view` is what it finds, and `after` what it leaves.
pub fn insn_tests(
    case: &Case,
    holes: &UndefinedParts,
    i: Insn,
    rec: &StepRecord,
    view: &FrameRegisters,
    step: &StepSummary,
    after: &FrameRegisters,
) -> [Tested; 19]
    requires { in_range i ≡ true }
    ensures { (frames : List Frame) (live stale : ℕ → Bool) → IsCase case.now rec.now frames live stale
        → shown_tests result ≡ insn_tests (bounds_of case.now.limits) case.now.fresh live stale i rec.now (state_at frames holes.now view.now) (turn_as step.now frames holes.now after.now) }
{
    let limits = case.limits;
    let newest = &case.newest;
    [
        // reads a register that has no value, or a mark other than by moving it
        test(BreachKind::Unset, reads_none(i, view, holes)),
        // has a1 as the written register, by another instruction than ENTRY or MOVSP
        test(BreachKind::SpWritten, writes_sp(i, rec.write, step.write)),
        // ENTRY with s other than 1, size below 16, or a caller whose frame is too small
        test(BreachKind::FrameSize, other_frame_size(i, view, case.under)),
        // ENTRY whose new sp, less 16, is below LO, or whose sp is above HI
        test(BreachKind::StackRange, leaves_range(i, view, limits)),
        // ENTRY whose new sp is no multiple of 16
        test(BreachKind::SpAlign, misaligns_sp(i, view)),
        // ENTRY with CALLINC 0, so that no call opened the frame
        test(BreachKind::OpeningCall, opens_nothing(i, view)),
        // RETW whose a0 names another n than the frame's
        test(
            BreachKind::ReturnMismatch,
            returns_elsewhere(i, view, newest),
        ),
        // RETW in the opening frame
        test(BreachKind::NoCaller, has_no_caller(i, newest)),
        // a store or S32C1I that touches a live save area of either core
        test(BreachKind::SaveStore, case.saves),
        // a load or S32C1I that touches a stale byte, or a load that touches a live save area
        test(BreachKind::StaleLoad, case.stale),
        // names a4..a15 while EXCM = 1
        test(BreachKind::ExcmRegister, names_high(i, view)),
        // ROTW, L32E, S32E, RFWO or RFWU
        test(BreachKind::WindowInstruction, is_windowing(i)),
        // RSR, WSR or XSR of WINDOWBASE or WINDOWSTART
        test(BreachKind::WindowRegister, names_window_register(i)),
        // leaves PS.WOE 0
        test(BreachKind::WoeCleared, !after.woe()),
        // leaves VECBASE other than it opened
        test(BreachKind::VecbaseMoved, moves_vectors(limits, after)),
        // reads EPC1 after EXCM has fallen since it was last written, or reads or writes it in a nested interrupt
        test(BreachKind::EpcLost, loses_epc1(holes, case.fresh, i)),
        // a MOVSP
        test(BreachKind::Movsp, is_movsp(i)),
        // PC is in VECBASE + 000..17F
        test(BreachKind::VectorEntered, is_in_vectors(limits, view.pc())),
        // in a nested interrupt ends it otherwise than it should
        test(BreachKind::Nested, breaks_nested(holes, i, step)),
    ]
}

/// The first breach of a step that fetches an instruction.
fn insn_breach(
    case: &Case,
    holes: &UndefinedParts,
    i: Insn,
    rec: &StepRecord,
    view: &FrameRegisters,
    step: &StepSummary,
    after: &FrameRegisters,
) -> Option<BreachKind>
    requires { in_range i ≡ true }
    ensures { (frames : List Frame) (live stale : ℕ → Bool) → IsCase case.now rec.now frames live stale
        → result ≡ first_shown (insn_tests (bounds_of case.now.limits) case.now.fresh live stale i rec.now (state_at frames holes.now view.now) (turn_as step.now frames holes.now after.now)) }
{
    let tests = insn_tests(case, holes, i, rec, view, step, after);
    first_shown(&tests)
}

/// The tests of a step that fetches none: a turn of cause 2, or of cause 0 because nothing spells the bytes.
pub fn other_tests(
    case: &Case,
    holes: &UndefinedParts,
    rec: &StepRecord,
    view: &FrameRegisters,
    step: &StepSummary,
    after: &FrameRegisters,
) -> [Tested; 6]
    ensures { (frames : List Frame) (live stale : ℕ → Bool) → IsCase case.now rec.now frames live stale
        → shown_tests result ≡ other_tests (bounds_of case.now.limits) live stale rec.now (state_at frames holes.now view.now) (turn_as step.now frames holes.now after.now) }
{
    let limits = case.limits;
    [
        test(BreachKind::SaveStore, case.saves),
        test(BreachKind::StaleLoad, case.stale),
        test(BreachKind::WoeCleared, !after.woe()),
        test(BreachKind::VecbaseMoved, moves_vectors(limits, after)),
        test(BreachKind::VectorEntered, is_in_vectors(limits, view.pc())),
        test(BreachKind::Nested, holes.nested.is_some()),
    ]
}

/// The first breach of a step that fetches none.
fn other_breach(
    case: &Case,
    holes: &UndefinedParts,
    rec: &StepRecord,
    view: &FrameRegisters,
    step: &StepSummary,
    after: &FrameRegisters,
) -> Option<BreachKind>
    ensures { (frames : List Frame) (live stale : ℕ → Bool) → IsCase case.now rec.now frames live stale
        → result ≡ first_shown (other_tests (bounds_of case.now.limits) live stale rec.now (state_at frames holes.now view.now) (turn_as step.now frames holes.now after.now)) }
{
    let tests = other_tests(case, holes, rec, view, step, after);
    first_shown(&tests)
}

/// An interrupt or a turn of waiting shows VectorEntered alone.
pub fn vector_breach(limits: Limits, view: &FrameRegisters) -> Option<BreachKind>
    ensures { (frames : List Frame) (h : UndefinedParts) → result ≡ first_shown (vector_test (bounds_of limits) (state_at frames h view.now) ∷ []) }
{
    if is_in_vectors(limits, view.pc()) {
        Some(BreachKind::VectorEntered)
    } else {
        None
    }
}

/// The first breach of a step that was planned so, where the inputs of its record are laid over the state before it.
#[tactic(auto, unfolding(crate::specs::Breaches::laid_breach))]
pub fn breach_of(
    case: &Case,
    holes: &UndefinedParts,
    plan: NextEvent,
    rec: &StepRecord,
    view: &FrameRegisters,
    step: &StepSummary,
    after: &FrameRegisters,
) -> Option<BreachKind>
    requires { IsGood plan }
    ensures { (code : ℕ → ℕ) (frames : List Frame) (live stale : ℕ → Bool) → IsCase case.now rec.now frames live stale
        → IsPlan plan code view.now.control → turn_as step.now frames holes.now after.now ≡ step_with_inputs code rec.now.reply (state_at frames holes.now view.now)
        → result ≡ laid_breach (bounds_of case.now.limits) case.now.fresh code live stale rec.now (state_at frames holes.now view.now) }
{
    match plan {
        NextEvent::Interrupt(_) | NextEvent::Waits => vector_breach(case.limits, view),
        NextEvent::Fetched(Fetch::Insn(i, _)) => insn_breach(
            case, holes, i, rec, view, step, after,
        ),
        NextEvent::Fetched(Fetch::Fails(_) | Fetch::Nothing) => {
            other_breach(case, holes, rec, view, step, after)
        }
    }
}

/// The tests of the record of an underflow, where this RETW stands at PC.
pub fn return_tests(
    i: Insn,
    view: &FrameRegisters,
    holes: &UndefinedParts,
    newest: &Option<Caller>,
) -> [Tested; 3]
    requires { in_range i ≡ true }
    ensures { (frames : List Frame) → IsNewest newest.now frames → shown_tests result ≡ return_tests i (state_at frames holes.now view.now) }
{
    [
        test(BreachKind::Unset, reads_none(i, view, holes)),
        test(
            BreachKind::ReturnMismatch,
            returns_elsewhere(i, view, newest),
        ),
        test(BreachKind::NoCaller, has_no_caller(i, newest)),
    ]
}

/// The first breach that the record of an underflow shows of the RETW at PC.
pub fn return_breach(
    code: &Constants,
    view: &FrameRegisters,
    holes: &UndefinedParts,
    newest: &Option<Caller>,
) -> Option<BreachKind>
    ensures { (frames : List Frame) → IsNewest newest.now frames
        → result ≡ fetched_return_breach (fetch_at (constant_byte code.now) view.now.control.pc) (state_at frames holes.now view.now) }
{
    match instruction_at::<Caller>(code, view.pc()) {
        Fetch::Insn(i, _) => {
            if is_return(i) {
                let tests = return_tests(i, view, holes, newest);
                first_shown(&tests)
            } else {
                None
            }
        }
        Fetch::Fails(_) | Fetch::Nothing => None,
    }
}

#[tactic(auto, unfolding(crate::specs::Breaches::sets_epc1))]
fn sets_epc1(i: Insn) -> bool
    ensures { result ≡ sets_epc1 i }
{
    match i {
        Insn::System(System::Special(SpecialName::Wsr | SpecialName::Xsr, _, n)) => n
            == number::EPC1,
        _ => false,
    }
}

/// Whether a record of this kind is tested for the RETW at PC: one of an underflow.
#[tactic(auto, unfolding(crate::specs::Breaches::window_breach))]
pub fn underflows(kind: StepKind) -> bool
    ensures yes { result ≡ true → (code : ℕ → ℕ) (f : FrameState) → window_breach code kind f ≡ fetched_return_breach (fetch_at code f.control.pc) f }
    ensures no { result ≡ false → (code : ℕ → ℕ) (f : FrameState) → window_breach code kind f ≡ None }
{
    match kind {
        StepKind::Window(vector) => vector == 1 || vector == 3 || vector == 5,
        _ => false,
    }
}

/// What the bytes at PC are, which the plan of a step has found where it fetches.
pub fn planned(plan: NextEvent, code: &Constants, view: &FrameRegisters) -> Fetch
    requires { IsPlan plan (constant_byte code.now) view.now.control }
    ensures { IsFetched result (fetch_at (constant_byte code.now) view.now.control.pc) }
{
    match plan {
        NextEvent::Fetched(fetch) => fetch,
        NextEvent::Interrupt(_) | NextEvent::Waits => instruction_at::<NextEvent>(code, view.pc()),
    }
}

/// Whether a step of this kind, which was planned so, writes EPC1.
#[tactic(auto, unfolding(crate::specs::Breaches::writes_epc1))]
fn writes_epc1(kind: StepKind, plan: NextEvent, code: &Constants, view: &FrameRegisters) -> bool
    requires { IsPlan plan (constant_byte code.now) view.now.control }
    ensures { result ≡ writes_epc1 kind (fetch_at (constant_byte code.now) view.now.control.pc) view.now.control.ps }
{
    match kind {
        StepKind::Exc(_) => !view.excm(),
        StepKind::Interrupt(level) => level == 1 && !view.excm(),
        StepKind::Insn => match planned(plan, code, view) {
            Fetch::Insn(i, _) => sets_epc1(i),
            Fetch::Fails(_) | Fetch::Nothing => false,
        },
        _ => false,
    }
}

/// Whether EPC1 has what was last written, after a step of this kind, which was planned so.
pub fn fresh_after(
    fresh: bool,
    kind: StepKind,
    plan: NextEvent,
    code: &Constants,
    view: &FrameRegisters,
    after: &FrameRegisters,
) -> bool
    requires { IsPlan plan (constant_byte code.now) view.now.control }
    ensures { result ≡ fresh_after fresh kind (fetch_at (constant_byte code.now) view.now.control.pc) view.now.control.ps after.now.control.ps }
{
    writes_epc1(kind, plan, code, view) || (fresh && !(view.excm() && !after.excm()))
}
