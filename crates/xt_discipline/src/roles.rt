//! What each record of a core is to a judge, by the phase before it, and the phase after it.
#![tactic(auto)]

ghost use Rattle.std.specs.Prelude.{◌≡◌, IfOk, false, true};
ghost use Rattle.xt_map.specs.Memory.{constant_byte};
ghost use Rattle.xt_map.specs.Fetching.{fetch_at};
ghost use Rattle.xt_frames.specs.HandlerSteps.{closes, ends_stretch, fetched_ends, phase_after, returns};
ghost use Rattle.xt_discipline.specs.Phases.{phase_of, phases_of, role_of};

use crate::handler_phases::Phases;
use std::alloc::{AllocError, Global};
use xt_codec::{Fetch, instruction_at};
use xt_frames::{HandlerPhase, ends_nested, is_nesting};
use xt_isa::Insn;
use xt_isa::system::{ExceptionReturnName, System};
use xt_map::{Constants, code_three};
use xt_trace::{Records, StepKind, StepRecord};

/// What a record of a core is to a judge.
#[derive(Clone, Copy)]
pub enum Role {
    /// A step of the program outside handlers, which is judged.
    Own,
    /// A window exception outside handlers, which is tested: the first handler step.
    Entry,
    /// Any other handler step, which is passed over.
    HandlerStep,
    /// An interrupt in the middle of handler steps, or a step in it, which is judged.
    NestedStep,
}

/// What a record of this kind is, in this phase before it.
#[inline(always)]
pub fn role_of(before: HandlerPhase, kind: StepKind) -> Role
    ensures { result ≡ role_of before kind }
{
    match before {
        HandlerPhase::Outside => match kind {
            StepKind::Window(_) => Role::Entry,
            _ => Role::Own,
        },
        HandlerPhase::InHandler => {
            if is_nesting(kind) {
                Role::NestedStep
            } else {
                Role::HandlerStep
            }
        }
        HandlerPhase::Nested => Role::NestedStep,
    }
}

impl Role {
    /// The phase that such a record belongs to.
    pub fn phase(self) -> HandlerPhase
        ensures { result ≡ phase_of self }
    {
        match self {
            Role::Own => HandlerPhase::Outside,
            Role::Entry | Role::HandlerStep => HandlerPhase::InHandler,
            Role::NestedStep => HandlerPhase::Nested,
        }
    }
}

#[tactic(auto, unfolding(xt_frames::specs::HandlerSteps::ends_stretch))]
fn ends_stretch(insn: Insn) -> bool
    ensures { result ≡ ends_stretch insn }
{
    matches!(
        insn,
        Insn::System(System::ExceptionReturn(ExceptionReturnName::Rfwo | ExceptionReturnName::Rfwu))
    )
}

/// Whether the bytes at an address are those of L32E or S32E, of which most of a handler is.
fn reaches_frames(code: &Constants, pc: u32) -> bool
    ensures { result ≡ true → fetched_ends (fetch_at (constant_byte code.now) pc) ≡ false }
{
    if 0xFFFF_FFF0 < pc {
        return false;
    }
    let (first, _second, third) = code_three(code, pc);
    if first % 16 != 0 {
        return false;
    }
    match third {
        0x09 => true,
        0x49 => true,
        _ => false,
    }
}

/// Whether the bytes at an address are those of RFWO or RFWU.
fn ends_at(code: &Constants, pc: u32) -> bool
    ensures { result ≡ fetched_ends (fetch_at (constant_byte code.now) pc) }
{
    // (told apart first, since decoding takes longer)
    if reaches_frames(code, pc) {
        return false;
    }
    match instruction_at::<StepRecord>(code, pc) {
        Fetch::Insn(insn, _) => ends_stretch(insn),
        _ => false,
    }
}

/// Whether a record is of an RFWO or RFWU, by the bytes at its PC.
fn closes(code: &Constants, rec: &StepRecord) -> bool
    ensures { result ≡ closes (constant_byte code.now) rec.now.kind rec.now.pc }
{
    match rec.kind {
        StepKind::Insn => ends_at(code, rec.pc),
        _ => false,
    }
}

/// Whether a record is of an RFI 5, by the bytes at its PC.
fn returns(code: &Constants, rec: &StepRecord) -> bool
    ensures { result ≡ returns (constant_byte code.now) rec.now.kind rec.now.pc }
{
    match rec.kind {
        StepKind::Insn => match instruction_at::<Role>(code, rec.pc) {
            Fetch::Insn(insn, _) => ends_nested(insn),
            _ => false,
        },
        _ => false,
    }
}

/// The phase after a record. It looks at the code only for a handler step and a nested one.
#[inline(always)]
pub fn phase_after(code: &Constants, before: HandlerPhase, rec: &StepRecord) -> HandlerPhase
    ensures { result ≡ phase_after (constant_byte code.now) before rec.now }
{
    match role_of(before, rec.kind) {
        Role::Own => HandlerPhase::Outside,
        Role::Entry => HandlerPhase::InHandler,
        Role::HandlerStep => {
            if closes(code, rec) {
                HandlerPhase::Outside
            } else {
                HandlerPhase::InHandler
            }
        }
        Role::NestedStep => {
            if returns(code, rec) {
                HandlerPhase::InHandler
            } else {
                HandlerPhase::Nested
            }
        }
    }
}

/// Of each record that is left of a core, whether it is a handler step or nested, where they begin
/// outside handler steps. The only error is running out of memory.
pub fn phases<R: Records>(
    alloc: Global,
    code: &Constants,
    records: &mut R,
) -> Result<Phases, AllocError>
    ensures { IfOk result (λ phases. phases ≡ phases_of (constant_byte code.now) (R.left records.old)) }
{
    let mut before = HandlerPhase::Outside;
    let mut items = Vec::new(alloc);
    while let Some(rec) = records.next() {
        items.push(role_of(before, rec.kind).phase())?;
        before = phase_after(code, before, &rec);
    }
    Ok(Phases::new(items))
}
