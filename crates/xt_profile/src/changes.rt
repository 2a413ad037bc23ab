//! What a turn after the cut does to the functions of its core.
#![tactic(auto)]

ghost use Rattle.std.specs.Prelude.{◌≡◌};
ghost use Rattle.xt_map.specs.Memory.{constant_byte};
ghost use Rattle.xt_profile.specs.After.{change_at, change_by, change_of};

use xt_codec::{Fetch, instruction_at};
use xt_frames::HandlerPhase;
use xt_isa::Insn;
use xt_isa::control::{Control, ReturnName};
use xt_isa::density::{BareName, Density};
use xt_map::Constants;
use xt_trace::{StepKind, StepRecord};

/// What becomes of the functions that a core is in.
#[derive(Clone, Copy)]
pub enum Change {
    /// They stay.
    Stays,
    /// One is called.
    Calls,
    /// The last one returns, if it is not the opening one.
    Returns,
}

#[tactic(auto, unfolding(crate::specs::After::change_by))]
fn change_by(insn: Insn) -> Change
    ensures { result ≡ change_by insn }
{
    match insn {
        Insn::Control(Control::Entry(_, _)) => Change::Calls,
        Insn::Control(Control::Return(ReturnName::Retw)) => Change::Returns,
        Insn::Density(Density::Bare(BareName::Retw)) => Change::Returns,
        _ => Change::Stays,
    }
}

/// What a turn of this kind does with the instruction at this PC.
fn change_of(code: &Constants, kind: StepKind, pc: u32) -> Change
    ensures { result ≡ change_of (constant_byte code.now) kind pc }
{
    match kind {
        StepKind::Insn => match instruction_at::<Change>(code, pc) {
            Fetch::Insn(insn, _) => change_by(insn),
            _ => Change::Stays,
        },
        _ => Change::Stays,
    }
}

/// What a turn does that has this record.
pub fn change_at(code: &Constants, phase: HandlerPhase, rec: &StepRecord) -> Change
    ensures { result ≡ change_at (constant_byte code.now) phase rec.now }
{
    match phase {
        HandlerPhase::Outside => change_of(code, rec.kind, rec.pc),
        HandlerPhase::InHandler => Change::Stays,
        HandlerPhase::Nested => change_of(code, rec.kind, rec.pc),
    }
}
