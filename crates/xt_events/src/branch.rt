//! Branches and their targets.
ghost use Rattle.std.specs.Prelude.{◌≡◌};
ghost use Rattle.xt_map.specs.Memory.{constant_byte};
ghost use Rattle.xt_events.specs.Counts.{branch_target, target_at};

use crate::tally::Tally;
use xt_codec::{Fetch, instruction_at};
use xt_disasm::jump_address;
use xt_isa::control::LoopName;
use xt_map::Constants;
use xt_names::{OneAndTarget, Parts, parts_of};

// The target of a conditional branch at the address `pc`, or of LOOPNEZ and LOOPGTZ.
fn branch_target(parts: Parts, pc: u32) -> Option<u32>
    ensures { result ≡ branch_target parts pc }
{
    match parts {
        Parts::OneAndTarget(OneAndTarget::Loop(LoopName::Loop), _) => None,
        Parts::OneAndTarget(_, (_, d)) => Some(jump_address(pc, d)),
        Parts::OneNumberAndTarget(_, (_, _, d)) => Some(jump_address(pc, d)),
        Parts::TwoAndTarget(_, (_, _, d)) => Some(jump_address(pc, d)),
        _ => None,
    }
}

/// The target of the instruction at an address, where it is a conditional branch, LOOPNEZ or
/// LOOPGTZ.
pub fn target_at(code: &Constants, pc: u32) -> Option<u32>
    ensures { result ≡ target_at (constant_byte code.now) pc }
{
    match instruction_at::<Tally>(code, pc) {
        Fetch::Insn(insn, _) => branch_target(parts_of(insn), pc),
        Fetch::Fails(_) | Fetch::Nothing => None,
    }
}
