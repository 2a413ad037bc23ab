//! Which turns of a run are printed.
ghost use Rattle.std.specs.Prelude.{◌≡◌};
ghost use Rattle.xt_map.specs.Memory.{constant_byte};
ghost use Rattle.xt_map.specs.Fetching.{fetch_at};
ghost use Rattle.xt_events.specs.Filters.{everything, everything, holds, is_elsewhere, is_of, jumps};

use crate::told::TurnLine;
use xt_codec::{Fetch, instruction_at};
use xt_map::Constants;
use xt_trace::{StepKind, StepRecord};

/// What a turn has to be to be printed. All that is asked for has to hold.
#[derive(Clone, Copy)]
pub struct Filter {
    /// A turn of this core; None asks for no core.
    pub core: Option<u8>,
    /// A turn with an access that the bus served.
    pub accesses: bool,
    /// A turn after which the core goes on elsewhere than behind the instruction: it executed an
    /// instruction, and the next program counter is not that of the instruction after it in memory; or it
    /// entered a vector. A turn that waits, or that stops the core, is none.
    pub jumps: bool,
}

impl Filter {
    /// Nothing is asked for.
    pub fn everything() -> Filter
        ensures { result ≡ everything }
    {
        Filter {
            core: None,
            accesses: false,
            jumps: false,
        }
    }
}

// Whether a core is the one that is asked for, if any is.
fn is_of(wanted: Option<u8>, core: u8) -> bool
    ensures { result ≡ is_of wanted core }
{
    match wanted {
        Some(wanted) => wanted == core,
        None => true,
    }
}

// Whether a program counter is not that behind the instruction that an address fetches.
fn is_elsewhere(code: &Constants, pc: u32, next: u32) -> bool
    ensures { result ≡ is_elsewhere (fetch_at (constant_byte code.now) pc) pc next }
{
    match instruction_at::<Filter>(code, pc) {
        Fetch::Insn(_, len) => pc.checked_add(len as u32) != Some(next),
        Fetch::Fails(_) | Fetch::Nothing => true,
    }
}

// Whether the core goes on elsewhere than behind the instruction.
fn jumps(code: &Constants, r: &StepRecord, next: u32) -> bool
    ensures { result ≡ jumps (constant_byte code.now) r.now next }
{
    match r.kind {
        StepKind::Insn => is_elsewhere(code, r.pc, next),
        StepKind::Window(_) | StepKind::Exc(_) | StepKind::Interrupt(_) => true,
        StepKind::Wait | StepKind::Stop => false,
    }
}

/// Whether a turn with this record is to be printed.
#[tactic(auto, unfolding(crate::specs::Filters::holds))]
pub fn holds(code: &Constants, filter: Filter, told: &TurnLine, r: &StepRecord) -> bool
    ensures { result ≡ holds (constant_byte code.now) filter told.now r.now }
{
    is_of(filter.core, told.core)
        && (!filter.accesses || r.access.is_some())
        && (!filter.jumps || jumps(code, r, told.next))
}
