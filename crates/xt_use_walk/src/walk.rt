//! How a walk over a run begins, and what it says of the run.
#![tactic(auto)]

ghost use Rattle.std.specs.Prelude.{◌≡◌, ◌<◌, IfOk};
ghost use Rattle.xt_trace.specs.Validity.{IsValid, IsValidStack};
ghost use Rattle.xt_frames.specs.Walked.{stack_of};
ghost use Rattle.xt_frames.specs.declared.kinds.HandlerPhase.TheVariants.{Outside};
ghost use Rattle.xt_uses.specs.UseParts.{opened_use};
ghost use Rattle.xt_use_walk.specs.MaskedBytes.{AreMasks, IsFull, mask_at, without};
ghost use Rattle.xt_use_walk.specs.Walks.{AreOpened, below_opening};

use crate::bytes::ByteMasks;
use crate::side::{Bytes, Side};
use std::alloc::{AllocError, Global};
use xt_discipline::opening_marks;
use xt_frames::{Breach, HandlerPhase};
use xt_trace::{Options, Stack, StepRecord};
use xt_uses::{Discipline, Lack, UseCore};

/// The first use of something that is not known, or another breach.
#[derive(Clone, Copy)]
pub struct FirstUse {
    /// Its core, number and kind.
    pub breach: Breach,
    /// The record that shows it.
    pub rec: StepRecord,
    /// The registers that the record's instruction reads and of which not every bit is known before its step, in the order of their
    /// numbers.
    pub lacks: (Option<Lack>, Option<Lack>),
}

/// What the discipline of uses says of a run.
#[derive(Clone, Copy)]
pub enum Uses {
    /// Some window handler does not pass its check, so nothing is judged.
    Unchecked,
    /// No judged step shows a breach. Of core 0 and core 1, how many judged steps wrote a register or stored bytes of which a bit is not
    /// known.
    Whole(u32, u32),
    /// The first breach.
    Broken(FirstUse),
}

/// A core as it opens.
///
/// Conditions: the core is 0 or 1, the options are valid, and `hi` is the end of the core's stack.
#[tactic(auto, using(xt_discipline::proofs::Opens::range_of_core))]
pub fn side_of(
    alloc: Global,
    discipline: Discipline,
    core: u8,
    pc: u32,
    options: &Options,
    hi: u32,
) -> Result<Side, AllocError>
    requires core { core < 2 }
    requires valid { IsValid options.now }
    requires end { hi ≡ (stack_of core options.now).hi }
    ensures { IfOk result (λ s. s ≡ record { core = core; hi = hi; uses = opened_use discipline core pc options.now; phase = Outside; steps = 0; carried = 0 }) }
{
    Ok(Side {
        core,
        hi,
        uses: UseCore::make(alloc, discipline, core, pc, options)?,
        phase: HandlerPhase::Outside,
        steps: 0,
        carried: 0,
    })
}

/// In the strict discipline nothing is known of a stack below the stack pointer with which its core opens, 64 below its end.
fn forget_below(masks: &mut ByteMasks, discipline: Discipline, stack: Stack)
    requires stack { IsValidStack stack }
    requires full { IsFull masks.old }
    ensures full { IsFull masks.new }
    ensures masks { AreMasks masks.new (without (below_opening discipline stack) (mask_at masks.old)) }
{
    if discipline == Discipline::Strict {
        masks.forget(stack.lo, stack.hi - 64 - stack.lo);
    }
}

/// What is known of the bytes as both cores open: all, but for a word of each stack, 76 below its end, which lies in a live save area,
/// and in the strict discipline for what lies below the stack pointers.
///
/// Condition: the options are valid.
pub fn opening_bytes(
    alloc: Global,
    discipline: Discipline,
    options: &Options,
) -> Result<Bytes, AllocError>
    requires { IsValid options.now }
    ensures { IfOk result (λ bytes. AreOpened discipline bytes options.now.stack0 options.now.stack1) }
{
    let marks = opening_marks(alloc, options)?;
    let mut masks = ByteMasks::make(alloc)?;
    masks.forget(options.stack0.hi - 76, 4);
    masks.forget(options.stack1.hi - 76, 4);
    forget_below(&mut masks, discipline, options.stack0);
    forget_below(&mut masks, discipline, options.stack1);
    Ok(Bytes { marks, masks })
}
