//! A judged step that shows no breach and stays in its frame, in place. Most steps are such; all
//! others are left to the whole judge.
#![tactic(auto)]

ghost use Rattle.std.specs.Prelude.{◌≡◌, ℕ, Bool, true, false, List, None, Option, Some};
ghost use Rattle.xt_isa.specs.Ranges.{in_range};
ghost use Rattle.xt_map.specs.Memory.{constant_byte};
ghost use Rattle.xt_special.specs.Interrupts.{pending_of};
ghost use Rattle.xt_trace.specs.declared.record.RegWrite.{RegWrite};
ghost use Rattle.xt_rows.specs.RowLaws.{IsAny, IsProper, IsProperEffect, IsProperWrite};
ghost use Rattle.xt_rows.specs.Outcomes.{outcome_at};
ghost use Rattle.xt_frames.specs.Frames.{Frame, value_or_zero};
ghost use Rattle.xt_frames.specs.FrameStep.{with_inputs};
ghost use Rattle.xt_frames.specs.Breaches.{inputs_of, reads_epc1, reads_unset};
ghost use Rattle.xt_frames.specs.KeptFrameState.{Upper, state_at};
ghost use Rattle.xt_frames.specs.Quick.{IsAtRest, IsCommon, IsMade, IsQuick, IsQuickOr, IsRowOr, is_mild, sets_vecbase};

use crate::breach::{Limits, Tested, is_in_vectors, is_sp, reads_lost};
use crate::holes::{UndefinedParts, is_unset};
use crate::view::FrameRegisters;
use xt_codec::{Fetch, instruction_at};
use xt_isa::Insn;
use xt_isa::control::{Control, ReturnName};
use xt_isa::density::{BareName, Density};
use xt_isa::memory::Memory;
use xt_isa::shift::Shift;
use xt_map::Constants;
use xt_rows::settling::{reply_write, special_value};
use xt_rows::{Effect, Outcome, Values, outcome_of, reads, special_reads};
use xt_special::{SpecialWrite, number};
use xt_trace::{RegWrite, StepRecord};

/// Whether no breach names the instruction, and it is no system instruction.
#[tactic(auto, unfolding(crate::specs::Breaches::may_write_sp, crate::specs::Breaches::is_return, crate::specs::Breaches::is_windowing, crate::specs::Breaches::names_window_register, crate::specs::Marks::moved_to, crate::specs::Breaches::sets_epc1, crate::specs::Quick::is_system))]
#[inline(always)]
fn is_common(i: Insn) -> bool
    ensures { result ≡ true → IsCommon i }
{
    match i {
        Insn::Control(Control::Entry(_, _) | Control::Return(ReturnName::Retw)) => false,
        Insn::Density(Density::Bare(BareName::Retw)) => false,
        Insn::Memory(Memory::Window(_, _, _, _)) => false,
        Insn::Shift(Shift::Movsp(_, _)) => false,
        Insn::System(_) => false,
        _ => true,
    }
}

/// Whether it is a write of VECBASE.
#[inline(always)]
fn sets_vecbase(set: Option<SpecialWrite>) -> bool
    ensures { result ≡ sets_vecbase set }
{
    match set {
        Some(w) => w.number == number::VECBASE,
        None => false,
    }
}

/// Whether an effect leaves PS.WOE set, and VECBASE as it is.
#[inline(always)]
fn is_mild(e: Effect) -> bool
    ensures { result ≡ is_mild e }
{
    e.ps.woe && !sets_vecbase(e.sets.0) && !sets_vecbase(e.sets.1) && !sets_vecbase(e.sets.2)
}

impl FrameRegisters {
    /// Makes an effect of an instruction of this length, and writes this register, if that shows no breach: what it has written. Else
    /// nothing has changed.
    #[inline(always)]
    fn make(&mut self, e: Effect, len: u8, write: Option<RegWrite>) -> Option<Option<RegWrite>>
        requires effect { IsProperEffect IsAny e }
        requires write { IsProperWrite IsAny write }
        ensures { IsMade result e len write self.old self.new }
    {
        if !is_mild(e) || is_sp(write) {
            return None;
        }
        self.apply(e, len);
        self.tick();
        self.write(write);
        Some(write)
    }

    /// What comes of an instruction. It is worked out before all tests: behind so many it would be
    /// taken for rare, and be a call.
    #[inline(always)]
    fn row(&self, code: &Constants, i: Insn) -> Outcome
        requires { in_range i ≡ true }
        ensures formula { result ≡ outcome_at (constant_byte code.now) i (value_or_zero self.now.seen) self.now.control }
        ensures proper { IsProper IsAny result }
    {
        let (first, second) = reads(i);
        let (special, other) = special_reads(i);
        let values = Values {
            x: self.visible_value(first),
            y: self.visible_value(second),
            u: special_value(&self.special, special),
            v: special_value(&self.special, other),
        };
        let ps = self.special.ps_fields();
        outcome_of::<Tested>(code, i, self.pc, values, ps, self.special.threadptr())
    }

    /// Whether an instruction reads no register without a number, and no EPC1 that is lost.
    #[inline(always)]
    fn reads_numbers(&self, holes: &UndefinedParts, fresh: bool, i: Insn) -> bool
        requires { in_range i ≡ true }
        ensures reads { result ≡ true → (frames : List Frame) → reads_unset i (state_at frames holes.now self.now) ≡ false }
        ensures lost { result ≡ true → reads_epc1 fresh i ≡ false }
    {
        let (first, second) = reads(i);
        let (special, other) = special_reads(i);
        if self.lacks(first) || self.lacks(second) {
            return false;
        }
        if is_unset(&holes.unset, special) || is_unset(&holes.unset, other) {
            return false;
        }
        if reads_lost(fresh, special) || reads_lost(fresh, other) {
            return false;
        }
        true
    }

    /// Makes an instruction of this length with this outcome, if it shows no breach and stays in its frame: what it has written.
    /// Else nothing has changed.
    #[inline(always)]
    fn quick_insn(
        &mut self,
        holes: &UndefinedParts,
        fresh: bool,
        i: Insn,
        len: u8,
        outcome: Outcome,
        rec: &StepRecord,
    ) -> Option<Option<RegWrite>>
        requires range { in_range i ≡ true }
        requires proper { IsProper IsAny outcome }
        ensures { (code : ℕ → ℕ) → outcome ≡ outcome_at code i (value_or_zero self.old.seen) self.old.control
            → IsRowOr result fresh i len code rec.now holes.now self.old self.new }
    {
        if !is_common(i) || is_sp(rec.write) {
            return None;
        }
        if !self.reads_numbers(holes, fresh, i) {
            return None;
        }
        match outcome {
            Outcome::Does(e) => self.make(e, len, e.write),
            Outcome::Asks(_, awaited, e) => {
                let write = reply_write(awaited, rec.reply);
                self.make(e, len, write)
            }
            _ => None,
        }
    }

    /// Whether an interrupt is taken before the next instruction.
    #[inline(always)]
    fn is_interrupted(&self) -> bool
        ensures { result ≡ false → pending_of self.now.control ≡ 0 }
    {
        match xt_special::entries::pending(&self.special) {
            Some(_) => true,
            None => false,
        }
    }

    /// Whether the next step executes the instruction at PC, outside exception mode and the vectors, with VECBASE as it opened.
    #[inline(always)]
    fn is_at_rest(&self, limits: Limits) -> bool
        ensures { result ≡ true → IsAtRest limits self.now }
    {
        !self.is_interrupted()
            && !self.waits
            && !self.excm()
            && self.vecbase() == limits.vecbase
            && !is_in_vectors(limits, self.pc())
    }

    /// Makes the step of a state over which the inputs are laid, if it shows no breach and stays in its frame: what it has
    /// written. Else nothing has changed.
    #[inline(always)]
    fn laid_quick(
        &mut self,
        holes: &UndefinedParts,
        limits: Limits,
        fresh: bool,
        code: &Constants,
        rec: &StepRecord,
    ) -> Option<Option<RegWrite>>
        requires { holes.now.nested ≡ None }
        ensures { IsQuickOr result limits fresh (constant_byte code.now) rec.now holes.now self.old self.new }
    {
        match instruction_at::<Tested>(code, self.pc()) {
            Fetch::Insn(i, len) => {
                let outcome = self.row(code, i);
                if self.is_at_rest(limits) {
                    self.quick_insn(holes, fresh, i, len, outcome, rec)
                } else {
                    None
                }
            }
            Fetch::Fails(_) | Fetch::Nothing => None,
        }
    }

    /// Steps a view outside nested interrupts by a record, if the step shows no breach and stays in its frame: the write of
    /// its register, if any. Else nothing has changed.
    pub fn quick(
        &mut self,
        holes: &UndefinedParts,
        limits: Limits,
        fresh: bool,
        code: &Constants,
        rec: &StepRecord,
    ) -> Option<Option<RegWrite>>
        requires { holes.now.nested ≡ None }
        ensures quick { (write : Option RegWrite) → result ≡ Some write → (laid_upper : Upper) × ((frames : List Frame) → state_at frames holes.now laid_upper ≡ with_inputs (inputs_of rec.now) (state_at frames holes.now self.old))
            × IsQuick limits fresh (constant_byte code.now) rec.now holes.now write laid_upper self.new }
        ensures other { result ≡ None → self.new ≡ self.old }
    {
        let covered = self.covered();
        self.lay(rec);
        match self.laid_quick(holes, limits, fresh, code, rec) {
            Some(write) => Some(write),
            None => {
                self.uncover(covered);
                None
            }
        }
    }
}
