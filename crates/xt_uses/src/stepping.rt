//! A judged step of the machine of uses, in place.
#![tactic(auto)]

ghost use Rattle.std.specs.Prelude.{◌≡◌, ◌<◌, ◌==◌, ◌&&◌, ◌||◌, ℕ, Bool, List, None, Some, false, true, not, IfOk, IfSome, if◌then◌else◌, is_some};
ghost use Rattle.xt_isa.specs.Ranges.{in_range};
ghost use Rattle.xt_map.specs.Memory.{constant_byte};
ghost use Rattle.xt_map.specs.Regions.{is_mapped};
ghost use Rattle.xt_special.specs.Control.{Control};
ghost use Rattle.xt_special.specs.Shape.{IsPs};
ghost use Rattle.xt_map.specs.Fetching.{fetch_at};
ghost use Rattle.xt_rows.specs.RowLaws.{IsAny, IsProperWrite};
ghost use Rattle.xt_frames.specs.declared.holes.UndefinedParts.{UndefinedParts};
ghost use Rattle.xt_frames.specs.Breaches.{fresh_after, inputs_of};
ghost use Rattle.xt_frames.specs.Frames.{Frame};
ghost use Rattle.xt_frames.specs.FrameStep.{FrameTurn, with_inputs, step_with_inputs};
ghost use Rattle.xt_frames.specs.Judging.{value_in};
ghost use Rattle.xt_frames.specs.Nesting.{begins, current};
ghost use Rattle.xt_frames.specs.KeptFrameState.{IsGood, IsKindOf, IsNewest, IsPlan, IsSmall, Upper, frames_after, state_at, turn_as};
ghost use Rattle.xt_frames.specs.Stacks.{Stack};
ghost use Rattle.xt_frames.specs.declared.view.Call.TheVariants.{Stays};
ghost use Rattle.xt_uses.specs.declared.masks.Keep.TheVariants as keep;
ghost use Rattle.xt_uses.specs.Words.{all_bits};
ghost use Rattle.xt_uses.specs.UseStep.{cut_number, cut_state, step_insn, forgets_registers, insn_turn, movsp_of, receives_mark, reply_mask, stores_unknown, turn_or, use_step, use_turn, value_step};
ghost use Rattle.xt_uses.specs.UseParts.{AreFew, IsNewestMasks, IsTouched, IsUseCase, IsUseDone, IsUseKept, IsTaken, KeepsFew, call_in, kept_after, masks_at, register_of, plan_movsp, settled_in, use_at, use_found_by, write_where};

use crate::discipline::{Discipline, is_strict};
use crate::known::result_mask;
use crate::masks::{Keep, KeptMasks, TopMasks};
use crate::testing::{Touched, use_breach};
use crate::words::ALL_BITS;
use xt_codec::Fetch;
use xt_frames::{
    BreachKind, Call, Case, FrameRegisters, NextEvent, StepSummary, UndefinedParts, begin,
    fresh_after, give_numbers, go_on, is_nesting, is_return, mark_read, planned,
};
use xt_isa::Insn;
use xt_isa::shift::Shift;
use xt_map::{Access, Constants, Kind};
use xt_trace::{RegWrite, StepKind, StepRecord};

/// A state of the machine of uses but for its frames that have called.
#[derive(Drop)]
pub struct Top {
    pub view: FrameRegisters,
    pub holes: UndefinedParts,
    pub masks: TopMasks,
}

/// What a step without a breach leaves beside its state.
#[derive(Clone, Copy)]
pub struct Done {
    /// What it does to the list of frames.
    pub call: Call,
    /// What it does to the list of their masks.
    pub keep: Keep,
    /// Whether EPC1 has what was last written.
    pub fresh: bool,
    /// The mask of the value that it stores.
    pub stored: u32,
    /// Whether it has written a register or stored bytes of which a bit is not known.
    pub carries: bool,
}

/// What a step was, with what it found and what it leaves.
#[derive(Clone, Copy)]
struct Made {
    before: FrameRegisters,
    plan: NextEvent,
    step: StepSummary,
    after: FrameRegisters,
}

/// What the masks leave of a step: the mask of the register that is written, that of the value that is stored, whether it receives a
/// mark, the write that is cut, and whether it is a return that forgets registers.
#[derive(Clone, Copy)]
struct Masked {
    keep: Keep,
    mask: u32,
    stored: u32,
    marked: bool,
    write: Option<RegWrite>,
    forgets: bool,
}

/// Whether a record of this kind begins a nested interrupt where none has begun.
fn begins(nested: bool, kind: StepKind, holes: &UndefinedParts) -> bool
    ensures { (frames : List Frame) (v : Upper) → result ≡ begins nested kind (state_at frames holes.now v) }
{
    nested && is_nesting(kind) && holes.nested.is_none()
}

/// Whether a step that executes this instruction receives a mark.
fn receives_mark(i: Insn, holes: &UndefinedParts) -> bool
    ensures { result ≡ receives_mark (Some i) holes.now.nested }
{
    match &holes.nested {
        Some(x) => mark_read(i, x).is_some(),
        None => false,
    }
}

/// The registers of a MOVSP outside nested interrupts, which is what a planned step executes, and its length.
#[tactic(auto, using(crate::proofs::UseRanges::planned_range), unfolding(crate::specs::UseParts::plan_movsp))]
fn stack_move(plan: NextEvent, holes: &UndefinedParts) -> Option<(u8, u8, u8)>
    requires { IsGood plan }
    ensures movsp { result ≡ (if is_some holes.now.nested then None else plan_movsp plan) }
    ensures range { IfSome result (λ m. (m.0 < 16) × (m.1 < 16)) }
{
    if holes.nested.is_some() {
        return None;
    }
    match plan {
        NextEvent::Fetched(Fetch::Insn(Insn::Shift(Shift::Movsp(t, s)), len)) => Some((t, s, len)),
        _ => None,
    }
}

/// The instruction that a step has executed, if it has.
#[tactic(auto, unfolding(crate::specs::UseStep::step_insn))]
fn step_insn(kind: StepKind, plan: NextEvent) -> Option<Insn>
    requires { IsGood plan }
    ensures insn { (code : ℕ → ℕ) (c : Control) → IsPlan plan code c → IsKindOf plan kind → result ≡ step_insn kind (fetch_at code c.pc) }
    ensures range { IfSome result (λ i. in_range i ≡ true) }
{
    match (kind, plan) {
        (StepKind::Insn, NextEvent::Fetched(Fetch::Insn(i, _))) => Some(i),
        _ => None,
    }
}

fn cut_number(mask: u32, value: Option<u32>) -> Option<u32>
    ensures { result ≡ cut_number mask value }
{
    match value {
        Some(n) => Some(n & mask),
        None => None,
    }
}

/// Whether bytes are stored of which a bit is not known, where this is the mask of the value.
fn stores_unknown(stored: u32, access: Option<Access>) -> bool
    requires { IfSome access (λ a. is_mapped a ≡ true) }
    ensures { result ≡ stores_unknown stored access }
{
    match access {
        Some(a) => match a.kind {
            Kind::Store(_) => match a.size {
                1 => stored % 0x100 != 0xFF,
                2 => stored % 0x1_0000 != 0xFFFF,
                _ => stored != ALL_BITS,
            },
            _ => false,
        },
        None => false,
    }
}

/// Whether this is a return of the strict discipline.
fn forgets_registers(discipline: Discipline, i: Insn) -> bool
    ensures { result ≡ forgets_registers discipline (Some i) }
{
    is_strict(discipline) && is_return(i)
}

impl Made {
    /// MOVSP outside nested interrupts moves the stack pointer.
    fn move_stack(&mut self, holes: &UndefinedParts)
        requires good { IsGood self.old.plan }
        requires write { IsProperWrite IsAny self.old.step.write }
        requires kind { IsKindOf self.old.plan self.old.step.kind }
        ensures turn { (code : ℕ → ℕ) (frames : List Frame) → IsPlan self.old.plan code self.old.before.control
            → turn_as self.new.step frames holes.now self.new.after ≡ turn_or (movsp_of code (state_at frames holes.now self.old.before)) (turn_as self.old.step frames holes.now self.old.after) }
        ensures before { self.new.before ≡ self.old.before }
        ensures plan { self.new.plan ≡ self.old.plan }
        ensures write { IsProperWrite IsAny self.new.step.write }
        ensures kind { IsKindOf self.new.plan self.new.step.kind }
    {
        if let Some((t, s, len)) = stack_move(self.plan, holes) {
            self.after = self.before;
            self.step = self.after.move_stack(t, self.before.value_or_zero(s), len);
        }
    }
}

impl Top {
    /// What the next step is, where the inputs of its record are laid over the state.
    fn make(&self, case: &Case, code: &Constants, rec: &StepRecord) -> Made
        requires small { IsSmall case.now.newest }
        requires ps { IfSome self.now.holes.nested (λ x. IsPs x.ps) }
        ensures found { (frames : List Frame) → state_at frames self.now.holes result.before ≡ with_inputs (inputs_of rec.now) (current (state_at frames self.now.holes self.now.view)) }
        ensures plan { IsPlan result.plan (constant_byte code.now) result.before.control }
        ensures good { IsGood result.plan }
        ensures turn { (frames : List Frame) (h : UndefinedParts) → IsNewest case.now.newest frames → turn_as result.step frames h result.after ≡ step_with_inputs (constant_byte code.now) rec.now.reply (state_at frames h result.before) }
        ensures write { IsProperWrite IsAny result.step.write }
        ensures kind { IsKindOf result.plan result.step.kind }
        ensures callinc { result.before.control.ps.callinc < 4 }
    {
        let mut before = self.view.current(&self.holes);
        before.lay(rec);
        // (so that what CALLINC can be is known)
        let _by = before.callinc();
        let plan = before.plan(code);
        let mut after = before;
        let step = after.step(code, plan, rec.reply, &case.newest);
        Made {
            before,
            plan,
            step,
            after,
        }
    }

    /// The values move on: what becomes of the list of frames.
    fn settle(&mut self, code: &Constants, made: &Made) -> Call
        requires plan { IsPlan made.now.plan (constant_byte code.now) made.now.before.control }
        requires good { IsGood made.now.plan }
        requires kind { IsKindOf made.now.plan made.now.step.kind }
        requires write { IsProperWrite IsAny made.now.step.write }
        ensures values { (frames : List Frame) (value : ℕ) → state_at (frames_after result frames) self.new.holes self.new.view
            ≡ (settled_in self.old.holes.nested (constant_byte code.now) value made.now frames self.old.holes self.old.view).after }
        ensures call { result ≡ call_in self.old.holes.nested made.now.step.call }
        ensures masks { self.new.masks ≡ self.old.masks }
        ensures ps { IfSome self.old.holes.nested (λ x. IsPs x.ps) → IfSome self.new.holes.nested (λ x. IsPs x.ps) }
    {
        match self.holes.nested {
            Some(x) => {
                self.view.keep(&made.after);
                let fetch = planned(made.plan, code, &made.before);
                go_on(&mut self.holes, &x, fetch, &made.step, &made.after);
                Call::Stays
            }
            None => {
                self.view = made.after;
                give_numbers(&mut self.holes.unset, made.step.kind, made.plan);
                made.step.call
            }
        }
    }

    /// The masks move on, where `i` is what the step has executed.
    fn mask_executed(
        &mut self,
        i: Insn,
        made: &Made,
        reply: u32,
        newest: &Option<KeptMasks>,
    ) -> Masked
        requires range { in_range i ≡ true }
        requires write { IsProperWrite IsAny made.now.step.write }
        requires few { AreFew newest.now }
        ensures mask { (frames : List Frame) (kept : List (List ℕ)) (v : Upper) (u : FrameTurn)
            → result.mask ≡ (insn_turn i reply (use_at frames kept self.old.holes v self.old.masks) (state_at frames self.old.holes made.now.before) u).mask }
        ensures stored { (frames : List Frame) (kept : List (List ℕ)) (v : Upper) (u : FrameTurn)
            → result.stored ≡ (insn_turn i reply (use_at frames kept self.old.holes v self.old.masks) (state_at frames self.old.holes made.now.before) u).stored }
        ensures masks { (frames : List Frame) (kept : List (List ℕ)) (v : Upper) (u : FrameTurn) → IsNewestMasks newest.now kept → register_of u.write ≡ register_of made.now.step.write
            → masks_at (kept_after result.keep kept) self.new.masks ≡ (insn_turn i reply (use_at frames kept self.old.holes v self.old.masks) (state_at frames self.old.holes made.now.before) u).after.masks }
        ensures few { KeepsFew result.keep }
        ensures marked { result.marked ≡ receives_mark (Some i) self.old.holes.nested }
        ensures forgets { result.forgets ≡ forgets_registers self.old.masks.discipline (Some i) }
        ensures write { result.write ≡ made.now.step.write }
        ensures holes { self.new.holes ≡ self.old.holes }
        ensures view { self.new.view ≡ self.old.view }
    {
        let marked = receives_mark(i, &self.holes);
        let forgets = forgets_registers(self.masks.discipline, i);
        let operands = self.masks.operands(i, &made.before, &self.holes);
        let mask = result_mask(
            self.masks.discipline,
            i,
            operands.x,
            operands.y,
            operands.u,
            self.masks.threadptr,
            reply,
        );
        let keep = self.masks.pass(
            i,
            operands.x.mask,
            mask,
            self.holes.nested.is_some(),
            made.step.write,
            made.before.callinc(),
            newest,
        );
        Masked {
            keep,
            mask,
            stored: operands.y.mask,
            marked,
            write: made.step.write,
            forgets,
        }
    }

    /// The masks move on.
    fn mask(&mut self, made: &Made, reply: u32, newest: &Option<KeptMasks>) -> Masked
        requires good { IsGood made.now.plan }
        requires write { IsProperWrite IsAny made.now.step.write }
        requires few { AreFew newest.now }
        ensures mask { (code : ℕ → ℕ) (frames : List Frame) (kept : List (List ℕ)) (v : Upper) (u : FrameTurn)
            → IsPlan made.now.plan code made.now.before.control → IsKindOf made.now.plan made.now.step.kind
            → result.mask ≡ (use_turn (step_insn made.now.step.kind (fetch_at code made.now.before.control.pc)) reply (use_at frames kept self.old.holes v self.old.masks) (state_at frames self.old.holes made.now.before) u).mask }
        ensures stored { (code : ℕ → ℕ) (frames : List Frame) (kept : List (List ℕ)) (v : Upper) (u : FrameTurn)
            → IsPlan made.now.plan code made.now.before.control → IsKindOf made.now.plan made.now.step.kind
            → result.stored ≡ (use_turn (step_insn made.now.step.kind (fetch_at code made.now.before.control.pc)) reply (use_at frames kept self.old.holes v self.old.masks) (state_at frames self.old.holes made.now.before) u).stored }
        ensures masks { (code : ℕ → ℕ) (frames : List Frame) (kept : List (List ℕ)) (v : Upper) (u : FrameTurn)
            → IsPlan made.now.plan code made.now.before.control → IsKindOf made.now.plan made.now.step.kind
            → IsNewestMasks newest.now kept → register_of u.write ≡ register_of made.now.step.write
            → masks_at (kept_after result.keep kept) self.new.masks ≡ (use_turn (step_insn made.now.step.kind (fetch_at code made.now.before.control.pc)) reply (use_at frames kept self.old.holes v self.old.masks) (state_at frames self.old.holes made.now.before) u).after.masks }
        ensures few { KeepsFew result.keep }
        ensures marked { (code : ℕ → ℕ) → IsPlan made.now.plan code made.now.before.control → IsKindOf made.now.plan made.now.step.kind
            → result.marked ≡ receives_mark (step_insn made.now.step.kind (fetch_at code made.now.before.control.pc)) self.old.holes.nested }
        ensures forgets { (code : ℕ → ℕ) → IsPlan made.now.plan code made.now.before.control → IsKindOf made.now.plan made.now.step.kind
            → result.forgets ≡ forgets_registers self.old.masks.discipline (step_insn made.now.step.kind (fetch_at code made.now.before.control.pc)) }
        ensures cut { (code : ℕ → ℕ) → IsPlan made.now.plan code made.now.before.control → IsKindOf made.now.plan made.now.step.kind
            → result.write ≡ write_where (step_insn made.now.step.kind (fetch_at code made.now.before.control.pc)) made.now.step.write }
        ensures proper { IsProperWrite IsAny result.write }
        ensures holes { self.new.holes ≡ self.old.holes }
        ensures view { self.new.view ≡ self.old.view }
    {
        match step_insn(made.step.kind, made.plan) {
            Some(i) => self.mask_executed(i, made, reply, newest),
            None => Masked {
                keep: Keep::Stays,
                mask: ALL_BITS,
                stored: ALL_BITS,
                marked: false,
                write: None,
                forgets: false,
            },
        }
    }

    /// The register that is written is cut to its known bits. A mark stays without a number.
    fn cut(&mut self, write: Option<RegWrite>, mask: u32)
        requires { IsProperWrite IsAny write }
        ensures values { (frames : List Frame) → state_at frames self.new.holes self.new.view ≡ cut_state mask write self.old.holes.nested (state_at frames self.old.holes self.old.view) }
        ensures masks { self.new.masks ≡ self.old.masks }
        ensures ps { IfSome self.old.holes.nested (λ x. IsPs x.ps) → IfSome self.new.holes.nested (λ x. IsPs x.ps) }
    {
        let Some(w) = write else {
            return;
        };
        match self.holes.nested {
            Some(x) => {
                let mut next = x;
                next.seen[w.reg as usize] = cut_number(mask, x.seen[w.reg as usize]);
                self.holes.nested = Some(next);
            }
            None => {
                let value = cut_number(mask, self.view.visible(w.reg));
                self.view.put(w.reg, value);
            }
        }
    }

    /// A nested interrupt begins.
    fn begin(&mut self, rec: &StepRecord, fresh: bool) -> Done
        ensures state { (frames : List Frame) (kept : List (List ℕ)) (code bytes : ℕ → ℕ) → begins true rec.now.kind (state_at frames self.old.holes self.old.view) ≡ true
            → use_at frames kept self.new.holes self.new.view self.new.masks ≡ (use_step code true rec.now bytes (use_at frames kept self.old.holes self.old.view self.old.masks)).after }
        ensures ps { IfSome self.new.holes.nested (λ x. IsPs x.ps) }
        ensures done { result ≡ record { call = Stays; keep = keep.Stays; fresh = fresh; stored = all_bits; carries = false } }
    {
        begin(&mut self.view, &mut self.holes, rec);
        self.masks.forget_inner();
        Done {
            call: Call::Stays,
            keep: Keep::Stays,
            fresh,
            stored: ALL_BITS,
            carries: false,
        }
    }

    /// What a step leaves beside the state, which it has left.
    fn done(
        &self,
        case: &Case,
        code: &Constants,
        rec: &StepRecord,
        made: &Made,
        masked: Masked,
        call: Call,
    ) -> Done
        requires plan { IsPlan made.now.plan (constant_byte code.now) made.now.before.control }
        requires ps { IfSome self.now.holes.nested (λ x. IsPs x.ps) }
        requires access { IfSome rec.now.access (λ a. is_mapped a ≡ true) }
        ensures fresh { (frames : List Frame) → result.fresh
            ≡ fresh_after case.now.fresh made.now.step.kind (fetch_at (constant_byte code.now) made.now.before.control.pc) made.now.before.control.ps (current (state_at frames self.now.holes self.now.view)).control.ps }
        ensures call { result.call ≡ call }
        ensures keep { result.keep ≡ masked.keep }
        ensures stored { result.stored ≡ masked.stored }
        ensures carries { result.carries ≡ (is_some made.now.step.write && not (masked.marked || masked.mask == all_bits)) || stores_unknown masked.stored rec.now.access }
    {
        let now = self.view.current(&self.holes);
        let step = made.step;
        Done {
            call,
            keep: masked.keep,
            fresh: fresh_after(case.fresh, step.kind, made.plan, code, &made.before, &now),
            stored: masked.stored,
            carries: (step.write.is_some() && !(masked.marked || masked.mask == ALL_BITS))
                || stores_unknown(masked.stored, rec.access),
        }
    }

    /// Takes a step that shows no breach.
    fn take(
        &mut self,
        case: &Case,
        touched: &Touched,
        newest: &Option<KeptMasks>,
        code: &Constants,
        rec: &StepRecord,
        made: &Made,
    ) -> Done
        requires plan { IsPlan made.now.plan (constant_byte code.now) made.now.before.control }
        requires good { IsGood made.now.plan }
        requires write { IsProperWrite IsAny made.now.step.write }
        requires kind { IsKindOf made.now.plan made.now.step.kind }
        requires small { IsSmall case.now.newest }
        requires few { AreFew newest.now }
        requires ps { IfSome self.old.holes.nested (λ x. IsPs x.ps) }
        requires access { IfSome rec.now.access (λ a. is_mapped a ≡ true) }
        ensures ps { IfSome self.new.holes.nested (λ x. IsPs x.ps) }
        ensures call { result.call ≡ call_in self.old.holes.nested made.now.step.call }
        ensures few { KeepsFew result.keep }
        ensures taken { (nested : Bool) (frames : List Frame) (kept : List (List ℕ)) (bytes : ℕ → ℕ)
            → IsNewest case.now.newest frames → IsNewestMasks newest.now kept → reply_mask bytes rec.now.access ≡ touched.now.reply
            → begins nested rec.now.kind (state_at frames self.old.holes self.old.view) ≡ false
            → state_at frames self.old.holes made.now.before ≡ with_inputs (inputs_of rec.now) (current (state_at frames self.old.holes self.old.view))
            → settled_in self.old.holes.nested (constant_byte code.now) (value_in rec.now.write) made.now frames self.old.holes self.old.view ≡ value_step (constant_byte code.now) false (value_in rec.now.write) (inputs_of rec.now) (state_at frames self.old.holes self.old.view)
            → IsTaken case.now.fresh (constant_byte code.now) nested rec.now bytes (use_at frames kept self.old.holes self.old.view self.old.masks) result (λ fs ks. use_at fs ks self.new.holes self.new.view self.new.masks) }
    {
        let masked = self.mask(made, touched.reply, newest);
        let call = self.settle(code, made);
        self.cut(masked.write, masked.mask);
        self.leave(masked.forgets, &case.newest);
        self.done(case, code, rec, made, masked, call)
    }

    /// Steps by a record, which is nested where `nested` says so, or says which breach the step shows first. After a breach nothing has
    /// changed.
    ///
    /// Conditions: the record's access is one that the bus serves, and the test of the stack discipline for StaleLoad is not asked for.
    pub fn judge(
        &mut self,
        case: &Case,
        touched: &Touched,
        newest: &Option<KeptMasks>,
        code: &Constants,
        rec: &StepRecord,
        nested: bool,
    ) -> Result<Done, BreachKind>
        requires small { IsSmall case.now.newest }
        requires few { AreFew newest.now }
        requires stale { case.now.stale ≡ false }
        requires ps { IfSome self.old.holes.nested (λ x. IsPs x.ps) }
        requires access { IfSome rec.now.access (λ a. is_mapped a ≡ true) }
        ensures ps { IfSome self.new.holes.nested (λ x. IsPs x.ps) }
        ensures done { (frames : List Frame) (kept : List (List ℕ)) (live : ℕ → Bool) (bytes : ℕ → ℕ)
            → IsUseCase case.now touched.now frames → IsTouched touched.now rec.now live bytes → IsNewestMasks newest.now kept
            → IsUseDone (use_found_by case.now (constant_byte code.now) live bytes nested rec.now (use_at frames kept self.old.holes self.old.view self.old.masks))
            case.now.fresh (constant_byte code.now) nested rec.now bytes (use_at frames kept self.old.holes self.old.view self.old.masks) result (λ fs ks. use_at fs ks self.new.holes self.new.view self.new.masks) }
        ensures few { IfOk result (λ done. KeepsFew done.keep) }
        ensures kept { (frames : List Frame) (live : ℕ → Bool) (bytes : ℕ → ℕ)
            → IsUseCase case.now touched.now frames → IsTouched touched.now rec.now live bytes
            → Stack case.now.limits.lo case.now.limits.hi self.old.view.seen frames
            → IfOk result (λ done. IsUseKept case.now.limits.lo case.now.limits.hi (state_at frames self.old.holes self.old.view) done (λ fs. state_at fs self.new.holes self.new.view)) }
    {
        if begins(nested, rec.kind, &self.holes) {
            return Ok(self.begin(rec, case.fresh));
        }
        let mut made = self.make(case, code, rec);
        let found = use_breach(
            case,
            touched,
            &self.masks,
            &self.holes,
            made.plan,
            rec,
            &made.before,
            &made.step,
            &made.after,
        );
        if let Some(kind) = found {
            return Err(kind);
        }
        made.move_stack(&self.holes);
        Ok(self.take(case, touched, newest, code, rec, &made))
    }
}
