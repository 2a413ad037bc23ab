//! Copies of a core of the machine with unbounded frames.
#![tactic(auto)]

ghost use Rattle.std.specs.Prelude.{◌≡◌, ◌≤◌, ◌<◌, true, IfOk, OnOk, length, vec_capacity};
ghost use Rattle.xt_frames.specs.KeptFrameState.{frame_of, frames_of};
ghost use Rattle.xt_frames.specs.Stacks.{AreFrames};

use crate::breach::Limits;
use crate::frames::Frames;
use crate::holes::{Nested, UndefinedParts};
use crate::view::{Caller, FrameRegisters};
use std::alloc::{AllocError, Global};
use std::marker::Model;
use xt_trace::StepRecord;

/// A copy of a core of the machine with unbounded frames, in as much memory as its frames take.
/// Contracts see what they see of the core.
pub struct Snapshot {
    pub(crate) core: u8,
    pub(crate) limits: Limits,
    pub(crate) view: FrameRegisters,
    pub(crate) holes: UndefinedParts,
    // The callers, the oldest first.
    pub(crate) callers: Vec<Caller>,
    // Whether EPC1 has what was last written.
    pub(crate) fresh: bool,
}

// A `drop` of its own is one call at each place where a value is dropped.
impl Drop for Snapshot {
    fn drop(self) {
        let Snapshot {
            core: _,
            limits: _,
            view: _,
            holes: _,
            callers: _,
            fresh: _,
        } = self;
    }
}

impl Model for Snapshot {
    ghost use Rattle.std.specs.Prelude.{IfSome};
    ghost use Rattle.xt_special.specs.Shape.{IsPs};
    ghost use Rattle.xt_frames.specs.KeptFrameState.{frames_of, state_at};
    ghost use Rattle.xt_frames.specs.Stacks.{Stack};
    ghost use Rattle.xt_frames.specs.Walked.{Walked, bounds_of};

    ghost Value = { Walked };

    ghost view = { λ f. record { core = f.core; bounds = bounds_of f.limits; state = state_at (frames_of f.callers.items) f.holes f.view; fresh = f.fresh; next = 0 } };

    ghost invariant = { λ f. Stack f.limits.lo f.limits.hi f.view.seen (frames_of f.callers.items) × IfSome f.holes.nested (λ x. IsPs x.ps) };
}

// The same callers.
fn copied(alloc: Global, callers: &[Caller]) -> Result<Vec<Caller>, AllocError>
    ensures { IfOk result (λ v. v.items ≡ callers.now) }
{
    let mut copy = Vec::new(alloc);
    copy.extend_from_slice(callers)?;
    Ok(copy)
}

// Puts these callers in place of those that there are. Takes no memory.
fn put(callers: &mut Vec<Caller>, items: &[Caller])
    requires { length items.now ≤ vec_capacity callers.old }
    ensures items { callers.new.items ≡ items.now }
    ensures room { vec_capacity callers.new ≡ vec_capacity callers.old }
{
    callers.clear();
    for caller in items {
        callers.push_reserved(*caller);
    }
}

// Whether the same registers have the same values.
fn are_same_values(a: &[Option<u32>], b: &[Option<u32>]) -> bool
    ensures same { result ≡ true → a.now ≡ b.now }
    ensures equal { a.now ≡ b.now → result ≡ true }
{
    a == b
}

// Whether the same registers hold the same marks.
fn are_same_marks(a: &[Option<u8>], b: &[Option<u8>]) -> bool
    ensures same { result ≡ true → a.now ≡ b.now }
    ensures equal { a.now ≡ b.now → result ≡ true }
{
    a == b
}

// Whether the same registers have no number.
fn are_same_unset(a: &[bool], b: &[bool]) -> bool
    ensures same { result ≡ true → a.now ≡ b.now }
    ensures equal { a.now ≡ b.now → result ≡ true }
{
    a == b
}

// Whether both views are equal.
fn is_same_view(a: &FrameRegisters, b: &FrameRegisters) -> bool
    ensures { result ≡ true → a.now ≡ b.now }
{
    if a.pc != b.pc || a.waits != b.waits {
        return false;
    }
    if !are_same_values(&a.seen, &b.seen) {
        return false;
    }
    a.special.is_same(&b.special)
}

// Whether both interrupts are equal.
fn is_same_nested(a: &Nested, b: &Nested) -> bool
    ensures { result ≡ true → a.now ≡ b.now }
{
    if a.pc != b.pc || a.ps != b.ps {
        return false;
    }
    if !are_same_values(&a.seen, &b.seen) {
        return false;
    }
    if !are_same_marks(&a.marks, &b.marks) {
        return false;
    }
    are_same_marks(&a.saved, &b.saved)
}

// Whether the same is beside both views.
fn is_same_holes(a: &UndefinedParts, b: &UndefinedParts) -> bool
    ensures { result ≡ true → a.now ≡ b.now }
{
    if !are_same_unset(&a.unset, &b.unset) {
        return false;
    }
    match (&a.nested, &b.nested) {
        (None, None) => true,
        (Some(x), Some(y)) => is_same_nested(x, y),
        _ => false,
    }
}

// Whether both frames are seen to be equal. A caller has registers beside those that are kept of it.
fn is_same_caller(a: &Caller, b: &Caller) -> bool
    requires { a.now.by < 4 }
    ensures { result ≡ true → frame_of a.now ≡ frame_of b.now }
{
    if a.by != b.by {
        return false;
    }
    let many = 4 * a.by as usize;
    are_same_values(&a.kept[..many], &b.kept[..many])
}

// Whether all frames are seen to be equal.
fn are_same(a: &[Caller], b: &[Caller]) -> bool
    requires { AreFrames (frames_of a.now) }
    ensures { result ≡ true → frames_of a.now ≡ frames_of b.now }
{
    if a.len() != b.len() {
        return false;
    }
    for n in 0..a.len() {
        if !is_same_caller(&a[n], &b[n]) {
            return false;
        }
    }
    true
}

impl Frames {
    ghost use Rattle.std.specs.Prelude.{◌≢◌, None, false, slice_set};
    ghost use Rattle.xt_special.specs.Control.{special_of};
    ghost use Rattle.xt_special.specs.Numbers as numbers;
    ghost use Rattle.xt_special.specs.Interrupts.{pending_of};
    ghost use Rattle.xt_frames.specs.FrameStep.{with_inputs};
    ghost use Rattle.xt_frames.specs.Breaches.{inputs_of};
    ghost use Rattle.xt_frames.specs.Nesting.{current};
    ghost use Rattle.xt_frames.specs.Walked.{bounds_of, fresh_before};

    /// A copy of the core as it is before the record of this number, which is counted anew from it on.
    /// The only error is running out of memory.
    pub fn snapshot(&self, alloc: Global, index: u32) -> Result<Snapshot, AllocError>
        ensures { IfOk result (λ s. s ≡ record self.now { fresh = fresh_before self.now index; next = 0 }) }
    {
        Ok(Snapshot {
            core: self.core,
            limits: self.limits,
            view: self.view,
            holes: self.holes,
            callers: copied(alloc, &self.callers)?,
            fresh: self.fresh && self.next == u64::from(index),
        })
    }

    /// Becomes the core that was copied, in the same memory if both stacks have the same size. The only error
    /// is running out of memory.
    pub fn reload(&mut self, alloc: Global, copy: &Snapshot) -> Result<(), AllocError>
        ensures { OnOk result (self.new ≡ copy.now) }
    {
        if self.limits.hi - self.limits.lo != copy.limits.hi - copy.limits.lo {
            *self = copy.frames(alloc)?;
            return Ok(());
        }
        put(&mut self.callers, &copy.callers);
        self.core = copy.core;
        self.limits = copy.limits;
        self.view = copy.view;
        self.holes = copy.holes;
        self.fresh = copy.fresh;
        self.next = 0;
        Ok(())
    }

    /// Counts its records anew from the one of this number on.
    pub fn recount(&mut self, index: u32)
        ensures { self.new ≡ record self.old { fresh = fresh_before self.old index; next = 0 } }
    {
        self.fresh = self.fresh && self.next == u64::from(index);
        self.next = 0;
    }

    /// Takes its value from a register, which has none from now on. In a nested interrupt it is one of those that
    /// are kept.
    ///
    /// Conditions: the register is one of a0 to a15, and not a1.
    pub fn forget(&mut self, number: u8)
        requires range { number < 16 }
        requires other { number ≢ 1 }
        ensures { self.new ≡ record self.old { state = record self.old.state { seen = slice_set self.old.state.seen number None } } }
    {
        self.view.put(number, None);
    }

    /// Makes SCOMPARE1 0.
    pub fn clear_compare(&mut self)
        ensures { self.new ≡ record self.old { state = record self.old.state { control = record self.old.state.control { special = slice_set self.old.state.control.special numbers.scompare1 0 } } } }
    {
        self.view.clear_compare();
    }

    /// Whether the step on a record executes what is fetched, outside nested interrupts: no interrupt is taken,
    /// and the core does not wait.
    pub fn executes(&self, rec: &StepRecord) -> bool
        ensures { result ≡ true → (pending_of (with_inputs (inputs_of rec.now) self.now.state).control ≡ 0) × (self.now.state.control.waits ≡ false) }
    {
        let mut laid = self.view;
        laid.lay(rec);
        laid.executes()
    }

    /// The program counter of what the next step finds: that of a nested interrupt where there is one.
    pub fn current_pc(&self) -> u32
        ensures { result ≡ (current self.now.state).control.pc }
    {
        self.view.current_pc(&self.holes)
    }

    /// A special register of what the next step finds.
    pub fn special(&self, number: u8) -> u32
        ensures { result ≡ special_of (current self.now.state).control number }
    {
        self.view.special(number)
    }

    /// What the core is judged by.
    pub fn limits(&self) -> Limits
        ensures { bounds_of result ≡ self.now.bounds }
    {
        self.limits
    }
}

impl Snapshot {
    ghost use Rattle.xt_special.specs.Control.{special_of};
    ghost use Rattle.xt_frames.specs.Nesting.{current};

    /// The core that was copied, with room for all frames that can stand on its stack. The only error is
    /// running out of memory.
    pub fn frames(&self, alloc: Global) -> Result<Frames, AllocError>
        ensures { IfOk result (λ f. f ≡ self.now) }
    {
        let room = (self.limits.hi - self.limits.lo) / 16 + 2;
        let mut callers = Vec::with_capacity(alloc, room as usize)?;
        put(&mut callers, &self.callers);
        Ok(Frames {
            core: self.core,
            limits: self.limits,
            view: self.view,
            holes: self.holes,
            callers,
            fresh: self.fresh,
            next: 0,
        })
    }

    /// The program counter of what the next step finds: that of a nested interrupt where there is one.
    pub fn current_pc(&self) -> u32
        ensures { result ≡ (current self.now.state).control.pc }
    {
        self.view.current_pc(&self.holes)
    }

    /// A special register of what the next step finds.
    pub fn special(&self, number: u8) -> u32
        ensures { result ≡ special_of (current self.now.state).control number }
    {
        self.view.special(number)
    }

    /// Whether both are seen to be equal.
    pub fn is_same(&self, other: &Snapshot) -> bool
        ensures { result ≡ true → self.now ≡ other.now }
    {
        if self.core != other.core || self.fresh != other.fresh {
            return false;
        }
        if self.limits.lo != other.limits.lo
            || self.limits.hi != other.limits.hi
            || self.limits.vecbase != other.limits.vecbase
        {
            return false;
        }
        if !is_same_view(&self.view, &other.view) {
            return false;
        }
        if !is_same_holes(&self.holes, &other.holes) {
            return false;
        }
        are_same(&self.callers, &other.callers)
    }

    /// A number that is the same for equal copies.
    pub fn digest(&self) -> u64 {
        let mut digest = u64::from(self.view.pc).wrapping_add(self.callers.len() as u64);
        for n in 0..16u8 {
            let known = match self.view.visible(n) {
                Some(value) => u64::from(value).wrapping_add(1),
                None => 0,
            };
            digest = digest
                .wrapping_mul(0x9E37_79B9_7F4A_7C15)
                .wrapping_add(known);
        }
        digest
    }
}
