//! One core of the walk.
#![tactic(auto)]

ghost use Rattle.std.specs.Prelude.{◌≡◌, ◌≤◌, ◌<◌, ◌+◌, ◌-◌, ◌^◌, ℕ, Bool, true, IfSome, length};
ghost use Rattle.xt_map.specs.Memory.{constant_byte};
ghost use Rattle.xt_map.specs.Regions.{is_mapped, is_size};
ghost use Rattle.xt_map.specs.Touching.{touches};
ghost use Rattle.xt_frames.specs.Frames.{FrameState};
ghost use Rattle.xt_frames.specs.HandlerSteps.{phase_after};
ghost use Rattle.xt_discipline.specs.declared.bytes.Change.TheVariants.{Enters, Leaves};
ghost use Rattle.xt_discipline.specs.ByteMarks.{Agrees, AreChanged, either, is_held};
ghost use Rattle.xt_discipline.specs.Sides.{IsCallOf, in_areas};
ghost use Rattle.xt_uses.specs.Lacks.{lacks_before};
ghost use Rattle.xt_uses.specs.UseBreaches.{window_use};
ghost use Rattle.xt_uses.specs.UseParts.{IsTouched, UseMoves};
ghost use Rattle.xt_uses.specs.UseWalk.{count_of, use_seen, use_seen_judged};
ghost use Rattle.xt_uses.specs.FirstUse.{stored_byte};
ghost use Rattle.xt_use_walk.specs.MaskedBytes.{AreBytes, AreFull, AreMasks, AreShifted, IsSpared, KnowsBytes, is_byte, mask_at, put_free, stored_on, stored_over, without};
ghost use Rattle.xt_use_walk.specs.Sides.{AreaBytes, BeginsUse, IsFollowed, IsUseSeen, IsUseSide, StackOf, forgets_byte, live_in, standing_of};

use crate::bytes::ByteMasks;
use xt_discipline::{
    Areas, Change, Held, Role, Stacked, areas, change_areas, change_bytes, held_at, newest,
    newest_sp, phase_after, role_of, saves,
};
use xt_frames::HandlerPhase;
use xt_map::{Access, Constants, Kind, is_in_memory};
use xt_trace::StepRecord;
use xt_uses::{ALL_BITS, JudgeError, Lack, Touched, UseCore};

/// What is known of the bytes of memory.
#[derive(Drop)]
pub struct Bytes {
    /// Of each byte of internal data memory, in which live save areas it lies.
    pub marks: Vec<Held>,
    pub masks: ByteMasks,
}

/// One core of the walk.
#[derive(Drop)]
pub struct Side {
    pub core: u8,
    pub hi: u32,
    pub uses: UseCore,
    pub phase: HandlerPhase,
    // The number of the next record.
    pub steps: u32,
    // How many judged steps have written a register or stored bytes of which a bit is not known.
    pub carried: u32,
}

/// Of a value that is stored, the mask of its byte of this number.
pub fn stored_byte(stored: u32, k: u32) -> u8
    requires { k < 4 }
    ensures { (addr : ℕ) → result ≡ stored_byte stored addr (addr + k) }
{
    let first = match k {
        0 => stored,
        1 => stored / 0x100,
        2 => stored / 0x1_0000,
        _ => stored / 0x100_0000,
    };
    (first % 0x100) as u8
}

/// Whether a byte lies in a live save area of either core.
fn is_held(held: Held) -> bool
    ensures { result ≡ is_held held }
{
    held.live0 || held.live1
}

/// How many steps more carry what is not known.
fn count_of(carries: bool) -> u32
    ensures value { result ≡ count_of carries }
    ensures small { result ≤ 1 }
{
    if carries { 1 } else { 0 }
}

impl Bytes {
    /// What the access of a record touches, byte by byte.
    #[inline(never)]
    fn found(&self, rec: &StepRecord) -> Touched
        requires full { AreFull self.now }
        requires served { IfSome rec.now.access (λ a. is_mapped a ≡ true) }
        ensures { (live0 live1 stale : ℕ → Bool) → Agrees self.now.marks.items live0 live1 stale
            → IsTouched result rec.now (either live0 live1) (mask_at self.now.masks) }
    {
        Touched {
            saves: saves(&self.marks, rec.access),
            swaps: self.masks.swaps_unknown(rec.access),
            reply: self.masks.reply_mask(rec.access),
        }
    }

    /// What the access of a record touches: of bytes that are known none is live, so most are not looked at one by one.
    ///
    /// Condition: the access is one that the bus serves.
    pub fn touched(&self, rec: &StepRecord) -> Touched
        requires full { AreFull self.now }
        requires served { IfSome rec.now.access (λ a. is_mapped a ≡ true) }
        ensures some { (live : ℕ → Bool) × (masks : ℕ → ℕ) × IsTouched result rec.now live masks }
        ensures touched { (core : ℕ) (own others : ℕ → Bool) (masks : ℕ → ℕ) → KnowsBytes core self.now own others masks
            → IsTouched result rec.now (either own others) masks }
    {
        if self.masks.knows(rec.access) {
            return Touched {
                saves: false,
                swaps: false,
                reply: ALL_BITS,
            };
        }
        self.found(rec)
    }

    /// Whether an access touches no live byte, and reads known bits alone, found out byte by byte.
    #[inline(never)]
    fn spares_each(&self, access: Option<Access>) -> bool
        requires full { AreFull self.now }
        requires served { IfSome access (λ a. is_mapped a ≡ true) }
        ensures { result ≡ true → IsSpared self.now access }
    {
        let saves = saves(&self.marks, access);
        let swaps = self.masks.swaps_unknown(access);
        let reply = self.masks.reply_mask(access);
        if saves || swaps || reply != ALL_BITS {
            return false;
        }
        true
    }

    /// Whether an access touches no live byte, and reads known bits alone: of bytes that are known none is live, so most are not looked
    /// at one by one.
    ///
    /// Condition: the access is one that the bus serves.
    pub fn spares(&self, access: Option<Access>) -> bool
        requires full { AreFull self.now }
        requires served { IfSome access (λ a. is_mapped a ≡ true) }
        ensures { result ≡ true → IsSpared self.now access }
    {
        if self.masks.knows(access) {
            return true;
        }
        self.spares_each(access)
    }

    /// A byte of memory gets this mask, unless it is live.
    fn put(&mut self, addr: u32, mask: u8)
        requires full { AreFull self.old }
        requires byte { is_byte addr ≡ true }
        ensures full { AreFull self.new }
        ensures marks { self.new.marks.items ≡ self.old.marks.items }
        ensures masks { AreMasks self.new.masks (put_free self.old.marks.items addr mask (mask_at self.old.masks)) }
    {
        if is_held(held_at(&self.marks, u64::from(addr))) {
            return;
        }
        self.masks.put(addr, mask);
    }

    /// So many bytes of memory from an address on get what is known of a value that is stored. Nothing is known of a live byte.
    fn store_bytes(&mut self, addr: u32, size: u32, stored: u32)
        requires full { AreFull self.old }
        requires bytes { AreBytes addr size }
        requires size { size ≤ 4 }
        ensures full { AreFull self.new }
        ensures marks { self.new.marks.items ≡ self.old.marks.items }
        ensures masks { AreMasks self.new.masks (stored_on self.old.marks.items stored addr size (mask_at self.old.masks)) }
    {
        for k in 0..size {
            self.put(addr + k, stored_byte(stored, k));
        }
    }

    /// The same, where bytes that are known stay so without being looked at one by one.
    fn store_some(&mut self, addr: u32, size: u8, stored: u32)
        requires full { AreFull self.old }
        requires bytes { AreBytes addr size }
        requires size { is_size size ≡ true }
        ensures full { AreFull self.new }
        ensures marks { self.new.marks.items ≡ self.old.marks.items }
        ensures masks { AreMasks self.new.masks (stored_on self.old.marks.items stored addr size (mask_at self.old.masks)) }
    {
        if stored == ALL_BITS && self.masks.are_known(addr, size) {
            return;
        }
        self.store_bytes(addr, u32::from(size), stored);
    }

    /// A judged store gives the bytes that it touches what is known of the value. Nothing is known of a live byte.
    ///
    /// Condition: the access is one that the bus serves.
    pub fn store(&mut self, access: Option<Access>, stored: u32)
        requires full { AreFull self.old }
        requires served { IfSome access (λ a. is_mapped a ≡ true) }
        ensures full { AreFull self.new }
        ensures marks { self.new.marks.items ≡ self.old.marks.items }
        ensures masks { AreMasks self.new.masks (stored_over self.old.marks.items stored access (mask_at self.old.masks)) }
    {
        if let Some(a) = access {
            if let Kind::Store(_) = a.kind {
                if is_in_memory(a.addr) {
                    self.store_some(a.addr, a.size, stored);
                }
            }
        }
    }

    /// The areas of a call come in, and nothing is known of their bytes.
    fn enter(&mut self, core: u8, areas: Areas)
        requires full { AreFull self.old }
        requires inside { AreaBytes areas }
        ensures full { AreFull self.new }
        ensures marks { AreChanged (Enters core) (in_areas areas) self.old.marks.items self.new.marks.items }
        ensures masks { AreMasks self.new.masks (without (in_areas areas) (mask_at self.old.masks)) }
    {
        change_areas(&mut self.marks, Change::Enters(core), areas);
        self.masks.forget(areas.low, 16);
        self.masks.forget(areas.high, areas.size);
    }

    /// The areas of a call are gone.
    fn leave(&mut self, core: u8, areas: Areas)
        requires full { AreFull self.old }
        ensures full { AreFull self.new }
        ensures marks { AreChanged (Leaves core) (in_areas areas) self.old.marks.items self.new.marks.items }
        ensures masks { self.new.masks ≡ self.old.masks }
    {
        change_areas(&mut self.marks, Change::Leaves(core), areas);
    }

    /// The 16 bytes below the newest frame's stack pointer lie elsewhere.
    fn shift(&mut self, core: u8, from: u32, to: u32)
        requires full { AreFull self.old }
        requires inside { AreBytes to 16 }
        ensures full { AreFull self.new }
        ensures marks { AreShifted core from to self.old.marks.items self.new.marks.items }
        ensures masks { AreMasks self.new.masks (without (touches to 16) (mask_at self.old.masks)) }
    {
        change_bytes(&mut self.marks, Change::Leaves(core), u64::from(from), 16);
        change_bytes(&mut self.marks, Change::Enters(core), u64::from(to), 16);
        self.masks.forget(to, 16);
    }
}

impl Stacked for Side {
    ghost bounds = { λ s. s.uses.bounds };

    ghost frame = { λ s. s.uses.state.frame };

    fn callers(&self) -> u32 {
        self.uses.depth()
    }

    fn stack_pointer(&self, j: u32) -> u32 {
        self.uses.sp(j)
    }

    fn windows(&self, j: u32) -> u8 {
        self.uses.calls(j)
    }
}

impl Side {
    /// Follows the frames, which were `depth` in number before the step, with the newest call's areas `call`.
    fn follow(&self, bytes: &mut Bytes, depth: u32, call: Option<Areas>)
        requires side { IsUseSide self.now }
        requires full { AreFull bytes.old }
        ensures full { AreFull bytes.new }
        ensures follows { (g : FrameState) → UseMoves g self.now.uses.state.frame → StackOf self.now.uses.bounds g → depth ≡ length g.frames → IsCallOf call self.now.hi g
            → IsFollowed self.now.core self.now.uses.bounds.range g self.now.uses.state.frame bytes.old bytes.new }
    {
        let now = self.uses.depth();
        if depth < now {
            bytes.enter(self.core, areas(self, self.hi));
        } else if let Some(areas) = call {
            if now < depth {
                bytes.leave(self.core, areas);
            } else {
                let low = newest_sp(self) - 16;
                if low != areas.low {
                    bytes.shift(self.core, areas.low, low);
                }
            }
        }
    }

    /// Forgets the bytes over which the stack pointer has risen in the strict discipline, where it was `sp` before the step.
    ///
    /// Condition: that lay 16 bytes above the beginning of the stack, at least.
    fn forget(&self, bytes: &mut Bytes, sp: u32)
        requires side { IsUseSide self.now }
        requires full { AreFull bytes.old }
        requires low { self.now.uses.bounds.range.lo + 16 ≤ sp }
        ensures full { AreFull bytes.new }
        ensures marks { bytes.new.marks.items ≡ bytes.old.marks.items }
        ensures masks { AreMasks bytes.new.masks (without (forgets_byte self.now.uses.state sp) (mask_at bytes.old.masks)) }
    {
        if !self.uses.is_strict() {
            return;
        }
        let now = newest_sp(self);
        if sp < now {
            bytes.masks.forget(sp - 16, now - (sp - 16));
        }
    }

    /// Judges a record that is no handler step and touches this: a breach, after which nothing has changed, or the step, whose save areas
    /// and stores the bytes follow, and then the phase is the next one.
    ///
    /// Conditions: fewer than 2^32 - 1 records were seen, the access is one that the bus serves, and it touches this.
    #[inline(never)]
    pub fn judge_whole(
        &mut self,
        code: &Constants,
        bytes: &mut Bytes,
        rec: &StepRecord,
        nested: bool,
        next: HandlerPhase,
        touched: &Touched,
    ) -> Result<(), JudgeError>
        requires side { IsUseSide self.old }
        requires room { self.old.steps + 1 < 2 ^ 32 }
        requires served { IfSome rec.now.access (λ a. is_mapped a ≡ true) }
        requires next { next ≡ phase_after (constant_byte code.now) self.old.phase rec.now }
        requires full { AreFull bytes.old }
        requires touched { (live : ℕ → Bool) × (masks : ℕ → ℕ) × IsTouched touched.now rec.now live masks }
        ensures full { AreFull bytes.new }
        ensures seen { (others : ℕ → Bool) (masks : ℕ → ℕ) → KnowsBytes self.old.core bytes.old (live_in self.old.uses) others masks
            → IsTouched touched.now rec.now (either (live_in self.old.uses) others) masks
            → IsUseSeen self.old self.new bytes.new others masks
            (use_seen_judged (constant_byte code.now) self.old.uses.bounds (standing_of self.old) others masks nested rec.now) result }
    {
        let depth = self.uses.depth();
        let sp = newest_sp(&*self);
        let call = newest(&*self, self.hi);
        let used = self.uses.judge(code, self.steps, rec, nested, touched)?;
        self.phase = next;
        self.steps += 1;
        self.carried += count_of(used.carries);
        bytes.store(rec.access, used.stored);
        self.follow(bytes, depth, call);
        self.forget(bytes, sp);
        Ok(())
    }

    /// Judges a record that is no handler step: a breach, after which nothing has changed, or the step, whose save areas and stores the
    /// bytes follow, and then the phase is the next one. A quick step leaves the frames and the stack pointer as they are, and so the save
    /// areas.
    fn judge(
        &mut self,
        code: &Constants,
        bytes: &mut Bytes,
        rec: &StepRecord,
        nested: bool,
        next: HandlerPhase,
    ) -> Result<(), JudgeError>
        requires side { IsUseSide self.old }
        requires room { self.old.steps + 1 < 2 ^ 32 }
        requires served { IfSome rec.now.access (λ a. is_mapped a ≡ true) }
        requires next { next ≡ phase_after (constant_byte code.now) self.old.phase rec.now }
        requires full { AreFull bytes.old }
        ensures full { AreFull bytes.new }
        ensures seen { (others : ℕ → Bool) (masks : ℕ → ℕ) → KnowsBytes self.old.core bytes.old (live_in self.old.uses) others masks
            → IsUseSeen self.old self.new bytes.new others masks
            (use_seen_judged (constant_byte code.now) self.old.uses.bounds (standing_of self.old) others masks nested rec.now) result }
    {
        let touched = bytes.touched(rec);
        if self.uses.quick(code, self.steps, rec, nested, &touched) {
            self.phase = next;
            self.steps += 1;
            bytes.store(rec.access, ALL_BITS);
            return Ok(());
        }
        self.judge_whole(code, bytes, rec, nested, next, &touched)
    }

    /// Tests the record of a window exception outside handler steps: a breach, after which nothing has changed, or the first of the
    /// handler steps.
    fn begin(&mut self, code: &Constants, rec: &StepRecord) -> Result<(), JudgeError>
        requires { self.old.steps + 1 < 2 ^ 32 }
        ensures { BeginsUse (window_use (constant_byte code.now) rec.now self.old.uses.state) self.old result self.new }
    {
        if let Err(breach) = self.uses.test(code, self.steps, rec) {
            return Err(JudgeError::Breaks(breach));
        }
        self.phase = HandlerPhase::InHandler;
        self.steps += 1;
        Ok(())
    }

    /// Sees the core's next record, which is a handler step or judged.
    pub fn see(
        &mut self,
        code: &Constants,
        bytes: &mut Bytes,
        rec: &StepRecord,
    ) -> Result<(), JudgeError>
        requires side { IsUseSide self.old }
        requires room { self.old.steps + 1 < 2 ^ 32 }
        requires served { IfSome rec.now.access (λ a. is_mapped a ≡ true) }
        requires full { AreFull bytes.old }
        ensures full { AreFull bytes.new }
        ensures seen { (others : ℕ → Bool) (masks : ℕ → ℕ) → KnowsBytes self.old.core bytes.old (live_in self.old.uses) others masks
            → IsUseSeen self.old self.new bytes.new others masks
            (use_seen (constant_byte code.now) self.old.uses.bounds (standing_of self.old) others masks rec.now) result }
    {
        let next = phase_after(code, self.phase, rec);
        match role_of(self.phase, rec.kind) {
            Role::Own => self.judge(code, bytes, rec, false, next),
            Role::NestedStep => self.judge(code, bytes, rec, true, next),
            Role::Entry => self.begin(code, rec),
            Role::HandlerStep => {
                self.phase = next;
                self.steps += 1;
                Ok(())
            }
        }
    }

    /// The registers that the instruction of a record reads and of which not every bit is known.
    pub fn lacks(&self, code: &Constants, rec: &StepRecord) -> (Option<Lack>, Option<Lack>)
        ensures { result ≡ lacks_before (constant_byte code.now) rec.now self.now.uses.state }
    {
        self.uses.lacks(code, rec)
    }
}
