//! The masks beside a frame state.
#![tactic(auto)]

ghost use Rattle.std.specs.Prelude.{◌≡◌, ◌<◌, ℕ, List, [], None, false, true, if◌then◌else◌, is_some, slice_index_or};
ghost use Rattle.xt_isa.specs.Ranges.{in_range};
ghost use Rattle.xt_rows.specs.Kinds.{is_entry, moved_to};
ghost use Rattle.xt_rows.specs.RowLaws.{IsAny, IsProperWrite, IsRegister, IsShiftAmount, IsWord};
ghost use Rattle.xt_frames.specs.Frames.{Frame, FrameState};
ghost use Rattle.xt_frames.specs.KeptFrameState.{Upper, state_at};
ghost use Rattle.xt_frames.specs.declared.holes.UndefinedParts.{UndefinedParts};
ghost use Rattle.xt_uses.specs.UseState.{first_word, second_word, special_operand, visible_word, whole_masks};
ghost use Rattle.xt_uses.specs.UseStep.{frames_moved, inner_unknown, pointer_written, special_written, visible_written};
ghost use Rattle.xt_uses.specs.UseParts.{AreFew, IsNewestMasks, KeepsFew, kept_after, mask_of, masks_at, use_at};
ghost use Rattle.xt_uses.specs.UseQuick.{AreWhole};
ghost use Rattle.xt_uses.specs.Words.{all_bits};

use crate::discipline::Discipline;
use crate::used::{counted_bits, keeps_unknown};
use crate::words::{ALL_BITS, Word, whole_word};
use xt_frames::{
    FrameRegisters, UndefinedParts, after_call, after_return, is_return, kept_of, moved_to,
};
use xt_isa::Insn;
use xt_isa::control::Control;
use xt_isa::system::{System, UserName};
use xt_rows::{reads, special_reads};
use xt_trace::RegWrite;

/// The masks of a frame that has called.
#[derive(Clone, Copy)]
pub struct KeptMasks {
    /// By how many windows the call moved, 1 to 3.
    pub by: u8,
    /// Those of its registers a0 to a11, of which the first four times as many are kept for it.
    pub masks: [u32; 12],
}

/// What a step does to the list of masks of the frames that have called.
#[derive(Clone, Copy)]
pub enum Keep {
    /// Nothing.
    Stays,
    /// Those of the frame that calls are kept.
    Keeps(KeptMasks),
    /// Those of the newest caller are put back.
    Restores,
}

/// The masks but for those of the frames that have called.
#[derive(Drop)]
pub struct TopMasks {
    /// By which discipline.
    pub discipline: Discipline,
    /// Of the 16 visible registers.
    pub seen: [u32; 16],
    /// Of EXCSAVE1 to EXCSAVE7 and MISC0 to MISC3, by the number of the special register.
    pub special: [u32; 256],
    /// Of THREADPTR.
    pub threadptr: u32,
    /// Of the 16 visible registers of a nested interrupt.
    pub inner: [u32; 16],
}

/// The words of the registers that an instruction reads.
#[derive(Clone, Copy)]
pub struct Operands {
    /// Of the first visible register.
    pub x: Word,
    /// Of the second.
    pub y: Word,
    /// Of the special register.
    pub u: Word,
}

#[tactic(auto, unfolding(xt_rows::specs::Kinds::is_entry))]
fn is_entry(i: Insn) -> bool
    ensures { result ≡ is_entry i }
{
    matches!(i, Insn::Control(Control::Entry(_, _)))
}

impl TopMasks {
    /// All is known.
    pub fn whole(discipline: Discipline) -> TopMasks
        ensures { masks_at [] result ≡ whole_masks discipline }
    {
        TopMasks {
            discipline,
            seen: [ALL_BITS; 16],
            special: [ALL_BITS; 256],
            threadptr: ALL_BITS,
            inner: [ALL_BITS; 16],
        }
    }

    /// The mask of a visible register, in a nested interrupt of one of its own.
    pub fn visible(&self, nested: bool, i: u8) -> u32
        requires { i < 16 }
        ensures { result ≡ slice_index_or (if nested then self.now.inner else self.now.seen) i 0 }
    {
        if nested {
            self.inner[i as usize]
        } else {
            self.seen[i as usize]
        }
    }

    fn word(&self, view: &FrameRegisters, nested: bool, register: Option<u8>) -> Word
        requires { IsRegister register }
        ensures { (frames : List Frame) (kept : List (List ℕ)) (h : UndefinedParts) (v : Upper) → nested ≡ is_some h.nested
            → result ≡ visible_word (use_at frames kept h v self.now) (state_at frames h view.now) register }
    {
        match register {
            Some(i) => Word {
                value: view.value_or_zero(i),
                mask: self.visible(nested, i),
            },
            None => whole_word(0),
        }
    }

    fn special_mask(&self, register: Option<u8>) -> u32
        ensures { (kept : List (List ℕ)) → result ≡ mask_of (masks_at kept self.now) register }
    {
        match register {
            Some(n) if keeps_unknown(n) => self.special[n as usize],
            Some(n) => counted_bits(self.discipline, n),
            None => ALL_BITS,
        }
    }

    /// Whether each bit of a register is known, outside nested interrupts.
    #[inline(always)]
    fn is_whole(&self, register: Option<u8>) -> bool
        requires { IsRegister register }
        ensures { result ≡ true → (frames : List Frame) (kept : List (List ℕ)) (h : UndefinedParts) (v : Upper) (f : FrameState) → h.nested ≡ None
            → (visible_word (use_at frames kept h v self.now) f register).mask ≡ all_bits }
    {
        match register {
            Some(i) => self.seen[i as usize] == ALL_BITS,
            None => true,
        }
    }

    /// Whether each bit of what an instruction reads is known, outside nested interrupts.
    #[inline(always)]
    pub fn reads_whole(&self, i: Insn) -> bool
        requires { in_range i ≡ true }
        ensures { result ≡ true → (frames : List Frame) (kept : List (List ℕ)) (h : UndefinedParts) (v : Upper) (f : FrameState) → h.nested ≡ None
            → AreWhole i (use_at frames kept h v self.now) f }
    {
        let (first, second) = reads(i);
        let (special, _other) = special_reads(i);
        if !self.is_whole(first) || !self.is_whole(second) {
            return false;
        }
        self.special_mask(special) == ALL_BITS
    }

    /// Each bit is known of what is written, outside nested interrupts.
    #[inline(always)]
    pub fn know(&mut self, write: Option<RegWrite>)
        requires { IsProperWrite IsAny write }
        ensures masks { (kept : List (List ℕ)) → masks_at kept self.new ≡ visible_written false write all_bits (masks_at kept self.old) }
        ensures word { IsProperWrite IsWord write }
    {
        if let Some(w) = write {
            self.seen[w.reg as usize] = ALL_BITS;
        }
    }

    /// The words that an instruction reads of the state that its step finds.
    pub fn operands(&self, i: Insn, view: &FrameRegisters, holes: &UndefinedParts) -> Operands
        requires { in_range i ≡ true }
        ensures first { (frames : List Frame) (kept : List (List ℕ)) (v : Upper) → result.x ≡ first_word i (use_at frames kept holes.now v self.now) (state_at frames holes.now view.now) }
        ensures second { (frames : List Frame) (kept : List (List ℕ)) (v : Upper) → result.y ≡ second_word i (use_at frames kept holes.now v self.now) (state_at frames holes.now view.now) }
        ensures special { (frames : List Frame) (kept : List (List ℕ)) (v : Upper) → result.u ≡ special_operand i (use_at frames kept holes.now v self.now) (state_at frames holes.now view.now) }
        ensures sar { IsShiftAmount i result.u.value }
    {
        let (first, second) = reads(i);
        let (special, _other) = special_reads(i);
        let nested = holes.nested.is_some();
        Operands {
            x: self.word(view, nested, first),
            y: self.word(view, nested, second),
            u: Word {
                value: view.special_read(i),
                mask: self.special_mask(special),
            },
        }
    }

    /// ENTRY and RETW move the masks of the frames, where `by` is CALLINC.
    fn move_frames(&mut self, i: Insn, by: u8, newest: &Option<KeptMasks>) -> Keep
        requires by { by < 4 }
        requires few { AreFew newest.now }
        ensures masks { (kept : List (List ℕ)) → IsNewestMasks newest.now kept → masks_at (kept_after result kept) self.new ≡ frames_moved i by (masks_at kept self.old) }
        ensures few { KeepsFew result }
    {
        if is_entry(i) {
            let masks = kept_of(&self.seen);
            self.seen = after_call(&self.seen, by, 0);
            return Keep::Keeps(KeptMasks { by, masks });
        }
        if is_return(i) {
            if let Some(caller) = newest {
                self.seen = after_return(&caller.masks, &self.seen, caller.by);
                return Keep::Restores;
            }
        }
        Keep::Stays
    }

    /// WSR and XSR give a special register what the visible one holds.
    fn write_special(&mut self, i: Insn, given: u32)
        requires { in_range i ≡ true }
        ensures { (kept : List (List ℕ)) → masks_at kept self.new ≡ special_written (moved_to i) given (masks_at kept self.old) }
    {
        if let Some((_, n)) = moved_to(i) {
            self.special[n as usize] = given;
        }
    }

    /// WUR gives THREADPTR what the visible one holds.
    #[tactic(auto, unfolding(crate::specs::UseStep::pointer_written))]
    fn write_pointer(&mut self, i: Insn, given: u32)
        ensures { (kept : List (List ℕ)) → masks_at kept self.new ≡ pointer_written i given (masks_at kept self.old) }
    {
        if let Insn::System(System::User(UserName::Wur, _, _)) = i {
            self.threadptr = given;
        }
    }

    /// A visible register is written, in a nested interrupt one of its own.
    fn write_visible(&mut self, nested: bool, write: Option<RegWrite>, mask: u32)
        requires { IsProperWrite IsAny write }
        ensures { (kept : List (List ℕ)) → masks_at kept self.new ≡ visible_written nested write mask (masks_at kept self.old) }
    {
        if let Some(w) = write {
            if nested {
                self.inner[w.reg as usize] = mask;
            } else {
                self.seen[w.reg as usize] = mask;
            }
        }
    }

    /// Nothing is known of the registers of a nested interrupt that begins.
    pub fn forget_inner(&mut self)
        ensures { (kept : List (List ℕ)) → masks_at kept self.new ≡ inner_unknown (masks_at kept self.old) }
    {
        self.inner = [0; 16];
    }

    /// After an instruction that was executed, which gives the register that it writes this mask, and special registers that of its
    /// first operand, `given`. `by` is CALLINC before it.
    pub fn pass(
        &mut self,
        i: Insn,
        given: u32,
        mask: u32,
        nested: bool,
        write: Option<RegWrite>,
        by: u8,
        newest: &Option<KeptMasks>,
    ) -> Keep
        requires range { in_range i ≡ true }
        requires write { IsProperWrite IsAny write }
        requires by { by < 4 }
        requires few { AreFew newest.now }
        ensures masks { (kept : List (List ℕ)) → IsNewestMasks newest.now kept
            → masks_at (kept_after result kept) self.new ≡ visible_written nested write mask (pointer_written i given (special_written (moved_to i) given (frames_moved i by (masks_at kept self.old)))) }
        ensures few { KeepsFew result }
    {
        let keep = self.move_frames(i, by, newest);
        self.write_special(i, given);
        self.write_pointer(i, given);
        self.write_visible(nested, write, mask);
        keep
    }
}
