//! What is known of a core.
#![tactic(auto)]

ghost use Rattle.std.specs.Prelude.{◌≡◌, ◌<◌, ◌==◌, ◌&&◌, true, if◌then◌else◌};
ghost use Rattle.xt_isa.specs.Ranges.{in_range};
ghost use Rattle.xt_window.specs.Ring.{place};
ghost use Rattle.xt_rows.specs.Kinds.{moved_to};
ghost use Rattle.xt_rows.specs.RowLaws.{IsRegister, IsShiftAmount};
ghost use Rattle.xt_exec.specs.State.{State};
ghost use Rattle.xt_exec.specs.States.{file_state};
ghost use Rattle.xt_frames.specs.Marks.{holds_marks};
ghost use Rattle.xt_uses.specs.declared.discipline.Discipline.TheVariants.{Lenient};
ghost use Rattle.xt_uses.specs.Known.{result_mask};
ghost use Rattle.xt_uses.specs.UseLaws.{pointer_mask};
ghost use Rattle.xt_uses.specs.Words.{all_bits};
ghost use Rattle.xt_simulation.specs.Knowledge.{all_known, first_special, register_word};
ghost use Rattle.xt_simulation.specs.Learning.{doubtful, known_past, special_given, with_mask};
ghost use Rattle.xt_simulation.specs.FirstLeak.{insn_carries};
ghost use Rattle.xt_secret_walk.specs.SeenWords.{IsGood, doubt_of, knowledge_of, masked_write, seen_in, special_mask};

use crate::file::WatchedFile;
use crate::seen::{MaskWrite, Seen, common_mask, doubtful};
use xt_exec::Regs;
use xt_isa::Insn;
use xt_isa::system::{SpecialName, System, UserName};
use xt_rows::settling::special_value;
use xt_rows::{reads, special_reads};
use xt_trace::RegWrite;
use xt_uses::{ALL_BITS, Discipline, Word, keeps_unknown, result_mask, whole_word};
use xt_window::Windows;

/// The masks of a core's registers.
#[derive(Drop)]
pub struct CoreMasks {
    /// Of the 64 registers of the ring, by their places.
    pub regs: [u32; 64],
    /// Of EXCSAVE1 to EXCSAVE7 and MISC0 to MISC3, by the number of the special register.
    pub special: [u32; 256],
    /// Of THREADPTR.
    pub threadptr: u32,
}

/// The place of a visible register in the ring.
#[inline(always)]
fn place(base: u8, register: u8) -> usize
    ensures value { result ≡ place base register }
    ensures range { result < 64 }
{
    (4 * base as usize + register as usize) % 64
}

impl CoreMasks {
    /// All is known.
    pub fn whole() -> CoreMasks
        ensures { knowledge_of result ≡ all_known }
    {
        CoreMasks {
            regs: [ALL_BITS; 64],
            special: [ALL_BITS; 256],
            threadptr: ALL_BITS,
        }
    }

    #[inline(always)]
    fn word(&self, regs: &Regs<WatchedFile>, register: Option<u8>) -> Word
        requires { IsRegister register }
        ensures { result ≡ register_word (knowledge_of self.now) (file_state regs.now) register }
    {
        match register {
            Some(i) => {
                let mask = self.regs[place(regs.win.base(), i)];
                Word {
                    value: regs.win.read(i) & mask,
                    mask,
                }
            }
            None => whole_word(0),
        }
    }

    #[inline(always)]
    fn special_mask(&self, n: u8) -> u32
        ensures { result ≡ special_mask self.now n }
    {
        if keeps_unknown(n) {
            self.special[n as usize]
        } else {
            ALL_BITS
        }
    }

    #[inline(always)]
    fn special_word(&self, regs: &Regs<WatchedFile>, insn: Insn) -> Word
        requires { in_range insn ≡ true }
        ensures value { result ≡ first_special insn (knowledge_of self.now) (file_state regs.now) }
        ensures sar { IsShiftAmount insn result.value }
    {
        let (special, _other) = special_reads(insn);
        match special {
            Some(n) => {
                let mask = self.special_mask(n);
                Word {
                    value: special_value(&regs.sr, special) & mask,
                    mask,
                }
            }
            None => whole_word(0),
        }
    }

    /// Of a conditional move whose condition y is not known, the register and the bits that its own
    /// value and the other one, x, have in common.
    fn doubt(&self, regs: &Regs<WatchedFile>, insn: Insn, x: Word, y: Word) -> Option<MaskWrite>
        requires { in_range insn ≡ true }
        ensures { result ≡ doubt_of (doubtful insn y) x (knowledge_of self.now) (file_state regs.now) }
    {
        match doubtful(insn, y) {
            Some(reg) => Some(MaskWrite {
                reg,
                mask: common_mask(self.word(regs, Some(reg)), x),
            }),
            None => None,
        }
    }

    /// What the next turn of a core finds, if this is the instruction at its program counter.
    #[inline(always)]
    pub fn seen(&self, regs: &Regs<WatchedFile>, insn: Insn) -> Seen
        requires { in_range insn ≡ true }
        ensures seen { result ≡ seen_in insn (knowledge_of self.now) (file_state regs.now) }
        ensures good { IsGood result }
    {
        let (first, second) = reads(insn);
        let x = self.word(regs, first);
        let y = self.word(regs, second);
        Seen {
            insn,
            x,
            y,
            u: self.special_word(regs, insn),
            doubt: self.doubt(regs, insn, x, y),
        }
    }

    /// Whether each bit of all that the result of an instruction may come from is known.
    #[inline(always)]
    fn is_plain(&self, seen: &Seen, reply: u32) -> bool
        ensures { result ≡ (seen.now.x.mask == all_bits && (seen.now.y.mask == all_bits && (seen.now.u.mask == all_bits && (self.now.threadptr == all_bits && reply == all_bits)))) }
    {
        seen.x.mask == ALL_BITS
            && (seen.y.mask == ALL_BITS
                && (seen.u.mask == ALL_BITS && (self.threadptr == ALL_BITS && reply == ALL_BITS)))
    }

    /// The mask of the register that an executed instruction writes. Most words are wholly known,
    /// so that no table is asked.
    #[inline(always)]
    fn result(&self, seen: &Seen, reply: u32) -> u32
        requires { IsGood seen.now }
        ensures { result ≡ result_mask Lenient seen.now.insn seen.now.x seen.now.y seen.now.u self.now.threadptr reply }
    {
        if self.is_plain(seen, reply) {
            return ALL_BITS;
        }
        result_mask(
            Discipline::Lenient,
            seen.insn,
            seen.x,
            seen.y,
            seen.u,
            self.threadptr,
            reply,
        )
    }

    /// The register that an executed instruction writes, if any, and the mask that it gets.
    #[inline(always)]
    fn masked_write(&self, seen: &Seen, write: Option<RegWrite>, reply: u32) -> Option<MaskWrite>
        requires { IsGood seen.now }
        ensures { result ≡ masked_write seen.now.doubt write reply self.now.threadptr seen.now }
    {
        if seen.doubt.is_some() {
            return seen.doubt;
        }
        match write {
            Some(w) => Some(MaskWrite {
                reg: w.reg,
                mask: self.result(seen, reply),
            }),
            None => None,
        }
    }

    /// A special register gets this mask, if it is one that keeps what is not known.
    fn keep(&mut self, n: u8, given: u32)
        ensures regs { self.new.regs ≡ self.old.regs }
        ensures special { special_mask self.new ≡ (if holds_marks n then with_mask n given (special_mask self.old) else special_mask self.old) }
        ensures threadptr { self.new.threadptr ≡ self.old.threadptr }
    {
        if keeps_unknown(n) {
            self.special[n as usize] = given;
        }
    }

    /// WSR and XSR give EXCSAVE1 to EXCSAVE7 and MISC0 to MISC3 what is known of the register that
    /// they read, and WUR THREADPTR.
    #[tactic(auto, unfolding(xt_rows::specs::Kinds::moved_to, xt_uses::specs::UseLaws::pointer_mask))]
    fn give(&mut self, insn: Insn, given: u32)
        ensures regs { self.new.regs ≡ self.old.regs }
        ensures special { special_mask self.new ≡ special_given (moved_to insn) given (special_mask self.old) }
        ensures threadptr { self.new.threadptr ≡ pointer_mask insn given self.old.threadptr }
    {
        match insn {
            Insn::System(System::User(UserName::Wur, _, _)) => self.threadptr = given,
            Insn::System(System::Special(SpecialName::Wsr, _, n)) => self.keep(n, given),
            Insn::System(System::Special(SpecialName::Xsr, _, n)) => self.keep(n, given),
            _ => {}
        }
    }

    /// After a turn that executed this instruction, made this write and ends in the window `base`:
    /// whether the register that is written has a bit that is not known.
    #[inline(always)]
    pub fn pass(&mut self, seen: &Seen, write: Option<RegWrite>, base: u8, reply: u32) -> bool
        requires { IsGood seen.now }
        ensures known { (s : State) → seen.now ≡ seen_in seen.now.insn (knowledge_of self.old) s
            → knowledge_of self.new ≡ known_past (Some seen.now.insn) write base reply (knowledge_of self.old) s }
        ensures carries { (s : State) → seen.now ≡ seen_in seen.now.insn (knowledge_of self.old) s
            → result ≡ insn_carries (Some seen.now.insn) write reply (knowledge_of self.old) s }
    {
        let written = self.masked_write(seen, write, reply);
        self.give(seen.insn, seen.x.mask);
        match written {
            Some(w) => {
                self.regs[place(base, w.reg)] = w.mask;
                w.mask != ALL_BITS
            }
            None => false,
        }
    }
}
