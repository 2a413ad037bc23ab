//! What a turn finds before it is made, and what it uses of that.
#![tactic(auto)]

ghost use Rattle.std.specs.Prelude.{◌≡◌, true};
ghost use Rattle.xt_isa.specs.Ranges.{in_range};
ghost use Rattle.xt_rows.specs.RowLaws.{IsRegister};
ghost use Rattle.xt_uses.specs.Words.{is_whole};
ghost use Rattle.xt_simulation.specs.Learning.{common_mask, doubtful};
ghost use Rattle.xt_simulation.specs.TurnUses.{found_used, row_used};
ghost use Rattle.xt_secret_walk.specs.SeenWords.{insn_uses, seen_lacks, turn_uses, word_lacks, words_lack};

use xt_frames::is_return;
use xt_isa::Insn;
use xt_isa::three::Three;
use xt_map::{Access, Kind};
use xt_rows::reads;
use xt_trace::StepKind;
use xt_uses::{ALL_BITS, Discipline, Lack, Word, used_are_known};

/// A visible register, and the mask that it gets.
#[derive(Clone, Copy)]
pub struct MaskWrite {
    pub reg: u8,
    pub mask: u32,
}

/// The instruction at a program counter, and the words that it reads.
#[derive(Clone, Copy)]
pub struct Seen {
    pub insn: Insn,
    /// Of the first visible register.
    pub x: Word,
    /// Of the second.
    pub y: Word,
    /// Of the special register.
    pub u: Word,
    /// Of a conditional move whose condition is not known, the register and the mask that it gets.
    pub doubt: Option<MaskWrite>,
}

/// Whether each bit is known.
#[inline(always)]
fn is_whole(w: Word) -> bool
    ensures { result ≡ is_whole w }
{
    ALL_BITS & w.mask == ALL_BITS
}

/// Whether an instruction uses known bits alone, where x and y are the words of the registers that
/// it reads.
#[tactic(auto, unfolding(xt_simulation::specs::TurnUses::row_used))]
fn row_used(insn: Insn, x: Word, y: Word) -> bool
    ensures { result ≡ row_used insn x y }
{
    match insn {
        Insn::Three(Three::Move(_, _, _, _)) => true,
        Insn::Three(Three::Divide(_, _, _, _)) => is_whole(x) && is_whole(y),
        _ => used_are_known(Discipline::Lenient, insn, x, y),
    }
}

/// The same. Most words are wholly known, so that no table is asked.
#[inline(always)]
fn is_row_known(insn: Insn, x: Word, y: Word) -> bool
    ensures { result ≡ row_used insn x y }
{
    if x.mask == ALL_BITS {
        if y.mask == ALL_BITS {
            return true;
        }
    }
    row_used(insn, x, y)
}

/// The register of a conditional move whose condition, the word y, is not known.
#[tactic(auto, unfolding(xt_simulation::specs::Learning::doubtful, xt_uses::specs::Used::used_are_known, xt_isa::specs::Ranges::three_registers))]
pub fn doubtful(insn: Insn, y: Word) -> Option<u8>
    requires { in_range insn ≡ true }
    ensures value { result ≡ doubtful insn y }
    ensures range { IsRegister result }
{
    match insn {
        Insn::Three(Three::Move(_, r, _, _)) => {
            if used_are_known(Discipline::Lenient, insn, y, y) {
                None
            } else {
                Some(r)
            }
        }
        _ => None,
    }
}

/// The bits that both words know and that are equal.
pub fn common_mask(x: Word, y: Word) -> u32
    ensures { result ≡ common_mask x y }
{
    (x.mask & y.mask) & ((x.value ^ y.value) ^ ALL_BITS)
}

/// Whether a compare-and-swap finds bytes of which each bit is known, by the mask of its reply.
fn found_used(access: Option<Access>, reply: u32) -> bool
    ensures { result ≡ found_used access reply }
{
    match access {
        Some(
            Access {
                kind: Kind::Cas(_, _),
                ..
            },
        ) => reply == ALL_BITS,
        _ => true,
    }
}

impl Seen {
    /// Whether a turn of this kind uses known bits alone of the words that its instruction reads.
    fn is_known(&self, kind: StepKind) -> bool
        ensures { result ≡ insn_uses kind self.now }
    {
        match kind {
            StepKind::Interrupt(_) | StepKind::Wait => true,
            StepKind::Window(_) => !is_return(self.insn) || is_whole(self.x),
            StepKind::Insn | StepKind::Exc(_) | StepKind::Stop => {
                is_row_known(self.insn, self.x, self.y)
            }
        }
    }
}

/// Whether a turn of this kind and with this access uses known bits alone, where `reply` is the
/// mask of its reply.
pub fn turn_uses(kind: StepKind, access: Option<Access>, seen: &Option<Seen>, reply: u32) -> bool
    ensures { result ≡ turn_uses kind access seen.now reply }
{
    let known = match seen {
        Some(x) => x.is_known(kind),
        None => true,
    };
    known && found_used(access, reply)
}

/// The register, if not each bit of it is known.
fn word_lacks(number: u8, w: Word) -> Option<Lack>
    ensures { result ≡ word_lacks number w }
{
    if w.mask == ALL_BITS {
        return None;
    }
    Some(Lack {
        number,
        value: w.value,
        mask: w.mask,
        mark: None,
    })
}

/// The registers that the instruction reads and of which not every bit is known, once each and in
/// the order of their numbers.
pub fn seen_lacks(seen: &Option<Seen>) -> (Option<Lack>, Option<Lack>)
    ensures { result ≡ seen_lacks seen.now }
{
    let Some(seen) = seen else {
        return (None, None);
    };
    match reads(seen.insn) {
        (None, _) => (None, None),
        (Some(a), None) => (word_lacks(a, seen.x), None),
        (Some(a), Some(b)) => {
            if a < b {
                (word_lacks(a, seen.x), word_lacks(b, seen.y))
            } else if b < a {
                (word_lacks(b, seen.y), word_lacks(a, seen.x))
            } else {
                (word_lacks(a, seen.x), None)
            }
        }
    }
}
