//! What a search forgets of a core and of memory once an interrupt is over: a guess at what no turn uses
//! any more.

ghost use Rattle.std.specs.Prelude.{◌≡◌, ◌+◌, ◌≤◌, ◌<◌, ◌^◌, true, length, slice_set, OnOk};
ghost use Rattle.xt_moments.specs.MomentLaws.{may_be_lost};
ghost use Rattle.xt_moment_search.specs.Covering.{Forgets};
ghost use Rattle.xt_moment_search.specs.Forgetting.{ForgetsBytes, ForgetsSide};

use crate::bytes::{Bytes, serve};
use crate::ground::Ground;
use crate::sides::{Side, copy_of, set_mask, with_register};
use crate::snapshots::Snapshot;
use std::alloc::{AllocError, Global};
use xt_codec::{Fetch, instruction_at};
use xt_isa::Insn;
use xt_isa::control::{Control, ReturnName};
use xt_isa::density::{BareName, Density};
use xt_isa::system::{ExceptionReturnName, System};
use xt_map::{Access, Kind, is_in_memory};
use xt_secret_walk::{CoreMasks, WatchedFile};
use xt_special::number;
use xt_trace::{StepKind, StepRecord};

/// What the next instruction leaves.
#[derive(Clone, Copy, PartialEq, Eq)]
pub enum Leaving {
    /// Neither a frame nor an interrupt.
    Nothing,
    /// A frame.
    Frame,
    /// An exception or an interrupt.
    Interrupt,
}

/// What the next instruction leaves.
pub fn left_by_next(ground: &Ground, side: &Side) -> Leaving {
    let Fetch::Insn(insn, _) = instruction_at::<WatchedFile>(&ground.code, side.regs.pc) else {
        return Leaving::Nothing;
    };
    match insn {
        Insn::Control(Control::Return(ReturnName::Retw)) => Leaving::Frame,
        Insn::Density(Density::Bare(BareName::Retw)) => Leaving::Frame,
        Insn::System(System::ExceptionReturn(ExceptionReturnName::Rfe)) => Leaving::Interrupt,
        Insn::System(System::Rfi(_)) => Leaving::Interrupt,
        _ => Leaving::Nothing,
    }
}

/// What an interrupt has done with a word of memory.
#[derive(Clone, Copy)]
enum Use {
    /// Its first access was no store of the whole word.
    Found,
    /// It has stored the word, and not loaded it since then.
    Stored,
    /// It has stored the word first, and loaded it later.
    Saved,
}

/// The words that an interrupt has accessed since it was taken. Nothing is claimed of them.
#[derive(Drop)]
pub struct Saved {
    is_on: bool,
    words: Vec<(u32, Use)>,
}

impl Saved {
    /// No interrupt was taken.
    pub fn new(alloc: Global) -> Saved {
        Saved {
            is_on: false,
            words: Vec::new(alloc),
        }
    }

    /// Notes what a turn accesses. The only error is running out of memory.
    pub fn note(&mut self, made: &StepRecord) -> Result<(), AllocError> {
        if let StepKind::Interrupt(_) = made.kind {
            self.is_on = true;
            self.words.clear();
        }
        match made.access {
            Some(access) => self.note_access(access),
            None => Ok(()),
        }
    }

    // Notes an access. The only error is running out of memory.
    fn note_access(&mut self, access: Access) -> Result<(), AllocError> {
        if !self.is_on {
            return Ok(());
        }
        let word = access.addr / 4 * 4;
        let stores = access.size == 4 && matches!(access.kind, Kind::Store(_));
        for at in 0..self.words.len() {
            let (other, seen) = self.words[at];
            if other == word {
                if matches!(seen, Use::Stored) && !stores {
                    self.words[at] = (word, Use::Saved);
                }
                return Ok(());
            }
        }
        let first = if stores { Use::Stored } else { Use::Found };
        self.words.push((word, first))?;
        Ok(())
    }
}

// Whether it is EPC1, or one of EXCSAVE1 to EXCSAVE7 and MISC0 to MISC3.
fn may_be_lost(n: u8) -> bool
    ensures { result ≡ may_be_lost n }
{
    match n {
        number::EPC1 => true,
        209..=215 => true,
        244..=247 => true,
        _ => false,
    }
}

// The masks, by which nothing is known of a special register.
fn masks_without(masks: &CoreMasks, n: u8) -> CoreMasks
    ensures regs { result.regs ≡ masks.now.regs }
    ensures special { result.special ≡ slice_set masks.now.special n 0 }
    ensures threadptr { result.threadptr ≡ masks.now.threadptr }
    ensures long { n < length masks.now.special }
{
    let mut masks = copy_of(masks);
    set_mask(&mut masks, n, 0);
    masks
}

// The core, of which nothing is known of a special register.
fn without_special(side: &Side, n: u8) -> Side
    requires { may_be_lost n ≡ true }
    ensures { ForgetsSide side.now result }
{
    Side {
        regs: with_register(side.regs, n, 0),
        masks: masks_without(&side.masks, n),
        armed: side.armed,
        stopped: side.stopped,
    }
}

// The core, of which nothing is known of EPC1, EXCSAVE1 to EXCSAVE7 and MISC0 to MISC3.
fn without_specials(side: &Side) -> Side
    ensures { ForgetsSide side.now result }
{
    let mut kept = side.copy();
    for n in 0..=255u8 {
        if may_be_lost(n) {
            kept = without_special(&kept, n);
        }
    }
    kept
}

// What a word of memory was when it opened.
fn opening_word(ground: &Ground, word: u32) -> u32
    requires { word + 4 ≤ 2 ^ 32 }
{
    let mut value: u32 = 0;
    for at in 0..4u32 {
        value = value | (ground.opening.byte(word + at) as u32) << (8 * at);
    }
    value
}

// Forgets a word of memory. The only error is running out of memory.
fn forget_word(ground: &Ground, bytes: &mut Bytes, word: u32) -> Result<(), AllocError>
    ensures { OnOk result (ForgetsBytes ground.now.opening.contents ground.now.cleared.contents bytes.old bytes.new) }
{
    if word % 4 != 0 || !is_in_memory(word) {
        return Ok(());
    }
    let access = Access {
        addr: word,
        size: 4,
        kind: Kind::Store(opening_word(ground, word)),
    };
    serve(bytes, &ground.opening, &ground.cleared, Some(access), 0)?;
    Ok(())
}

// Forgets a word of memory that was stored first and loaded later. The only error is running out of
// memory.
fn forget_saved(ground: &Ground, bytes: &mut Bytes, word: u32, seen: Use) -> Result<(), AllocError>
    ensures { OnOk result (ForgetsBytes ground.now.opening.contents ground.now.cleared.contents bytes.old bytes.new) }
{
    match seen {
        Use::Saved => forget_word(ground, bytes, word),
        Use::Found => Ok(()),
        Use::Stored => Ok(()),
    }
}

// Forgets the words of memory that were stored first and loaded later. The only error is running out
// of memory.
fn forget_words(ground: &Ground, bytes: &mut Bytes, saved: &Saved) -> Result<(), AllocError>
    ensures { OnOk result (ForgetsBytes ground.now.opening.contents ground.now.cleared.contents bytes.old bytes.new) }
{
    for place in 0..saved.words.len() {
        let (word, seen) = saved.words[place];
        forget_saved(ground, bytes, word, seen)?;
    }
    Ok(())
}

/// Forgets what an interrupt of a core has saved, where it is over: the words that it stored first and
/// loaded later, and the special registers that serve it. The only error is running out of memory.
pub fn forget(
    ground: &Ground,
    core: u8,
    at: &mut Snapshot,
    saved: &mut Saved,
) -> Result<(), AllocError>
    requires { core < 2 }
    ensures { OnOk result (Forgets ground.now.opening.contents ground.now.cleared.contents at.old at.new) }
{
    let side = without_specials(at.side(core));
    at.put(core, side);
    forget_words(ground, &mut at.bytes, saved)?;
    saved.is_on = false;
    saved.words.clear();
    Ok(())
}
