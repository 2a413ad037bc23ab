//! What a turn finds, and what is known after it.
ghost use Rattle.std.specs.Prelude.{◌≡◌, ◌<◌, false, slice_index_or};
ghost use Rattle.xt_isa.specs.declared.Insn.{Insn};
ghost use Rattle.xt_map.specs.Memory.{constant_byte};
ghost use Rattle.xt_window.specs.Ring.{place};
ghost use Rattle.xt_map.specs.Fetching.{fetch_at};
ghost use Rattle.xt_exec.specs.State.{State};
ghost use Rattle.xt_exec.specs.States.{file_state};
ghost use Rattle.xt_uses.specs.Words.{all_bits};
ghost use Rattle.xt_secret_walk.specs.SeenWords.{IsGoodSeen, executed_in, knowledge_of, seen_of, stored_of, turn_uses};
ghost use Rattle.xt_moments.specs.MomentLaws.{IsMomentKnown, entered_known, enters, is_clock, moment_known, writes_clock};
ghost use Rattle.xt_moment_search.specs.KnownCores.{IsSeen, deciding, insn_of, moment_known_of, reads_clock, reads_epc1, reads_lost};
ghost use Rattle.xt_moment_search.specs.KnownCores.{seen_arms, with_hidden};

use crate::sides::{copy_of, set_mask};
use xt_codec::{Fetch, instruction_at};
use xt_exec::Regs;
use xt_isa::Insn;
use xt_isa::system::{ExceptionReturnName, SpecialName, System};
use xt_map::Constants;
use xt_moments::armed_by;
use xt_secret_walk::{CoreMasks, Seen, WatchedFile, turn_uses};
use xt_special::{Ps, number};
use xt_trace::{RegWrite, StepKind, StepRecord};
use xt_uses::ALL_BITS;

// Whether a special register is one of which nothing is known: CCOUNT and CCOMPARE0 to CCOMPARE2.
fn is_clock(n: u8) -> bool
    ensures { result ≡ is_clock n }
{
    match n {
        number::CCOUNT => true,
        number::CCOMPARE0..=number::CCOMPARE2 => true,
        _ => false,
    }
}

// Whether an instruction reads a clock.
fn reads_clock(insn: Insn) -> bool
    ensures { result ≡ reads_clock insn }
{
    match insn {
        Insn::System(System::Special(SpecialName::Rsr, _, n)) => is_clock(n),
        Insn::System(System::Special(SpecialName::Xsr, _, n)) => is_clock(n),
        _ => false,
    }
}

// Whether an instruction writes a clock.
fn writes_clock(insn: Insn) -> bool
    ensures { result ≡ writes_clock insn }
{
    match insn {
        Insn::System(System::Special(SpecialName::Wsr, _, n)) => is_clock(n),
        Insn::System(System::Special(SpecialName::Xsr, _, n)) => is_clock(n),
        _ => false,
    }
}

// Whether an instruction reads EPC1.
fn reads_epc1(insn: Insn) -> bool
    ensures { result ≡ reads_epc1 insn }
{
    match insn {
        Insn::System(System::Special(SpecialName::Rsr, _, n)) => n == number::EPC1,
        Insn::System(System::Special(SpecialName::Xsr, _, n)) => n == number::EPC1,
        Insn::System(System::ExceptionReturn(ExceptionReturnName::Rfe)) => true,
        Insn::System(System::ExceptionReturn(ExceptionReturnName::Rfwo)) => true,
        Insn::System(System::ExceptionReturn(ExceptionReturnName::Rfwu)) => true,
        _ => false,
    }
}

// What is known of EPC1.
fn epc1_mask(masks: &CoreMasks) -> u32
    ensures { result ≡ slice_index_or masks.now.special 177 all_bits }
{
    masks.special[number::EPC1 as usize]
}

/// Whether a turn that finds this reads EPC1, of which a bit is not known.
pub fn reads_lost(masks: &CoreMasks, seen: &Option<Seen>) -> bool
    ensures { result ≡ reads_lost masks.now seen.now }
{
    match seen {
        Some(found) => reads_epc1(found.insn) && epc1_mask(masks) != ALL_BITS,
        None => false,
    }
}

/// The place of a visible register in the ring.
pub fn place(base: u8, register: u8) -> usize
    ensures value { result ≡ place base register }
    ensures range { result < 64 }
{
    (4 * base as usize + register as usize) % 64
}

/// What the next turn finds, if there is an instruction at the program counter.
pub fn seen_at(regs: &Regs<WatchedFile>, masks: &CoreMasks, code: &Constants) -> Option<Seen>
    ensures seen { let s = file_state regs.now in result ≡ seen_of (fetch_at (constant_byte code.now) s.control.pc) (knowledge_of masks.now) s }
    ensures good { IsGoodSeen result }
{
    match instruction_at::<WatchedFile>(code, regs.pc) {
        Fetch::Insn(insn, _) => Some(masks.seen(regs, insn)),
        Fetch::Fails(_) => None,
        Fetch::Nothing => None,
    }
}

/// What a turn of this kind executes of what it finds.
pub fn executed_by(kind: StepKind, seen: Option<Seen>) -> Option<Seen>
    requires { IsGoodSeen seen }
    ensures value { result ≡ executed_in kind seen }
    ensures good { IsGoodSeen result }
{
    match kind {
        StepKind::Insn => seen,
        StepKind::Window(_)
        | StepKind::Exc(_)
        | StepKind::Interrupt(_)
        | StepKind::Wait
        | StepKind::Stop => None,
    }
}

/// The bit of INTERRUPT whose timer is armed by what a turn executes.
pub fn armed_in(executed: &Option<Seen>) -> u32
    ensures { result ≡ seen_arms executed.now }
{
    match executed {
        Some(seen) => armed_by(seen.insn),
        None => 0,
    }
}

/// What is known of a value that is stored by what a turn executes.
pub fn stored_in(executed: &Option<Seen>) -> u32
    ensures { result ≡ stored_of executed.now }
{
    match executed {
        Some(seen) => seen.y.mask,
        None => ALL_BITS,
    }
}

/// Whether a turn that finds this and executes that uses known bits alone. What is written to a
/// clock decides nothing.
pub fn is_known(made: &StepRecord, seen: &Option<Seen>, executed: &Option<Seen>, reply: u32) -> bool
    requires { executed.now ≡ executed_in made.now.kind seen.now }
    ensures { result ≡ turn_uses made.now.kind made.now.access (deciding made.now.kind seen.now) reply }
{
    if let Some(found) = executed {
        if writes_clock(found.insn) {
            return turn_uses(made.kind, made.access, &None, reply);
        }
    }
    turn_uses(made.kind, made.access, seen, reply)
}

// The same masks, but nothing is known of the register that is written.
fn hidden_in(masks: &CoreMasks, write: Option<RegWrite>, base: u8) -> CoreMasks
    ensures known { knowledge_of result ≡ with_hidden write base (knowledge_of masks.now) }
    ensures special { result.special ≡ masks.now.special }
{
    let mut masks = copy_of(masks);
    if let Some(written) = write {
        masks.regs[place(base, written.reg)] = 0;
    }
    masks
}

// Whether a turn of this kind puts the program counter into EPC1, if it begins with this PS.
fn enters(kind: StepKind, ps: Ps) -> bool
    ensures { result ≡ enters kind ps }
{
    match kind {
        StepKind::Window(_) => true,
        StepKind::Exc(_) => !ps.excm,
        StepKind::Interrupt(level) => level == 1 && !ps.excm,
        StepKind::Insn | StepKind::Wait | StepKind::Stop => false,
    }
}

/// Each bit of EPC1 is known after a turn that puts the program counter there.
pub fn enter(masks: &mut CoreMasks, kind: StepKind, ps: Ps)
    ensures { moment_known_of masks.new ≡ entered_known (enters kind ps) (moment_known_of masks.old) }
{
    if enters(kind, ps) {
        set_mask(masks, number::EPC1, ALL_BITS);
    }
}

/// What is known of a core after a turn that executes this, makes this write and ends in the window `base`.
pub fn learned(
    masks: &CoreMasks,
    executed: &Option<Seen>,
    write: Option<RegWrite>,
    base: u8,
    reply: u32,
) -> CoreMasks
    requires { IsGoodSeen executed.now }
    ensures { (s : State) → IsSeen masks.now s executed.now → reads_lost masks.now executed.now ≡ false
        → IsMomentKnown (moment_known_of masks.now)
        → moment_known_of result ≡ moment_known (insn_of executed.now) write base reply (moment_known_of masks.now) s }
{
    match executed {
        Some(seen) => {
            if reads_clock(seen.insn) {
                return hidden_in(masks, write, base);
            }
            let mut passed = copy_of(masks);
            let _hides = passed.pass(seen, write, base, reply);
            set_mask(&mut passed, number::EPC1, epc1_mask(masks));
            passed
        }
        None => copy_of(masks),
    }
}
