//! Where a call through a register goes that an L32R has loaded.
#![tactic(auto)]

ghost use Rattle.std.specs.Prelude.{◌≡◌};
ghost use Rattle.xt_flow.specs.Following.{aims_at, called_word, fate_at, fate_of, fate_within, first_register, is_called, word_at};

use crate::code::{code_from, ends_flow, target_of};
use crate::listing::word_of;
use xt_disasm::{front, literal_address};
use xt_map::Segment;
use xt_names::{One, Parts, parts_of};

/// How many instructions are looked at.
const MOST: u32 = 64;

/// What becomes of a register at an instruction.
#[derive(Clone, Copy)]
pub enum Fate {
    /// Control goes to the address that it holds.
    Goes,
    /// The block ends, or the instruction may write the register.
    Ends,
    /// It stays, and control goes on at this address.
    Stays(u32),
}

/// The register that stands first among the operands: where an instruction writes one, it is this.
fn first_register(parts: Parts) -> Option<u8>
    ensures { result ≡ first_register parts }
{
    match parts {
        Parts::One(_, r) => Some(r),
        Parts::Two(_, (r, _)) => Some(r),
        Parts::Three(_, (r, _, _)) => Some(r),
        Parts::OneAndNumber(_, (r, _)) => Some(r),
        Parts::TwoAndNumber(_, (r, _, _)) => Some(r),
        Parts::Extui((r, _, _, _)) => Some(r),
        Parts::OneAndSpecial(_, (r, _)) => Some(r),
        Parts::Literal((r, _)) => Some(r),
        _ => None,
    }
}

/// What becomes of a register at an instruction of these parts that goes through none.
fn fate_within(parts: Parts, register: u8, at: u32, next: u32) -> Fate
    ensures { result ≡ fate_within parts register at next }
{
    if ends_flow(parts) || target_of(parts, at).is_some() {
        return Fate::Ends;
    }
    if first_register(parts) == Some(register) {
        return Fate::Ends;
    }
    Fate::Stays(next)
}

/// What becomes of a register at an instruction of these parts, which stands at an address.
fn fate_of(parts: Parts, register: u8, at: u32, next: u32) -> Fate
    ensures { result ≡ fate_of parts register at next }
{
    match parts {
        Parts::One(One::Jx | One::Callx(_), s) => {
            if s == register {
                Fate::Goes
            } else {
                Fate::Ends
            }
        }
        _ => fate_within(parts, register, at, next),
    }
}

/// The same of the instruction at an address; where there is none, the block ends.
fn fate_at(segments: &[Segment], register: u8, at: u32) -> Fate
    ensures { result ≡ fate_at segments.now register at }
{
    match front(code_from(segments, at)) {
        Some((insn, len)) => fate_of(parts_of(insn), register, at, at.wrapping_add(len as u32)),
        None => Fate::Ends,
    }
}

/// Whether one of the next 64 instructions of the block from an address on calls or jumps through a register, and none
/// before it may write the register.
fn is_called(segments: &[Segment], register: u8, at: u32) -> bool
    ensures { result ≡ is_called 64 segments.now register at }
{
    let mut here = at;
    for _ in 0..MOST {
        match fate_at(segments, register, here) {
            Fate::Goes => return true,
            Fate::Ends => return false,
            Fate::Stays(next) => here = next,
        }
    }
    false
}

/// The word of code at an address, where four bytes lie there in one segment.
#[tactic(auto, unfolding(crate::specs::Following::word_at))]
fn word_at(segments: &[Segment], at: u32) -> Option<u32>
    ensures { result ≡ word_at segments.now at }
{
    let bytes = code_from(segments, at);
    if bytes.len() < 4 {
        return None;
    }
    Some(word_of(&bytes[..4]))
}

/// The word that an L32R reads, if it lies in code and a call through the register follows in the block.
fn called_word(segments: &[Segment], register: u8, word: u32, next: u32) -> Option<u32>
    ensures { result ≡ called_word segments.now register word next }
{
    if is_called(segments, register, next) {
        return word_at(segments, word);
    }
    None
}

/// The target of an instruction of these parts at an address; of an L32R what a call through its register reaches.
#[tactic(auto, unfolding(crate::specs::Following::aims_at))]
pub fn aims_at(segments: &[Segment], parts: Parts, at: u32, next: u32) -> Option<u32>
    ensures { result ≡ aims_at segments.now parts at next }
{
    match parts {
        Parts::Literal((register, d)) => {
            called_word(segments, register, literal_address(at, d), next)
        }
        _ => target_of(parts, at),
    }
}
