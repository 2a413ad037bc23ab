//! A vector's answer, and the six.
#![tactic(auto)]

ghost use Rattle.std.specs.Prelude.{◌≡◌, ◌≤◌, ◌<◌, ◌+◌, ◌*◌, ◌%◌, ◌^◌, ℕ, slice_index};
ghost use Rattle.xt_map.specs.Memory.{constant_byte};
ghost use Rattle.xt_handlers.specs.Symbols.{Effect};
ghost use Rattle.xt_handlers.specs.Handling.{ending_verdict, handling_verdict};
ghost use Rattle.xt_handlers.specs.Spelled.{lines_of};
ghost use Rattle.xt_handlers.specs.CheckAnswers.{handlers_of};
ghost use Rattle.xt_handlers.specs.Flat.{Tracks};
ghost use Rattle.xt_handlers.specs.Vectors.{vector_at, vector_bytes, verdict_of};

use crate::spelled::step_of;
use crate::{Evaluation, HandlerInsn, HandlerVerdict, Handlers, Side};
use xt_map::{Constants, can_execute_at, code_byte, length_of};

/// A byte of the vector at an address, or 0 beyond it.
fn byte_at(code: &Constants, at: u32, i: usize) -> u8
    requires { at + 64 ≤ 2 ^ 32 }
    ensures { result ≡ slice_index (vector_bytes (constant_byte code.now) at) i }
{
    if i < 64 {
        code_byte(code, at + i as u32)
    } else {
        0
    }
}

/// The answer at a vector's ending.
fn ending(evaluation: &Evaluation, side: Side, n: u8, offset: u8) -> HandlerVerdict
    requires low { 0 < n }
    requires high { n < 4 }
    ensures { (e : Effect) → Tracks side n evaluation.now e → result ≡ ending_verdict side n e offset }
{
    if evaluation.has_effect(side, n) {
        HandlerVerdict::Yes
    } else {
        HandlerVerdict::No(offset)
    }
}

/// Whether the 64 bytes from an address on handle the exception.
fn check_bytes(code: &Constants, at: u32, side: Side, n: u8) -> HandlerVerdict
    requires low { 0 < n }
    requires high { n < 4 }
    requires room { at + 64 ≤ 2 ^ 32 }
    ensures { result ≡ handling_verdict side n (lines_of (vector_bytes (constant_byte code.now) at)) }
{
    let mut evaluation = Evaluation::start(side, n);
    let mut offset = 0;
    while offset < 64 {
        let first = byte_at(code, at, offset);
        let len = length_of(first) as usize;
        if offset + len > 64 {
            return HandlerVerdict::No(64);
        }
        let second = byte_at(code, at, offset + 1);
        let third = byte_at(code, at, offset + 2);
        match step_of(first, second, third) {
            HandlerInsn::L32e(target, base, back) => evaluation.load(side, n, target, base, back),
            HandlerInsn::S32e(source, base, back) => evaluation.store(side, n, source, base, back),
            HandlerInsn::Nop => {}
            HandlerInsn::Rfwo => {
                return match side {
                    Side::Overflow => ending(&evaluation, side, n, offset as u8),
                    Side::Underflow => HandlerVerdict::No(offset as u8),
                };
            }
            HandlerInsn::Rfwu => {
                return match side {
                    Side::Overflow => HandlerVerdict::No(offset as u8),
                    Side::Underflow => ending(&evaluation, side, n, offset as u8),
                };
            }
            HandlerInsn::Foreign => return HandlerVerdict::No(offset as u8),
        }
        offset += len;
    }
    HandlerVerdict::No(64)
}

/// Whether the vector at an address handles its exception; 0 where it lies in no executable region.
fn check_vector(code: &Constants, vecbase: u32, side: Side, n: u8) -> HandlerVerdict
    requires low { 0 < n }
    requires high { n < 4 }
    requires aligned { vecbase % 2 ^ 10 ≡ 0 }
    ensures { result ≡ verdict_of (constant_byte code.now) vecbase side n }
{
    let at = vector_at(vecbase, side, n);
    if !can_execute_at(at) {
        return HandlerVerdict::No(0);
    }
    check_bytes(code, at, side, n)
}

/// The address of a vector.
fn vector_at(vecbase: u32, side: Side, n: u8) -> u32
    requires low { 0 < n }
    requires high { n < 4 }
    requires aligned { vecbase % 2 ^ 10 ≡ 0 }
    ensures is { result ≡ vector_at vecbase side n }
    ensures room { result + 64 ≤ 2 ^ 32 }
{
    let number = match side {
        Side::Overflow => 2 * (n - 1),
        Side::Underflow => 2 * (n - 1) + 1,
    };
    vecbase + 0x40 * number as u32
}

/// Whether the six vectors of window exceptions from `vecbase` on handle their exceptions.
///
/// A vector handles where its bytes, within 64 bytes, are L32E, S32E, NOP and NOP.N and then RFWO (of an overflow) or RFWU
/// (of an underflow), it saves or restores exactly one frame of its size, leaves all other registers as they were, and loads
/// no word but those that this needs. `No` carries 0 where the vector lies in no executable region, else the offset of the
/// first instruction that is none of these, 64 where no ending comes, or the offset of the ending.
///
/// Condition: `vecbase` is a multiple of 1024.
#[tactic(auto, unfolding(crate::specs::CheckAnswers::handlers_of))]
pub fn check(code: &Constants, vecbase: u32) -> Handlers
    requires aligned { vecbase % 2 ^ 10 ≡ 0 }
    ensures { result ≡ handlers_of (constant_byte code.now) vecbase }
{
    Handlers {
        of4: check_vector(code, vecbase, Side::Overflow, 1),
        uf4: check_vector(code, vecbase, Side::Underflow, 1),
        of8: check_vector(code, vecbase, Side::Overflow, 2),
        uf8: check_vector(code, vecbase, Side::Underflow, 2),
        of12: check_vector(code, vecbase, Side::Overflow, 3),
        uf12: check_vector(code, vecbase, Side::Underflow, 3),
    }
}
