ghost use Rattle.std.specs.Prelude.{◌≡◌, ◌+◌, ◌<◌, ◌^◌};
ghost use Rattle.xt_map.specs.Memory.{constant_byte};
ghost use Rattle.xt_map.specs.Fetching.{fetch_at};
ghost use Rattle.xt_codec.specs.Fetches.{IsFetched, IsGoodFetch, read_at};

use crate::{Decoded, decode};
use xt_isa::Insn;
use xt_map::{Constants, code_three, fetched_length, is_inside, unfetchable};

/// What the bytes at an address are.
#[derive(Clone, Copy)]
pub enum Fetch {
    /// An instruction, and its length in bytes.
    Insn(Insn, u8),
    /// This is the first byte that cannot be fetched.
    Fails(u32),
    /// No instruction.
    Nothing,
}

// What the bytes at an address spell.
#[inline(always)]
fn spelled_at<U>(code: &Constants, pc: u32) -> Fetch
    requires { pc + 4 < 2 ^ 32 }
    ensures fetched { IsFetched result (read_at (constant_byte code.now) pc) }
    ensures good { IsGoodFetch result }
{
    let (b0, b1, b2) = code_three(code, pc);
    match decode(b0, b1, b2) {
        Decoded::Good(insn, len) => Fetch::Insn(insn, len),
        Decoded::Illegal => Fetch::Nothing,
    }
}

/// The instruction at an address of the constant regions, or why there is none. `U` names the
/// user alone: each has a copy of its own, which can be inlined into its one caller.
#[tactic(auto, unfolding(xt_map::specs::Fetching::fetch_at))]
#[inline(always)]
pub fn instruction_at<U>(code: &Constants, pc: u32) -> Fetch
    ensures fetched { IsFetched result (fetch_at (constant_byte code.now) pc) }
    ensures good { IsGoodFetch result }
{
    let fault = if is_inside(pc) {
        None
    } else {
        unfetchable(pc, fetched_length(code, pc))
    };
    match fault {
        Some(addr) => Fetch::Fails(addr),
        None => spelled_at::<U>(code, pc),
    }
}
