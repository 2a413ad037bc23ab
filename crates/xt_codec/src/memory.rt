//! Loads, stores, immediates and loads of literals.
#![tactic(auto, unfolding(xt_isa::specs::Spelling::spelled_insn, xt_isa::specs::Spelling::all_rows))]

ghost use Rattle.std.specs.Prelude.{◌≡◌, ℕ, ◌+◌, ◌*◌, ◌%◌, ◌<◌};
ghost use Rattle.xt_isa.specs.Spelling.{spelled_insn};

use crate::immediate::{below, imm16, join_two, plain, signed};
use xt_isa::Insn;
use xt_isa::memory::{ByteName, HalfName, Memory, WordName};

/// The opcode map LSAI, by r.
#[inline(always)]
pub fn load(t: u8, s: u8, r: u8, op1: u8, op2: u8) -> Option<Insn>
    requires t { t < 16 }
    requires s { s < 16 }
    requires r { r < 16 }
    requires op1 { op1 < 16 }
    requires op2 { op2 < 16 }
    ensures { result ≡ spelled_insn (record { op0 = 2; t = t; s = s; r = r; op1 = op1; op2 = op2 }) }
{
    let i = join_two(op1, op2) as u32;
    Some(Insn::Memory(match r {
        0 => Memory::Byte(ByteName::L8ui, t, s, plain(i)),
        1 => Memory::Half(HalfName::L16ui, t, s, plain(2 * i)),
        2 => Memory::Word(WordName::L32i, t, s, plain(4 * i)),
        4 => Memory::Byte(ByteName::S8i, t, s, plain(i)),
        5 => Memory::Half(HalfName::S16i, t, s, plain(2 * i)),
        6 => Memory::Word(WordName::S32i, t, s, plain(4 * i)),
        9 => Memory::Half(HalfName::L16si, t, s, plain(2 * i)),
        10 => Memory::Movi(t, signed(2048, i + 256 * s as u32)),
        11 => Memory::Word(WordName::L32ai, t, s, plain(4 * i)),
        12 => Memory::Addi(t, s, signed(128, i)),
        13 => Memory::Addmi(t, s, signed(32768, 256 * i)),
        14 => Memory::S32c1i(t, s, plain(4 * i)),
        15 => Memory::Word(WordName::S32ri, t, s, plain(4 * i)),
        _ => return None,
    }))
}

/// L32R.
#[inline(always)]
pub fn literal(t: u8, s: u8, r: u8, op1: u8, op2: u8) -> Option<Insn>
    requires t { t < 16 }
    requires s { s < 16 }
    requires r { r < 16 }
    requires op1 { op1 < 16 }
    requires op2 { op2 < 16 }
    ensures { result ≡ spelled_insn (record { op0 = 1; t = t; s = s; r = r; op1 = op1; op2 = op2 }) }
{
    Some(Insn::Memory(Memory::L32r(t, below(4 * imm16(s, r, op1, op2), 262144))))
}
