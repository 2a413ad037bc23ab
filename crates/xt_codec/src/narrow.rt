//! The 16-bit words.
#![tactic(auto, unfolding(xt_isa::specs::Spelling::spelled_insn, xt_isa::specs::Spelling::all_rows))]

ghost use Rattle.std.specs.Prelude.{◌≡◌, ℕ, ◌+◌, ◌*◌, ◌%◌, ◌<◌};
ghost use Rattle.xt_isa.specs.Spelling.{spelled_insn};

use crate::immediate::{minus_one_or, narrow_constant, plain};
use xt_isa::Insn;
use xt_isa::density::{BareName, Density, NarrowName, NarrowZeroName};

/// The opcode map ST2: MOVI.N, BEQZ.N and BNEZ.N.
#[inline(always)]
pub fn constant(t: u8, s: u8, r: u8, op1: u8, op2: u8) -> Option<Insn>
    requires t { t < 16 }
    requires s { s < 16 }
    requires r { r < 16 }
    requires op1 { op1 < 16 }
    requires op2 { op2 < 16 }
    ensures { result ≡ spelled_insn (record { op0 = 12; t = t; s = s; r = r; op1 = op1; op2 = op2 }) }
{
    Some(Insn::Density(match t {
        0..=7 => Density::Movi(s, narrow_constant(r as u32 + 16 * (t as u32 % 8))),
        8..=11 => Density::BranchZero(
            NarrowZeroName::Beqz,
            s,
            plain(r as u32 + 16 * (t as u32 % 4)),
        ),
        _ => Density::BranchZero(
            NarrowZeroName::Bnez,
            s,
            plain(r as u32 + 16 * (t as u32 % 4)),
        ),
    }))
}

/// The opcode map ST3: MOV.N, and the words of S3.
#[inline(always)]
pub fn narrow_system(t: u8, s: u8, r: u8, op1: u8, op2: u8) -> Option<Insn>
    requires t { t < 16 }
    requires s { s < 16 }
    requires r { r < 16 }
    requires op1 { op1 < 16 }
    requires op2 { op2 < 16 }
    ensures { result ≡ spelled_insn (record { op0 = 13; t = t; s = s; r = r; op1 = op1; op2 = op2 }) }
{
    Some(Insn::Density(match (r, t, s) {
        (0, _, _) => Density::Mov(t, s),
        (15, 0, 0) => Density::Bare(BareName::Ret),
        (15, 1, 0) => Density::Bare(BareName::Retw),
        (15, 2, _) => Density::Break(plain(s as u32)),
        (15, 3, 0) => Density::Bare(BareName::Nop),
        (15, 6, 0) => Density::Bare(BareName::Ill),
        _ => return None,
    }))
}

/// L32I.N.
#[inline(always)]
pub fn load(t: u8, s: u8, r: u8, op1: u8, op2: u8) -> Option<Insn>
    requires t { t < 16 }
    requires s { s < 16 }
    requires r { r < 16 }
    requires op1 { op1 < 16 }
    requires op2 { op2 < 16 }
    ensures { result ≡ spelled_insn (record { op0 = 8; t = t; s = s; r = r; op1 = op1; op2 = op2 }) }
{
    Some(Insn::Density(Density::Word(NarrowName::L32i, t, s, plain(4 * r as u32))))
}

/// S32I.N.
#[inline(always)]
pub fn store(t: u8, s: u8, r: u8, op1: u8, op2: u8) -> Option<Insn>
    requires t { t < 16 }
    requires s { s < 16 }
    requires r { r < 16 }
    requires op1 { op1 < 16 }
    requires op2 { op2 < 16 }
    ensures { result ≡ spelled_insn (record { op0 = 9; t = t; s = s; r = r; op1 = op1; op2 = op2 }) }
{
    Some(Insn::Density(Density::Word(NarrowName::S32i, t, s, plain(4 * r as u32))))
}

/// ADD.N.
#[inline(always)]
pub fn add(t: u8, s: u8, r: u8, op1: u8, op2: u8) -> Option<Insn>
    requires t { t < 16 }
    requires s { s < 16 }
    requires r { r < 16 }
    requires op1 { op1 < 16 }
    requires op2 { op2 < 16 }
    ensures { result ≡ spelled_insn (record { op0 = 10; t = t; s = s; r = r; op1 = op1; op2 = op2 }) }
{
    Some(Insn::Density(Density::Add(r, s, t)))
}

/// ADDI.N.
#[inline(always)]
pub fn add_constant(t: u8, s: u8, r: u8, op1: u8, op2: u8) -> Option<Insn>
    requires t { t < 16 }
    requires s { s < 16 }
    requires r { r < 16 }
    requires op1 { op1 < 16 }
    requires op2 { op2 < 16 }
    ensures { result ≡ spelled_insn (record { op0 = 11; t = t; s = s; r = r; op1 = op1; op2 = op2 }) }
{
    Some(Insn::Density(Density::Addi(r, s, minus_one_or(t))))
}
