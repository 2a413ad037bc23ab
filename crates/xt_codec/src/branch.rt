//! Jumps, calls, branches and loops.
#![tactic(auto, unfolding(xt_isa::specs::Spelling::spelled_insn, xt_isa::specs::Spelling::all_rows))]

ghost use Rattle.std.specs.Prelude.{◌≡◌, ℕ, ◌+◌, ◌*◌, ◌%◌, ◌<◌};
ghost use Rattle.xt_isa.specs.Spelling.{spelled_insn};

use crate::immediate::{b4const, b4constu, imm12, imm18, join_five, join_two, plain, signed};
use xt_isa::Insn;
use xt_isa::boolean::{Boolean, TestName};
use xt_isa::control::{
    BitName, BranchName, CallName, ConstName, ConstuName, Control, LoopName, OppositeName, ZeroName,
};

/// The opcode map CALLN, by the low two bits of t.
#[inline(always)]
pub fn call(t: u8, s: u8, r: u8, op1: u8, op2: u8) -> Option<Insn>
    requires t { t < 16 }
    requires s { s < 16 }
    requires r { r < 16 }
    requires op1 { op1 < 16 }
    requires op2 { op2 < 16 }
    ensures { result ≡ spelled_insn (record { op0 = 5; t = t; s = s; r = r; op1 = op1; op2 = op2 }) }
{
    let offset = signed(524288, 4 * imm18(t, s, r, op1, op2));
    Some(Insn::Control(match t {
        0 | 4 | 8 | 12 => Control::Call(CallName::Call0, offset),
        1 | 5 | 9 | 13 => Control::Call(CallName::Call4, offset),
        2 | 6 | 10 | 14 => Control::Call(CallName::Call8, offset),
        _ => Control::Call(CallName::Call12, offset),
    }))
}

/// The opcode map SI, by t.
#[inline(always)]
pub fn si(t: u8, s: u8, r: u8, op1: u8, op2: u8) -> Option<Insn>
    requires t { t < 16 }
    requires s { s < 16 }
    requires r { r < 16 }
    requires op1 { op1 < 16 }
    requires op2 { op2 < 16 }
    ensures { result ≡ spelled_insn (record { op0 = 6; t = t; s = s; r = r; op1 = op1; op2 = op2 }) }
{
    let near = signed(128, join_two(op1, op2) as u32);
    let far = signed(2048, imm12(r, op1, op2));
    Some(Insn::Control(match t {
        0 | 4 | 8 | 12 => Control::J(signed(131072, imm18(t, s, r, op1, op2))),
        1 => Control::BranchZero(ZeroName::Beqz, s, far),
        5 => Control::BranchZero(ZeroName::Bnez, s, far),
        9 => Control::BranchZero(ZeroName::Bltz, s, far),
        13 => Control::BranchZero(ZeroName::Bgez, s, far),
        2 => Control::BranchConst(ConstName::Beqi, s, b4const(r), near),
        6 => Control::BranchConst(ConstName::Bnei, s, b4const(r), near),
        10 => Control::BranchConst(ConstName::Blti, s, b4const(r), near),
        14 => Control::BranchConst(ConstName::Bgei, s, b4const(r), near),
        3 => Control::Entry(s, plain(8 * imm12(r, op1, op2))),
        7 => match r {
            0 => return Some(Insn::Boolean(Boolean::Test(TestName::Bf, s, near))),
            1 => return Some(Insn::Boolean(Boolean::Test(TestName::Bt, s, near))),
            8 => Control::Loop(LoopName::Loop, s, plain(join_two(op1, op2) as u32)),
            9 => Control::Loop(LoopName::Loopnez, s, plain(join_two(op1, op2) as u32)),
            10 => Control::Loop(LoopName::Loopgtz, s, plain(join_two(op1, op2) as u32)),
            _ => return None,
        },
        11 => Control::BranchConstu(ConstuName::Bltui, s, b4constu(r), near),
        15 => Control::BranchConstu(ConstuName::Bgeui, s, b4constu(r), near),
        _ => return None,
    }))
}

/// The opcode map B, by r.
#[inline(always)]
pub fn branch(t: u8, s: u8, r: u8, op1: u8, op2: u8) -> Option<Insn>
    requires t { t < 16 }
    requires s { s < 16 }
    requires r { r < 16 }
    requires op1 { op1 < 16 }
    requires op2 { op2 < 16 }
    ensures { result ≡ spelled_insn (record { op0 = 7; t = t; s = s; r = r; op1 = op1; op2 = op2 }) }
{
    let near = signed(128, join_two(op1, op2) as u32);
    Some(Insn::Control(match r {
        0 => Control::Branch(BranchName::Bnone, s, t, near),
        1 => Control::Branch(BranchName::Beq, s, t, near),
        2 => Control::Branch(BranchName::Blt, s, t, near),
        3 => Control::Branch(BranchName::Bltu, s, t, near),
        4 => Control::Branch(BranchName::Ball, s, t, near),
        5 => Control::Branch(BranchName::Bbc, s, t, near),
        6 | 7 => Control::BranchBit(BitName::Bbci, s, plain(join_five(t, r) as u32), near),
        8 => Control::BranchNot(OppositeName::Bany, s, t, near),
        9 => Control::BranchNot(OppositeName::Bne, s, t, near),
        10 => Control::BranchNot(OppositeName::Bge, s, t, near),
        11 => Control::BranchNot(OppositeName::Bgeu, s, t, near),
        12 => Control::BranchNot(OppositeName::Bnall, s, t, near),
        13 => Control::BranchNot(OppositeName::Bbs, s, t, near),
        _ => Control::BranchBit(BitName::Bbsi, s, plain(join_five(t, r) as u32), near),
    }))
}
