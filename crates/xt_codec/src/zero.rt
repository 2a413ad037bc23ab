//! The words whose minor operation codes are 0.
#![tactic(auto, unfolding(xt_isa::specs::Spelling::spelled_insn, xt_isa::specs::Spelling::all_rows))]

ghost use Rattle.std.specs.Prelude.{◌≡◌, ℕ, ◌+◌, ◌*◌, ◌%◌, ◌<◌, ◌==◌, Some, None};
ghost use Rattle.std.specs.Prelude.{if◌then◌else◌};
ghost use Rattle.xt_isa.specs.Spelling.{spelled_insn};
ghost use Rattle.xt_isa.specs.declared.Insn.TheVariants as insn;

use crate::immediate::{join_five, plain, signed};
use xt_isa::Insn;
use xt_isa::boolean::{Boolean, EightName, FourName};
use xt_isa::control::{CallxName, Control, ReturnName};
use xt_isa::shift::{AmountName, ByteAmountName, NormalizeName, Shift, SignName};
use xt_isa::system::{ExceptionReturnName, LevelName, SyncName, System, TrapName, WaitName};

/// The opcode map SNM0, with the words of JR and CALLX.
#[inline(always)]
fn snm0(t: u8, s: u8) -> Option<Insn>
    requires t { t < 16 }
    requires s { s < 16 }
    ensures { result ≡ spelled_insn (record { op0 = 0; t = t; s = s; r = 0; op1 = 0; op2 = 0 }) }
{
    Some(Insn::Control(match (t, s) {
        (0, 0) => return Some(Insn::System(System::Sync(SyncName::Ill))),
        (8, 0) => Control::Return(ReturnName::Ret),
        (9, 0) => Control::Return(ReturnName::Retw),
        (10, _) => Control::Jx(s),
        (12, _) => Control::Callx(CallxName::Callx0, s),
        (13, _) => Control::Callx(CallxName::Callx4, s),
        (14, _) => Control::Callx(CallxName::Callx8, s),
        (15, _) => Control::Callx(CallxName::Callx12, s),
        _ => return None,
    }))
}

/// The opcode map SYNC, by t.
#[inline(always)]
fn sync(t: u8, s: u8) -> Option<Insn>
    requires t { t < 16 }
    requires s { s < 16 }
    ensures { result ≡ spelled_insn (record { op0 = 0; t = t; s = s; r = 2; op1 = 0; op2 = 0 }) }
{
    if s != 0 {
        return None;
    }
    Some(Insn::System(match t {
        0 => System::Sync(SyncName::Isync),
        1 => System::Sync(SyncName::Rsync),
        2 => System::Sync(SyncName::Esync),
        3 => System::Sync(SyncName::Dsync),
        8 => System::Wait(WaitName::Excw),
        12 => System::Wait(WaitName::Memw),
        13 => System::Wait(WaitName::Extw),
        15 => System::Wait(WaitName::Nop),
        _ => return None,
    }))
}

/// The opcode map RFEI, by t and s.
#[inline(always)]
fn rfei(t: u8, s: u8) -> Option<Insn>
    requires t { t < 16 }
    requires s { s < 16 }
    ensures { result ≡ spelled_insn (record { op0 = 0; t = t; s = s; r = 3; op1 = 0; op2 = 0 }) }
{
    Some(Insn::System(match (t, s) {
        (0, 0) => System::ExceptionReturn(ExceptionReturnName::Rfe),
        (0, 2) => System::ExceptionReturn(ExceptionReturnName::Rfde),
        (0, 4) => System::ExceptionReturn(ExceptionReturnName::Rfwo),
        (0, 5) => System::ExceptionReturn(ExceptionReturnName::Rfwu),
        (1, 2..=7) => System::Rfi(plain(s as u32)),
        _ => return None,
    }))
}

/// An instruction of `count` Boolean registers from s on, where s is a multiple of their number.
#[tactic(auto)]
#[inline(always)]
fn group(count: u8, s: u8, i: Boolean) -> Option<Insn>
    requires { 0 < count }
    ensures { result ≡ if s % count == 0 then Some (insn.Boolean i) else None }
{
    if s % count == 0 {
        Some(Insn::Boolean(i))
    } else {
        None
    }
}

/// The opcode map ST0, by r.
#[inline(never)]
pub fn st0(t: u8, s: u8, r: u8) -> Option<Insn>
    requires t { t < 16 }
    requires s { s < 16 }
    requires r { r < 16 }
    ensures { result ≡ spelled_insn (record { op0 = 0; t = t; s = s; r = r; op1 = 0; op2 = 0 }) }
{
    match r {
        0 => snm0(t, s),
        1 => Some(Insn::Shift(Shift::Movsp(t, s))),
        2 => sync(t, s),
        3 => rfei(t, s),
        4 => Some(Insn::System(System::Trap(TrapName::Break, plain(s as u32), plain(t as u32)))),
        5 => {
            if t == 0 && s == 0 {
                Some(Insn::System(System::Trap(TrapName::Syscall, 0, 0)))
            } else {
                None
            }
        }
        6 => Some(Insn::System(System::Level(LevelName::Rsil, t, plain(s as u32)))),
        7 => {
            if t == 0 {
                Some(Insn::System(System::Level(LevelName::Waiti, 0, plain(s as u32))))
            } else {
                None
            }
        }
        8 => group(4, s, Boolean::Four(FourName::Any4, t, s)),
        9 => group(4, s, Boolean::Four(FourName::All4, t, s)),
        10 => group(8, s, Boolean::Eight(EightName::Any8, t, s)),
        11 => group(8, s, Boolean::Eight(EightName::All8, t, s)),
        _ => None,
    }
}

/// The opcode map ST1, by r.
#[inline(always)]
pub fn st1(t: u8, s: u8, r: u8) -> Option<Insn>
    requires t { t < 16 }
    requires s { s < 16 }
    requires r { r < 16 }
    ensures { result ≡ spelled_insn (record { op0 = 0; t = t; s = s; r = r; op1 = 0; op2 = 4 }) }
{
    Some(Insn::Shift(match (r, t) {
        (0, 0) => Shift::Amount(AmountName::Ssr, s),
        (1, 0) => Shift::Amount(AmountName::Ssl, s),
        (2, 0) => Shift::ByteAmount(ByteAmountName::Ssa8l, s),
        (3, 0) => Shift::ByteAmount(ByteAmountName::Ssa8b, s),
        (4, 0 | 1) => Shift::Ssai(plain(join_five(s, t) as u32)),
        (8, _) if s == 0 => return Some(Insn::System(System::Rotw(signed(8, t as u32)))),
        (14, _) => Shift::Normalize(NormalizeName::Nsa, t, s),
        (15, _) => Shift::Normalize(NormalizeName::Nsau, t, s),
        _ => return None,
    }))
}

/// The opcode map RT0, by s.
#[inline(always)]
pub fn rt0(t: u8, s: u8, r: u8) -> Option<Insn>
    requires t { t < 16 }
    requires s { s < 16 }
    requires r { r < 16 }
    ensures { result ≡ spelled_insn (record { op0 = 0; t = t; s = s; r = r; op1 = 0; op2 = 6 }) }
{
    Some(Insn::Shift(match s {
        0 => Shift::Sign(SignName::Neg, r, t),
        1 => Shift::Sign(SignName::Abs, r, t),
        _ => return None,
    }))
}
