ghost use Rattle.std.specs.Prelude.{◌≡◌, ◌+◌, ◌*◌, ◌%◌, ◌^◌, ◌<◌, true};
ghost use Rattle.xt_map.specs.Memory.{constant_byte};
ghost use Rattle.xt_map.specs.Regions.{is_size};
ghost use Rattle.xt_rows.specs.Effects.{asks, branches, calls, exchanges_special, goes, loads, loops, moves, puts, reads_special, sets_special, stores, swaps, no_change, window_register, write_to, writes_special};

use crate::cause;
use crate::numbers::{address_behind, branch_target, loaded_value, minus, return_address};
use crate::outcome::{Effect, Flow, Outcome, ReplyTarget, WindowRegister, WindowStep};
use xt_map::{Access, Constants, Kind, code_number, is_constant_at, mapped};
use xt_special::{Ps, number, set_to};
use xt_trace::RegWrite;

/// The effect of an instruction that changes nothing and goes on to the next one.
#[inline(always)]
pub fn no_change(ps: Ps, threadptr: u32) -> Effect
    ensures { result ≡ no_change ps threadptr }
{
    Effect {
        write: None,
        sets: (None, None, None),
        ps,
        threadptr,
        flow: Flow::Falls,
        waits: false,
    }
}

#[inline(always)]
pub fn write_to(number: u8, value: u32) -> Option<RegWrite>
    ensures { result ≡ write_to number value }
{
    Some(RegWrite { reg: number, value })
}

/// A register receives a value.
#[inline(always)]
pub fn puts(number: u8, value: u32, e: Effect) -> Outcome
    ensures { result ≡ puts number value e }
{
    Outcome::Does(Effect {
        write: write_to(number, value),
        ..e
    })
}

/// A register receives a value where the condition holds.
#[inline(always)]
pub fn moves(condition: bool, number: u8, value: u32, e: Effect) -> Outcome
    ensures { result ≡ moves condition number value e }
{
    if condition {
        puts(number, value, e)
    } else {
        Outcome::Does(e)
    }
}

/// A jump.
#[inline(always)]
pub fn goes(target: u32, e: Effect) -> Outcome
    ensures { result ≡ goes target e }
{
    Outcome::Does(Effect {
        flow: Flow::Goes(target),
        ..e
    })
}

/// A branch, which is taken where the condition holds.
#[inline(always)]
pub fn branches(condition: bool, pc: u32, offset: i32, e: Effect) -> Outcome
    ensures { result ≡ branches condition pc offset e }
{
    if condition {
        goes(branch_target(pc, offset), e)
    } else {
        Outcome::Does(e)
    }
}

/// A call by so many windows, 0 to 3.
#[inline(always)]
pub fn calls(size: u8, target: u32, pc: u32, e: Effect) -> Outcome
    requires { size < 4 }
    ensures { result ≡ calls size target pc e }
{
    if size == 0 {
        return Outcome::Does(Effect {
            write: write_to(0, address_behind(pc)),
            flow: Flow::Goes(target),
            ..e
        });
    }
    Outcome::Does(Effect {
        write: write_to(4 * size, return_address(size, pc)),
        ps: Ps {
            callinc: size,
            ..e.ps
        },
        flow: Flow::Goes(target),
        ..e
    })
}

/// A loop of so many passes, whose body is passed over where `passes` says so.
#[inline(always)]
pub fn loops(passes: bool, count: u32, pc: u32, offset: i32, e: Effect) -> Outcome
    ensures { result ≡ loops passes count pc offset e }
{
    let end = branch_target(pc, offset);
    let sets = (
        set_to(number::LCOUNT, minus(count, 1)),
        set_to(number::LBEG, address_behind(pc)),
        set_to(number::LEND, end),
    );
    if passes {
        Outcome::Does(Effect {
            sets,
            flow: Flow::Goes(end),
            ..e
        })
    } else {
        Outcome::Does(Effect {
            sets,
            flow: Flow::Falls,
            ..e
        })
    }
}

// An access, which is made where the bus serves it.
#[inline(always)]
fn asks(access: Access, awaited: Option<ReplyTarget>, e: Effect) -> Outcome
    ensures { result ≡ asks access awaited e }
{
    if mapped(&access) {
        Outcome::Asks(access, awaited, e)
    } else {
        Outcome::Raises(cause::ACCESS_ERROR, Some(access.addr))
    }
}

/// A load of 1, 2 or 4 bytes into a register; of constant regions it is answered at once.
#[inline(always)]
pub fn loads(code: &Constants, size: u8, signed: bool, number: u8, addr: u32, e: Effect) -> Outcome
    requires { is_size size ≡ true }
    ensures { result ≡ loads (constant_byte code.now) size signed number addr e }
{
    if addr % size as u32 != 0 {
        return Outcome::Raises(cause::MISALIGNED, Some(addr));
    }
    if is_constant_at(addr) {
        return puts(
            number,
            loaded_value(signed, code_number(code, addr, size)),
            e,
        );
    }
    let access = Access {
        addr,
        size,
        kind: Kind::Load,
    };
    asks(access, Some(ReplyTarget { number, signed }), e)
}

// The low bytes of a value.
#[inline(always)]
fn low_bytes(size: u8, value: u32) -> u32
    requires { is_size size ≡ true }
    ensures { result ≡ value % 2 ^ (8 * size) }
{
    match size {
        1 => value % 0x100,
        2 => value % 0x1_0000,
        _ => value,
    }
}

/// A store of the low 1, 2 or 4 bytes of a value.
#[inline(always)]
pub fn stores(size: u8, value: u32, addr: u32, e: Effect) -> Outcome
    requires { is_size size ≡ true }
    ensures { result ≡ stores size value addr e }
{
    if addr % size as u32 != 0 {
        return Outcome::Raises(cause::MISALIGNED, Some(addr));
    }
    let access = Access {
        addr,
        size,
        kind: Kind::Store(low_bytes(size, value)),
    };
    asks(access, None, e)
}

/// A compare-and-swap of a word, which a register receives as it was.
#[inline(always)]
pub fn swaps(expected: u32, new: u32, number: u8, addr: u32, e: Effect) -> Outcome
    ensures { result ≡ swaps expected new number addr e }
{
    if addr % 4 != 0 {
        return Outcome::Raises(cause::MISALIGNED, Some(addr));
    }
    let access = Access {
        addr,
        size: 4,
        kind: Kind::Cas(expected, new),
    };
    asks(
        access,
        Some(ReplyTarget {
            number,
            signed: false,
        }),
        e,
    )
}

/// A special register receives a value that it can hold.
#[inline(always)]
pub fn sets_special(number: u8, value: u32, e: Effect) -> Outcome
    ensures { result ≡ sets_special number value e }
{
    Outcome::Does(Effect {
        sets: (set_to(number, value), None, None),
        ..e
    })
}

/// The register that is kept with the windows, if this number is one's.
#[inline(always)]
pub fn window_register(n: u8) -> Option<WindowRegister>
    ensures { result ≡ window_register n }
{
    match n {
        number::WINDOWBASE => Some(WindowRegister::Base),
        number::WINDOWSTART => Some(WindowRegister::Start),
        _ => None,
    }
}
