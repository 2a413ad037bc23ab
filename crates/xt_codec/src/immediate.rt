//! Numbers that are spread over the fields of a word.
#![tactic(auto)]

ghost use Rattle.std.specs.Prelude.{◌≡◌, ℕ, pos, ◌+◌, ◌*◌, ◌/◌, ◌%◌, ◌<◌, ◌≤◌, ◌+ℤ◌, ◌^◌};
ghost use Rattle.xt_isa.specs.Spelling.{five, signed, below, b4const, b4constu, minus_one_or, narrow_constant};

/// Five bits: four of one field and the low bit of another.
#[inline(always)]
pub fn join_five(low: u8, high: u8) -> u8
    requires { low < 16 }
    ensures { result ≡ five low high }
{
    low + 16 * (high % 2)
}

/// Two nibbles as a byte, the low one first.
#[inline(always)]
pub fn join_two(low: u8, high: u8) -> u8
    requires low { low < 16 }
    requires high { high < 16 }
    ensures { result ≡ low + 16 * high }
{
    low + 16 * high
}

/// Bits 23..12 of a word.
#[inline(always)]
pub fn imm12(r: u8, op1: u8, op2: u8) -> u32
    ensures { result ≡ r + 16 * (op1 + 16 * op2) }
{
    r as u32 + 16 * (op1 as u32 + 16 * op2 as u32)
}

/// Bits 23..8 of a word.
#[inline(always)]
pub fn imm16(s: u8, r: u8, op1: u8, op2: u8) -> u32
    ensures { result ≡ s + 16 * (r + 16 * (op1 + 16 * op2)) }
{
    s as u32 + 16 * imm12(r, op1, op2)
}

/// Bits 23..6 of a word.
#[inline(always)]
pub fn imm18(t: u8, s: u8, r: u8, op1: u8, op2: u8) -> u32
    ensures { result ≡ t / 4 + 4 * (s + 16 * (r + 16 * (op1 + 16 * op2))) }
{
    t as u32 / 4 + 4 * imm16(s, r, op1, op2)
}

/// A natural number as an immediate.
#[inline(always)]
pub fn plain(n: u32) -> i32
    requires { n < 2 ^ 31 }
    ensures { result ≡ pos n }
{
    n as i32
}

/// The two's complement number of `n`, below twice `half`.
#[tactic(auto, unfolding(xt_isa::specs::Spelling::signed))]
#[inline(always)]
pub fn signed(half: u32, n: u32) -> i32
    requires half { half < 2 ^ 30 }
    requires n { n < 2 * half }
    ensures { result ≡ signed half n }
{
    if n < half {
        n as i32
    } else {
        n as i32 - (2 * half) as i32
    }
}

/// The number `n` less `k`.
#[inline(always)]
pub fn below(n: u32, k: u32) -> i32
    requires n { n < 2 ^ 31 }
    requires k { k < 2 ^ 31 }
    ensures { result ≡ below n k }
{
    n as i32 - k as i32
}

/// The number of ADDI.N, where 0 stands for -1.
#[tactic(auto, unfolding(xt_isa::specs::Spelling::minus_one_or))]
#[inline(always)]
pub fn minus_one_or(t: u8) -> i32
    ensures { result ≡ minus_one_or t }
{
    if t == 0 { -1 } else { t as i32 }
}

/// The number of MOVI.N, where 96 to 127 stand for -32 to -1.
#[tactic(auto, unfolding(xt_isa::specs::Spelling::narrow_constant))]
#[inline(always)]
pub fn narrow_constant(n: u32) -> i32
    requires { n < 128 }
    ensures { result ≡ narrow_constant n }
{
    if n < 96 { n as i32 } else { n as i32 - 128 }
}

/// The signed branch constants, by the field r.
#[tactic(auto, unfolding(xt_isa::specs::Spelling::b4const))]
#[inline(always)]
pub fn b4const(r: u8) -> i32
    requires { r < 16 }
    ensures { result ≡ b4const r }
{
    match r {
        0 => -1,
        1 => 1,
        2 => 2,
        3 => 3,
        4 => 4,
        5 => 5,
        6 => 6,
        7 => 7,
        8 => 8,
        9 => 10,
        10 => 12,
        11 => 16,
        12 => 32,
        13 => 64,
        14 => 128,
        _ => 256,
    }
}

/// The unsigned branch constants, by the field r.
#[tactic(auto, unfolding(xt_isa::specs::Spelling::b4constu))]
#[inline(always)]
pub fn b4constu(r: u8) -> i32
    requires { r < 16 }
    ensures { result ≡ b4constu r }
{
    match r {
        0 => 32768,
        1 => 65536,
        2 => 2,
        3 => 3,
        4 => 4,
        5 => 5,
        6 => 6,
        7 => 7,
        8 => 8,
        9 => 10,
        10 => 12,
        11 => 16,
        12 => 32,
        13 => 64,
        14 => 128,
        _ => 256,
    }
}
