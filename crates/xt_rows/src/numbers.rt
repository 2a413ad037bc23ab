ghost use Rattle.std.specs.Prelude.{◌≡◌, ◌<◌};
ghost use Rattle.xt_rows.specs.Numbers.{address_behind, branch_target, call_target, loaded_value, return_address, literal_address, minus, natural, plus};

use xt_word::sext;

/// A number of 32 bits and a signed one, added, modulo 2^32.
#[tactic(auto, unfolding(crate::specs::Numbers::plus))]
#[inline(always)]
pub fn plus(x: u32, n: i32) -> u32
    ensures { result ≡ plus x n }
{
    x.wrapping_add(n.cast_unsigned())
}

/// A number of 32 bits less another, modulo 2^32.
#[tactic(auto, unfolding(crate::specs::Numbers::minus))]
#[inline(always)]
pub fn minus(x: u32, n: u32) -> u32
    ensures { result ≡ minus x n }
{
    x.wrapping_sub(n)
}

/// The number that an operand is which is never negative; 0 for one that is.
#[tactic(auto, unfolding(crate::specs::Numbers::natural))]
#[inline(always)]
pub fn natural(n: i32) -> u32
    ensures { result ≡ natural n }
{
    if n < 0 { 0 } else { n.cast_unsigned() }
}

/// What a load puts into its register: the number read, whose low 16 bits are signed where the
/// instruction says so (L16SI).
#[tactic(auto, unfolding(crate::specs::Numbers::loaded_value))]
#[inline(always)]
pub fn loaded_value(signed: bool, n: u32) -> u32
    ensures { result ≡ loaded_value signed n }
{
    if signed { sext(n, 16) } else { n }
}

/// The address of the instruction after a call or at the beginning of a loop at `pc`.
#[inline(always)]
pub fn address_behind(pc: u32) -> u32
    ensures { result ≡ address_behind pc }
{
    pc.wrapping_add(3)
}

/// Where a jump, a branch or a loop at `pc` leads: its offset is counted from PC + 4.
#[inline(always)]
pub fn branch_target(pc: u32, offset: i32) -> u32
    ensures { result ≡ branch_target pc offset }
{
    plus(pc.wrapping_add(4), offset)
}

/// Where a call at `pc` leads: its offset is counted from PC, rounded down to a multiple of 4,
/// plus 4.
#[inline(always)]
pub fn call_target(pc: u32, offset: i32) -> u32
    ensures { result ≡ call_target pc offset }
{
    plus((pc / 4 * 4).wrapping_add(4), offset)
}

/// The address that an L32R at `pc` loads from: its offset is counted from PC + 3, rounded down to a
/// multiple of 4.
#[inline(always)]
pub fn literal_address(pc: u32, offset: i32) -> u32
    ensures { result ≡ literal_address pc offset }
{
    plus(pc.wrapping_add(3) / 4 * 4, offset)
}

/// The return address of a call at `pc` by 1, 2 or 3 windows: the size in the top two bits, and the
/// low 30 bits of PC + 3.
#[inline(always)]
pub fn return_address(size: u8, pc: u32) -> u32
    requires { size < 4 }
    ensures { result ≡ return_address size pc }
{
    size as u32 * 0x4000_0000 + pc.wrapping_add(3) % 0x4000_0000
}
