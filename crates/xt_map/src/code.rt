ghost use Rattle.std.specs.Prelude.{◌≡◌, ◌+◌, ◌<◌, ◌≤◌, ◌^◌, true};
ghost use Rattle.xt_map.specs.Memory.{constant_byte};
ghost use Rattle.xt_map.specs.Regions.{is_size};
ghost use Rattle.xt_map.specs.Code.{code_number};

use crate::{Constants, is_constant_at};

/// The byte of the constant regions at an address, 0 elsewhere.
#[tactic(auto, unfolding(crate::specs::Memory::constant_byte))]
#[inline(always)]
pub fn code_byte(code: &Constants, addr: u32) -> u8
    ensures { result ≡ constant_byte code.now addr }
{
    if is_constant_at(addr) {
        code.byte(addr)
    } else {
        0
    }
}

/// The bytes of the constant regions at an address and at the two after it, 0 elsewhere.
#[tactic(auto, unfolding(crate::specs::Regions::region_of))]
#[inline(always)]
pub fn code_three(code: &Constants, addr: u32) -> (u8, u8, u8)
    requires { addr + 4 < 2 ^ 32 }
    ensures { result ≡ (constant_byte code.now addr, constant_byte code.now (addr + 1), constant_byte code.now (addr + 2)) }
{
    match addr {
        0x40070000..=0x4009FFFD => code.three(addr),
        0x400D0000..=0x403FFFFD => code.three(addr),
        _ => (
            code_byte(code, addr),
            code_byte(code, addr + 1),
            code_byte(code, addr + 2),
        ),
    }
}

/// The little-endian number of 1, 2 or 4 bytes of the constant regions.
#[inline(never)]
pub fn code_number(code: &Constants, addr: u32, size: u8) -> u32
    requires size { is_size size ≡ true }
    requires place { addr + 4 ≤ 2 ^ 32 }
    ensures { result ≡ code_number (constant_byte code.now) addr size }
{
    match size {
        1 => code_byte(code, addr) as u32,
        2 => code_half(code, addr),
        _ => code_word(code, addr),
    }
}

// The number of two bytes.
#[inline(always)]
fn code_half(code: &Constants, addr: u32) -> u32
    requires { addr + 4 ≤ 2 ^ 32 }
    ensures { result ≡ code_number (constant_byte code.now) addr 2 }
{
    u16::from_le_bytes([code_byte(code, addr), code_byte(code, addr + 1)]) as u32
}

// The number of four bytes.
#[inline(always)]
fn code_word(code: &Constants, addr: u32) -> u32
    requires { addr + 4 ≤ 2 ^ 32 }
    ensures { result ≡ code_number (constant_byte code.now) addr 4 }
{
    u32::from_le_bytes([
        code_byte(code, addr),
        code_byte(code, addr + 1),
        code_byte(code, addr + 2),
        code_byte(code, addr + 3),
    ])
}
