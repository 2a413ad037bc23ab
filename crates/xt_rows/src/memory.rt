ghost use Rattle.std.specs.Prelude.{◌≡◌, ℕ, ℤ};
ghost use Rattle.xt_isa.specs.declared.memory.Memory.TheVariants as memory;
ghost use Rattle.xt_map.specs.Memory.{constant_byte};
ghost use Rattle.xt_rows.specs.Numbers.{plus};
ghost use Rattle.xt_rows.specs.Outcomes.{memory_outcome};

use crate::effects::{loads, puts, stores, swaps};
use crate::numbers::{literal_address, plus};
use crate::outcome::{Effect, Outcome};
use xt_isa::memory::{ByteName, HalfName, Memory, WindowName, WordName};
use xt_map::Constants;

// The address of an access is given, and y is AR[t].
#[tactic(auto, unfolding(crate::specs::Outcomes::memory_outcome))]
#[inline(always)]
fn byte_access(code: &Constants, name: ByteName, t: u8, addr: u32, y: u32, e: Effect) -> Outcome
    ensures { (s pc x u : ℕ) (offset : ℤ) → addr ≡ plus x offset
        → result ≡
        memory_outcome (constant_byte code.now) (memory.Byte name t s offset) pc x y u e }
{
    match name {
        ByteName::L8ui => loads(code, 1, false, t, addr, e),
        ByteName::S8i => stores(1, y, addr, e),
    }
}

#[tactic(auto, unfolding(crate::specs::Outcomes::memory_outcome))]
#[inline(always)]
fn half_access(code: &Constants, name: HalfName, t: u8, addr: u32, y: u32, e: Effect) -> Outcome
    ensures { (s pc x u : ℕ) (offset : ℤ) → addr ≡ plus x offset
        → result ≡
        memory_outcome (constant_byte code.now) (memory.Half name t s offset) pc x y u e }
{
    match name {
        HalfName::L16ui => loads(code, 2, false, t, addr, e),
        HalfName::L16si => loads(code, 2, true, t, addr, e),
        HalfName::S16i => stores(2, y, addr, e),
    }
}

#[tactic(auto, unfolding(crate::specs::Outcomes::memory_outcome))]
#[inline(always)]
fn word_access(code: &Constants, name: WordName, t: u8, addr: u32, y: u32, e: Effect) -> Outcome
    ensures { (s pc x u : ℕ) (offset : ℤ) → addr ≡ plus x offset
        → result ≡
        memory_outcome (constant_byte code.now) (memory.Word name t s offset) pc x y u e }
{
    match name {
        WordName::L32i | WordName::L32ai => loads(code, 4, false, t, addr, e),
        WordName::S32i | WordName::S32ri => stores(4, y, addr, e),
    }
}

#[tactic(auto, unfolding(crate::specs::Outcomes::memory_outcome))]
#[inline(always)]
fn window_access(code: &Constants, name: WindowName, t: u8, addr: u32, y: u32, e: Effect) -> Outcome
    ensures { (s pc x u : ℕ) (offset : ℤ) → addr ≡ plus x offset
        → result ≡
        memory_outcome (constant_byte code.now) (memory.Window name t s offset) pc x y u e }
{
    match name {
        WindowName::L32e => loads(code, 4, false, t, addr, e),
        WindowName::S32e => stores(4, y, addr, e),
    }
}

/// What a load, a store or an instruction with an immediate at `pc` does, where AR[s], AR[t] and
/// SCOMPARE1 are these.
#[tactic(auto, unfolding(crate::specs::Outcomes::memory_outcome))]
#[inline(always)]
pub fn memory_outcome<U>(
    code: &Constants,
    i: Memory,
    pc: u32,
    x: u32,
    y: u32,
    u: u32,
    e: Effect,
) -> Outcome
    ensures { result ≡ memory_outcome (constant_byte code.now) i pc x y u e }
{
    match i {
        Memory::Byte(name, t, _, offset) => byte_access(code, name, t, plus(x, offset), y, e),
        Memory::Half(name, t, _, offset) => half_access(code, name, t, plus(x, offset), y, e),
        Memory::Word(name, t, _, offset) => word_access(code, name, t, plus(x, offset), y, e),
        Memory::S32c1i(t, _, offset) => swaps(u, y, t, plus(x, offset), e),
        Memory::Window(name, t, _, offset) => window_access(code, name, t, plus(x, offset), y, e),
        Memory::L32r(t, offset) => loads(code, 4, false, t, literal_address(pc, offset), e),
        Memory::Movi(t, n) => puts(t, plus(0, n), e),
        Memory::Addi(t, _, n) => puts(t, plus(x, n), e),
        Memory::Addmi(t, _, n) => puts(t, plus(x, n), e),
    }
}
