//! The bytes that are stale.
ghost use Rattle.std.specs.Prelude.{◌≡◌, ◌+◌, ◌≤◌, ◌<◌, ◌^◌, ◌||◌, ◌&&◌, ◌==◌, ℕ, true, IfOk, OnOk, length};
ghost use Rattle.xt_map.specs.Touching.{touches};
ghost use Rattle.xt_judged.specs.Past.{is_spared};
ghost use Rattle.xt_judged.specs.Stales.{among, some_stored, some_touched};

use crate::bytes::{is_spared, stores_at};
use crate::live::touches;
use std::alloc::{AllocError, Global};
use std::marker::Model;
use xt_discipline::Areas;
use xt_map::Access;

/// The stale bytes, in rising order. Contracts see the list of them.
#[derive(Drop)]
pub struct Stale {
    bytes: Vec<u32>,
}

impl Model for Stale {
    ghost use Rattle.std.specs.Prelude.{ℕ, List};

    ghost Value = { List ℕ };

    ghost view = { λ s. s.bytes.items };
}

// How many bytes come before this one, up to the first that does not.
fn place_of(bytes: &[u32], addr: u32) -> usize
    ensures { result ≤ length bytes.now }
{
    let mut place = 0;
    for byte in bytes {
        if *byte >= addr {
            return place;
        }
        place += 1;
    }
    place
}

// Whether a byte is one of these.
fn is_among(bytes: &[u32], addr: u64) -> bool
    ensures { result ≡ among bytes.now addr }
{
    for byte in bytes {
        if u64::from(*byte) == addr {
            return true;
        }
    }
    false
}

// Puts a byte among these. The only error is running out of memory.
fn put(bytes: &mut Vec<u32>, addr: u32) -> Result<(), AllocError>
    ensures { OnOk result ((a : ℕ) → among bytes.new.items a ≡ (addr == a || among bytes.old.items a)) }
{
    if is_among(bytes.as_slice(), u64::from(addr)) {
        return Ok(());
    }
    let place = place_of(bytes.as_slice(), addr);
    bytes.insert(place, addr)?;
    Ok(())
}

// Puts so many bytes, from an address on, among these. The only error is running out of memory.
fn put_run(bytes: &mut Vec<u32>, from: u32, size: u32) -> Result<(), AllocError>
    requires { 0 < size → from + size ≤ 2 ^ 32 }
    ensures { OnOk result ((a : ℕ) → among bytes.new.items a ≡ (among bytes.old.items a || touches from size a)) }
{
    let place = place_of(bytes.as_slice(), from);
    for k in 0..size {
        bytes.insert(place + k as usize, from + k)?;
    }
    Ok(())
}

// Those of these bytes that no store writes and that lie in no area of a call. The only error is running
// out of memory.
fn spared(
    alloc: Global,
    bytes: &[u32],
    access: Option<Access>,
    call: Option<Areas>,
) -> Result<Vec<u32>, AllocError>
    ensures { IfOk result (λ v. (a : ℕ) → among v.items a ≡ (among bytes.now a && is_spared access call a)) }
{
    let mut rest = Vec::new(alloc);
    for byte in bytes {
        if is_spared(access, call, *byte) {
            rest.push(*byte)?;
        }
    }
    Ok(rest)
}

// Whether a store writes one of these bytes.
fn is_written(bytes: &[u32], access: Option<Access>) -> bool
    ensures { result ≡ some_stored bytes.now access }
{
    for byte in bytes {
        if stores_at(access, *byte) {
            return true;
        }
    }
    false
}

// Whether one of these bytes is one of so many, from an address on.
fn some_touched(bytes: &[u32], from: u32, size: u32) -> bool
    ensures { result ≡ some_touched bytes.now from size }
{
    for byte in bytes {
        if touches(u64::from(from), u64::from(size), u64::from(*byte)) {
            return true;
        }
    }
    false
}

impl Stale {
    ghost use Rattle.std.specs.Prelude.{[]};

    /// None.
    pub fn none(alloc: Global) -> Stale
        ensures { result ≡ [] }
    {
        Stale {
            bytes: Vec::new(alloc),
        }
    }

    /// Whether a byte is stale.
    pub fn has(&self, addr: u64) -> bool
        ensures { result ≡ among self.now addr }
    {
        is_among(self.bytes.as_slice(), addr)
    }

    /// Adds a byte. The only error is running out of memory.
    pub fn add(&mut self, addr: u32) -> Result<(), AllocError>
        ensures { OnOk result ((a : ℕ) → among self.new a ≡ (addr == a || among self.old a)) }
    {
        put(&mut self.bytes, addr)
    }

    /// Adds so many bytes, from an address on. The only error is running out of memory.
    pub fn add_run(&mut self, from: u32, size: u32) -> Result<(), AllocError>
        requires { 0 < size → from + size ≤ 2 ^ 32 }
        ensures { OnOk result ((a : ℕ) → among self.new a ≡ (among self.old a || touches from size a)) }
    {
        put_run(&mut self.bytes, from, size)
    }

    /// Whether one of so many bytes, from an address on, is stale.
    pub fn has_some(&self, from: u32, size: u32) -> bool
        ensures { result ≡ some_touched self.now from size }
    {
        some_touched(self.bytes.as_slice(), from, size)
    }

    /// Whether a store writes a stale byte.
    pub fn is_written(&self, access: Option<Access>) -> bool
        ensures { result ≡ some_stored self.now access }
    {
        is_written(self.bytes.as_slice(), access)
    }

    /// The bytes that no store writes and that lie in no area of a call. The only error is running out of
    /// memory.
    pub fn spared(
        &self,
        alloc: Global,
        access: Option<Access>,
        call: Option<Areas>,
    ) -> Result<Stale, AllocError>
        ensures { IfOk result (λ s. (a : ℕ) → among s a ≡ (among self.now a && is_spared access call a)) }
    {
        Ok(Stale {
            bytes: spared(alloc, self.bytes.as_slice(), access, call)?,
        })
    }

    /// The same bytes once more. The only error is running out of memory.
    pub fn copy(&self, alloc: Global) -> Result<Stale, AllocError>
        ensures { IfOk result (λ s. s ≡ self.now) }
    {
        let mut bytes = Vec::new(alloc);
        bytes.extend_from_slice(self.bytes.as_slice())?;
        Ok(Stale { bytes })
    }

    /// Whether the same bytes are stale.
    pub fn is_same(&self, other: &Stale) -> bool
        ensures same { result ≡ true → self.now ≡ other.now }
        ensures equal { self.now ≡ other.now → result ≡ true }
    {
        self.bytes.as_slice() == other.bytes.as_slice()
    }

    /// A number that is the same for equal bytes.
    pub fn digest(&self) -> u64 {
        let mut digest = 0u64;
        for byte in &self.bytes {
            digest = digest.wrapping_mul(31).wrapping_add(u64::from(*byte));
        }
        digest
    }
}
