//! Where to look for a kept world.
ghost use Rattle.std.specs.Prelude.{◌≡◌, ◌<◌, ◌++◌, ◌∷◌, [], true, false, List, ℕ, IfOk, IfSome, IfNone, OnOk, length, slice_index};
ghost use Rattle.xt_search.specs.Chains.{IsChained, IsNew, IsTable, chain_of};
ghost use Rattle.xt_search.specs.Graphs.{IsAt, IsLike};

use crate::graph::Kept;
use crate::machine::Machine;
use std::alloc::{AllocError, Global};

// How many chains there are.
const CHAINS: usize = 1_048_576;

/// Kept worlds by their digests: of each chain the world that was added last, and of each world the
/// one of the same chain that was added before it. Each number is one more than that of a world, and
/// 0 says that there is none.
pub struct Table {
    last: Vec<u32>,
    before: Vec<u32>,
}

// A `drop` of its own is one call at each place where a value is dropped.
impl Drop for Table {
    fn drop(self) {
        let Table { last: _, before: _ } = self;
    }
}

// The chain of a digest: the high bits of a product, which depend on all bits of the digest.
fn chain_of(digest: u64) -> usize
    ensures chain { result ≡ chain_of digest }
    ensures within { result < 1048576 }
{
    (digest.wrapping_mul(0x9E37_79B9_7F4A_7C15) / 0x1000_0000_0000) as usize
}

// The number at a place of a list, 0 outside it.
fn number_at(numbers: &Vec<u32>, at: usize) -> u32
    ensures { result ≡ slice_index numbers.now.items at }
{
    match numbers.get(at) {
        Some(number) => *number,
        None => 0,
    }
}

impl Table {
    /// No world. The only error is running out of memory.
    pub fn new(alloc: Global) -> Result<Table, AllocError>
        ensures many { IfOk result (λ t. length t.last.items ≡ 1048576) }
        ensures none { IfOk result (λ t. IsChained t.last.items t.before.items []) }
    {
        Ok(Table {
            last: vec![in alloc; 0; CHAINS]?,
            before: Vec::new(alloc),
        })
    }

    /// Adds the next world. The only error is running out of memory.
    ///
    /// Conditions: the table has its chains, and fewer than 2^32 - 1 worlds.
    pub fn add(&mut self, digest: u64) -> Result<(), AllocError>
        requires many { length self.old.last.items ≡ 1048576 }
        requires room { length self.old.before.items < 4294967295 }
        ensures many { OnOk result (length self.new.last.items ≡ 1048576) }
        ensures chained { OnOk result ((cs : List ℕ) → IsChained self.old.last.items self.old.before.items cs → IsChained self.new.last.items self.new.before.items (cs ++ chain_of digest ∷ [])) }
    {
        let chain = chain_of(digest);
        let last = number_at(&self.last, chain);
        self.before.push(last)?;
        self.last[chain] = self.before.len() as u32;
        Ok(())
    }
}

// Whether a world is kept under this number.
fn is_kept<M: Machine>(machine: &M, kept: &[Kept<M::World>], at: u32, world: &M::World) -> bool
    ensures like { result ≡ true → IsLike (M.Leads machine.now) kept.now at world.now }
    ensures differ { result ≡ false → (w : M.World) → IsAt kept.now at w → M.Same machine.now w world.now → ⊥ }
{
    match kept.get(at as usize) {
        Some(other) => machine.is_same(&other.world, world),
        None => false,
    }
}

impl Table {
    /// The number of a kept world that is the same as this one; None: there is none.
    pub fn find<M: Machine>(
        &self,
        machine: &M,
        kept: &Vec<Kept<M::World>>,
        world: &M::World,
        digest: u64,
    ) -> Option<u32>
        requires table { IsTable (M.IsMark machine.now) self.now kept.now.items }
        requires digest { M.IsMark machine.now world.now digest }
        ensures like { IfSome result (λ k. IsLike (M.Leads machine.now) kept.now.items k world.now) }
        ensures new { IfNone result (IsNew (M.Same machine.now) kept.now.items world.now) }
    {
        let mut number = number_at(&self.last, chain_of(digest));
        for _ in 0..kept.len() {
            if number == 0 {
                return None;
            }
            let at = number - 1;
            if is_kept(machine, kept, at, world) {
                return Some(at);
            }
            number = number_at(&self.before, at as usize);
        }
        None
    }
}
