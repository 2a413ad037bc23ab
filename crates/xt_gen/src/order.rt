//! The list of cores that a seed makes.
ghost use Rattle.std.specs.Prelude.{◌≡◌, ◌<◌, All, IfOk, length};
ghost use Rattle.xt_gen.specs.Orders.{seeded_order};

use crate::table::next;
use std::alloc::{AllocError, Global};

/// Which core has each of so many turns, by a seed: a list of that many cores, each 0 or 1. The only
/// error is running out of memory.
///
/// It consists of blocks, one for each number that follows the seed: the core is the number's highest
/// bit, and has one turn more than bits 24 to 28 say. The last block is cut where the list is full.
pub fn seeded_order(alloc: Global, seed: u32, count: u32) -> Result<Vec<u8>, AllocError>
    ensures list { IfOk result (λ order. order.items ≡ seeded_order seed count) }
    ensures count { IfOk result (λ order. length order.items ≡ count) }
    ensures cores { IfOk result (λ order. All (λ core. core < 2) order.items) }
{
    let mut order = Vec::with_capacity(alloc, count as usize)?;
    let mut x = seed;
    'filling: while order.len() < count as usize {
        x = next(x);
        let turns = 1 + (x >> 24) % 32;
        let end = (order.len() + turns as usize).min(count as usize);
        order.resize(end, (x >> 31) as u8)?;
    }
    Ok(order)
}
