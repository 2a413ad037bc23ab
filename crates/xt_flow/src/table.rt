//! A table with a truth value for each address of the executable regions, and of the gaps between them.
#![tactic(auto)]

ghost use Rattle.std.specs.Prelude.{◌≡◌, IfOk};
ghost use Rattle.xt_flow.specs.FlowTables.{is_marked, table_size, no_marks, with_mark};

use std::alloc::{AllocError, Global};

/// The first executable address.
const FIRST_PLACE: u32 = 0x40070000;
/// How many addresses there are from it to the last executable one.
const TABLE_SIZE: usize = 0x390000;

/// No mark, for `count` addresses.
#[tactic(auto, unfolding(crate::specs::FlowTables::no_marks))]
fn no_marks(alloc: Global, count: usize) -> Result<Vec<bool>, AllocError>
    ensures { IfOk result (λ table. table.items ≡ no_marks count) }
{
    vec![in alloc; false; count]
}

/// A table without a mark.
pub fn empty_table(alloc: Global) -> Result<Vec<bool>, AllocError>
    ensures { IfOk result (λ table. table.items ≡ no_marks table_size) }
{
    no_marks(alloc, TABLE_SIZE)
}

/// Whether an address is marked.
#[tactic(auto, unfolding(crate::specs::FlowTables::is_marked))]
pub fn is_marked(table: &[bool], at: u32) -> bool
    ensures { result ≡ is_marked table.now at }
{
    if at < FIRST_PLACE {
        return false;
    }
    let place = (at - FIRST_PLACE) as usize;
    place < table.len() && table[place]
}

/// Marks an address; nothing changes where the table has no place for it.
#[tactic(auto, unfolding(crate::specs::FlowTables::with_mark))]
pub fn mark(table: &mut [bool], at: u32)
    ensures { table.new ≡ with_mark table.old at }
{
    if at >= FIRST_PLACE {
        let place = (at - FIRST_PLACE) as usize;
        if place < table.len() {
            table[place] = true;
        }
    }
}
