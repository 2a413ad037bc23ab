//! The worlds that a search keeps.

use crate::table::Table;

/// A kept world, and how it was found first: by a turn of this core, from the kept world with this
/// number. The first world comes from none.
#[derive(Drop)]
pub struct Kept<W> {
    pub world: W,
    pub from: u32,
    pub core: u8,
}

/// To which kept worlds the next turn of each core leads.
#[derive(Clone, Copy)]
pub struct Nexts {
    pub by0: u32,
    pub by1: u32,
}

/// A turn before which a search had to end: that of this core in the kept world with this number.
#[derive(Clone, Copy)]
pub struct Barred {
    pub from: usize,
    pub core: u8,
}

/// The worlds that a search keeps, of so many of the first ones their next worlds, and the turn before
/// which the search had to end, if there was one.
pub struct Graph<W> {
    pub kept: Vec<Kept<W>>,
    pub nexts: Vec<Nexts>,
    pub table: Table,
    pub barred: Option<Barred>,
}

// A `drop` of its own is one call at each place where a value is dropped.
impl<W: Drop> Drop for Graph<W> {
    fn drop(self) {
        let Graph {
            kept: _,
            nexts: _,
            table: _,
            barred: _,
        } = self;
    }
}
