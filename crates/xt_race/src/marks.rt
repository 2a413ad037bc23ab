//! The latest entries of both cores at each byte of the memory regions.
ghost use Rattle.std.specs.Prelude.{◌≡◌, vec_len};

use crate::latest::{Mark, Note, no_mark, rival_of};
use crate::page::{Page, empty_pages};
use crate::places::place_of;
use std::alloc::{AllocError, Global};

/// The latest entries of both cores at each byte of the memory regions, in pages of 64 bytes. A page takes no memory until an entry
/// touches one of its bytes.
#[derive(Drop)]
pub struct Marks {
    pub pages: Vec<Page>,
    ghost sized: { vec_len pages ≡ 5504 },
}

impl Marks {
    ghost use Rattle.std.specs.Prelude.{◌≡◌, ℕ, IfOk, OnOk, nat_lt};
    ghost use Rattle.xt_race.specs.Tables.{IsNoted, mark_at, no_mark, rival_of, some_byte};

    /// Where no entry touches a byte. The only error is running out of memory.
    pub fn new(alloc: Global) -> Result<Marks, AllocError>
        ensures { IfOk result (λ m. (a : ℕ) → mark_at m a ≡ no_mark) }
    {
        Ok(Marks {
            pages: empty_pages(alloc, 5504)?,
        })
    }

    // Those at an address.
    fn at(&self, addr: u64) -> Mark
        ensures { result ≡ mark_at self.now addr }
    {
        match place_of(addr) {
            Some(place) => self.pages[place / 64].at(place % 64),
            None => no_mark(),
        }
    }

    // Past an entry that touches a byte.
    fn note_byte(&mut self, note: Note, addr: u64) -> Result<(), AllocError>
        ensures { OnOk result (IsNoted note addr 1 self.old self.new) }
    {
        if let Some(place) = place_of(addr) {
            self.pages[place / 64].note(note, place % 64)?;
        }
        Ok(())
    }

    /// Past an entry that touches so many bytes from an address on. The only error is running out of memory.
    pub fn note(&mut self, note: Note, addr: u32, size: u8) -> Result<(), AllocError>
        ensures { OnOk result (IsNoted note addr size self.old self.new) }
    {
        for k in 0..size {
            self.note_byte(note, u64::from(addr) + u64::from(k))?;
        }
        Ok(())
    }

    /// Whether one of so many bytes from an address on has an entry of the other core that conflicts with one like this, and of which
    /// this core has not acquired so much.
    pub fn has_rival(&self, note: Note, addr: u32, size: u8, seen: u32) -> bool
        ensures { result ≡ some_byte (λ a. nat_lt seen (rival_of note (mark_at self.now a))) addr size }
    {
        for k in 0..size {
            if seen < rival_of(note, self.at(u64::from(addr) + u64::from(k))) {
                return true;
            }
        }
        false
    }
}
