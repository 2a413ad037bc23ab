//! The latest entries of both cores at the bytes of a page.
ghost use Rattle.std.specs.Prelude.{◌≡◌, ◌<◌, ◌==◌, ℕ, [], IfOk, OnOk, if◌then◌else◌, length, replicate, slice_index_or, vec_len};
ghost use Rattle.xt_race.specs.Tables.{no_mark, mark_after_note};

use crate::latest::{Mark, Note, mark_after_note, no_mark};
use std::alloc::{AllocError, Global};
use std::marker::Model;

/// The latest entries of both cores at the 64 bytes of a page, or none where no entry touches one. Contracts see the list.
#[derive(Drop)]
pub struct Page {
    items: Vec<Mark>,
}

impl Model for Page {
    ghost use Rattle.std.specs.Prelude.{List};
    ghost use Rattle.xt_race.specs.declared.latest.Mark.{Mark};

    ghost Value = { List Mark };

    ghost view = { λ p. p.items.items };
}

// Makes room for all bytes of a page, unless there is room for this one.
fn reach(items: &mut Vec<Mark>, byte: usize) -> Result<(), AllocError>
    requires { byte < 64 }
    ensures same { OnOk result ((k : ℕ) → slice_index_or items.new.items k no_mark ≡ slice_index_or items.old.items k no_mark) }
    ensures room { OnOk result (byte < vec_len items.new) }
{
    if byte < items.len() {
        return Ok(());
    }
    items.resize(64, no_mark())?;
    Ok(())
}

impl Page {
    /// Where no entry touches a byte.
    pub fn new(alloc: Global) -> Page
        ensures { result ≡ [] }
    {
        Page {
            items: Vec::new(alloc),
        }
    }

    /// Those at a byte.
    pub fn at(&self, byte: usize) -> Mark
        ensures { result ≡ slice_index_or self.now byte no_mark }
    {
        if byte < self.items.len() {
            self.items[byte]
        } else {
            no_mark()
        }
    }

    /// Past an entry that touches a byte.
    ///
    /// Condition: it is one of 64 bytes.
    pub fn note(&mut self, note: Note, byte: usize) -> Result<(), AllocError>
        requires { byte < 64 }
        ensures { OnOk result ((k : ℕ) → slice_index_or self.new k no_mark ≡ (if k == byte then mark_after_note note (slice_index_or self.old byte no_mark) else slice_index_or self.old k no_mark)) }
    {
        reach(&mut self.items, byte)?;
        let mark = self.items[byte];
        self.items[byte] = mark_after_note(note, mark);
        Ok(())
    }
}

/// So many pages where no entry touches a byte.
pub fn empty_pages(alloc: Global, count: u32) -> Result<Vec<Page>, AllocError>
    ensures items { IfOk result (λ pages. pages.items ≡ replicate count []) }
    ensures len { IfOk result (λ pages. length pages.items ≡ count) }
{
    let mut pages = Vec::with_capacity(alloc, count as usize)?;
    for _page in 0..count {
        pages.push(Page::new(alloc))?;
    }
    Ok(pages)
}
