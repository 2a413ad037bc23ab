ghost use Rattle.std.specs.Prelude.{◌≡◌, length};

use crate::access::Entry;
use std::marker::Model;

/// The history of a bus: every access of both cores with its reply, in the one order in which the
/// bus served them. Contracts see the list of entries.
#[derive(Drop)]
pub struct History {
    items: Vec<Entry>,
}

impl Model for History {
    ghost use Rattle.std.specs.Prelude.{List};
    ghost use Rattle.xt_map.specs.declared.access.Entry.{Entry};

    ghost Value = { List Entry };

    ghost view = { λ h. h.items.items };
}

impl History {
    /// These entries, without a copy.
    pub fn new(items: Vec<Entry>) -> History
        ensures { result ≡ items.items }
    {
        History { items }
    }

    /// The entries.
    pub fn as_slice(&self) -> &[Entry]
        ensures { result.now ≡ self.now }
    {
        &self.items
    }

    /// How many entries there are.
    pub fn len(&self) -> usize
        ensures { result ≡ length self.now }
    {
        self.items.len()
    }
}
