ghost use Rattle.std.specs.Prelude.{◌≡◌, List, ℕ, IfOk};
ghost use Rattle.std.specs.BTreeMap.{get};
ghost use Rattle.std.specs.Cmp.Lexicographic.{slice_cmp};
ghost use Rattle.std.specs.Ordering.{nat_cmp};
ghost use Rattle.std.specs.Option.{option_copied};
ghost use Rattle.xt_lex.specs.Labels.{first_label, label_at};

use crate::Name;
use std::alloc::{AllocError, Global};
use std::collections::BTreeMap;
use std::marker::Model;

/// A label or a literal's name, and its address.
#[derive(Drop)]
pub struct Label {
    /// The name.
    pub name: Name,
    /// The address, a whole number that does not wrap.
    pub address: i64,
}

/// Labels in the order of their definitions, among which the first of a name counts. Contracts see the list.
///
/// An ordered map beside the list finds a name, so a look-up takes no walk over the labels.
pub struct Labels {
    items: Vec<Label>,
    found: BTreeMap<Name, usize>,
}

// A `drop` of its own is one call at each place where a value is dropped, also in other crates.
impl Drop for Labels {
    fn drop(self) {
        let Labels { items: _, found: _ } = self;
    }
}

impl Model for Labels {
    ghost use Rattle.std.specs.Prelude.{◌≡◌, List, ℕ};
    ghost use Rattle.std.specs.BTreeMap.{get};
    ghost use Rattle.std.specs.Cmp.Lexicographic.{slice_cmp};
    ghost use Rattle.std.specs.Ordering.{nat_cmp};
    ghost use Rattle.xt_lex.specs.declared.labels.Label.{Label};
    ghost use Rattle.xt_lex.specs.Labels.{first_label, label_at};

    ghost Value = { List Label };

    ghost view = { λ l. l.items.items };

    ghost invariant = { λ l. (q : List ℕ) → label_at l.items.items (get (slice_cmp nat_cmp) l.found q) ≡ first_label q l.items.items };
}

// The place of each name's first label: the labels are gone through from the last to the first, and each takes the place
// of those after it.
fn places(alloc: Global, items: &[Label]) -> Result<BTreeMap<Name, usize>, AllocError>
    ensures { IfOk result (λ found. (q : List ℕ) → label_at items.now (get (slice_cmp nat_cmp) found q) ≡ first_label q items.now) }
{
    let mut found = BTreeMap::new(alloc);
    for place in (0..items.len()).rev() {
        let label = &items[place];
        found.insert(label.name.clone()?, place)?;
    }
    Ok(found)
}

impl Labels {
    /// These labels, in the order of their definitions.
    pub fn make(alloc: Global, items: Vec<Label>) -> Result<Labels, AllocError>
        ensures { IfOk result (λ labels. labels ≡ items.items) }
    {
        let found = places(alloc, items.as_slice())?;
        Ok(Labels { items, found })
    }

    /// The labels.
    pub fn as_slice(&self) -> &[Label]
        ensures { result.now ≡ self.now }
    {
        &self.items
    }

    /// The first label of this name.
    pub fn first(&self, name: &Name) -> Option<&Label>
        ensures { option_copied result ≡ first_label name.now self.now }
    {
        let place = self.found.get(name)?;
        self.items.as_slice().get(*place)
    }
}
