//! The phases of the records of a core.
#![tactic(auto)]

ghost use Rattle.std.specs.Prelude.{◌≡◌, length};

use std::marker::Model;
use xt_frames::HandlerPhase;

/// Which records of a core are handler steps, and which are nested, in order. Contracts see the list.
#[derive(Drop)]
pub struct Phases {
    items: Vec<HandlerPhase>,
}

impl Model for Phases {
    ghost use Rattle.std.specs.Prelude.{List};
    ghost use Rattle.xt_frames.specs.declared.kinds.HandlerPhase.{HandlerPhase};

    ghost Value = { List HandlerPhase };

    ghost view = { λ p. p.items.items };
}

impl Phases {
    /// These phases, without a copy.
    pub fn new(items: Vec<HandlerPhase>) -> Phases
        ensures { result ≡ items.items }
    {
        Phases { items }
    }

    /// The phases.
    pub fn as_slice(&self) -> &[HandlerPhase]
        ensures { result.now ≡ self.now }
    {
        &self.items
    }

    /// How many records there are.
    pub fn len(&self) -> usize
        ensures { result ≡ length self.now }
    {
        self.items.len()
    }
}
