//! Kinds of turns, and how often each came.
ghost use Rattle.std.specs.Prelude.{◌≡◌};
ghost use Rattle.xt_events.specs.Events.{same_kind};

use std::marker::Model;
use xt_trace::StepKind;

/// The turns of one kind among the turns of a core.
#[derive(Clone, Copy)]
pub struct Event {
    /// What they were.
    pub kind: StepKind,
    /// How many there are.
    pub times: u32,
    /// The number of the first.
    pub first: u32,
    /// The program counter as the first began.
    pub pc: u32,
}

/// The kinds of a core's turns, in the order of their first turns. Contracts see the list.
#[derive(Drop)]
pub struct Events {
    items: Vec<Event>,
}

impl Model for Events {
    ghost use Rattle.std.specs.Prelude.{List};
    ghost use Rattle.xt_events.specs.declared.event.Event.{Event};

    ghost Value = { List Event };

    ghost view = { λ e. e.items.items };
}

impl Events {
    /// These, without a copy.
    pub fn new(items: Vec<Event>) -> Events
        ensures { result ≡ items.items }
    {
        Events { items }
    }

    /// The kinds, each with its turns.
    pub fn as_slice(&self) -> &[Event]
        ensures { result.now ≡ self.now }
    {
        &self.items
    }
}

/// Whether two turns are of one kind: of the same vector, cause or level, where they have one.
pub fn same_kind(a: StepKind, b: StepKind) -> bool
    ensures { result ≡ same_kind a b }
{
    match (a, b) {
        (StepKind::Insn, StepKind::Insn) => true,
        (StepKind::Window(x), StepKind::Window(y)) => x == y,
        (StepKind::Exc(x), StepKind::Exc(y)) => x == y,
        (StepKind::Interrupt(x), StepKind::Interrupt(y)) => x == y,
        (StepKind::Wait, StepKind::Wait) => true,
        (StepKind::Stop, StepKind::Stop) => true,
        _ => false,
    }
}
