//! Which of the two disciplines of uses is taken.
#![tactic(auto)]

ghost use Rattle.std.specs.Prelude.{◌≡◌};
ghost use Rattle.xt_uses.specs.Disciplines.{is_strict};

/// How much of what nobody set counts as known.
#[derive(Clone, Copy)]
pub enum Discipline {
    /// Nothing is known of what a function has no right to: its own frame before it stores there, the frame of a function that has
    /// returned, the registers of a function that has returned, except its results a2 to a5, and PS.OWB.
    Strict,
    /// All of that is known, if it was stored or written, or if nobody stored there.
    Lenient,
}

/// Whether it is the strict one.
pub fn is_strict(discipline: Discipline) -> bool
    ensures { result ≡ is_strict discipline }
{
    discipline == Discipline::Strict
}
