//! A law of the answer on uses, which the compiler proves.
#![tactic(auto)]

ghost use Rattle.xt_use_walk.specs.Verdicts.{UsesAreOne};

/// A run has one answer: one first breach, with its record and the registers that are shown of it; or none, and what was carried.
pub fn uses_are_one()
    ensures { UsesAreOne }
{}
