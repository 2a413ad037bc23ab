//! A law of fetching. It is the contract of a function that does nothing.
#![tactic(auto)]

ghost use Rattle.xt_map.specs.FetchLaws.{FetchedIsInRange};

/// What is fetched from bytes has its operands in their ranges.
pub fn fetched_is_in_range()
    ensures { FetchedIsInRange }
{}
