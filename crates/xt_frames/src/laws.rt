//! Laws of the judge's walk. Each is the contract of a function that does nothing.
#![tactic(auto)]

ghost use Rattle.xt_frames.specs.FirstBreach.{FirstBreachIsOne, WalkFindsFirstBreach};

/// The walk answers the first breach of the run, by what was live, what has been stored and where
/// exception mode has ended at all turns before it; and what the walk took as judged are the judged
/// steps before that breach.
pub fn verdict_is_first_breach()
    ensures { WalkFindsFirstBreach }
{}

/// A run has one first breach, or none.
pub fn first_breach_is_one()
    ensures { FirstBreachIsOne }
{}
