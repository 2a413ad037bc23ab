//! Laws of the relation between the processor and the machine of uses.
#![tactic(auto)]

ghost use Rattle.xt_simulation.specs.UseRunLaws.{RunsAreOrdinary, ShadowsOpen, UsesAreSo, UsesOfRunsAreLater};

/// Both machines open alike, and all is known.
pub fn shadows_open()
    ensures { ShadowsOpen }
{}

/// Where the six window handlers pass their check and the two stacks are apart, the judged records of
/// a run before the first breach of uses are a run of the machine of uses.
pub fn uses_are_so()
    ensures { UsesAreSo }
{}

/// What is asked of each run that is judged holds of every run of an image.
pub fn runs_are_ordinary()
    ensures { RunsAreOrdinary }
{}

/// No breach of uses in a run of an image comes before its first of the stack discipline; and where
/// there is none of these, it shows none of uses, and carries nothing that is not known.
pub fn uses_of_runs_are_later()
    ensures { UsesOfRunsAreLater }
{}
