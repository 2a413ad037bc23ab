//! Laws of the runs that the discipline of uses lets pass.
#![tactic(auto)]

ghost use Rattle.xt_simulation.specs.WrittenFirst.{RunsWrittenFirstPass, WrittenFirstPasses};

/// A run that reads no register and no byte before it was written, and never PS.OWB, shows no Unset
/// and no StaleLoad, and carries nothing that is not known.
pub fn written_first_passes()
    ensures { WrittenFirstPasses }
{}

/// So the verdict on a run of an image that keeps to this in all its turns has a breach of another
/// kind or none, and nothing is carried.
pub fn runs_written_first_pass()
    ensures { RunsWrittenFirstPass }
{}
