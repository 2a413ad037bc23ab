//! Laws of call profiles, whose functions do nothing.
#![tactic(auto)]

ghost use Rattle.xt_profile.specs.ProfileLaws.{FramesArePushed, FunctionsAreFrames, LaterFunctionsArePushed, LaterFunctionsFollowChanges, ProfileEndsAtFirstBreach, WithoutBreachAllIsCounted};

/// The function list has one number more than frames stand.
pub fn functions_are_frames()
    ensures { FunctionsAreFrames }
{}

/// Each frame that stands before a step was pushed by an earlier step.
pub fn frames_are_pushed()
    ensures { FramesArePushed }
{}

/// What is counted of both cores ends at the first breach in the order of the run's schedule, or
/// with the last turn if there is none.
pub fn profile_ends_at_first_breach()
    ensures { ProfileEndsAtFirstBreach }
{}

/// All turns of a run without a breach are counted.
pub fn without_breach_all_is_counted()
    ensures { WithoutBreachAllIsCounted }
{}

/// Each function that stands before a turn after the cut was pushed by an earlier step.
pub fn later_functions_are_pushed()
    ensures { LaterFunctionsArePushed }
{}

/// After the cut ENTRY puts its PC behind the functions, and RETW takes the last one away.
pub fn later_functions_follow_changes()
    ensures { LaterFunctionsFollowChanges }
{}
