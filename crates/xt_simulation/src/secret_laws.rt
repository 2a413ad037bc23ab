//! The laws of secrets. Each is the contract of a function that does nothing.

ghost use Rattle.xt_simulation.specs.LeakLaws.{FirstLeakIsOne, RunsAreSameUpToTheLeak, SameUpToTheLeak};
ghost use Rattle.xt_simulation.specs.SecretLaws.{MasksStay, TurnsUseAlike, TurnsWithKnownUsesAgree};
ghost use Rattle.xt_simulation.specs.SecretRunLaws.{ImageRunsAreSameUpToTheLeak};
ghost use Rattle.xt_simulation.specs.TimeUnknown.{TimeIsUnknown};
ghost use Rattle.xt_simulation.specs.WorldLaws.{OrdersGoOnAlike, WorldsGoOnAlike};

/// If two states agree in what is known and the turn of one uses known bits alone, the turns agree
/// in what is known then.
pub fn turns_with_known_uses_agree()
    ensures { TurnsWithKnownUsesAgree }
{}

/// Of two states that agree in what is known both turns use known bits alone, or neither does.
pub fn turns_use_alike()
    ensures { TurnsUseAlike }
{}

/// What is known after a turn are masks of words again.
#[tactic(auto, using(crate::proofs::Staying::masks_stay))]
pub fn masks_stay()
    ensures { MasksStay }
{}

/// If a turn uses known bits alone, two worlds that agree in what is known make it alike, and agree
/// in what is known then.
pub fn worlds_go_on_alike()
    ensures { WorldsGoOnAlike }
{}

/// While the turns of an order use known bits alone, two worlds that agree in what is known make them
/// alike.
pub fn orders_go_on_alike()
    ensures { OrdersGoOnAlike }
{}

/// A run has one first leak, or none.
pub fn first_leak_is_one()
    ensures { FirstLeakIsOne }
{}

/// Up to the first leak, turns from a world are the same with each other secret, in all that is known.
pub fn same_up_to_the_leak()
    ensures { SameUpToTheLeak }
{}

/// Up to its first leak every run is the same with each other secret, in all that is known.
pub fn runs_are_same_up_to_the_leak()
    ensures { RunsAreSameUpToTheLeak }
{}

/// Up to its first leak every run of an image is the same with each other secret, in all that is known.
pub fn image_runs_are_same_up_to_the_leak()
    ensures { ImageRunsAreSameUpToTheLeak }
{}

/// Time may be what is not known: states that are equal except for it agree in what is known then, and a
/// turn that uses no time uses known bits alone.
pub fn time_is_unknown()
    ensures { TimeIsUnknown }
{}
