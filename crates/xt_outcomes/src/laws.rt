//! Laws of orders. Each is the contract of a function that does nothing.
ghost use Rattle.std.specs.Prelude.{◌≡◌, ℕ, true, List};
ghost use Rattle.xt_trace.specs.Chip.{Chip};
ghost use Rattle.xt_trace.specs.Runs.{Opening, world_at_start};
ghost use Rattle.xt_exec.specs.State.{State};
ghost use Rattle.xt_outcomes.specs.Beyond.{TurnsBeyondPlayNoPart};
ghost use Rattle.xt_outcomes.specs.Orders.{world_after};
ghost use Rattle.xt_outcomes.specs.RunsEnd.{RunsEndInTheirOutcomes};
ghost use Rattle.xt_outcomes.specs.Spots.{spot_after, spot_in};

/// What a search keeps of the world after an order is what the turns of the order make of what it keeps
/// of the opening, with the turns that the options give.
#[tactic(auto, using(crate::proofs::Spotted::spot_advanced))]
pub fn spots_follow_orders()
    ensures { (P : Chip State) (o : Opening State) (order : List ℕ) → spot_in true (world_after P true o order) ≡ spot_after P true order (spot_in true (world_at_start o)) }
{}

/// With more turns than an order asks for, the world after it is the same but for the turns that are
/// left.
#[tactic(auto, using(crate::proofs::Beyond::turns_beyond))]
pub fn turns_beyond_play_no_part()
    ensures { TurnsBeyondPlayNoPart }
{}

/// The run of an outcome's order, with turns enough, ends in this outcome.
#[tactic(auto, using(crate::proofs::Finished::runs_end))]
pub fn runs_end_in_their_outcomes()
    ensures { RunsEndInTheirOutcomes }
{}
