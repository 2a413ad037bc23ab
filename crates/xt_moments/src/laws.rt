//! Laws of cores whose timers fire at any moment. Each is the contract of a function that does
//! nothing.
#![tactic(auto)]

ghost use Rattle.xt_moments.specs.MomentLaws.{MomentTurnsAgree};
ghost use Rattle.xt_moments.specs.WorldLaws.{MovesGoOnAlike, OrdersGoOnAlike, OutcomesAreOne};

/// If two cores agree in what is known, of the registers of time INTERRUPT alone, and the turn of
/// one uses known bits alone, the turns agree in what is known then, whatever CCOUNT was.
pub fn moment_turns_agree()
    ensures { MomentTurnsAgree }
{}

/// If two worlds agree in what is known, and a move uses known bits alone, they agree after it in
/// what is known then, whatever CCOUNT was in each.
pub fn moves_go_on_alike()
    ensures { MovesGoOnAlike }
{}

/// While the moves of an order use known bits alone, two worlds that agree in what is known go on
/// so, whatever CCOUNT is at each turn.
pub fn orders_go_on_alike()
    ensures { OrdersGoOnAlike }
{}

/// If the moves of an order use known bits alone and the chosen words are known after them, the same comes
/// out, whatever CCOUNT is at each turn.
pub fn outcomes_are_one()
    ensures { OutcomesAreOne }
{}
