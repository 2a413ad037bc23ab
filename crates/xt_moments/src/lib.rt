//! Orders with moments: two cores whose turns come in any order, and whose timers fire at any
//! moment.
#![tactic(auto)]

mod actors;
mod arming;
mod laws;
mod moves;
mod outcome;
mod worlds;

pub use actors::Actor;
pub use arming::{TIMER_BITS, armed_by, interrupt_past, timer_bit};
pub use laws::{moment_turns_agree, moves_go_on_alike, orders_go_on_alike, outcomes_are_one};
pub use moves::Move;
pub use outcome::{Outcome, outcome_after, outcome_in};
pub use worlds::Actors;
