//! What happened in a run: how often each kind of turn came, and each turn as a line of text, in the
//! order of the run's schedule.
#![tactic(auto)]

mod branch;
mod counting;
mod event;
mod event_text;
mod execution_counting;
mod filter;
mod laws;
mod tally;
mod text;
mod told;
mod turn;
mod turn_line;
mod turn_lines;

pub use counting::events_of;
pub use event::{Event, Events};
pub use event_text::events_text;
pub use filter::Filter;
pub use laws::positions_have_turns;
pub use text::counts_text;
pub use told::{TurnLine, Window};
pub use turn_line::{push_hex4, push_turn};
pub use turn_lines::{TurnLines, push_next_turn};
