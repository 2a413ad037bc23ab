//! Replay: the states of a run, at each position of its schedule.
#![tactic(auto)]

mod ends;
mod memory;
mod pair;
mod replay;
mod state;
mod turns;

pub use ends::end_of;
pub use memory::{push_mem, push_words};
pub use replay::{PastEnd, Replay};
pub use state::State;
