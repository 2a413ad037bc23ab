//! Data races of the two cores in the history of a run.
#![tactic(auto)]

mod event;
mod events;
mod finder;
mod latest;
mod laws;
mod marks;
mod page;
mod places;
mod race;
mod releases;
mod text;
mod turns;

pub use event::{Event, Synchronization, order_at};
pub use laws::{entries_have_turns, first_race_is_one};
pub use race::{Race, first_race};
pub use text::race_text;
