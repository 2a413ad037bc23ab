//! Everything that can come out of a program of two cores, in any order of their turns.
#![tactic(auto)]

mod answers;
mod dead;
mod desk;
mod found;
mod laws;
mod listing;
mod meeting;
mod nexts;
mod opening;
mod outcome;
mod paths;
mod places;
mod races;
mod recording;
mod records;
mod shelf;
mod sides;
mod stuck;
mod timed;
mod turns;
mod world;

pub use answers::{Answers, Ending, answers_of};
pub use dead::{Dead, Uses, has_compare, registers_in, uses_at};
pub use desk::Desk;
pub use found::{Search, order_of};
pub use laws::{runs_end_in_their_outcomes, spots_follow_orders, turns_beyond_play_no_part};
pub use listing::{Found, outcomes_of};
pub use meeting::{are_allowed, is_whole, search_by, search_orders};
pub use nexts::{NextTurn, next_turns};
pub use opening::{open, open_with};
pub use outcome::Outcome;
pub use places::{Place, Places, Seen};
pub use races::{NextRace, race_of};
pub use shelf::{Part, Shelf};
pub use sides::Side;
pub use stuck::stuck_of;
pub use timed::{Timed, WorldRun};
pub use turns::{Ahead, has_timer};
pub use world::{Shared, World};
