//! What is judged of the runs of a program of two cores, in any order of their turns, and what is printed of
//! everything that can come out of it.
#![tactic(auto)]

mod apart;
mod breaches;
mod bytes;
mod clock;
mod confirming;
mod frame_lines;
mod frames;
mod gone;
mod joint;
mod judging;
pub mod laws;
mod lines;
mod live;
mod moved;
mod opening;
mod order_rows;
mod outcome_lines;
mod own_judges;
mod race_lines;
mod record;
mod scene;
mod seeing;
mod stale;
mod texts;
mod watched;
mod watching;

pub use texts::outcomes_text;
