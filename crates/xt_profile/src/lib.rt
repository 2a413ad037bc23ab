//! Call profiles: how many turns each call stack of a run has.
#![tactic(auto)]

mod changes;
mod counting;
mod later;
mod laws;
mod peeked;
pub mod profiles;
mod tally;
mod texts;

pub use counting::profile;
pub use later::whole_profile;
pub use laws::{
    frames_are_pushed, functions_are_frames, later_functions_are_pushed,
    later_functions_follow_changes, profile_ends_at_first_breach, without_breach_all_is_counted,
};
pub use texts::{profile_text, whole_text};
