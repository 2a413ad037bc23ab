//! What the words of the command line mean.
//!
//! The words are those after the program's own name; the first is the command. The words of a command that is
//! read by `clap` mean what that crate defines for a simple command.
#![tactic(auto)]

mod arguments;
mod beyond;
mod command;
mod depths;
mod laws;
mod listings;
mod numbers;
mod option_commands;
mod option_words;
mod options;
mod outcomes;
mod requirements;
mod roots;
mod secrets;
mod simple;
mod spans;
mod turn_orders;
mod turns;
mod words;

pub use arguments::{check_vecbase, generator_number, script_text, secret_options, uses_rigor};
pub use beyond::{Beyond, script_beyond};
pub use command::{Command, Listing, Openings, ProfileOptions, Refusal, Rigor, Turns, Way};
pub use depths::{DEFAULT_DEPTH, profile_options};
pub use laws::{meaning_needs_no_memory, options_need_no_memory, valid_options_are_accepted};
pub use listings::listing;
pub use numbers::number;
pub use option_words::{DEFAULT_VECBASE, record_options, run_options};
pub use options::{MOST_TURNS, RunOptions, within_limits};
pub use outcomes::{OutcomeOptions, Shown, outcomes_options};
pub use requirements::{Requirement, Requirements};
pub use roots::{Addresses, addresses_in};
pub use secrets::{ByteRanges, SecretOptions};
pub use spans::{Span, Spans};
pub use turn_orders::{CoreTurns, TurnList, TurnOrder, Which, cores_of};
pub use turns::trace_turns;
pub use words::meaning;
