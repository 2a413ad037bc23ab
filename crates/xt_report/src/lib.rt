//! The lines that are printed of an image and of its run.
#![tactic(auto)]

mod breaches;
mod checks;
mod faults;
mod gen_report;
mod inputs;
mod laws;
mod leak_text;
mod leaks;
mod numbers;
mod pieces;
mod run_report;
mod status;
mod status_text;
mod text;
mod use_report;
mod verdict_lines;
mod whole;

pub use breaches::{breach_text, kind_text};
pub use checks::check_text;
pub use gen_report::summary;
pub use inputs::{IMAGE_LIMIT, RECORDING_LIMIT, image_in, recording_in};
pub use laws::{history_sends_as_memory, run_is_framed, runs_are_framed};
pub use leak_text::{leak_line, secrets_text};
pub use leaks::secrets_of;
pub use numbers::Numbers;
pub use pieces::Piece;
pub use run_report::{report, run_lines};
pub use status::{Status, status_after, status_line};
pub use status_text::write_text;
pub use text::uses_text;
pub use use_report::uses_of;
pub use verdict_lines::{frames_line, handlers_line};
pub use whole::Whole;
