//! The program behind its `main`: its top calls.
#![tactic(auto)]

mod ending;
mod orders;
mod outcomes;
mod tool;
mod top;

pub use ending::{End, program_words, xt_program};
pub use tool::{Job, Tool, tool_main};
pub use top::xt_main;
pub use xt_report::{
    IMAGE_LIMIT, RECORDING_LIMIT, Status, Whole, check_text, frames_line, handlers_line,
    history_sends_as_memory, report, run_lines, status_line, summary,
};
pub use xt_runs::{Outcome, analyses_text, judged, write_whole};
pub use xt_tools::{ELF_LIMIT, TEXT_LIMIT};
