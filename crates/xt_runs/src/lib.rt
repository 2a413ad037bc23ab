//! Runs of images: the commands `run`, `record` and `gen`, which may wait.
#![tactic(auto)]

mod analyses;
mod exits;
mod generating;
mod memory;
mod outcome;
mod output;
mod requirements;
mod running;
mod runs;
mod told;
mod verdicts;

pub use analyses::analyses_text;
pub use generating::generate;
pub use outcome::{Outcome, Wanted, without_run};
pub use running::{run_source, write_whole};
pub use verdicts::judged;
