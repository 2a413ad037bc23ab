//! Recordings: a run with its image as a file, written and read.
#![tactic(auto)]

mod entries;
mod fault;
mod file;
mod head;
mod laws;
mod parts;
mod points;
mod raw;
mod reading;
mod setting;
mod walk;
mod walking;
mod words;
mod writing;

pub use fault::RecordFault;
pub use laws::{migrated_once, round_trip};
pub use reading::read_recording;
pub use writing::write_recording;
