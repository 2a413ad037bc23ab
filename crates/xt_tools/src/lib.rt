//! The commands over texts, ELF executables, images and recordings that need no thread, and a session over a recording:
//! scripts from a source, a line each, and their answers.
#![tactic(auto)]

mod answering;
mod call;
mod images;
mod lines;
mod opening;
mod recordings;
mod texts;
mod turns;

pub use call::session;
pub use images::{check, list};
pub use lines::LINES_LIMIT;
pub use recordings::{counts, events, migrate, profile, race, secrets, trace, uses};
pub use texts::{ELF_LIMIT, TEXT_LIMIT, converted_file, image_file, map_text};
