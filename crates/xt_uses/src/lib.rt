//! The machine of uses: words of which not every bit is known, what an instruction uses and knows of them, and the step of one core.
#![tactic(auto)]

mod cores;
mod discipline;
mod known;
mod lacking;
pub mod laws;
mod leaving;
mod masks;
mod quick;
mod stepping;
mod testing;
mod told;
mod used;
mod words;

pub use cores::UseCore;
pub use discipline::Discipline;
pub use known::result_mask;
pub use lacking::Lack;
pub use testing::Touched;
pub use told::{JudgeError, Used};
pub use used::{keeps_unknown, used_are_known};
pub use words::{ALL_BITS, Word, whole_word};
