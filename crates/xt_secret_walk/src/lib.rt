//! The walk over the turns of a run that finds the first leak of a secret.
#![tactic(auto)]

mod bytes;
mod file;
mod judging;
pub mod laws;
mod leak;
mod making;
mod masks;
mod seen;
mod side;
mod walk;

pub use file::WatchedFile;
pub use judging::judge_secrets;
pub use leak::{FirstLeak, Secrets};
pub use masks::CoreMasks;
pub use seen::{Seen, turn_uses};
