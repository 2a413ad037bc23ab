//! What can come out of a program of two cores whose timers fire at any moment.
#![tactic(auto)]

mod answers;
mod bytes;
mod choices;
mod confirming;
mod forcing;
mod forgetting;
mod found;
mod ground;
mod keys;
mod knowing;
mod lines;
mod machine;
mod order_rows;
mod showing;
mod sides;
mod snapshots;
mod stuck;
mod texts;
mod trying;
mod worlds;

pub use answers::{Answers, Ending};
pub use found::Found;
pub use stuck::Stuck;
pub use texts::moments_text;
