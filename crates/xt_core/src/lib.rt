//! The core: what one core does with an image.
#![tactic(auto)]

mod begin;
mod begun;
mod cores;
mod cursor;
mod ends;
mod file;
mod links;
mod record;
mod replies;
mod turn;

pub use begin::Begin;
pub use begun::StartedTurn;
pub use cores::Core;
pub use cursor::Cursor;
pub use ends::left_past;
pub use links::stack_links;
pub use replies::Replies;
pub use turn::{begin as start_turn, end as end_turn, head_of, local_turn};
