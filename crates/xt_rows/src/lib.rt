//! What instructions do: one formula for each row of the instruction table.
//!
//! The formula of a row takes the values that the row reads and answers an outcome, so that it serves
//! the processor and a machine with unbounded frames alike.
#![tactic(auto)]

mod boolean;
pub mod cause;
mod control;
mod density;
mod effects;
pub mod laws;
mod memory;
mod numbers;
mod operands;
mod outcome;
mod rows;
pub mod settling;
mod shift;
mod system;
mod three;

pub use effects::write_to;
pub use numbers::{minus, natural};
pub use operands::{highest_register, reads, special_reads};
pub use outcome::{Effect, Flow, Outcome, ReplyTarget, WindowRegister, WindowStep};
pub use rows::{Values, outcome_of};
