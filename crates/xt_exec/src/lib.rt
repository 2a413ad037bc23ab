//! The processor: its state, and one turn of it, as definitions, and one instruction of it as code. What each row does is in
//! `xt_rows`.
#![tactic(auto)]

mod exceptions;
mod halves;
mod instruction;
pub mod laws;
pub mod plans;
mod regs;
mod windows;

pub use halves::finish;
pub use instruction::plan;
pub use regs::Regs;
