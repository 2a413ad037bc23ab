//! The lines of an assembly text.
//!
//! The assembly language is this project's own ('profile').
#![tactic(auto)]

mod exprs;
mod form;
mod line;
mod lines;
mod operands;
mod parsing;
mod reading;
mod statement;
mod stop;
mod words;

pub use line::{Line, Lines, Placed};
pub use parsing::parse;
pub use statement::{Exprs, Operand, Operands, Statement};
