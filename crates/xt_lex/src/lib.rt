//! The tokens of an assembly text, and the faults of the assembler.
//!
//! The assembly language is this project's own ('profile').
#![tactic(auto)]

mod bytes;
mod expr;
mod fault;
mod fronts;
mod labels;
mod lexing;
mod name;
mod token;
mod values;

pub use expr::{Expr, Term, TermValue};
pub use fault::{AsmFault, AsmPlace};
pub use labels::{Label, Labels};
pub use lexing::lex;
pub use name::Name;
pub use token::{Token, TokenKind, Tokens};
pub use values::value;
