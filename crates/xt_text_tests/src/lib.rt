//! Tests of the crates below that read and write texts: what the program's commands do not show of them.
//!
//! They stand here because a crate with tests of its own is proved twice. Most cases of texts are those of `bench/case`.
#![tactic(auto)]

#[cfg(test)]
mod disasm_tests;
#[cfg(test)]
mod expr_tests;
#[cfg(test)]
mod lex_tests;
#[cfg(test)]
mod mnemonic_tests;
#[cfg(test)]
mod names_tests;
#[cfg(test)]
mod parse_tests;
#[cfg(test)]
mod words_tests;
