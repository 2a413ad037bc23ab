//! Images from ELF executables: what a compiler links becomes an application image.
#![tactic(auto)]

mod converting;
mod fault;
mod header;
mod rules;
mod spans;

pub use converting::from_elf;
pub use fault::ElfFault;
