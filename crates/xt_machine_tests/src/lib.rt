//! Tests of the crates below, from words and memory to both cores on threads: what the program's commands do not show of them.
//!
//! They stand here because a crate with tests of its own is proved twice. Programs, images and recordings are cases of
//! `bench/case`.
#![tactic(auto)]

#[cfg(test)]
mod alu_tests;
#[cfg(test)]
mod bool_tests;
#[cfg(test)]
mod bus_tests;
#[cfg(test)]
mod codec_tests;
#[cfg(test)]
mod elf_tests;
#[cfg(test)]
mod exc_tests;
#[cfg(test)]
mod frames_tests;
#[cfg(test)]
mod io_tests;
#[cfg(test)]
mod map_tests;
#[cfg(test)]
mod sharedbus_tests;
#[cfg(test)]
mod special_tests;
#[cfg(test)]
mod thread_tests;
#[cfg(test)]
mod timer_tests;
#[cfg(test)]
mod window_tests;
