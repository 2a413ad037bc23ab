//! The outside of the machine: where bytes come from, where they go, and what is called before
//! an access to the bus.
//!
//! A [`Source`] and a [`Sink`] count their faults, so that a caller can blame a refusal on the
//! one that counted it. Those in memory tell their bytes to the proofs. Those over the readers
//! and the writers of std tell what these tell.
#![tactic(auto)]

mod calls;
mod gate;
mod memory;
mod safe;
mod sink;
mod source;
mod standard;
mod unread;
mod whole;

pub use gate::{Gate, OpenGate};
pub use memory::{MemSink, MemSource};
pub use safe::{SafeSink, SafeSource};
pub use sink::{Refused, Sink};
pub use source::{Failed, Source};
pub use standard::{StdSink, StdSource};
pub use whole::{ReadError, read_to_limit, write_all};
