//! The processor with windows runs as a machine with unbounded call frames.
//!
//! For every run of the processor, where the six window handlers pass their check and the two stacks
//! are apart, the judged records before the first breach are a run of the machine with frames, over
//! one legal history. Each law is the contract of a function that does nothing.
#![tactic(auto)]

pub mod filling_laws;
pub mod laws;
pub mod secret_laws;
pub mod use_laws;
pub mod written_laws;
