//! The judge of a run of an image. It makes the turns of both cores again. While a core and its
//! frames are in step, a few tests of what the processor holds judge most turns.
#![tactic(auto)]

mod cores;
mod file;
mod instructions;
mod judging;
mod lookups;
mod quiet;
mod seeing;
mod walk;

pub use instructions::{agrees, is_executed, is_in_vectors, is_sp};
pub use judging::judge_run;
pub use lookups::{Lookup, Lookups};
