//! What the discipline of uses says of a run of an image. The turns of both cores are made again.
//! While a core and its frames are in step, a few tests of what the processor holds judge most
//! turns.
#![tactic(auto)]

mod cores;
mod file;
mod judging;
mod seeing;
mod walk;

pub use judging::judge_uses_of;
