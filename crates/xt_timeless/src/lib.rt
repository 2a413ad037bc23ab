//! Time: which turns use it, and what of a core is left once it is left out.
//!
//! Time is CCOUNT, CCOMPARE0 to CCOMPARE2, and the bits of INTERRUPT that the timers set: what the
//! passing of turns alone changes ('profile').
#![tactic(auto)]

mod clearing;
pub mod laws;
mod using;

pub use clearing::clear_time;
pub use using::{reads_compare, reads_time, uses_time, writes_compare};
