//! The addresses and labels of an assembly text.
//!
//! The assembly language is this project's own ('profile').
#![tactic(auto)]

mod addresses;
mod counts;
mod fault;
mod labels;
mod laid;
mod laws;
mod need;
mod ordering;
mod placing;
mod pool_fault;
mod pooled;
mod region;
mod size;
mod spot;
mod spots;
mod word;

pub use laid::{Laid, layout};
pub use laws::parsed_lines_are_small;
pub use need::{is_segment, pool_use};
pub use ordering::{least, least_is_first};
pub use placing::place;
pub use pooled::Pooled;
pub use size::{is_alignment, is_space};
pub use word::PoolWord;
