//! The listing of an image that follows the code: from the addresses where control can come in, along all that the
//! instructions themselves say of where it goes.
#![tactic(auto)]

mod calls;
mod code;
pub mod laws;
mod listing;
mod numbers;
mod table;
mod texts;
mod visits;

pub use listing::flow_listing;
pub use texts::{flow_source, source};
