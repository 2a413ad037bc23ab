//! What the discipline of uses knows along a walk over a run, of each core and of each byte of
//! memory, and what such a walk says of the run: where it first uses something that is not known.
#![tactic(auto)]

mod bytes;
pub mod laws;
mod side;
mod walk;

pub use bytes::ByteMasks;
pub use side::{Bytes, Side, stored_byte};
pub use walk::{FirstUse, Uses, opening_bytes, side_of};
