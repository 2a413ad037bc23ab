//! The bus between two threads.
//!
//! The bus is the only item of a queue of capacity one. Whoever takes it out makes one access and
//! puts it back, so all accesses of both cores stand in one order, the order of the history. Each
//! core has a seat, which knows that core's own accesses with their replies.
#![tactic(auto)]

mod hands;
mod laws;
mod rule;
mod shared;
mod view;

pub use laws::steps_keep_rule;
pub use shared::{CoreSeat, NoMemory, SharedBus};
