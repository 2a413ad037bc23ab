//! The bus: one sequential memory that both cores reach, and the history of their accesses.
//!
//! Every access of a core is one step of the bus, which answers it from the memory as the steps
//! before left it, and appends it with its reply to the history.
#![tactic(auto)]

mod bus;
mod bytes;
mod memory;
mod places;
mod uart;

pub use bus::Bus;
pub use memory::Memory;
pub use uart::Uart;
