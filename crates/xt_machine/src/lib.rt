//! The machine: two cores over one bus, by a schedule or on two threads.
#![tactic(auto)]

mod driving;
mod files;
mod laws;
mod machine;
mod pair;
mod scheduled;
mod threads;
mod turns;

pub use driving::drive;
pub use laws::{
    interrupt_bits_agree, run_has_schedule, run_is_that_of_its_schedule, run_of_list_is_run,
};
pub use machine::Machine;
pub use scheduled::run_schedule;
pub use threads::run;
