//! Step records, traces, options and runs; and, over an abstract processor, the run of two cores over one bus and its schedule.
#![tactic(auto)]

mod laws;
mod options;
mod printed;
mod record;
mod records;
mod run;
mod trace;

pub use laws::{run_is_that_of_its_schedule, run_of_a_list_is_a_run, schedule_walks_the_records};
pub use options::{Options, Stack};
pub use printed::line;
pub use record::{RegWrite, StepKind, StepRecord};
pub use records::Records;
pub use run::Run;
pub use trace::{Places, Stop, Trace};
