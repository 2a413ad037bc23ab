//! Scripts that walk a run in both directions, and what they print.
#![tactic(auto)]

mod calls;
mod debugger;
mod frame_lines;
mod frame_notes;
mod frame_walk;
mod kept_walk;
mod parsing;
mod printing;
mod ring;
mod running;
mod script;
mod searching;
mod special;
mod targets;
mod turns;

pub use debugger::Debugger;
pub use frame_lines::FrameLines;
pub use parsing::parse_script;
pub use running::Printed;
pub use script::{Command, Script, ScriptFault};
pub use targets::{Breakpoint, Target};
