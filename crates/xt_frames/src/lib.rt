//! The machine with unbounded call frames in place of windows: its state, its step, its save areas,
//! the kinds of breach of its stack discipline, and the walk of the judge over a run's records.
#![tactic(auto)]

mod breach;
mod callers;
mod frames;
mod holes;
mod judged;
mod kinds;
pub mod laws;
mod levels;
mod nested;
mod quick;
mod registers;
mod snapshots;
mod view;

pub use breach::{
    Case, Limits, Tested, first_shown, fresh_after, insn_tests, is_return, other_tests, planned,
    return_tests, vector_breach,
};
pub use callers::{calls_in, change, depth_of, newest_of, sp_in, under};
pub use frames::Frames;
pub use holes::{
    Nested, UndefinedParts, ends_nested, is_nesting, mark_read, moved_to, moves_marks,
};
pub use judged::give_numbers;
pub use kinds::{Breach, BreachKind, HandlerPhase, Judged};
pub use nested::{begin, go_on};
pub use registers::{after_call, after_return, kept_of};
pub use snapshots::Snapshot;
pub use view::{Call, Caller, FrameRegisters, NextEvent, StepSummary};
