//! A run with what is found of it.
use xt_frames::Judged;
use xt_handlers::Handlers;
use xt_trace::Run;

/// A run, and what is found of it.
#[derive(Drop)]
pub struct Whole {
    /// The run.
    pub run: Run,
    /// The answers for the six window handlers of its image, from the VECBASE on with which both
    /// cores open.
    pub handlers: Handlers,
    /// What is judged of it: nothing where some handler does not pass its check, else its first breach
    /// of the stack discipline, if there is one.
    pub judged: Judged,
}
