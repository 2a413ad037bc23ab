use xt_exec::plans::Pending;
use xt_trace::StepRecord;

/// What a turn that has begun is.
#[derive(Clone, Copy)]
pub enum StartedTurn {
    /// A whole turn, with this record.
    Local(StepRecord),
    /// The first half of one, which waits for the reply to its access.
    Asks(Pending),
}
