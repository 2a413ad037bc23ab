use crate::options::Options;
use crate::trace::Trace;
use xt_map::History;

/// What a run did: the history of the bus and the traces of both cores.
pub struct Run {
    /// The options that it was made with.
    pub options: Options,
    /// The accesses of both cores, in the order in which the bus served them.
    pub history: History,
    /// What core 0 did.
    pub trace0: Trace,
    /// What core 1 did.
    pub trace1: Trace,
}

// A `drop` of its own is one call at each place where a value is dropped.
impl Drop for Run {
    fn drop(self) {
        let Run {
            options: _,
            history: _,
            trace0: _,
            trace1: _,
        } = self;
    }
}
