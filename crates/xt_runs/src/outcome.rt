//! What is wanted of a run, and how it ended.
ghost use Rattle.std.specs.Prelude.{◌≡◌, None};

use xt_map::Text;
use xt_report::Status;
use xt_trace::Run;

/// What is written of a run of an image.
#[derive(Clone, Copy)]
pub enum Wanted {
    /// `run`: the report, and where the words ask for them the lines of the traces.
    Report,
    /// `record`: the recording.
    Recording,
}

/// How the program ended.
#[derive(Drop)]
pub struct Outcome {
    /// The status, which says the exit code and the line for standard error.
    pub status: Status,
    /// The run, exactly where the command is `run`, `record` or `gen` and the status is `Done` or
    /// `WriteFault`.
    pub run: Option<Run>,
    /// The line of the first requirement that the run does not meet; none where it meets all, or there is no run.
    pub unmet: Option<Text>,
}

// An end without a run.
pub fn without_run(status: Status) -> Outcome
    ensures status { result.status ≡ status }
    ensures run { result.run ≡ None }
    ensures unmet { result.unmet ≡ None }
{
    Outcome {
        status,
        run: None,
        unmet: None,
    }
}
