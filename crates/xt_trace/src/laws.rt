//! Laws of runs. Each is the contract of a function that does nothing, for a processor whose states are any type.
ghost use Rattle.std.specs.Prelude.{◌≡◌, ℕ, List};
ghost use Rattle.xt_trace.specs.Chip.{Chip};
ghost use Rattle.xt_trace.specs.Runs.{IsRunOf, Opening, Run, world_at_start, run_at, schedule_of};
ghost use Rattle.xt_trace.specs.Walks.{IsWalk};

/// The run of any list of cores is a run of its opening: its history is legal and of cores 0 and 1, its traces
/// are the processor's over the replies of their cores' entries, and the accesses of each core in the history
/// are those of its trace.
pub fn run_of_a_list_is_a_run<S>()
    ensures { (P : Chip S) (o : Opening S) (list : List ℕ) → IsRunOf P o (run_at P o list) }
{}

/// A run of an opening is the run of its own schedule, record for record.
pub fn run_is_that_of_its_schedule<S>()
    ensures { (P : Chip S) (o : Opening S) (r : Run S) → IsRunOf P o r → run_at P o (schedule_of r) ≡ r }
{}

/// Each number of a run's own schedule is one turn of that core, whose record is the next of its trace.
pub fn schedule_walks_the_records<S>()
    ensures { (P : Chip S) (o : Opening S) (r : Run S) → IsRunOf P o r → IsWalk P (schedule_of r) (world_at_start o) r.trace0.records r.trace1.records }
{}
