//! Laws. Each is the contract of a function that does nothing.
ghost use Rattle.std.specs.Prelude.{◌≡◌, ℕ, List};
ghost use Rattle.xt_trace.specs.declared.options.Options.{Options};
ghost use Rattle.xt_trace.specs.declared.run.Run.{Run};
ghost use Rattle.xt_trace.specs.Validity.{IsValid};
ghost use Rattle.xt_image.specs.declared.image.Image.{Image};
ghost use Rattle.xt_core.specs.Runs.{IsRunOf};
ghost use Rattle.xt_machine.specs.InterruptBits.{BitsAgree};
ghost use Rattle.xt_machine.specs.Lists.{HasSchedule, run_of_list, schedule_in};

/// The run of any list of cores is a run of the image.
pub fn run_of_list_is_run()
    ensures { (image : Image) (o : Options) (list : List ℕ) → IsValid o → IsRunOf image (run_of_list image o list) }
{}

/// A run of an image is the run of its own schedule: in its history, and in the counts, places, stops
/// and last program counters of its traces.
pub fn run_is_that_of_its_schedule()
    ensures { (image : Image) (r : Run) → IsRunOf image r → run_of_list image r.options (schedule_in r) ≡ r }
{}

/// A run of an image has a schedule.
pub fn run_has_schedule()
    ensures { (image : Image) (r : Run) → IsRunOf image r → HasSchedule r }
{}

/// The five definitions of the bits of interrupts agree: each bit of a level is software's or a timer's,
/// INTENABLE keeps these, and a timer sets the bit that a write of its CCOMPARE clears.
pub fn interrupt_bits_agree()
    ensures { BitsAgree }
{}
