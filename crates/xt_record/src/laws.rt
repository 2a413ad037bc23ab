//! Laws of recordings. Each is the contract of a function that does nothing.
ghost use Rattle.std.specs.Prelude.{◌≡◌, ◌<◌, ℕ, All, List, None};
ghost use Rattle.xt_trace.specs.declared.run.Run.{Run};
ghost use Rattle.xt_image.specs.declared.image.Image.{Image};
ghost use Rattle.xt_image.specs.ImageParts.{IsWellFormed};
ghost use Rattle.xt_core.specs.Runs.{IsRunOf};
ghost use Rattle.xt_record.specs.Fields.{image_in};
ghost use Rattle.xt_record.specs.Fitting.{FitsRun};
ghost use Rattle.xt_record.specs.Format.{recording_fault, run_in};
ghost use Rattle.xt_record.specs.Written.{recording_bytes};

/// What is written of a well-formed image and a run of it has no fault as a recording, and holds
/// the same image and the same run. VECBASE and the operands and replies of the entries are to be
/// words of 32 bits; all other ranges follow from the rules of a run.
pub fn round_trip()
    ensures { (image : Image) (run : Run) → IsWellFormed image → IsRunOf image run → FitsRun run → (recording_fault (recording_bytes image run) ≡ None) × (image_in (recording_bytes image run) ≡ image) × (run_in (recording_bytes image run) ≡ run) }
{}

/// What is written of the image and the run that a recording holds has no fault, and what is written
/// of the image and the run that it holds is itself: migrating twice gives what migrating once gives.
/// The conditions are what `read_recording` says of each recording that it accepts.
pub fn migrated_once()
    ensures { (input : List ℕ) → All (λ b. b < 256) input → IsWellFormed (image_in input) → IsRunOf (image_in input) (run_in input) → let once = recording_bytes (image_in input) (run_in input) in (recording_fault once ≡ None) × (recording_bytes (image_in once) (run_in once) ≡ once) }
{}
