//! What is written of a run, before it is.
ghost use Rattle.std.specs.Prelude.{◌≡◌, IfOk};
ghost use Rattle.xt_core.specs.Runs.{IsRunOf};
ghost use Rattle.xt_image.specs.ImageParts.{IsWellFormed};
ghost use Rattle.xt_report.specs.Framed.{IsFramed};
ghost use Rattle.xt_runs.specs.Told.{IsTold, run_in, verdict_in};

use crate::analyses::analyses_text;
use crate::outcome::Wanted;
use crate::verdicts::judged;
use std::alloc::{AllocError, Global};
use xt_command_line::RunOptions;
use xt_frames::Judged;
use xt_image::Image;
use xt_map::Text;
use xt_report::Whole;
use xt_trace::Run;

/// What is written of a run.
pub enum Told {
    /// Its report, and the texts of the analyses that the words ask for.
    Report(Whole, Text),
    /// Its recording, for which nothing is judged.
    Recording(Run),
}

// A `drop` of its own is one call at each place where a value is dropped.
impl Drop for Told {
    fn drop(self) {
        match self {
            Told::Report(_, _) | Told::Recording(_) => {}
        }
    }
}

/// What is written of a run of an image. The only error is running out of memory.
///
/// Conditions: the image is well formed, and the run is one of this image, which is framed.
pub fn told_of(
    alloc: Global,
    wanted: Wanted,
    options: &RunOptions,
    image: &Image,
    run: Run,
) -> Result<Told, AllocError>
    requires image { IsWellFormed image.now }
    requires run { IsRunOf image.now run }
    requires framed { IsFramed image.now run }
    ensures { IfOk result (IsTold wanted options.now image.now run) }
{
    match wanted {
        Wanted::Report => {
            let whole = judged(alloc, image, run)?;
            let analyses = analyses_text(alloc, options, image, &whole.run)?;
            Ok(Told::Report(whole, analyses))
        }
        Wanted::Recording => Ok(Told::Recording(run)),
    }
}

impl Told {
    /// The run.
    pub fn run(&self) -> &Run
        ensures { result.now ≡ run_in self.now }
    {
        match self {
            Told::Report(whole, _) => &whole.run,
            Told::Recording(run) => run,
        }
    }

    /// Its verdict, if it was judged.
    pub fn verdict(&self) -> Option<Judged>
        ensures { result ≡ verdict_in self.now }
    {
        match self {
            Told::Report(whole, _) => Some(whole.judged),
            Told::Recording(_) => None,
        }
    }

    /// The run alone.
    pub fn into_run(self) -> Run
        ensures { result ≡ run_in self }
    {
        match self {
            Told::Report(whole, _) => whole.run,
            Told::Recording(run) => run,
        }
    }
}
