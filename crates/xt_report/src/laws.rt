//! Laws of the texts, and of a run's frames. Each is the contract of a function that does nothing.
ghost use Rattle.xt_core.specs.Runs.{IsRunOf};
ghost use Rattle.xt_image.specs.ImageParts.{IsWellFormed};
ghost use Rattle.xt_rows.specs.RowLaws.{IsWord};
ghost use Rattle.xt_report.specs.Framed.{IsFramed, RunsAreFramed};
ghost use Rattle.xt_report.specs.Reports.{SendsAsMemory};

use xt_image::Image;
use xt_trace::Run;

/// What UART0 has sent after the accesses of a history is what it had sent before them, and then the
/// bytes that the history sends.
pub fn history_sends_as_memory()
    ensures { SendsAsMemory }
{}

/// Windows are frames, of every run of an image: where the six window handlers pass their check and
/// the two stacks are apart, the judged records before the first breach are a run of the machine with
/// unbounded call frames, and each whole stretch of handler steps has moved one frame.
pub fn runs_are_framed()
    ensures { RunsAreFramed }
{}

// A number of 32 bits is a word, by its type.
fn is_word(number: u32)
    ensures { IsWord number }
{}

/// Windows are frames, of this run of an image.
///
/// Conditions: the image is well formed, and the run is one of this image.
pub fn run_is_framed(image: &Image, run: &Run)
    requires image { IsWellFormed image.now }
    requires run { IsRunOf image.now run.now }
    ensures { IsFramed image.now run.now }
{
    is_word(run.options.vecbase);
    is_word(run.options.entry1);
}
