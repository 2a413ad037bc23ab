//! The command `outcomes`.
ghost use Rattle.std.specs.Prelude.{◌≡◌, ◌≢◌, ◌≤◌, length, IfOk, IfErr, Some};
ghost use Rattle.xt_image.specs.Format.{image_of};
ghost use Rattle.xt_image.specs.ImageParts.{IsWellFormed};
ghost use Rattle.xt_report.specs.Inputs.{image_refusal};
ghost use Rattle.xt_command_line.specs.Outcomes.{AreOutcomeOptions};
ghost use Rattle.xt_tools.specs.Commands.{IsMade};
ghost use Rattle.xt_cli.specs.Outcomes.{AreOutcomesTold};

use std::alloc::{AllocError, Global};
use xt_command_line::OutcomeOptions;
use xt_image::{Image, well_formed_by_rules};
use xt_judged::outcomes_text;
use xt_map::Text;
use xt_moment_search::moments_text;
use xt_report::{Status, image_in};

// The text of everything that can come out of an image.
fn all_outcomes(alloc: Global, options: &OutcomeOptions, image: &Image) -> Result<Text, AllocError>
    requires image { IsWellFormed image.now }
    requires options { AreOutcomeOptions options.now }
    ensures { IfOk result (λ text. AreOutcomesTold options.now image.now text) }
{
    well_formed_by_rules();
    let run = options.run.with_entry(image.entry);
    let addresses = options.words.as_slice();
    if options.any_time {
        return moments_text(alloc, image, &run, addresses, options.states, options.shown);
    }
    outcomes_text(alloc, image, &run, options.timed, addresses, options.states)
}

/// Everything that can come out of an image in any order of the turns, or the status of the image's first fault.
pub fn outcomes(alloc: Global, options: &OutcomeOptions, input: &[u8]) -> Result<Text, Status>
    requires limit { length input.now ≤ 8388608 }
    requires options { AreOutcomeOptions options.now }
    ensures ok { IfOk result (λ bytes. IsMade (image_refusal input.now) (AreOutcomesTold options.now (image_of input.now) bytes)) }
    ensures refused { IfErr result (λ status. status ≢ Status.Memory → image_refusal input.now ≡ Some status) }
{
    let image = image_in(alloc, input)?;
    match all_outcomes(alloc, options, &image) {
        Ok(text) => Ok(text),
        Err(_) => Err(Status::Memory),
    }
}
