//! The commands `dis` and `check`.
ghost use Rattle.std.specs.Prelude.{◌≡◌, ◌≢◌, ◌≤◌, ◌%◌, length, IfOk, IfErr, Some};
ghost use Rattle.xt_image.specs.Format.{image_of};
ghost use Rattle.xt_image.specs.ImageParts.{IsWellFormed};
ghost use Rattle.xt_report.specs.Checks.{check_text};
ghost use Rattle.xt_report.specs.Inputs.{image_refusal};
ghost use Rattle.xt_tools.specs.Commands.{IsListed, IsMade};

use std::alloc::{AllocError, Global};
use xt_command_line::{Listing, Way};
use xt_disasm::listing;
use xt_flow::{flow_listing, flow_source, source};
use xt_image::Image;
use xt_map::Text;
use xt_report::{Status, check_text, image_in};

// The listing of an image.
fn listed(alloc: Global, what: &Listing, image: &Image) -> Result<Text, AllocError>
    requires { IsWellFormed image.now }
    ensures { IfOk result (λ text. IsListed what.now image.now text) }
{
    match (&what.way, what.as_text) {
        (Way::Sweep, false) => listing(alloc, image),
        (Way::Sweep, true) => source(alloc, image),
        (Way::Flow(from), as_text) => {
            let entry1 = from.entry1.unwrap_or(image.entry);
            let roots = from.roots.as_slice();
            if as_text {
                flow_source(alloc, image, from.vecbase, entry1, roots)
            } else {
                flow_listing(alloc, image, from.vecbase, entry1, roots)
            }
        }
    }
}

/// An image's listing, or the status of the image's first fault.
pub fn list(alloc: Global, what: &Listing, input: &[u8]) -> Result<Text, Status>
    requires { length input.now ≤ 8388608 }
    ensures ok { IfOk result (λ bytes. IsMade (image_refusal input.now) (IsListed what.now (image_of input.now) bytes)) }
    ensures refused { IfErr result (λ status. status ≢ Status.Memory → image_refusal input.now ≡ Some status) }
{
    let image = image_in(alloc, input)?;
    match listed(alloc, what, &image) {
        Ok(text) => Ok(text),
        Err(_) => Err(Status::Memory),
    }
}

/// What an image holds, or the status of the image's first fault.
pub fn check(alloc: Global, vecbase: u32, input: &[u8]) -> Result<Text, Status>
    requires aligned { vecbase % 1024 ≡ 0 }
    requires limit { length input.now ≤ 8388608 }
    ensures ok { IfOk result (λ bytes. IsMade (image_refusal input.now) (bytes ≡ check_text (image_of input.now) vecbase)) }
    ensures refused { IfErr result (λ status. status ≢ Status.Memory → image_refusal input.now ≡ Some status) }
{
    let image = image_in(alloc, input)?;
    match check_text(alloc, &image, vecbase) {
        Ok(text) => Ok(text),
        Err(_) => Err(Status::Memory),
    }
}
