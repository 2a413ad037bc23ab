//! Inputs that are images or recordings.
ghost use Rattle.std.specs.Prelude.{◌≡◌, ◌≢◌, ◌≤◌, length, IfOk, IfErr, None, Some};
ghost use Rattle.xt_core.specs.Runs.{IsRunOf};
ghost use Rattle.xt_image.specs.Format.{image_of};
ghost use Rattle.xt_image.specs.ImageParts.{IsWellFormed};
ghost use Rattle.xt_image.specs.Rules.{image_fault};
ghost use Rattle.xt_record.specs.Fields.{image_in};
ghost use Rattle.xt_record.specs.Format.{run_in};
ghost use Rattle.xt_report.specs.Inputs.{image_refusal, recording_refusal};

use crate::status::Status;
use std::alloc::Global;
use xt_image::{Image, ImageFault, read};
use xt_record::{RecordFault, read_recording};
use xt_trace::Run;

/// The most bytes that an image may have.
pub const IMAGE_LIMIT: usize = 8_388_608;

/// The most bytes that a recording may have.
pub const RECORDING_LIMIT: usize = 201_326_592;

/// The image that an input is, or the status of its first fault.
pub fn image_in(alloc: Global, input: &[u8]) -> Result<Image, Status>
    requires { length input.now ≤ 8388608 }
    ensures ok { IfOk result (λ image. (image_fault input.now ≡ None) × (image ≡ image_of input.now)) }
    ensures accepted { IfOk result (λ image. image_refusal input.now ≡ None) }
    ensures well_formed { IfOk result IsWellFormed }
    ensures refused { IfErr result (λ status. status ≢ Status.Memory → image_refusal input.now ≡ Some status) }
{
    match read(alloc, input) {
        Ok(image) => Ok(image),
        Err(ImageFault::Memory) => Err(Status::Memory),
        Err(fault) => Err(Status::Image(fault)),
    }
}

/// The image and the run that a recording holds, or the status of its first fault.
#[tactic(auto, unfolding(crate::specs::Inputs::recording_refusal))]
pub fn recording_in(alloc: Global, input: &[u8]) -> Result<(Image, Run), Status>
    ensures accepted { IfOk result (λ read. recording_refusal input.now ≡ None) }
    ensures image { IfOk result (λ read. read.0 ≡ image_in input.now) }
    ensures run { IfOk result (λ read. read.1 ≡ run_in input.now) }
    ensures well_formed { IfOk result (λ read. IsWellFormed read.0) }
    ensures of_image { IfOk result (λ read. IsRunOf read.0 read.1) }
    ensures refused { IfErr result (λ status. status ≢ Status.Memory → recording_refusal input.now ≡ Some status) }
{
    match read_recording(alloc, input) {
        Ok(read) => Ok(read),
        Err(RecordFault::Memory) => Err(Status::Memory),
        Err(fault) => Err(Status::Recording(fault)),
    }
}
