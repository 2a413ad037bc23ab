//! The parts of a recording.
ghost use Rattle.std.specs.Prelude.{◌≡◌, ◌≤◌, length};
ghost use Rattle.xt_record.specs.Heads.{HasImage, ReadsParts};

use crate::entries::{entries_in, options_fault, options_in};
use crate::fault::RecordFault;
use crate::head::head_fault;
use std::alloc::Global;
use xt_image::{Image, ImageFault, word};
use xt_map::Entry;
use xt_trace::Options;

/// The image of a recording, the options of its run, and its entries.
#[derive(Drop)]
pub(crate) struct Parts {
    pub image: Image,
    pub options: Options,
    pub entries: Vec<Entry>,
}

// The image, or what is wrong with it.
fn image_in(alloc: Global, bytes: &[u8]) -> Result<Image, RecordFault>
    requires { length bytes.now ≤ 8388608 }
    ensures { HasImage result bytes.now }
{
    match xt_image::read(alloc, bytes) {
        Ok(image) => Ok(image),
        Err(ImageFault::Memory) => Err(RecordFault::Memory),
        Err(fault) => Err(RecordFault::Image(fault)),
    }
}

/// The parts, or the first thing that is wrong with them by themselves.
pub(crate) fn parts_in(alloc: Global, bytes: &[u8]) -> Result<Parts, RecordFault>
    ensures { ReadsParts result bytes.now }
{
    if let Some(fault) = head_fault(bytes) {
        return Err(fault);
    }
    let (front, rest) = bytes.split_at(12 + word(bytes, 8) as usize);
    let (_, file) = front.split_at(12);
    let image = image_in(alloc, file)?;
    let options = options_in(rest);
    if let Some(fault) = options_fault(word(bytes, 4), &options) {
        return Err(fault);
    }
    Ok(Parts {
        image,
        options,
        entries: entries_in(alloc, rest)?,
    })
}
