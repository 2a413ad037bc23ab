//! What `check` prints.
ghost use Rattle.std.specs.Prelude.{◌≡◌, ◌%◌, ◌++◌, IfOk, OnOk, string_bytes};
ghost use Rattle.xt_report.specs.Checks.{check_text, image_line, line_of, segment_lines, yes_or_no};
ghost use Rattle.xt_image.specs.ImageParts.{IsWellFormed};

use crate::verdict_lines::handlers_line;
use std::alloc::{AllocError, Global};
use xt_disasm::push_segment_line;
use xt_discipline::handlers_of;
use xt_image::{Image, well_formed_is_placed};
use xt_map::{Segment, Text};
use xt_word::hexadecimal;

fn yes_or_no(flag: bool) -> &'static str
    ensures { result.now ≡ yes_or_no flag }
{
    if flag { "yes" } else { "no" }
}

// The line of an image.
fn image_text(alloc: Global, image: &Image) -> Result<String, AllocError>
    ensures { IfOk result (λ text. string_bytes text ≡ image_line image.now) }
{
    let count = image.segments.len();
    let entry = hexadecimal(alloc, image.entry)?;
    let digest = yes_or_no(image.digest);
    format!(in alloc; "image segments {count} entry {entry} digest {digest}\n")
}

// Appends the lines of segments.
fn push_segments(out: &mut String, segments: &[Segment]) -> Result<(), AllocError>
    ensures { OnOk result (string_bytes out.new ≡ string_bytes out.old ++ segment_lines segments.now) }
{
    for (number, segment) in segments.iter().enumerate() {
        push_segment_line(out, number, segment)?;
    }
    Ok(())
}

/// What an image holds, in lines that each end with a newline:
///
/// ```text
/// image segments N entry ADDR digest yes
/// segment I ADDR LENGTH REGION
/// handlers of4 V uf4 V of8 V uf8 V of12 V uf12 V
/// ```
///
/// The first line ends in `digest no` where no digest follows the checksum. There is a line for each
/// segment, as in the listing. N, I and LENGTH are decimal, ADDR has eight upper-case hexadecimal
/// digits. V is `yes`, or `no` and the offset at which the window handler in the vector from `vecbase`
/// on fails its check. The only error is running out of memory.
///
/// Conditions: the image is well formed, and `vecbase` is a multiple of 1024.
#[tactic(auto, unfolding(crate::specs::Checks::check_text))]
pub fn check_text(alloc: Global, image: &Image, vecbase: u32) -> Result<Text, AllocError>
    requires image { IsWellFormed image.now }
    requires aligned { vecbase % 1024 ≡ 0 }
    ensures { IfOk result (λ text. text ≡ check_text image.now vecbase) }
{
    well_formed_is_placed();
    let handlers = handlers_of(alloc, image, vecbase)?;
    let handlers = handlers_line(alloc, &handlers)?;
    let mut text = image_text(alloc, image)?;
    push_segments(&mut text, image.segments.as_slice())?;
    text.push_str(handlers.as_str())?;
    Ok(Text::new(text.into_bytes()))
}
