ghost use Rattle.std.specs.Prelude.{◌≡◌, IfOk};
ghost use Rattle.xt_gen.specs.Generated.{generated_image, segment_at};
ghost use Rattle.xt_image.specs.ImageParts.{IsWellFormed};
ghost use Rattle.xt_gen.specs.Generated.{code, handlers};

use crate::program::{CODE, HANDLERS};
use crate::table::table;
use std::alloc::{AllocError, Global};
use xt_image::{Image, made_head};
use xt_map::{Bytes, Segment, Segments};

// The segment of the window handlers.
#[tactic(auto, unfolding(crate::specs::Generated::handlers))]
fn handlers_segment(alloc: Global) -> Result<Segment, AllocError>
    ensures { IfOk result (λ s. s ≡ segment_at 0x40080000 handlers) }
{
    let bytes = Bytes::new(HANDLERS.to_vec(alloc)?);
    Ok(Segment {
        addr: 0x4008_0000,
        bytes,
    })
}

// The segment of the program.
#[tactic(auto, unfolding(crate::specs::Generated::code))]
fn code_segment(alloc: Global) -> Result<Segment, AllocError>
    ensures { IfOk result (λ s. s ≡ segment_at 0x400D0000 code) }
{
    let bytes = Bytes::new(CODE.to_vec(alloc)?);
    Ok(Segment {
        addr: 0x400D_0000,
        bytes,
    })
}

// The image of a number.
fn image_of(alloc: Global, number: u32) -> Result<Image, AllocError>
    ensures { IfOk result (λ i. i ≡ generated_image number) }
{
    let segments = vec![in alloc;
        Segment {
            addr: 0x3F40_0000,
            bytes: table(alloc, number)?,
        },
        Segment {
            addr: 0x3FFB_0000,
            bytes: Bytes::new(vec![in alloc; 0u8; 8]?),
        },
        handlers_segment(alloc)?,
        code_segment(alloc)?,
    ]?;
    Ok(Image {
        head: made_head(),
        entry: 0x400D_0018,
        digest: true,
        segments: Segments::new(segments),
    })
}

/// The image that `gen` makes of a number. The only error is running out of memory.
///
/// It has the head of an image that is made, a digest, and four segments: at 0x3F400000 the 32,768
/// numbers that follow the given one, at 0x3FFB0000 the words `total` and `done`, at 0x40080000 the
/// six window handlers, and at 0x400D0000 the program.
pub fn generated_image(alloc: Global, number: u32) -> Result<Image, AllocError>
    ensures image { IfOk result (λ i. i ≡ generated_image number) }
    ensures well_formed { IfOk result IsWellFormed }
{
    let image = image_of(alloc, number)?;
    Ok(image)
}
