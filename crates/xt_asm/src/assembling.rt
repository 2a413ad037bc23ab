//! From a text to its image or its map.
ghost use Rattle.std.specs.Prelude.{◌≡◌, ◌≤◌, length, IfOk};
ghost use Rattle.xt_lex.specs.Tokens.{tokens_of};
ghost use Rattle.xt_parse.specs.Lines.{Parses, parsed_lines};
ghost use Rattle.xt_parse.specs.Small.{IsParsed};
ghost use Rattle.xt_image.specs.ImageParts.{IsWellFormed};
ghost use Rattle.xt_asm.specs.Images.{Assembles};
ghost use Rattle.xt_asm.specs.Maps.{Maps};

use crate::image::image_of;
use crate::map::map_of;
use std::alloc::Global;
use xt_image::Image;
use xt_layout::{layout, place};
use xt_lex::{AsmFault, lex};
use xt_map::Text;
use xt_parse::{Lines, parse};

/// The lines of a text.
fn lines_of(alloc: Global, text: &[u8]) -> Result<Lines, AsmFault>
    requires { length text.now ≤ 1048576 }
    ensures lines { Parses result (parsed_lines (tokens_of text.now)) }
    ensures small { IfOk result IsParsed }
{
    let tokens = lex(alloc, text)?;
    parse(alloc, &tokens)
}

/// The image of an assembly text of at most 1,048,576 bytes, or the first fault of the text.
///
/// If any line breaks the grammar, the first such line is the fault (kind 8). Else it is the first line that has a fault, with
/// the first of its kinds in the order 4, 1, 2, 5, 6, 7, 3; else kind 9 where there is no `.entry` or no `.seg`. The head of
/// the image has flash mode 2, size byte 0x20, write-protect pin 0xEE and greatest revision 0xFFFF, and a digest is wanted.
pub fn assemble(alloc: Global, text: &[u8]) -> Result<Image, AsmFault>
    requires { length text.now ≤ 1048576 }
    ensures exact { Assembles result text.now }
    ensures well_formed { IfOk result IsWellFormed }
{
    let lines = match lines_of(alloc, text) {
        Ok(lines) => lines,
        Err(fault) => return Err(fault),
    };
    let pooled = place(alloc, lines)?;
    let laid = layout(alloc, &pooled)?;
    image_of(alloc, &pooled, &laid)
}

/// The labels of an assembly text of at most 1,048,576 bytes, or the first fault of the text, as `assemble` has it.
///
/// A line `XXXXXXXX NAME` for each label and each name of a `.literal`: the address in eight upper-case hexadecimal digits and
/// the name, by address and then by the bytes of the name. A text without labels has an empty map.
pub fn label_map(alloc: Global, text: &[u8]) -> Result<Text, AsmFault>
    requires { length text.now ≤ 1048576 }
    ensures { Maps result text.now }
{
    let lines = match lines_of(alloc, text) {
        Ok(lines) => lines,
        Err(fault) => return Err(fault),
    };
    let pooled = place(alloc, lines)?;
    let laid = layout(alloc, &pooled)?;
    match image_of(alloc, &pooled, &laid) {
        Ok(_) => Ok(map_of(alloc, laid.labels())?),
        Err(fault) => Err(fault),
    }
}
