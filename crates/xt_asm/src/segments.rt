//! The segments and the entry of a text.
ghost use Rattle.std.specs.Prelude.{◌≡◌, ◌++◌, length, zip, All, IfOk, OnOk};
ghost use Rattle.xt_lex.specs.Values.{HaveAddresses};
ghost use Rattle.xt_parse.specs.Small.{HasShortExprs};
ghost use Rattle.xt_parse.specs.declared.line.Line.{Line};
ghost use Rattle.xt_asm.specs.Images.{content, entry_of, with_padding, segment_at, segments_of};

use crate::operands::value_of;
use std::alloc::{AllocError, Global};
use xt_layout::is_segment;
use xt_lex::Labels;
use xt_map::{Bytes, Segment, Segments};
use xt_parse::{Line, Statement};

/// The bytes of the lines up to the next `.seg`.
fn content(alloc: Global, lines: &[Line], pieces: &[Bytes]) -> Result<Vec<u8>, AllocError>
    requires { length pieces.now ≡ length lines.now }
    ensures { IfOk result (λ bytes. bytes.items ≡ content (zip lines.now pieces.now)) }
{
    let mut bytes = Vec::new(alloc);
    for (k, line) in lines.iter().enumerate() {
        if is_segment(&line.statement) {
            return Ok(bytes);
        }
        bytes.extend_from_slice(pieces[k].as_slice())?;
    }
    Ok(bytes)
}

/// Adds zeros up to a multiple of 4 bytes.
fn pad(bytes: &mut Vec<u8>) -> Result<(), AllocError>
    ensures { OnOk result (bytes.new.items ≡ with_padding bytes.old.items) }
{
    let n = bytes.len();
    bytes.resize(n + (4 - n % 4) % 4, 0)?;
    Ok(())
}

/// Adds the segment that a statement begins, if any; these are the lines after it, with their bytes.
fn add_segment(
    alloc: Global,
    segments: &mut Vec<Segment>,
    statement: &Statement,
    lines: &[Line],
    pieces: &[Bytes],
) -> Result<(), AllocError>
    requires { length pieces.now ≡ length lines.now }
    ensures { OnOk result (segments.new.items ≡ segments.old.items ++ segment_at statement.now (zip lines.now pieces.now)) }
{
    if let Statement::Seg(start) = statement {
        let mut bytes = content(alloc, lines, pieces)?;
        pad(&mut bytes)?;
        segments.push(Segment {
            addr: *start,
            bytes: Bytes::new(bytes),
        })?;
    }
    Ok(())
}

/// The segments that lines with their bytes begin.
pub(crate) fn segments_of(
    alloc: Global,
    lines: &[Line],
    pieces: &[Bytes],
) -> Result<Segments, AllocError>
    requires { length pieces.now ≡ length lines.now }
    ensures { IfOk result (λ segments. segments ≡ segments_of (zip lines.now pieces.now)) }
{
    let mut segments = Vec::new(alloc);
    for (k, line) in lines.iter().enumerate() {
        let behind = k + 1;
        add_segment(
            alloc,
            &mut segments,
            &line.statement,
            &lines[behind..],
            &pieces[behind..],
        )?;
    }
    Ok(Segments::new(segments))
}

/// The value of the first `.entry`, where there is one and it is known.
pub(crate) fn entry_of(labels: &Labels, lines: &[Line]) -> Option<i64>
    requires short { All (λ (l : Line). HasShortExprs l.statement) lines.now }
    requires addresses { HaveAddresses labels.now }
    ensures { result ≡ entry_of labels.now lines.now }
{
    for line in lines {
        if let Statement::Entry(value) = &line.statement {
            return value_of(labels, value);
        }
    }
    None
}
