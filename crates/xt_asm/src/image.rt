//! The image of lines that are laid out.
ghost use Rattle.std.specs.Prelude.{◌≡◌, ℤ, ◌<ℤ◌, ◌≤ℤ◌, ◌^◌, pos, length, option_map, All, Some, None, true};
ghost use Rattle.std.specs.List.{list_any};
ghost use Rattle.xt_lex.specs.declared.fault.AsmFault.TheVariants.{Place};
ghost use Rattle.xt_lex.specs.Values.{HaveAddresses};
ghost use Rattle.xt_parse.specs.declared.line.Line.{Line};
ghost use Rattle.xt_parse.specs.Small.{HasShortExprs, IsParsed};
ghost use Rattle.xt_layout.specs.Findings.{least};
ghost use Rattle.xt_layout.specs.Addresses.{labels_of};
ghost use Rattle.xt_layout.specs.Faults.{HasAddresses, layout_of};
ghost use Rattle.xt_asm.specs.Images.{AssemblesLines, Closes, entry_of};
ghost use Rattle.xt_asm.specs.Kinds.{has_segment, is_code};
ghost use Rattle.xt_asm.specs.Pieces.{ArePieces, sources_of};
ghost use Rattle.xt_asm.specs.Walks.{own_first};

use crate::segments::{entry_of, segments_of};
use crate::targets::targets_of;
use crate::walk::{first_own_fault, pieces_of};
use std::alloc::Global;
use xt_image::{Image, made_head};
use xt_layout::{Laid, Pooled, is_segment, least};
use xt_lex::{AsmFault, AsmPlace, Labels};
use xt_map::Bytes;
use xt_parse::Line;

/// Whether a line is a `.seg`.
fn has_segment(lines: &[Line]) -> bool
    ensures { result ≡ has_segment lines.now }
{
    for line in lines {
        if is_segment(&line.statement) {
            return true;
        }
    }
    false
}

/// An address as a word.
fn word_of(value: i64) -> u32
    requires least { pos 0 ≤ℤ value }
    requires most { value <ℤ pos (2 ^ 32) }
    ensures { pos result ≡ value }
{
    value as u32
}

/// An entry as an address.
fn entry_address(entry: Option<i64>) -> Option<u32>
    requires { (v : ℤ) → entry ≡ Some v → is_code v ≡ true }
    ensures { option_map (λ a. pos a) result ≡ entry }
{
    match entry {
        Some(value) => Some(word_of(value)),
        None => None,
    }
}

/// The fault of a text without an entry or without a segment.
fn no_entry() -> AsmFault
    ensures { result ≡ Place (record { line = 0; column = 0; kind = 9 }) }
{
    AsmFault::Place(AsmPlace {
        line: 0,
        column: 0,
        kind: 9,
    })
}

/// The image of lines with these bytes, which have no fault but perhaps no entry or no segment (kind 9).
fn closed_image(
    alloc: Global,
    lines: &[Line],
    labels: &Labels,
    pieces: &[Bytes],
) -> Result<Image, AsmFault>
    requires labels { labels.now ≡ labels_of lines.now }
    requires addresses { HaveAddresses labels.now }
    requires short { All (λ (l : Line). HasShortExprs l.statement) lines.now }
    requires pieces { ArePieces (sources_of lines.now) pieces.now }
    requires clear { own_first lines.now ≡ None }
    ensures { Closes result lines.now }
{
    let Some(entry) = entry_address(entry_of(labels, lines)) else {
        return Err(no_entry());
    };
    if !has_segment(lines) {
        return Err(no_entry());
    }
    let segments = segments_of(alloc, lines, pieces)?;
    Ok(Image {
        head: made_head(),
        entry,
        digest: true,
        segments,
    })
}

/// The first of a fault and another that may be there.
fn sooner(earlier: AsmPlace, own: Option<AsmPlace>) -> AsmPlace
    ensures { Some result ≡ least (Some earlier) own }
{
    match least(Some(earlier), own) {
        Some(place) => place,
        None => earlier,
    }
}

/// The image of lines that are laid out, or their first fault.
pub(crate) fn image_of(alloc: Global, pooled: &Pooled, laid: &Laid) -> Result<Image, AsmFault>
    requires parsed { IsParsed pooled.now }
    requires layout { laid.now ≡ layout_of pooled.now }
    requires fit { HasAddresses laid.now }
    ensures { AssemblesLines result pooled.now }
{
    let lines = pooled.lines();
    let words = pooled.words();
    let labels = laid.labels();
    let addresses = laid.lines();
    let targets = targets_of(alloc, lines, words, laid.words())?;
    let targets = targets.as_slice();
    let earlier = least(pooled.fault(), laid.fault());
    if let Some(place) = earlier {
        let own = first_own_fault(alloc, lines, labels, addresses, targets)?;
        return Err(AsmFault::Place(sooner(place, own)));
    }
    match pieces_of(alloc, lines, words, labels, addresses, targets) {
        Ok(pieces) => closed_image(alloc, lines, labels, pieces.as_slice()),
        Err(fault) => Err(fault),
    }
}
