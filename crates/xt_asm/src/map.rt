//! The map of a text: its labels with their addresses.
ghost use Rattle.std.specs.Prelude.{◌≡◌, ◌++◌, IfOk, OnOk, IsPermutation, IsSorted, filter, flat_map, map};
ghost use Rattle.xt_asm.specs.Maps.{IsMapOf, counts, row_cmp, row_line, row_of, rows_of};

use crate::pieces::word_of;
use std::alloc::{AllocError, Global};
use xt_lex::{Label, Labels, Name};
use xt_map::Text;
use xt_word::hexadecimal;

/// A name with its address. Rows are in the order of the addresses, and then of the names.
#[derive(Drop, PartialEq, Eq, PartialOrd, Ord)]
pub(crate) struct Row {
    /// The address.
    pub(crate) address: u32,
    /// The name.
    pub(crate) name: Name,
}

/// Whether a label counts: of two with one name the first does.
fn counts(labels: &Labels, label: &Label) -> bool
    ensures { result ≡ counts labels.now label.now }
{
    match labels.first(&label.name) {
        Some(first) => word_of(label.address) == word_of(first.address),
        None => false,
    }
}

/// The row of a label.
fn row_of(label: &Label) -> Result<Row, AllocError>
    ensures { IfOk result (λ row. row ≡ row_of label.now) }
{
    Ok(Row {
        address: word_of(label.address),
        name: label.name.clone()?,
    })
}

/// The rows of the labels that count.
fn rows_of(alloc: Global, labels: &Labels) -> Result<Vec<Row>, AllocError>
    ensures { IfOk result (λ rows. rows.items ≡ rows_of labels.now) }
{
    let mut rows = Vec::new(alloc);
    for label in labels.as_slice() {
        if counts(labels, label) {
            rows.push(row_of(label)?)?;
        }
    }
    Ok(rows)
}

/// Adds the line of a row.
fn put_row(alloc: Global, text: &mut Vec<u8>, row: &Row) -> Result<(), AllocError>
    ensures { OnOk result (text.new.items ≡ text.old.items ++ row_line row.now) }
{
    text.extend_from_slice(hexadecimal(alloc, row.address)?.as_bytes())?;
    text.push(b' ')?;
    text.extend_from_slice(row.name.as_slice())?;
    text.push(b'\n')?;
    Ok(())
}

/// The lines of rows.
fn text_of(alloc: Global, rows: &[Row]) -> Result<Text, AllocError>
    ensures { IfOk result (λ text. text ≡ flat_map row_line rows.now) }
{
    let mut text = Vec::new(alloc);
    for row in rows {
        put_row(alloc, &mut text, row)?;
    }
    Ok(Text::new(text))
}

/// The map of labels: a line for each, by address and then name.
pub(crate) fn map_of(alloc: Global, labels: &Labels) -> Result<Text, AllocError>
    ensures { IfOk result (IsMapOf labels.now) }
{
    let mut rows = rows_of(alloc, labels)?;
    rows.sort_unstable();
    text_of(alloc, rows.as_slice())
}
