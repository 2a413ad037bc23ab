ghost use Rattle.std.specs.Prelude.{◌≡◌, Some, ℕ, ◌++◌, ◌<◌, ◌^◌, map, length, unwrap_or, slice_index_or, None, IfSome, IfOk, OnOk, All};
ghost use Rattle.std.specs.List.{flat_map};
ghost use Rattle.std.specs.Option.{option_copied};
ghost use Rattle.xt_lex.specs.Values.{HaveAddresses};
ghost use Rattle.xt_layout.specs.Around.{each};
ghost use Rattle.xt_layout.specs.Addresses.{home, label_name, label_placed, labels_at, literal_name};
ghost use Rattle.xt_layout.specs.Bounds.{IsBelow};
ghost use Rattle.xt_layout.specs.Spots.{spot_at};

use crate::PoolWord;
use crate::addresses::signed;
use crate::need::literal_name;
use crate::spot::{Spot, address};
use std::alloc::{AllocError, Global};
use xt_lex::Label;
use xt_parse::{Line, Placed};

/// One label more.
fn add(labels: &mut Vec<Label>, name: &Placed, address: u64) -> Result<(), AllocError>
    requires { address < 2 ^ 40 }
    ensures { OnOk result (labels.new.items ≡ labels.old.items ++ map (label_placed address) (label_name (Some name.now))) }
{
    let name = name.name.clone()?;
    labels.push(Label {
        name,
        address: signed(address),
    })?;
    Ok(())
}

/// A label more, if there is a name, which has this address.
fn add_if_any(
    labels: &mut Vec<Label>,
    name: Option<&Placed>,
    address: u64,
) -> Result<(), AllocError>
    requires { address < 2 ^ 40 }
    ensures { OnOk result (labels.new.items ≡ labels.old.items ++ map (label_placed address) (label_name (option_copied name.entry))) }
{
    match name {
        Some(name) => add(labels, name, address),
        None => Ok(()),
    }
}

/// The names of a line at an address; a `.literal`'s has the address of its word, where it has one.
fn add_names(
    labels: &mut Vec<Label>,
    line: &Line,
    address: u64,
    home: Option<u64>,
) -> Result<(), AllocError>
    requires address { address < 2 ^ 40 }
    requires home { unwrap_or home address < 2 ^ 40 }
    ensures { OnOk result (labels.new.items ≡ labels.old.items
        ++ (map (label_placed address) (label_name line.now.label) ++ map (label_placed (unwrap_or home address)) (literal_name line.now.statement))) }
{
    add_if_any(labels, line.label.as_ref(), address)?;
    add_if_any(
        labels,
        literal_name(&line.statement),
        home.unwrap_or(address),
    )
}

/// The labels and literal names of a text, in the order of their definitions.
pub(crate) fn labels_of(
    alloc: Global,
    lines: &[Line],
    words: &[PoolWord],
    spots: &[Option<Spot>],
    addresses: &[u64],
    homes: &[Option<u64>],
) -> Result<Vec<Label>, AllocError>
    requires spots { spots.now ≡ each (λ before l rest. spot_at words.now before l) lines.now }
    requires below { All (IsBelow (2 ^ 34)) spots.now }
    requires small { All (λ a. a < 2 ^ 40) addresses.now }
    requires many { length homes.now ≡ length lines.now }
    requires homes { (k : ℕ) → k < length lines.now → slice_index_or homes.now k None ≡ home k words.now addresses.now }
    ensures labels { IfOk result (λ labels. labels.items ≡ flat_map (λ labels. labels) (each (labels_at words.now addresses.now) lines.now)) }
    ensures fit { IfOk result (λ labels. HaveAddresses labels.items) }
{
    let mut labels = Vec::new(alloc);
    for (k, line) in lines.iter().enumerate() {
        add_names(&mut labels, line, address(spots[k]), homes[k])?;
    }
    Ok(labels)
}
