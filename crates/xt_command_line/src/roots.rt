//! Addresses that words list, and where else a listing follows the code from, as the words of `dis` say it.
ghost use Rattle.std.specs.Prelude.{◌≡◌, [], IfOk, map, option_map};
ghost use Rattle.xt_command_line.specs.Options.{said_or};
ghost use Rattle.xt_command_line.specs.Numbers.{number_of};
ghost use Rattle.xt_command_line.specs.Parts.{all_said};
ghost use Rattle.xt_command_line.specs.Roots.{roots_of};

use crate::numbers::number;
use crate::turn_orders::parts_in;
use std::alloc::{AllocError, Global};
use std::marker::Model;

/// Addresses. Contracts see the list.
#[derive(Drop)]
pub struct Addresses {
    items: Vec<u32>,
}

impl Model for Addresses {
    ghost use Rattle.std.specs.Prelude.{ℕ, List};

    ghost Value = { List ℕ };

    ghost view = { λ s. s.items.items };
}

impl Addresses {
    /// These addresses, without a copy.
    pub fn new(items: Vec<u32>) -> Addresses
        ensures { result ≡ items.items }
    {
        Addresses { items }
    }

    /// The addresses.
    pub fn as_slice(&self) -> &[u32]
        ensures { result.now ≡ self.now }
    {
        &self.items
    }
}

// The numbers of these texts, each of which has to say one.
fn all_numbers(alloc: Global, parts: &[&str]) -> Result<Option<Addresses>, AllocError>
    ensures { IfOk result (λ list. list ≡ all_said number_of (map (λ part. part.now) parts.now)) }
{
    let mut numbers = Vec::new(alloc);
    for part in parts {
        match number(part) {
            Some(number) => numbers.push(number)?,
            None => return Ok(None),
        }
    }
    Ok(Some(Addresses::new(numbers)))
}

/// The addresses that a text lists: numbers with commas between them, one or more. None says that the text is no such list.
/// The only error is running out of memory.
pub fn addresses_in(alloc: Global, text: &str) -> Result<Option<Addresses>, AllocError>
    ensures { IfOk result (λ list. list ≡ roots_of text.now) }
{
    let parts = parts_in(alloc, text)?;
    all_numbers(alloc, &parts)
}

/// The roots that the text of `--roots` lists; without a text there is no root. None says that the text is no list of
/// addresses. The only error is running out of memory.
pub fn roots_or_none(alloc: Global, text: Option<&str>) -> Result<Option<Addresses>, AllocError>
    ensures { IfOk result (λ list. list ≡ said_or roots_of [] (option_map (λ t. t.now) text.entry)) }
{
    match text {
        Some(text) => addresses_in(alloc, text),
        None => Ok(Some(Addresses::new(Vec::new(alloc)))),
    }
}
