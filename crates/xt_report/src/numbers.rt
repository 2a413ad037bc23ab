//! A name with numbers behind it.
ghost use Rattle.std.specs.Prelude.{◌≡◌, ◌++◌, IfOk, codes, string_bytes};
ghost use Rattle.xt_report.specs.Statuses.{name_and_numbers};

use std::alloc::{AllocError, Global};

/// The numbers that a fault or a status keeps.
#[derive(Clone, Copy)]
pub enum Numbers {
    /// None.
    Zero,
    /// One number.
    One(u32),
    /// Two numbers.
    Two(u32, u32),
    /// Three numbers.
    Three(u32, u32, u32),
}

/// A name, and behind it the numbers in decimal. The only error is running out of memory.
pub fn name_and_numbers(alloc: Global, name: &str, numbers: Numbers) -> Result<String, AllocError>
    ensures { IfOk result (λ text. string_bytes text ≡ name_and_numbers name.now numbers) }
{
    match numbers {
        Numbers::Zero => format!(in alloc; "{name}"),
        Numbers::One(a) => format!(in alloc; "{name} {a}"),
        Numbers::Two(a, b) => format!(in alloc; "{name} {a} {b}"),
        Numbers::Three(a, b, c) => format!(in alloc; "{name} {a} {b} {c}"),
    }
}

/// A name, and behind it a text. The only error is running out of memory.
pub fn name_and_text(alloc: Global, name: &str, text: &str) -> Result<String, AllocError>
    ensures { IfOk result (λ both. string_bytes both ≡ name.now ++ (codes " " ++ text.now)) }
{
    format!(in alloc; "{name} {text}")
}
