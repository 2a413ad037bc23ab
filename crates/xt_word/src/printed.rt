//! Words and bytes as printed text: hexadecimal digits in upper case.
ghost use Rattle.std.specs.Prelude.{◌≡◌, ◌++◌, IfOk, OnOk, string_bytes};
ghost use Rattle.xt_word.specs.Hexadecimal.{hex2, hex8};

use std::alloc::{AllocError, Global};
use std::fmt::Write;

/// Appends a byte in two upper-case hexadecimal digits.
#[tactic(auto, using(crate::proofs::Digits::padded_is_hex2))]
pub fn push_hex2(out: &mut String, byte: u8) -> Result<(), AllocError>
    ensures { OnOk result (string_bytes out.new ≡ string_bytes out.old ++ hex2 byte) }
{
    write!(out, "{byte:02X}")
}

/// Appends a word, or an address, in eight upper-case hexadecimal digits.
#[tactic(auto, using(crate::proofs::Digits::padded_is_hex8))]
pub fn push_hex8(out: &mut String, word: u32) -> Result<(), AllocError>
    ensures { OnOk result (string_bytes out.new ≡ string_bytes out.old ++ hex8 word) }
{
    write!(out, "{word:08X}")
}

/// A word, or an address, in eight upper-case hexadecimal digits. The only error is running out of
/// memory.
#[tactic(auto, using(crate::proofs::Digits::padded_is_hex8))]
pub fn hexadecimal(alloc: Global, word: u32) -> Result<String, AllocError>
    ensures { IfOk result (λ text. string_bytes text ≡ hex8 word) }
{
    format!(in alloc; "{word:08X}")
}
