//! The table of numbers.
ghost use Rattle.std.specs.Prelude.{◌≡◌, IfOk};
ghost use Rattle.xt_gen.specs.Generated.{next, table_of};

use std::alloc::{AllocError, Global};
use xt_map::Bytes;

/// The number that follows a number.
pub fn next(x: u32) -> u32
    ensures { result ≡ next x }
{
    x.wrapping_mul(1_664_525).wrapping_add(1_013_904_223)
}

/// The table that follows a number: 32,768 words, little-endian.
pub fn table(alloc: Global, number: u32) -> Result<Bytes, AllocError>
    ensures { IfOk result (λ bytes. bytes ≡ table_of number) }
{
    let mut bytes = Vec::new(alloc);
    let mut x = number;
    for _word in 0..32_768u32 {
        x = next(x);
        bytes.extend_from_slice(&x.to_le_bytes())?;
    }
    Ok(Bytes::new(bytes))
}
