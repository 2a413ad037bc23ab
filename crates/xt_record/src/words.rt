//! Numbers as bytes.
ghost use Rattle.std.specs.Prelude.{◌≡◌, ◌++◌, OnOk};
ghost use Rattle.std.specs.Int.{w32, to_le_bytes};
ghost use Rattle.xt_record.specs.Fields.{words};

use std::alloc::AllocError;

// Writes a word, least byte first.
#[inline(always)]
pub(crate) fn put_word(out: &mut Vec<u8>, value: u32) -> Result<(), AllocError>
    ensures { OnOk result (out.new.items ≡ out.old.items ++ to_le_bytes w32 value) }
{
    out.extend_from_slice(&value.to_le_bytes())
}

/// Writes words, least byte first.
pub(crate) fn put_words(out: &mut Vec<u8>, values: &[u32]) -> Result<(), AllocError>
    ensures { OnOk result (out.new.items ≡ out.old.items ++ words values.now) }
{
    for value in values {
        put_word(out, *value)?;
    }
    Ok(())
}
