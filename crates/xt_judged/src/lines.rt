//! Lines that are appended one after another.
ghost use Rattle.std.specs.Prelude.{◌≡◌, ◌++◌, OnOk, string_bytes};

use std::alloc::AllocError;

/// Appends a line. The only error is running out of memory.
pub fn append(out: &mut Vec<u8>, line: String) -> Result<(), AllocError>
    ensures { OnOk result (out.new.items ≡ out.old.items ++ string_bytes line) }
{
    out.extend_from_slice(line.as_bytes())?;
    Ok(())
}
