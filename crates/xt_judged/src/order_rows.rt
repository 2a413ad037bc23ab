//! The text of an order.
ghost use Rattle.std.specs.Prelude.{◌≡◌, ◌++◌, IfOk, OnOk, string_bytes};
ghost use Rattle.xt_judged.specs.OrderText.{order_text, row_text};

use std::alloc::{AllocError, Global};
use std::fmt::Write;

// Appends a row.
fn push_row(out: &mut String, core: u8, count: usize) -> Result<(), AllocError>
    ensures { OnOk result (string_bytes out.new ≡ string_bytes out.old ++ row_text (core, count)) }
{
    write!(out, "{core}*{count}")
}

/// The text of an order, as `run --order` reads it: `C*N,C*N,..`, N turns of core C each; `0*0` where
/// there are none. The only error is running out of memory.
pub fn order_text(alloc: Global, order: &[u8]) -> Result<String, AllocError>
    ensures { IfOk result (λ text. string_bytes text ≡ order_text order.now) }
{
    let Some((first, rest)) = order.split_first() else {
        return format!(in alloc; "0*0");
    };
    let mut out = String::new(alloc);
    let mut core = *first;
    let mut count: usize = 1;
    for next in rest {
        if *next == core {
            count += 1;
        } else {
            push_row(&mut out, core, count)?;
            out.push_str(",")?;
            core = *next;
            count = 1;
        }
    }
    push_row(&mut out, core, count)?;
    Ok(out)
}
