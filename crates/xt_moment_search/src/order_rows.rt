//! The text of an order with moments.
ghost use Rattle.std.specs.Prelude.{◌≡◌, ◌++◌, IfOk, OnOk, string_bytes};
ghost use Rattle.xt_moment_search.specs.MomentOrders.{is_again, move_row_text, moments_order_text};

use std::alloc::{AllocError, Global};
use std::fmt::Write;
use xt_moments::Move;

// Whether both are turns of one core.
fn is_again(made: Move, next: Move) -> bool
    ensures { result ≡ is_again made next }
{
    match (made, next) {
        (Move::Turn(core), Move::Turn(other)) => core == other,
        (Move::Turn(_), Move::Fires(_, _)) => false,
        (Move::Fires(_, _), _) => false,
    }
}

// Appends a row.
fn push_row(out: &mut String, made: Move, count: usize) -> Result<(), AllocError>
    ensures { OnOk result (string_bytes out.new ≡ string_bytes out.old ++ move_row_text (made, count)) }
{
    match made {
        Move::Turn(core) => write!(out, "{core}*{count}"),
        Move::Fires(core, timer) => write!(out, "{core}!{timer}"),
    }
}

/// The text of an order with moments: `C*N` for N turns of core C one after another, and `C!K` where timer K of core C
/// fires, with commas between them; `0*0` where there are none. The only error is running out of memory.
pub fn order_text(alloc: Global, order: &[Move]) -> Result<String, AllocError>
    ensures { IfOk result (λ text. string_bytes text ≡ moments_order_text order.now) }
{
    let Some((first, rest)) = order.split_first() else {
        return format!(in alloc; "0*0");
    };
    let mut out = String::new(alloc);
    let mut made = *first;
    let mut count: usize = 1;
    for next in rest {
        if is_again(made, *next) {
            count += 1;
        } else {
            push_row(&mut out, made, count)?;
            out.push_str(",")?;
            made = *next;
            count = 1;
        }
    }
    push_row(&mut out, made, count)?;
    Ok(out)
}
