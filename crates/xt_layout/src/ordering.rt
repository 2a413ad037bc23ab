ghost use Rattle.std.specs.Prelude.{◌≡◌};
ghost use Rattle.xt_layout.specs.Findings.{LeastIsFirst, is_before, least, rank};

use xt_lex::AsmPlace;

/// The place of a kind in the order of the kinds of one line: 4, 1, 2, 5, 6, 7, 3.
fn rank(kind: u8) -> u8
    ensures { result ≡ rank kind }
{
    match kind {
        4 => 0,
        1 => 1,
        2 => 2,
        5 => 3,
        6 => 4,
        7 => 5,
        3 => 6,
        _ => 7,
    }
}

/// Whether a fault is of an earlier line than another, or of the same line and of an earlier kind.
fn is_before(one: AsmPlace, other: AsmPlace) -> bool
    ensures { result ≡ is_before one other }
{
    one.line < other.line || (one.line == other.line && rank(one.kind) < rank(other.kind))
}

/// The one of two faults that comes first: the fault of the earlier line, and of one line the earlier kind in the order
/// 4, 1, 2, 5, 6, 7, 3.
pub fn least(one: Option<AsmPlace>, other: Option<AsmPlace>) -> Option<AsmPlace>
    ensures { result ≡ least one other }
{
    match (one, other) {
        (None, other) => other,
        (one, None) => one,
        (Some(x), Some(y)) => Some(if is_before(y, x) { y } else { x }),
    }
}

/// Of two passes over lines with rising numbers, the least of their first faults is the first of the least faults of each
/// line: a law, and the function does nothing.
pub fn least_is_first()
    ensures { LeastIsFirst }
{}
