ghost use Rattle.std.specs.Prelude.{◌≡◌, ◌≤◌, ◌^◌, pos, ◌-ℤ◌, ◌<ℤ◌, length, IfSome};
ghost use Rattle.xt_lex.specs.Labels.{address_of};
ghost use Rattle.xt_lex.specs.Values.{HaveAddresses, IsAddress, number_of, term_value, value_of, value_or_unknown};

use crate::Name;
use crate::expr::{Expr, Term, TermValue};
use crate::labels::Labels;

// The address of a name.
fn address(name: &Name, labels: &Labels) -> Option<i64>
    requires { HaveAddresses labels.now }
    ensures address { result ≡ address_of name.now labels.now }
    ensures within { IfSome result IsAddress }
{
    match labels.first(name) {
        Some(label) => Some(label.address),
        None => None,
    }
}

// A number, or the address of a label.
fn number(value: &TermValue, labels: &Labels) -> Option<i64>
    requires { HaveAddresses labels.now }
    ensures number { result ≡ number_of labels.now value.now }
    ensures within { IfSome result IsAddress }
{
    match value {
        TermValue::Number(number) => Some(*number as i64),
        TermValue::Label(name) => address(name, labels),
    }
}

// A term with its sign.
fn signed(term: &Term, labels: &Labels) -> Option<i64>
    requires { HaveAddresses labels.now }
    ensures term { result ≡ term_value labels.now term.now }
    ensures least { IfSome result (λ n. (pos 0 -ℤ pos (2 ^ 40)) <ℤ n) }
    ensures most { IfSome result (λ n. n <ℤ pos (2 ^ 40)) }
{
    match number(&term.value, labels) {
        Some(number) => Some(if term.minus { -number } else { number }),
        None => None,
    }
}

/// The value of an expression: the sum of its terms, each with its sign.
///
/// The expression has at most 1,048,576 terms, and each label's address is 0 to 2^40 - 1. The error is 1, the kind
/// Unknown, exactly where a term is a label that is not in the list.
pub fn value(e: &Expr, labels: &Labels) -> Result<i64, u8>
    requires terms { length e.now ≤ 1048576 }
    requires addresses { HaveAddresses labels.now }
    ensures { result ≡ value_or_unknown (value_of labels.now e.now) }
{
    let mut total: i64 = 0;
    for term in e.as_slice() {
        let Some(number) = signed(term, labels) else {
            return Err(1);
        };
        total += number;
    }
    Ok(total)
}
