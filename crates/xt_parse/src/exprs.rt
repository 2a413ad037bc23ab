ghost use Rattle.std.specs.Prelude.{◌≡◌, ◌<◌, ◌≤◌, length, IfOk, IfSome};
ghost use Rattle.std.specs.Option.{option_map};
ghost use Rattle.xt_parse.specs.Gives.{Gives};
ghost use Rattle.xt_parse.specs.Reading.{next_term, expr_at, next_expr, exprs_at};

use crate::reading::{behind_comma, optional_minus, sign_at, term_with_sign};
use crate::statement::Exprs;
use crate::stop::Stop;
use std::alloc::Global;
use xt_lex::{Expr, Term, Token};

// A sign and a term, where a sign stands at the front.
fn next_signed_term(tokens: &[Token]) -> Result<Option<(Term, &[Token])>, Stop>
    ensures term { Gives (λ o. option_map (λ x. (x.0, x.1.now)) o) result (next_term tokens.now) }
    ensures shorter { IfOk result (λ o. IfSome o (λ x. length x.1.now < length tokens.now)) }
{
    match sign_at(tokens) {
        Some((minus, after)) => {
            let (term, left) = term_with_sign(minus, after)?;
            Ok(Some((term, left)))
        }
        None => Ok(None),
    }
}

/// An expression at the front: an optional minus, and terms that are joined by signs.
pub fn expr(alloc: Global, tokens: &[Token]) -> Result<(Expr, &[Token]), Stop>
    ensures expr { Gives (λ x. (x.0, x.1.now)) result (expr_at tokens.now) }
    ensures shorter { IfOk result (λ x. length x.1.now < length tokens.now) }
{
    let (minus, after) = optional_minus(tokens);
    let (first, mut rest) = match term_with_sign(minus, after) {
        Ok(read) => read,
        Err(stop) => return Err(stop),
    };
    let mut terms = Vec::new(alloc);
    terms.push(first)?;
    'terms: loop {
        let next = match next_signed_term(rest) {
            Ok(next) => next,
            Err(stop) => return Err(stop),
        };
        let Some((term, left)) = next else {
            return Ok((Expr::new(terms), rest));
        };
        terms.push(term)?;
        rest = left;
    }
}

// A comma and an expression, where a comma stands at the front.
fn next_expression(alloc: Global, tokens: &[Token]) -> Result<Option<(Expr, &[Token])>, Stop>
    ensures expr { Gives (λ o. option_map (λ x. (x.0, x.1.now)) o) result (next_expr tokens.now) }
    ensures shorter { IfOk result (λ o. IfSome o (λ x. length x.1.now < length tokens.now)) }
{
    match behind_comma(tokens) {
        Some(after) => {
            let (found, left) = expr(alloc, after)?;
            Ok(Some((found, left)))
        }
        None => Ok(None),
    }
}

/// Expressions at the front, with commas between them.
pub fn exprs(alloc: Global, tokens: &[Token]) -> Result<(Exprs, &[Token]), Stop>
    ensures { Gives (λ x. (x.0, x.1.now)) result (exprs_at tokens.now) }
{
    let (first, mut rest) = match expr(alloc, tokens) {
        Ok(read) => read,
        Err(stop) => return Err(stop),
    };
    let mut found = Vec::new(alloc);
    found.push(first)?;
    'exprs: loop {
        let next = match next_expression(alloc, rest) {
            Ok(next) => next,
            Err(stop) => return Err(stop),
        };
        let Some((expr, left)) = next else {
            return Ok((Exprs::new(found), rest));
        };
        found.push(expr)?;
        rest = left;
    }
}
