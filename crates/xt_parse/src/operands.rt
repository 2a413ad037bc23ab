ghost use Rattle.std.specs.Prelude.{◌≡◌, [], ◌∷◌, IfOk};
ghost use Rattle.xt_parse.specs.Gives.{Gives};
ghost use Rattle.xt_parse.specs.Reading.{literal_at, operand_at, next_operand, one_label, with_front, operands_behind, operands_at};

use crate::exprs::expr;
use crate::reading::{
    address_register_at, behind_equals, boolean_register_at, comma_at, label_word_at, user_word_at,
};
use crate::statement::{Operand, Operands};
use crate::stop::Stop;
use std::alloc::{AllocError, Global};
use xt_lex::{Expr, Name, Term, TermValue, Token};
use xt_names::Shape;

// A word as an expression of one label.
fn word_operand(alloc: Global, name: Name) -> Result<Operand, AllocError>
    ensures { IfOk result (λ operand. operand ≡ one_label name) }
{
    let mut terms = Vec::new(alloc);
    terms.push(Term {
        minus: false,
        value: TermValue::Label(name),
    })?;
    Ok(Operand::Value(Expr::new(terms)))
}

// A literal after `=`, or an expression for an address.
fn literal(alloc: Global, tokens: &[Token]) -> Result<(Operand, &[Token]), Stop>
    ensures { Gives (λ x. (x.0, x.1.now)) result (literal_at tokens.now) }
{
    match behind_equals(tokens) {
        Some(after) => {
            let (value, rest) = expr(alloc, after)?;
            Ok((Operand::Pool(value), rest))
        }
        None => {
            let (value, rest) = expr(alloc, tokens)?;
            Ok((Operand::Value(value), rest))
        }
    }
}

// An operand of this shape at the front.
#[tactic(auto, unfolding(crate::specs::Reading::operand_at))]
fn operand(alloc: Global, shape: Shape, tokens: &[Token]) -> Result<(Operand, &[Token]), Stop>
    ensures { Gives (λ x. (x.0, x.1.now)) result (operand_at shape tokens.now) }
{
    match shape {
        Shape::Register => {
            let (number, rest) = address_register_at(tokens)?;
            Ok((Operand::Reg(number), rest))
        }
        Shape::Boolean => {
            let (number, rest) = boolean_register_at(tokens)?;
            Ok((Operand::Reg(number), rest))
        }
        Shape::Value => {
            let (value, rest) = expr(alloc, tokens)?;
            Ok((Operand::Value(value), rest))
        }
        Shape::Literal => literal(alloc, tokens),
        Shape::Special => {
            let (name, rest) = label_word_at(tokens)?;
            Ok((word_operand(alloc, name)?, rest))
        }
        Shape::User => {
            let (name, rest) = user_word_at(tokens)?;
            Ok((word_operand(alloc, name)?, rest))
        }
    }
}

// A comma and an operand of this shape.
fn further_operand(
    alloc: Global,
    shape: Shape,
    tokens: &[Token],
) -> Result<(Operand, &[Token]), Stop>
    ensures { Gives (λ x. (x.0, x.1.now)) result (next_operand shape tokens.now) }
{
    let after = comma_at(tokens)?;
    operand(alloc, shape, after)
}

// The first operand, and operands of these shapes after it, each after a comma.
fn operands_after<'a>(
    alloc: Global,
    first: Operand,
    shapes: &[Shape],
    tokens: &'a [Token],
) -> Result<(Operands, &'a [Token]), Stop>
    ensures { Gives (λ x. (x.0, x.1.now)) result (with_front (first ∷ []) (operands_behind shapes.now tokens.now)) }
{
    let mut found = Vec::new(alloc);
    found.push(first)?;
    let mut rest = tokens;
    for shape in shapes {
        let (one, left) = match further_operand(alloc, *shape, rest) {
            Ok(read) => read,
            Err(stop) => return Err(stop),
        };
        found.push(one)?;
        rest = left;
    }
    Ok((Operands::new(found), rest))
}

/// Operands of these shapes at the front, with commas between them.
#[tactic(auto, unfolding(crate::specs::Reading::operands_at))]
pub fn operands<'a>(
    alloc: Global,
    shapes: &[Shape],
    tokens: &'a [Token],
) -> Result<(Operands, &'a [Token]), Stop>
    ensures { Gives (λ x. (x.0, x.1.now)) result (operands_at shapes.now tokens.now) }
{
    match shapes {
        [first, others @ ..] => {
            let (one, rest) = operand(alloc, *first, tokens)?;
            operands_after(alloc, one, others, rest)
        }
        [] => Ok((Operands::new(Vec::new(alloc)), tokens)),
    }
}
