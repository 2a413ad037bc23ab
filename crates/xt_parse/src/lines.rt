ghost use Rattle.std.specs.Prelude.{◌≡◌, ◌<◌, [], ◌∷◌, ◌++◌, length, IfOk};
ghost use Rattle.std.specs.Option.{option_map};
ghost use Rattle.xt_parse.specs.Gives.{Gives};
ghost use Rattle.xt_parse.specs.Statements.{literal_body_at, body_at, as_statement, statement_at, label_at, awaits_colon, is_opening, opens, behind_label, without_label, parts_at, whole_parts_at};

use crate::exprs::{expr, exprs};
use crate::form::Form;
use crate::line::Placed;
use crate::operands::operands;
use crate::reading::{comma_at, is_label, label_in, number_at, placed_name_at, string_at};
use crate::statement::Statement;
use crate::stop::Stop;
use crate::words::form_of_word;
use std::alloc::{AllocError, Global};
use xt_lex::{Name, Token, TokenKind};
use xt_names::shapes_of;

// `.literal NAME, EXPR` after its first word.
fn literal_body(alloc: Global, tokens: &[Token]) -> Result<(Statement, &[Token]), Stop>
    ensures { Gives (λ x. (x.0, x.1.now)) result (literal_body_at tokens.now) }
{
    let (name, after) = placed_name_at(tokens)?;
    let after = comma_at(after)?;
    let (value, rest) = expr(alloc, after)?;
    Ok((Statement::Literal(name, value), rest))
}

// The bytes of a string with a zero after them.
fn ended(text: Name) -> Result<Name, AllocError>
    ensures { IfOk result (λ bytes. bytes ≡ text ++ 0 ∷ []) }
{
    let mut bytes = text.into_vec();
    bytes.push(0)?;
    Ok(Name::new(bytes))
}

// A statement after its first word, which begins this form.
#[tactic(auto, unfolding(crate::specs::Statements::body_at))]
fn body(alloc: Global, form: Form, tokens: &[Token]) -> Result<(Statement, &[Token]), Stop>
    ensures { Gives (λ x. (x.0, x.1.now)) result (body_at form tokens.now) }
{
    match form {
        Form::Seg => {
            let (address, rest) = number_at(tokens)?;
            Ok((Statement::Seg(address), rest))
        }
        Form::Entry => {
            let (value, rest) = expr(alloc, tokens)?;
            Ok((Statement::Entry(value), rest))
        }
        Form::Position => Ok((Statement::Position, tokens)),
        Form::Literal => literal_body(alloc, tokens),
        Form::Word => {
            let (values, rest) = exprs(alloc, tokens)?;
            Ok((Statement::Words(values), rest))
        }
        Form::Short => {
            let (values, rest) = exprs(alloc, tokens)?;
            Ok((Statement::Shorts(values), rest))
        }
        Form::Byte => {
            let (values, rest) = exprs(alloc, tokens)?;
            Ok((Statement::Bytes(values), rest))
        }
        Form::Ascii => {
            let (bytes, rest) = string_at(tokens)?;
            Ok((Statement::Ascii(bytes), rest))
        }
        Form::Asciz => {
            let (bytes, rest) = string_at(tokens)?;
            Ok((Statement::Ascii(ended(bytes)?), rest))
        }
        Form::Align => {
            let (number, rest) = number_at(tokens)?;
            Ok((Statement::Align(number), rest))
        }
        Form::Space => {
            let (number, rest) = number_at(tokens)?;
            Ok((Statement::Space(number), rest))
        }
        Form::Insn(mnemonic) => {
            let (found, rest) = operands(alloc, shapes_of(mnemonic), tokens)?;
            Ok((Statement::Insn(mnemonic, found), rest))
        }
    }
}

// What a token begins, where it begins a statement.
fn statement_in(what: &TokenKind) -> Option<Form>
    ensures { result ≡ as_statement what.now }
{
    match what {
        TokenKind::Word(name) => form_of_word(name.as_slice()),
        _ => None,
    }
}

// A statement at the front, with the column of its first token.
#[tactic(auto, unfolding(crate::specs::Statements::statement_at))]
fn statement(alloc: Global, tokens: &[Token]) -> Result<((u32, Statement), &[Token]), Stop>
    ensures { Gives (λ x. (x.0, x.1.now)) result (statement_at tokens.now) }
{
    match tokens {
        [token, after @ ..] => match statement_in(&token.what) {
            Some(form) => {
                let column = token.column;
                let (statement, rest) = body(alloc, form, after)?;
                Ok(((column, statement), rest))
            }
            None => Err(Stop::At(tokens.len())),
        },
        [] => Err(Stop::At(0)),
    }
}

// A label and its colon at the front.
#[tactic(auto, unfolding(crate::specs::Statements::label_at))]
fn label(tokens: &[Token]) -> Result<Option<(Placed, &[Token])>, AllocError>
    ensures { IfOk result (λ found. option_map (λ x. (x.0, x.1.now)) found ≡ label_at tokens.now) }
{
    match tokens {
        [token, colon, after @ ..] => match colon.what {
            TokenKind::Colon => match label_in(&token.what)? {
                Some(name) => {
                    let column = token.column;
                    Ok(Some((Placed { column, name }, after)))
                }
                None => Ok(None),
            },
            _ => Ok(None),
        },
        _ => Ok(None),
    }
}

// Whether the line may stand before the first segment: it begins with `.seg` or `.entry`.
#[tactic(auto, unfolding(crate::specs::Statements::opens))]
fn may_open(tokens: &[Token]) -> bool
    ensures { result ≡ opens tokens.now }
{
    match tokens {
        [token, ..] => match statement_in(&token.what) {
            Some(Form::Seg | Form::Entry) => true,
            _ => false,
        },
        [] => false,
    }
}

pub type Parts = (Option<Placed>, u32, Statement);

fn parts_behind_label(
    alloc: Global,
    label: Placed,
    tokens: &[Token],
) -> Result<(Parts, &[Token]), Stop>
    ensures { Gives (λ x. (x.0, x.1.now)) result (behind_label label tokens.now) }
{
    if tokens.is_empty() {
        return Ok(((Some(label), 0, Statement::Empty), tokens));
    }
    let ((column, statement), rest) = statement(alloc, tokens)?;
    Ok(((Some(label), column, statement), rest))
}

#[tactic(auto, unfolding(crate::specs::Statements::statement_at, crate::specs::Statements::awaits_colon))]
fn parts_without_label(alloc: Global, tokens: &[Token]) -> Result<(Parts, &[Token]), Stop>
    requires { 0 < length tokens.now }
    ensures { Gives (λ x. (x.0, x.1.now)) result (without_label tokens.now) }
{
    match tokens {
        [token, after @ ..] => match statement_in(&token.what) {
            Some(form) => {
                let column = token.column;
                let (statement, rest) = body(alloc, form, after)?;
                Ok(((None, column, statement), rest))
            }
            None if is_label(&token.what) => Err(Stop::At(tokens.len() - 1)),
            None => Err(Stop::At(tokens.len())),
        },
        [] => Err(Stop::At(0)),
    }
}

// The parts of a line at the front.
#[tactic(auto, unfolding(crate::specs::Statements::parts_at))]
fn parts(alloc: Global, begun: bool, tokens: &[Token]) -> Result<(Parts, &[Token]), Stop>
    requires { 0 < length tokens.now }
    ensures { Gives (λ x. (x.0, x.1.now)) result (parts_at begun tokens.now) }
{
    if !begun && !may_open(tokens) {
        return Err(Stop::At(tokens.len()));
    }
    match label(tokens)? {
        Some((label, after)) => parts_behind_label(alloc, label, after),
        None => parts_without_label(alloc, tokens),
    }
}

/// The parts of a line of these tokens.
pub fn whole_parts(alloc: Global, begun: bool, tokens: &[Token]) -> Result<Parts, Stop>
    requires { 0 < length tokens.now }
    ensures { Gives (λ x. x) result (whole_parts_at begun tokens.now) }
{
    let (found, rest) = parts(alloc, begun, tokens)?;
    if rest.is_empty() {
        Ok(found)
    } else {
        Err(Stop::At(rest.len()))
    }
}
