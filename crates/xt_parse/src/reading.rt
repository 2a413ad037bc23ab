ghost use Rattle.std.specs.Prelude.{◌≡◌, ◌<◌, ◌≤◌, length, IfOk, IfSome};
ghost use Rattle.std.specs.Option.{is_some, option_map};
ghost use Rattle.xt_parse.specs.Gives.{Gives};
ghost use Rattle.xt_parse.specs.Reading.{first_as, behind, as_number, as_string, as_address, as_boolean, as_label, as_term, as_sign, as_comma, as_equals, as_minus, as_user, minus_at, term_at};
ghost use Rattle.xt_parse.specs.Statements.{placed_at};

use crate::line::Placed;
use crate::stop::Stop;
use crate::words::{Register, may_be_label, register_of_word};
use std::alloc::{AllocError, Global};
use xt_lex::{Name, Term, TermValue, Token, TokenKind};

/// A number at the front.
pub fn number_at(tokens: &[Token]) -> Result<(u32, &[Token]), Stop>
    ensures { Gives (λ x. (x.0, x.1.now)) result (first_as as_number tokens.now) }
{
    match tokens {
        [token, after @ ..] => match &token.what {
            TokenKind::Number(number) => Ok((*number, after)),
            _ => Err(Stop::At(tokens.len())),
        },
        [] => Err(Stop::At(0)),
    }
}

/// A string at the front.
pub fn string_at(tokens: &[Token]) -> Result<(Name, &[Token]), Stop>
    ensures { Gives (λ x. (x.0, x.1.now)) result (first_as as_string tokens.now) }
{
    match tokens {
        [token, after @ ..] => match &token.what {
            TokenKind::Str(bytes) => Ok((bytes.clone()?, after)),
            _ => Err(Stop::At(tokens.len())),
        },
        [] => Err(Stop::At(0)),
    }
}

fn address_register_in(what: &TokenKind) -> Option<u8>
    ensures { result ≡ as_address what.now }
{
    match what {
        TokenKind::Word(name) => match register_of_word(name.as_slice()) {
            Some(Register::Address(number)) => Some(number),
            _ => None,
        },
        _ => None,
    }
}

/// An address register at the front.
pub fn address_register_at(tokens: &[Token]) -> Result<(u8, &[Token]), Stop>
    ensures { Gives (λ x. (x.0, x.1.now)) result (first_as as_address tokens.now) }
{
    match tokens {
        [token, after @ ..] => match address_register_in(&token.what) {
            Some(number) => Ok((number, after)),
            None => Err(Stop::At(tokens.len())),
        },
        [] => Err(Stop::At(0)),
    }
}

fn boolean_register_in(what: &TokenKind) -> Option<u8>
    ensures { result ≡ as_boolean what.now }
{
    match what {
        TokenKind::Word(name) => match register_of_word(name.as_slice()) {
            Some(Register::Boolean(number)) => Some(number),
            _ => None,
        },
        _ => None,
    }
}

/// A Boolean register at the front.
pub fn boolean_register_at(tokens: &[Token]) -> Result<(u8, &[Token]), Stop>
    ensures { Gives (λ x. (x.0, x.1.now)) result (first_as as_boolean tokens.now) }
{
    match tokens {
        [token, after @ ..] => match boolean_register_in(&token.what) {
            Some(number) => Ok((number, after)),
            None => Err(Stop::At(tokens.len())),
        },
        [] => Err(Stop::At(0)),
    }
}

/// Whether a token may be a label.
pub fn is_label(what: &TokenKind) -> bool
    ensures { result ≡ is_some (as_label what.now) }
{
    match what {
        TokenKind::Word(name) => may_be_label(name.as_slice()),
        _ => false,
    }
}

/// The name in a token that may be a label.
pub fn label_in(what: &TokenKind) -> Result<Option<Name>, AllocError>
    ensures { IfOk result (λ name. name ≡ as_label what.now) }
{
    match what {
        TokenKind::Word(name) if may_be_label(name.as_slice()) => Ok(Some(name.clone()?)),
        _ => Ok(None),
    }
}

/// A word at the front that may be a label.
pub fn label_word_at(tokens: &[Token]) -> Result<(Name, &[Token]), Stop>
    ensures { Gives (λ x. (x.0, x.1.now)) result (first_as as_label tokens.now) }
{
    match tokens {
        [token, after @ ..] => match label_in(&token.what)? {
            Some(name) => Ok((name, after)),
            None => Err(Stop::At(tokens.len())),
        },
        [] => Err(Stop::At(0)),
    }
}

/// A word at the front that may be a label, with its column.
#[tactic(auto, unfolding(crate::specs::Statements::placed_at))]
pub fn placed_name_at(tokens: &[Token]) -> Result<(Placed, &[Token]), Stop>
    ensures { Gives (λ x. (x.0, x.1.now)) result (placed_at tokens.now) }
{
    match tokens {
        [token, after @ ..] => match label_in(&token.what)? {
            Some(name) => {
                let column = token.column;
                Ok((Placed { column, name }, after))
            }
            None => Err(Stop::At(tokens.len())),
        },
        [] => Err(Stop::At(0)),
    }
}

fn user_in(what: &TokenKind) -> Result<Option<Name>, AllocError>
    ensures { IfOk result (λ name. name ≡ as_user what.now) }
{
    match what {
        TokenKind::Word(name) if name.as_slice() == b"threadptr".as_slice() => {
            Ok(Some(name.clone()?))
        }
        _ => Ok(None),
    }
}

/// The name of the user register at the front.
pub fn user_word_at(tokens: &[Token]) -> Result<(Name, &[Token]), Stop>
    ensures { Gives (λ x. (x.0, x.1.now)) result (first_as as_user tokens.now) }
{
    match tokens {
        [token, after @ ..] => match user_in(&token.what)? {
            Some(name) => Ok((name, after)),
            None => Err(Stop::At(tokens.len())),
        },
        [] => Err(Stop::At(0)),
    }
}

/// The tokens after a comma, where one stands at the front.
pub fn behind_comma(tokens: &[Token]) -> Option<&[Token]>
    ensures behind { option_map (λ after. (tt, after.now)) result ≡ behind as_comma tokens.now }
    ensures shorter { IfSome result (λ after. length after.now < length tokens.now) }
{
    match tokens {
        [token, after @ ..] => match token.what {
            TokenKind::Comma => Some(after),
            _ => None,
        },
        [] => None,
    }
}

/// The tokens after an `=`, where one stands at the front.
pub fn behind_equals(tokens: &[Token]) -> Option<&[Token]>
    ensures { option_map (λ after. (tt, after.now)) result ≡ behind as_equals tokens.now }
{
    match tokens {
        [token, after @ ..] => match token.what {
            TokenKind::Equals => Some(after),
            _ => None,
        },
        [] => None,
    }
}

/// The tokens after a comma, which must stand at the front.
pub fn comma_at(tokens: &[Token]) -> Result<&[Token], Stop>
    ensures { Gives (λ after. (tt, after.now)) result (first_as as_comma tokens.now) }
{
    match tokens {
        [token, after @ ..] => match token.what {
            TokenKind::Comma => Ok(after),
            _ => Err(Stop::At(tokens.len())),
        },
        [] => Err(Stop::At(0)),
    }
}

/// An optional minus at the front, and what is after it.
pub fn optional_minus(tokens: &[Token]) -> (bool, &[Token])
    ensures minus { (result.0, result.1.now) ≡ minus_at tokens.now }
    ensures within { length result.1.now ≤ length tokens.now }
{
    match tokens {
        [token, after @ ..] => match token.what {
            TokenKind::Minus => (true, after),
            _ => (false, tokens),
        },
        [] => (false, tokens),
    }
}

/// A sign at the front, whether it is a minus, and what is after it.
pub fn sign_at(tokens: &[Token]) -> Option<(bool, &[Token])>
    ensures sign { option_map (λ x. (x.0, x.1.now)) result ≡ behind as_sign tokens.now }
    ensures shorter { IfSome result (λ x. length x.1.now < length tokens.now) }
{
    match tokens {
        [token, after @ ..] => match token.what {
            TokenKind::Plus => Some((false, after)),
            TokenKind::Minus => Some((true, after)),
            _ => None,
        },
        [] => None,
    }
}

fn term_in(what: &TokenKind) -> Result<Option<TermValue>, AllocError>
    ensures { IfOk result (λ value. value ≡ as_term what.now) }
{
    match what {
        TokenKind::Number(number) => Ok(Some(TermValue::Number(*number))),
        TokenKind::Character(code) => Ok(Some(TermValue::Number(*code as u32))),
        TokenKind::Word(name) if may_be_label(name.as_slice()) => {
            Ok(Some(TermValue::Label(name.clone()?)))
        }
        _ => Ok(None),
    }
}

/// A term at the front, after its sign.
pub fn term_with_sign(minus: bool, tokens: &[Token]) -> Result<(Term, &[Token]), Stop>
    ensures term { Gives (λ x. (x.0, x.1.now)) result (term_at minus tokens.now) }
    ensures shorter { IfOk result (λ x. length x.1.now < length tokens.now) }
{
    match tokens {
        [token, after @ ..] => match term_in(&token.what)? {
            Some(value) => Ok((Term { minus, value }, after)),
            None => Err(Stop::At(tokens.len())),
        },
        [] => Err(Stop::At(0)),
    }
}
