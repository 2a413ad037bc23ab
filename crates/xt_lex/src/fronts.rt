ghost use Rattle.std.specs.Prelude.{◌≡◌, IfOk};
ghost use Rattle.xt_lex.specs.TextBytes.{number_of};
ghost use Rattle.xt_lex.specs.Fronts.{number_kind, number_kind_of, word_front, decimal_front, hex_front, longer, character_front, string_front, mark_front, token_at};
ghost use Rattle.xt_lex.specs.Forms.{form_at};

use crate::bytes::{ByteRun, begins_word, number_in, stands_for_itself, string_rest, width_of};
use crate::name::Name;
use crate::token::TokenKind;
use std::alloc::{AllocError, Global};

// A token at the front of some bytes, and how many of them it takes.
type Front = Option<(TokenKind, usize)>;

#[tactic(auto, unfolding(crate::specs::Fronts::word_front))]
fn word(alloc: Global, bytes: &[u8]) -> Result<Front, AllocError>
    ensures { IfOk result (λ front. front ≡ word_front bytes.now) }
{
    match bytes {
        [first, ..] if begins_word(*first) => {
            let width = width_of(ByteRun::Word, bytes);
            let held = Vec::from_slice(alloc, bytes.split_at(width).0)?;
            Ok(Some((TokenKind::Word(Name::new(held)), width)))
        }
        _ => Ok(None),
    }
}

fn kind_of_number(number: Option<u32>) -> TokenKind
    ensures { result ≡ number_kind_of number }
{
    match number {
        Some(number) => TokenKind::Number(number),
        None => TokenKind::Bad,
    }
}

#[tactic(auto, unfolding(crate::specs::Fronts::decimal_front))]
fn decimal(bytes: &[u8]) -> Front
    ensures { result ≡ decimal_front bytes.now }
{
    let width = width_of(ByteRun::Decimal, bytes);
    if width == 0 {
        return None;
    }
    let number = number_in(10, bytes.split_at(width).0);
    Some((kind_of_number(number), width))
}

#[tactic(auto, unfolding(crate::specs::Fronts::hex_front))]
fn hex(bytes: &[u8]) -> Front
    ensures { result ≡ hex_front bytes.now }
{
    match bytes {
        [b'0', b'x', digits @ ..] => {
            let width = width_of(ByteRun::Hexadecimal, digits);
            if width == 0 {
                return None;
            }
            let number = number_in(16, digits.split_at(width).0);
            Some((kind_of_number(number), 2 + width))
        }
        _ => None,
    }
}

// A number: where `0x` and digits stand, that is longer than the `0` alone.
fn number(bytes: &[u8]) -> Front
    ensures { result ≡ longer (decimal_front bytes.now) (hex_front bytes.now) }
{
    match hex(bytes) {
        Some(front) => Some(front),
        None => decimal(bytes),
    }
}

#[tactic(auto, unfolding(crate::specs::Fronts::character_front))]
fn character(bytes: &[u8]) -> Front
    ensures { result ≡ character_front bytes.now }
{
    match bytes {
        [b'\'', byte, b'\'', ..] if stands_for_itself(b'\'', *byte) => {
            Some((TokenKind::Character(*byte), 3))
        }
        _ => None,
    }
}

#[tactic(auto, unfolding(crate::specs::Fronts::string_front))]
fn string(alloc: Global, bytes: &[u8]) -> Result<Front, AllocError>
    ensures { IfOk result (λ front. front ≡ string_front bytes.now) }
{
    match bytes {
        [b'"', rest @ ..] => match string_rest(alloc, rest)? {
            Some((held, width)) => Ok(Some((TokenKind::Str(Name::new(held)), 1 + width))),
            None => Ok(None),
        },
        _ => Ok(None),
    }
}

#[tactic(auto, unfolding(crate::specs::Fronts::mark_front))]
fn mark(bytes: &[u8]) -> Front
    ensures { result ≡ mark_front bytes.now }
{
    match bytes {
        [b',', ..] => Some((TokenKind::Comma, 1)),
        [b':', ..] => Some((TokenKind::Colon, 1)),
        [b'=', ..] => Some((TokenKind::Equals, 1)),
        [b'+', ..] => Some((TokenKind::Plus, 1)),
        [b'-', ..] => Some((TokenKind::Minus, 1)),
        _ => None,
    }
}

/// The forms of tokens, numbers taken together.
#[derive(Clone, Copy)]
pub(crate) enum Form {
    Word,
    Number,
    Character,
    Str,
    Mark,
}

// The form of the tokens that begin with the first byte.
fn form_at(bytes: &[u8]) -> Form
    ensures { result ≡ form_at bytes.now }
{
    match bytes {
        [first, ..] if begins_word(*first) => Form::Word,
        [first, ..] if first.is_ascii_digit() => Form::Number,
        [b'\'', ..] => Form::Character,
        [b'"', ..] => Form::Str,
        _ => Form::Mark,
    }
}

/// The longest token at the front of the bytes, and how many bytes it takes. A number from 2^32 on is `Bad`.
///
/// At most one form stands at a place, numbers aside.
#[tactic(auto, using(crate::proofs::FrontLemmas::word_alone, crate::proofs::FrontLemmas::number_alone, crate::proofs::FrontLemmas::character_alone, crate::proofs::FrontLemmas::string_alone, crate::proofs::FrontLemmas::mark_alone))]
pub fn front(alloc: Global, bytes: &[u8]) -> Result<Front, AllocError>
    ensures { IfOk result (λ front. front ≡ token_at bytes.now) }
{
    match form_at(bytes) {
        Form::Word => word(alloc, bytes),
        Form::Number => Ok(number(bytes)),
        Form::Character => Ok(character(bytes)),
        Form::Str => string(alloc, bytes),
        Form::Mark => Ok(mark(bytes)),
    }
}
