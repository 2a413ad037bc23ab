ghost use Rattle.std.specs.Prelude.{◌≡◌, ◌<◌, ◌≤◌, ◌++◌, ◌∷◌, length, take, drop, IfOk, OnOk};
ghost use Rattle.xt_lex.specs.Fronts.{token_at};
ghost use Rattle.xt_lex.specs.Tokens.{starts_blank, starts_comment, valid, line_tokens, lines_of, tokens_of, IsLexed};

use crate::bytes::{ByteRun, width_of};
use crate::fronts::front;
use crate::token::{Token, TokenKind, Tokens};
use std::alloc::{AllocError, Global};

// Whether a comment begins here: `#` or `//`.
#[tactic(auto, unfolding(crate::specs::Tokens::starts_comment))]
fn is_comment(bytes: &[u8]) -> bool
    ensures { result ≡ starts_comment bytes.now }
{
    match bytes {
        [b'#', ..] => true,
        [b'/', b'/', ..] => true,
        _ => false,
    }
}

// Whether a blank stands here: a space, a tab, the end of the line, or a carriage return before it.
#[tactic(auto, unfolding(crate::specs::Tokens::starts_blank))]
fn is_blank(bytes: &[u8]) -> bool
    ensures { result ≡ starts_blank bytes.now }
{
    match bytes {
        [b' ' | b'\t' | b'\n', ..] => true,
        [b'\r', b'\n', ..] => true,
        _ => false,
    }
}

// The longest token at the front of the bytes, where there is one and no number is too large.
fn valid_front(alloc: Global, bytes: &[u8]) -> Result<Option<(TokenKind, usize)>, AllocError>
    ensures { IfOk result (λ front. front ≡ valid (token_at bytes.now)) }
{
    let found = front(alloc, bytes)?;
    match &found {
        Some((TokenKind::Bad, _)) => Ok(None),
        _ => Ok(found),
    }
}

// Adds the tokens of a line, which has its end with it.
fn lex_line(
    alloc: Global,
    tokens: &mut Vec<Token>,
    line: u32,
    bytes: &[u8],
) -> Result<(), AllocError>
    requires { length bytes.now ≤ 1048576 }
    ensures { OnOk result (tokens.new.items ≡ tokens.old.items ++ line_tokens line bytes.now) }
{
    let mut column: u32 = 1;
    let mut rest = bytes;
    'bytes: while !rest.is_empty() {
        if is_comment(rest) {
            return Ok(());
        }
        if is_blank(rest) {
            column += 1;
            rest = rest.split_at(1).1;
            continue 'bytes;
        }
        let Some((what, taken)) = valid_front(alloc, rest)? else {
            tokens.push(Token {
                line,
                column,
                width: 0,
                what: TokenKind::Bad,
            })?;
            return Ok(());
        };
        let width = taken as u32;
        tokens.push(Token {
            line,
            column,
            width,
            what,
        })?;
        column += width;
        rest = rest.split_at(taken).1;
    }
    Ok(())
}

// How many bytes the first line of a text has, with its end.
fn line_width(text: &[u8]) -> usize
    requires { 0 < length text.now }
    ensures cut { lines_of text.now ≡ take result text.now ∷ lines_of (drop result text.now) }
    ensures forward { 0 < result }
    ensures within { result ≤ length text.now }
{
    let before = width_of(ByteRun::Line, text);
    if before < text.len() {
        before + 1
    } else {
        before
    }
}

/// The tokens of every line of a text of at most 1,048,576 bytes.
///
/// Where no token can be formed, or a number is 2^32 or more, a token `Bad` stands at that column and ends the tokens of
/// its line.
pub fn lex(alloc: Global, text: &[u8]) -> Result<Tokens, AllocError>
    requires { length text.now ≤ 1048576 }
    ensures tokens { IfOk result (λ tokens. tokens ≡ tokens_of text.now) }
    ensures lexed { IfOk result IsLexed }
{
    let mut tokens = Vec::new(alloc);
    let mut line: u32 = 1;
    let mut rest = text;
    'lines: while !rest.is_empty() {
        let (bytes, after) = rest.split_at(line_width(rest));
        lex_line(alloc, &mut tokens, line, bytes)?;
        line += 1;
        rest = after;
    }
    Ok(Tokens::new(tokens))
}
