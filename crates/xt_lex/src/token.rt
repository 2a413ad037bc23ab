ghost use Rattle.std.specs.Prelude.{◌≡◌};

use crate::name::Name;
use std::marker::Model;

/// What a token is.
pub enum TokenKind {
    /// A word: it begins with a letter, `_`, `.` or `$` and goes on with these and digits.
    Word(Name),
    /// A number below 2^32, which was decimal digits, or `0x` and hexadecimal digits.
    Number(u32),
    /// A character in single quotes, by its code, 32 to 126.
    Character(u8),
    /// A string in double quotes, by the bytes that it stands for.
    Str(Name),
    /// `,`
    Comma,
    /// `:`
    Colon,
    /// `=`
    Equals,
    /// `+`
    Plus,
    /// `-`
    Minus,
    /// Bytes from which no token can be formed, or a number from 2^32 on. It ends the tokens of its line.
    Bad,
}

// A `drop` of its own is one call at each place where a value is dropped.
impl Drop for TokenKind {
    fn drop(self) {
        match self {
            TokenKind::Word(_) | TokenKind::Str(_) => {}
            TokenKind::Number(_) | TokenKind::Character(_) => {}
            TokenKind::Comma | TokenKind::Colon | TokenKind::Equals => {}
            TokenKind::Plus | TokenKind::Minus | TokenKind::Bad => {}
        }
    }
}

/// A token and where it stands.
#[derive(Drop)]
pub struct Token {
    /// The number of the line, from 1.
    pub line: u32,
    /// The column of the first byte, from 1.
    pub column: u32,
    /// How many bytes of the line the token takes: 0 for `Bad`.
    pub width: u32,
    /// What it is.
    pub what: TokenKind,
}

/// The tokens of a text, in its order. Contracts see the list.
pub struct Tokens {
    items: Vec<Token>,
}

// A `drop` of its own is one call at each place where a value is dropped, also in other crates.
impl Drop for Tokens {
    fn drop(self) {
        let Tokens { items: _ } = self;
    }
}

impl Model for Tokens {
    ghost use Rattle.std.specs.Prelude.{List};
    ghost use Rattle.xt_lex.specs.declared.token.Token.{Token};

    ghost Value = { List Token };

    ghost view = { λ t. t.items.items };
}

impl Tokens {
    /// These tokens, without a copy.
    pub fn new(items: Vec<Token>) -> Tokens
        ensures { result ≡ items.items }
    {
        Tokens { items }
    }

    /// The tokens.
    pub fn as_slice(&self) -> &[Token]
        ensures { result.now ≡ self.now }
    {
        &self.items
    }
}
