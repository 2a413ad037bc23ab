use std::alloc::Global;
use std::test::Fail;
use xt_lex::{Token, TokenKind, lex};

/// What a token should be.
#[derive(Clone, Copy)]
enum Wanted {
    Word(&'static str),
    Number(u32),
    Character(u8),
    Str(&'static [u8]),
    Comma,
    Colon,
    Equals,
    Plus,
    Minus,
    Bad,
}

fn is_wanted(what: &TokenKind, wanted: Wanted) -> bool {
    match (what, wanted) {
        (TokenKind::Word(name), Wanted::Word(text)) => name.as_slice() == text.as_bytes(),
        (TokenKind::Number(number), Wanted::Number(value)) => *number == value,
        (TokenKind::Character(code), Wanted::Character(value)) => *code == value,
        (TokenKind::Str(bytes), Wanted::Str(value)) => bytes.as_slice() == value,
        (TokenKind::Comma, Wanted::Comma) => true,
        (TokenKind::Colon, Wanted::Colon) => true,
        (TokenKind::Equals, Wanted::Equals) => true,
        (TokenKind::Plus, Wanted::Plus) => true,
        (TokenKind::Minus, Wanted::Minus) => true,
        (TokenKind::Bad, Wanted::Bad) => true,
        _ => false,
    }
}

/// A text, and its tokens: line, column, width and kind.
type Row = (&'static [u8], &'static [(u32, u32, u32, Wanted)]);

static ROWS: [Row; 34] = [
    (
        b".seg 0x40080400\n.entry start",
        &[
            (1, 1, 4, Wanted::Word(".seg")),
            (1, 6, 10, Wanted::Number(0x40080400)),
            (2, 1, 6, Wanted::Word(".entry")),
            (2, 8, 5, Wanted::Word("start")),
        ],
    ),
    (
        b"x: movi a2,'A' # c",
        &[
            (1, 1, 1, Wanted::Word("x")),
            (1, 2, 1, Wanted::Colon),
            (1, 4, 4, Wanted::Word("movi")),
            (1, 9, 2, Wanted::Word("a2")),
            (1, 11, 1, Wanted::Comma),
            (1, 12, 3, Wanted::Character(65)),
        ],
    ),
    (
        b"0x",
        &[(1, 1, 1, Wanted::Number(0)), (1, 2, 1, Wanted::Word("x"))],
    ),
    (
        b"0X1F",
        &[(1, 1, 1, Wanted::Number(0)), (1, 2, 3, Wanted::Word("X1F"))],
    ),
    (
        b"0xfg",
        &[(1, 1, 3, Wanted::Number(15)), (1, 4, 1, Wanted::Word("g"))],
    ),
    (
        b"12ab",
        &[(1, 1, 2, Wanted::Number(12)), (1, 3, 2, Wanted::Word("ab"))],
    ),
    (b"007", &[(1, 1, 3, Wanted::Number(7))]),
    (b"4294967295", &[(1, 1, 10, Wanted::Number(4294967295))]),
    (
        b"a 4294967296 b",
        &[(1, 1, 1, Wanted::Word("a")), (1, 3, 0, Wanted::Bad)],
    ),
    (b"0xFFFFFFFF", &[(1, 1, 10, Wanted::Number(0xFFFFFFFF))]),
    (b"0x100000000", &[(1, 1, 0, Wanted::Bad)]),
    (b"0x00000000001", &[(1, 1, 13, Wanted::Number(1))]),
    (b"99999999999999999999999999", &[(1, 1, 0, Wanted::Bad)]),
    (b"\"\"", &[(1, 1, 2, Wanted::Str(b""))]),
    (
        b"\"a\\n\\t\\0\\\\\\\"//#' \" // x",
        &[(1, 1, 18, Wanted::Str(b"a\n\t\0\\\"//#' "))],
    ),
    (
        b".ascii \"abc",
        &[(1, 1, 6, Wanted::Word(".ascii")), (1, 8, 0, Wanted::Bad)],
    ),
    (b"\"a\\q\"", &[(1, 1, 0, Wanted::Bad)]),
    (b"\"a\\", &[(1, 1, 0, Wanted::Bad)]),
    (b"\"a\tb\"", &[(1, 1, 0, Wanted::Bad)]),
    (b"''", &[(1, 1, 0, Wanted::Bad)]),
    (b"'''", &[(1, 1, 0, Wanted::Bad)]),
    (b"'\\'", &[(1, 1, 0, Wanted::Bad)]),
    (
        b"' ''~''\"''#'",
        &[
            (1, 1, 3, Wanted::Character(32)),
            (1, 4, 3, Wanted::Character(126)),
            (1, 7, 3, Wanted::Character(34)),
            (1, 10, 3, Wanted::Character(35)),
        ],
    ),
    (
        b"a /b",
        &[(1, 1, 1, Wanted::Word("a")), (1, 3, 0, Wanted::Bad)],
    ),
    (b"a//b", &[(1, 1, 1, Wanted::Word("a"))]),
    (
        b"a ? b",
        &[(1, 1, 1, Wanted::Word("a")), (1, 3, 0, Wanted::Bad)],
    ),
    (b"\r\nx", &[(2, 1, 1, Wanted::Word("x"))]),
    (
        b"a\r",
        &[(1, 1, 1, Wanted::Word("a")), (1, 2, 0, Wanted::Bad)],
    ),
    (
        b"a\r\r\nb\r\n",
        &[
            (1, 1, 1, Wanted::Word("a")),
            (1, 2, 0, Wanted::Bad),
            (2, 1, 1, Wanted::Word("b")),
        ],
    ),
    (b"\x80", &[(1, 1, 0, Wanted::Bad)]),
    (
        b"# \x80\xFF\r\x00\n.a1_b",
        &[(2, 1, 5, Wanted::Word(".a1_b"))],
    ),
    (
        b"=+-,\t:",
        &[
            (1, 1, 1, Wanted::Equals),
            (1, 2, 1, Wanted::Plus),
            (1, 3, 1, Wanted::Minus),
            (1, 4, 1, Wanted::Comma),
            (1, 6, 1, Wanted::Colon),
        ],
    ),
    (b"", &[]),
    (b"\n\n \t\n", &[]),
];

fn is_token(token: &Token, wanted: &(u32, u32, u32, Wanted)) -> bool {
    token.line == wanted.0
        && token.column == wanted.1
        && token.width == wanted.2
        && is_wanted(&token.what, wanted.3)
}

fn has_tokens(alloc: Global, row: &Row) -> Result<bool, Fail> {
    let (text, wanted) = *row;
    if text.len() > 1048576 {
        return Ok(false);
    }
    let tokens = lex(alloc, text)?;
    if tokens.as_slice().len() != wanted.len() {
        return Ok(false);
    }
    for (token, one) in tokens.as_slice().iter().zip(wanted) {
        if !is_token(token, one) {
            return Ok(false);
        }
    }
    Ok(true)
}

#[test]
fn tokens_are_those_of_the_rules(rt: HostRuntime) -> Result<(), Fail> {
    for row in &ROWS {
        assert!(rt; has_tokens(rt.alloc(), row)?);
    }
    Ok(())
}
