ghost use Rattle.std.specs.Prelude.{◌≡◌, ◌^◌, ◌<◌, ◌≤◌, nat_lt, length, if◌then◌else◌, Some, None, IfOk, IfSome, IsTrue};
ghost use Rattle.std.specs.List.{prefix_len};
ghost use Rattle.xt_lex.specs.TextBytes.{is_word_start, is_plain, escaped_byte, digit_of, number_of};
ghost use Rattle.xt_lex.specs.Runs.{is_of};
ghost use Rattle.std.specs.Option.{option_map};
ghost use Rattle.xt_lex.specs.Fronts.{begins_with_quote, string_piece, string_body};

use std::alloc::{AllocError, Global};

/// Whether a word begins with this byte: a letter, `_`, `.` or `$`.
pub fn begins_word(byte: u8) -> bool
    ensures { result ≡ is_word_start byte }
{
    byte.is_ascii_alphabetic() || byte == b'_' || byte == b'.' || byte == b'$'
}

/// The bytes of which a run is made.
#[derive(Clone, Copy)]
pub enum ByteRun {
    /// Those with which a word goes on.
    Word,
    /// Decimal digits.
    Decimal,
    /// Hexadecimal digits.
    Hexadecimal,
    /// All but the one that ends a line.
    Line,
}

// Whether a byte is one of a run's.
fn is_of(run: ByteRun, byte: u8) -> bool
    ensures { result ≡ is_of run byte }
{
    match run {
        ByteRun::Word => begins_word(byte) || byte.is_ascii_digit(),
        ByteRun::Decimal => byte.is_ascii_digit(),
        ByteRun::Hexadecimal => byte.is_ascii_hexdigit(),
        ByteRun::Line => byte != b'\n',
    }
}

/// How many bytes of a run stand at the front.
pub fn width_of(run: ByteRun, bytes: &[u8]) -> usize
    ensures width { result ≡ prefix_len (is_of run) bytes.now }
    ensures within { result ≤ length bytes.now }
{
    for (i, byte) in bytes.iter().enumerate() {
        if !is_of(run, *byte) {
            return i;
        }
    }
    bytes.len()
}

/// Whether a byte stands for itself between such quotes.
pub fn stands_for_itself(quote: u8, byte: u8) -> bool
    ensures { result ≡ is_plain quote byte }
{
    byte >= b' ' && byte <= b'~' && byte != quote && byte != b'\\'
}

/// The byte that a backslash and this byte stand for in a string.
#[tactic(auto, unfolding(crate::specs::TextBytes::escaped_byte))]
pub fn unescaped(byte: u8) -> Option<u8>
    ensures { result ≡ escaped_byte byte }
{
    match byte {
        b'n' => Some(b'\n'),
        b't' => Some(b'\t'),
        b'0' => Some(0),
        b'\\' => Some(b'\\'),
        b'"' => Some(b'"'),
        _ => None,
    }
}

// The value of a digit.
#[tactic(auto, unfolding(crate::specs::TextBytes::digit_of))]
fn digit(byte: u8) -> u64
    ensures value { result ≡ digit_of byte }
    ensures small { result < 256 }
{
    let value = match byte {
        0..=b'9' => byte.saturating_sub(b'0'),
        b':'..=b'F' => byte.saturating_sub(b'A' - 10),
        _ => byte.saturating_sub(b'a' - 10),
    };
    value as u64
}

/// The number of these digits, where it is below 2^32.
pub fn number_in(base: u64, digits: &[u8]) -> Option<u32>
    requires least { 0 < base }
    requires most { base ≤ 16 }
    ensures { result ≡ (if nat_lt (number_of base digits.now) (2 ^ 32) then Some (number_of base digits.now) else None) }
{
    let mut number: u64 = 0;
    for byte in digits {
        number = number * base + digit(*byte);
        if number > u32::MAX as u64 {
            return None;
        }
    }
    Some(number as u32)
}

// The byte that stands at the front of a string's rest, and how many bytes spell it: one, or two where the first is a
// backslash. None at the quote that ends the string, and where no string goes on.
#[tactic(auto, unfolding(crate::specs::Fronts::string_piece))]
fn string_piece(bytes: &[u8]) -> Option<(u8, usize)>
    ensures piece { result ≡ string_piece bytes.now }
    ensures forward { IfSome result (λ p. 0 < p.1) }
    ensures within { IfSome result (λ p. p.1 ≤ length bytes.now) }
{
    let [first, escape, ..] = bytes else {
        return None;
    };
    match *first {
        b'"' => None,
        b'\\' => Some((unescaped(*escape)?, 2)),
        byte if stands_for_itself(b'"', byte) => Some((byte, 1)),
        _ => None,
    }
}

fn begins_with_quote(bytes: &[u8]) -> bool
    ensures quote { result ≡ begins_with_quote bytes.now }
    ensures some { IsTrue result → 0 < length bytes.now }
{
    match bytes {
        [b'"', ..] => true,
        _ => false,
    }
}

/// The bytes that a string stands for, and how many bytes it takes after its first quote.
pub fn string_rest(alloc: Global, bytes: &[u8]) -> Result<Option<(Vec<u8>, usize)>, AllocError>
    ensures body { IfOk result (λ body. option_map (λ r. (r.0.items, r.1)) body ≡ string_body bytes.now) }
    ensures within { IfOk result (λ body. IfSome body (λ r. r.1 ≤ length bytes.now)) }
{
    let mut held = Vec::new(alloc);
    let mut rest = bytes;
    let mut width = 0;
    while let Some((byte, taken)) = string_piece(rest) {
        held.push(byte)?;
        width += taken;
        rest = rest.split_at(taken).1;
    }
    if begins_with_quote(rest) {
        Ok(Some((held, width + 1)))
    } else {
        Ok(None)
    }
}
