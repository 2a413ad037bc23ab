//! The numbers that words write.
ghost use Rattle.std.specs.Prelude.{◌≡◌, ◌≤◌, IfSome};
ghost use Rattle.std.specs.List.{list_all};
ghost use Rattle.std.specs.Char.{is_ascii_digit, is_ascii_hexdigit};
ghost use Rattle.xt_command_line.specs.Numbers.{hexadecimal_of, number_of, number_up_to};

fn are_digits(bytes: &[u8]) -> bool
    ensures { result ≡ list_all is_ascii_digit bytes.now }
{
    bytes.iter().all(|byte| byte.is_ascii_digit())
}

/// The number that a word of decimal digits writes, where it is at most `most`.
pub fn limited_number(word: &str, most: u32) -> Option<u32>
    ensures number { result ≡ number_up_to most word.now }
    ensures limit { IfSome result (λ n. n ≤ most) }
{
    if !are_digits(word.as_bytes()) {
        return None;
    }
    match word.parse::<u32>() {
        Ok(number) => (number <= most).then_some(number),
        Err(_) => None,
    }
}

fn are_hexadecimal_digits(bytes: &[u8]) -> bool
    ensures { result ≡ list_all is_ascii_hexdigit bytes.now }
{
    bytes.iter().all(|byte| byte.is_ascii_hexdigit())
}

// The number that one to eight hexadecimal digits write.
fn hexadecimal(digits: &str) -> Option<u32>
    ensures { result ≡ hexadecimal_of digits.now }
{
    if digits.len() > 8 || !are_hexadecimal_digits(digits.as_bytes()) {
        return None;
    }
    u32::from_str_radix(digits, 16).ok()
}

/// The number that a text says: decimal digits, or `0x` and one to eight hexadecimal digits of
/// either case, for a number below 2^32. No sign and no blank is taken.
pub fn number(text: &str) -> Option<u32>
    ensures { result ≡ number_of text.now }
{
    match text.strip_prefix("0x") {
        Some(digits) => hexadecimal(digits),
        None => limited_number(text, u32::MAX),
    }
}
