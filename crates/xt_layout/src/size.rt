ghost use Rattle.std.specs.Prelude.{◌≡◌, ℕ, ◌+◌, ◌*◌, ◌^◌, ◌<◌, ◌≤◌};
ghost use Rattle.xt_layout.specs.Sizes.{padding, is_alignment, is_space, size, items};

use xt_names::is_narrow;
use xt_parse::Statement;

/// The zeros from an address up to a multiple of a number.
pub(crate) fn padding(n: u64, at: u64) -> u64
    requires { 0 < n }
    ensures value { result ≡ padding n at }
    ensures below { result < n }
{
    (n - at % n) % n
}

/// Whether a number is a power of two from 1 to 1024.
pub fn is_alignment(n: u32) -> bool
    ensures { result ≡ is_alignment n }
{
    matches!(n, 1 | 2 | 4 | 8 | 16 | 32 | 64 | 128 | 256 | 512 | 1024)
}

/// Whether so many zeros from an address on end at FFFFFFFF or before.
pub fn is_space(n: u32, at: u64) -> bool
    requires { at ≤ 2 ^ 62 }
    ensures { result ≡ is_space n at }
{
    at + n as u64 <= 0x1_0000_0000
}

/// The bytes that a statement takes at an address, where the pool at its place has so many words.
#[tactic(auto, unfolding(crate::specs::Sizes::size))]
pub(crate) fn size(pool: u64, at: u64, statement: &Statement) -> u64
    requires pool { pool < 2 ^ 32 }
    requires items { items statement.now < 2 ^ 32 }
    requires below { at ≤ 2 ^ 62 }
    ensures value { result ≡ size pool at statement.now }
    ensures small { result ≤ 2 ^ 32 + (1027 + 4 * items statement.now + 4 * pool) }
    ensures below { (n : ℕ) → 2 ^ 32 ≤ n → at ≤ n → at + result ≤ n + (1027 + 4 * items statement.now + 4 * pool) }
{
    match statement {
        Statement::Position => padding(4, at) + 4 * pool,
        Statement::Words(values) => 4 * values.len() as u64,
        Statement::Shorts(values) => 2 * values.len() as u64,
        Statement::Bytes(values) => values.len() as u64,
        Statement::Ascii(bytes) => bytes.len() as u64,
        Statement::Align(n) => {
            if is_alignment(*n) {
                padding(*n as u64, at)
            } else {
                0
            }
        }
        Statement::Space(n) => { if is_space(*n, at) { *n as u64 } else { 0 } }
        Statement::Insn(mnemonic, _) => { if is_narrow(*mnemonic) { 2 } else { 3 } }
        Statement::Empty | Statement::Seg(_) | Statement::Entry(_) | Statement::Literal(..) => 0,
    }
}
