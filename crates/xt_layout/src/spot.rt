ghost use Rattle.std.specs.Prelude.{◌≡◌, ℕ, ◌+◌, ◌*◌, ◌^◌, ◌<◌, ◌≤◌};
ghost use Rattle.xt_layout.specs.Bounds.{IsBelow};
ghost use Rattle.xt_layout.specs.Sizes.{items};
ghost use Rattle.xt_layout.specs.Spots.{begins, spot_past, passes, address};

use crate::size::size;
use xt_parse::Statement;

/// Where a line stands.
#[derive(Clone, Copy)]
pub(crate) struct Spot {
    /// The address at which its segment begins.
    pub(crate) start: u64,
    /// The line's own address.
    pub(crate) at: u64,
}

/// A range of addresses.
#[derive(Clone, Copy)]
pub(crate) struct Span {
    /// The first address.
    pub(crate) start: u64,
    /// The address after the last.
    pub(crate) end: u64,
}

/// Where a statement stands: a `.seg` begins a segment at its number.
pub(crate) fn begins(before: Option<Spot>, statement: &Statement) -> Option<Spot>
    ensures value { result ≡ begins before statement.now }
    ensures below { (n : ℕ) → 2 ^ 32 ≤ n → IsBelow n before → IsBelow n result }
{
    match statement {
        Statement::Seg(start) => Some(Spot {
            start: *start as u64,
            at: *start as u64,
        }),
        _ => before,
    }
}

/// The spot after the bytes of a statement.
fn spot_past(pool: u64, spot: Spot, statement: &Statement) -> Spot
    requires pool { pool < 2 ^ 32 }
    requires items { items statement.now < 2 ^ 32 }
    requires below { spot.at ≤ 2 ^ 62 }
    ensures value { result ≡ spot_past pool statement.now spot }
    ensures below { (n : ℕ) → 2 ^ 32 ≤ n → spot.at ≤ n → result.at ≤ n + (1027 + 4 * items statement.now + 4 * pool) }
{
    Spot {
        start: spot.start,
        at: spot.at + size(pool, spot.at, statement),
    }
}

/// The spot after a statement, at whose place the pool has so many words.
pub(crate) fn passes(pool: u64, before: Option<Spot>, statement: &Statement) -> Option<Spot>
    requires pool { pool < 2 ^ 32 }
    requires items { items statement.now < 2 ^ 32 }
    requires below { IsBelow (2 ^ 62) before }
    ensures value { result ≡ passes pool before statement.now }
    ensures below { (n : ℕ) → 2 ^ 32 ≤ n → IsBelow n before → IsBelow (n + (1027 + 4 * items statement.now + 4 * pool)) result }
{
    match begins(before, statement) {
        Some(spot) => Some(spot_past(pool, spot, statement)),
        None => None,
    }
}

/// The address of a spot, and 0 without a segment.
pub(crate) fn address(spot: Option<Spot>) -> u64
    ensures value { result ≡ address spot }
    ensures below { (n : ℕ) → IsBelow n spot → result ≤ n }
{
    match spot {
        Some(spot) => spot.at,
        None => 0,
    }
}
