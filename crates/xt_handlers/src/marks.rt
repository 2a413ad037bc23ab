//! Single loads and stores on marks.
#![tactic(auto)]

ghost use Rattle.std.specs.Prelude.{◌≡◌, ◌≤◌, ◌<◌, ◌+◌, ◌-◌, ◌*◌, ◌%◌, ◌↔◌, ℕ, IsTrue, true, false, MatchOption};
ghost use Rattle.xt_handlers.specs.Symbols.{Load, same_store};
ghost use Rattle.xt_handlers.specs.Needs.{is_among, named_words, save_of, is_right};
ghost use Rattle.xt_handlers.specs.Flat.{symbol_of, word_at};
ghost use Rattle.xt_handlers.specs.declared.stretch.Side.TheVariants.{Overflow, Underflow};

use crate::{Mark, Side};

fn overflow_load(n: u8, base: Mark, back: u8) -> Option<Mark>
    requires low { 0 < n }
    requires high { n < 4 }
    ensures { MatchOption result
        (is_among (word_at Overflow n base back) (named_words Overflow n) ≡ false)
        (λ m. (is_among (word_at Overflow n base back) (named_words Overflow n) ≡ true)
        × (symbol_of Overflow n m ≡ Load (symbol_of Overflow n base) back)) }
{
    if n == 1 {
        return None;
    }
    match base {
        Mark::Initial(register) => {
            if register == 1 && back == 12 {
                Some(Mark::Link)
            } else {
                None
            }
        }
        _ => None,
    }
}

/// Whether a distance is one of a row of words.
fn is_in_row(back: u8, low: u8, high: u8) -> bool
    ensures { IsTrue result ↔ ((low ≤ back) × (back ≤ high) × (back % 4 ≡ 0)) }
{
    low <= back && back <= high && back % 4 == 0
}

fn underflow_load(n: u8, base: Mark, back: u8) -> Option<Mark>
    requires low { 0 < n }
    requires high { n < 4 }
    ensures { MatchOption result
        (is_among (word_at Underflow n base back) (named_words Underflow n) ≡ false)
        (λ m. (is_among (word_at Underflow n base back) (named_words Underflow n) ≡ true)
        × (symbol_of Underflow n m ≡ Load (symbol_of Underflow n base) back)) }
{
    match base {
        Mark::Initial(register) => {
            if register != 4 * n + 1 {
                return None;
            }
            if is_in_row(back, 4, 16) {
                Some(Mark::FrameWord(back))
            } else {
                None
            }
        }
        Mark::FrameWord(at) => {
            if n == 1 {
                return None;
            }
            if at != 12 {
                return None;
            }
            if back == 12 { Some(Mark::Link) } else { None }
        }
        Mark::Link => {
            if is_in_row(back, 20, 16 * n) {
                Some(Mark::Extra(back))
            } else {
                None
            }
        }
        Mark::Extra(_) => None,
    }
}

/// What a load gives, or none where its word is not named.
pub fn loaded(side: Side, n: u8, base: Mark, back: u8) -> Option<Mark>
    requires low { 0 < n }
    requires high { n < 4 }
    ensures { MatchOption result
        (is_among (word_at side n base back) (named_words side n) ≡ false)
        (λ m. (is_among (word_at side n base back) (named_words side n) ≡ true)
        × (symbol_of side n m ≡ Load (symbol_of side n base) back)) }
{
    match side {
        Side::Overflow => overflow_load(n, base, back),
        Side::Underflow => underflow_load(n, base, back),
    }
}

/// Which register's save a store of an overflow vector is.
pub fn saved(n: u8, base: Mark, back: u8, value: Mark) -> Option<u8>
    requires low { 0 < n }
    requires high { n < 4 }
    ensures { MatchOption result
        ((i : ℕ) → i < 12 → same_store (record { word = word_at Overflow n base back; value = symbol_of Overflow n value }) (save_of n i) ≡ false)
        (λ i. (i < 12) × (record { word = word_at Overflow n base back; value = symbol_of Overflow n value } ≡ save_of n i)) }
{
    match value {
        Mark::Initial(i) => {
            if i >= 12 {
                return None;
            }
            match base {
                Mark::Initial(register) => {
                    if i < 4 && register == 4 * n + 1 && back == 16 - 4 * i {
                        Some(i)
                    } else {
                        None
                    }
                }
                Mark::Link => {
                    if i >= 4 && back == (16 * n).saturating_sub(4 * (i - 4)) {
                        Some(i)
                    } else {
                        None
                    }
                }
                _ => None,
            }
        }
        _ => None,
    }
}

/// Whether register i ends as it has to.
pub fn is_right(side: Side, n: u8, i: u8, mark: Mark) -> bool
    requires low { 0 < n }
    requires high { n < 4 }
    requires register { i < 16 }
    ensures { result ≡ is_right side n i (symbol_of side n mark) }
{
    match side {
        Side::Overflow => match mark {
            Mark::Initial(register) => i < 4 * n || register == i,
            _ => i < 4 * n,
        },
        Side::Underflow => match mark {
            Mark::Initial(register) => i >= 4 * n && register == i,
            Mark::FrameWord(back) => i < 4 && back == 16 - 4 * i,
            Mark::Link => false,
            Mark::Extra(back) => i >= 4 && i < 4 * n && back == 16 * n - 4 * (i - 4),
        },
    }
}
