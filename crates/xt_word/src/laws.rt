//! Laws of the bits of a word. Each is the contract of a function that does nothing.
#![tactic(auto)]

ghost use Rattle.std.specs.Prelude.{◌≡◌, ◌≢◌, ℕ, ◌+◌, ◌-◌, ◌*◌, ◌<◌, ◌≤◌, ◌^◌, bit_or, bit_and};
ghost use Rattle.xt_word.specs.Words.{bits_of};

/// The low bits of a word and the others, put together, are the word.
pub fn parts_of_a_word()
    ensures { (w low : ℕ) → w < 2 ^ 32 → low ≤ 32 → bits_of w 0 low + 2 ^ low * bits_of w low (32 - low) ≡ w }
{}

/// A bit that is set is 1, and the others stay.
pub fn bit_set()
    ensures same { (w k : ℕ) → bits_of (bit_or w (2 ^ k)) k 1 ≡ 1 }
    ensures other { (w k i : ℕ) → i ≢ k → bits_of (bit_or w (2 ^ k)) i 1 ≡ bits_of w i 1 }
{}

/// A bit of a word that is cleared is 0, and the others stay.
pub fn bit_cleared()
    ensures same { (w k : ℕ) → k < 32 → bits_of (bit_and w (2 ^ 32 - 1 - 2 ^ k)) k 1 ≡ 0 }
    ensures other { (w k i : ℕ) → k < 32 → i < 32 → i ≢ k → bits_of (bit_and w (2 ^ 32 - 1 - 2 ^ k)) i 1 ≡ bits_of w i 1 }
{}
