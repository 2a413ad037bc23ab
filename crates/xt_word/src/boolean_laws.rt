//! Laws of Boolean registers. Each is the contract of a function that does nothing.
#![tactic(auto)]

ghost use Rattle.std.specs.Prelude.{◌≡◌, ◌≢◌, ℕ, ◌<◌, ◌^◌, Bool, true, false};
ghost use Rattle.xt_word.specs.Registers.{is_set, with_register};

/// A register that is written has the new value, and the others stay.
pub fn register_written()
    ensures same { (b i : ℕ) (value : Bool) → i < 16 → is_set (with_register b i value) i ≡ value }
    ensures other { (b i k : ℕ) (value : Bool) → i < 16 → k < 16 → k ≢ i → is_set (with_register b i value) k ≡ is_set b k }
    ensures range { (b i : ℕ) (value : Bool) → b < 2 ^ 16 → i < 16 → with_register b i value < 2 ^ 16 }
{}
