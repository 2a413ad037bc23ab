//! Laws of windows. Each is the contract of a function that does nothing.
#![tactic(auto)]

ghost use Rattle.std.specs.Prelude.{◌≡◌, ◌≢◌, ℕ, ◌+◌, ◌-◌, ◌*◌, ◌%◌, ◌^◌, ◌<◌, ◌≤◌, true, false};
ghost use Rattle.xt_window.specs.Ring.{place, bit, with_bit, without_bit, ahead};
ghost use Rattle.xt_window.specs.Moves.{behind};
ghost use Rattle.xt_window.specs.WindowLaws.{IsNearest, ReturnUndoesCall};

/// Where the bit of window 0 alone is set and the window base is 0, no window check of a register
/// finds another window: the state in which a core opens.
pub fn opening_window_is_alone()
    ensures { (quad : ℕ) → quad < 4 → ahead 1 0 quad ≡ 0 }
{}

/// The registers of the window that is `n` ahead are the caller's, from its register 4n on; and two registers of one window have
/// different places in the ring.
pub fn windows_overlap()
    ensures shared { (window n i : ℕ) → place (window + n) i ≡ place window (4 * n + i) }
    ensures apart { (window i j : ℕ) → i < 64 → j < 64 → place window i ≡ place window j → i ≡ j }
{}

/// The bit of a window that is set is set, and those of the other windows stay.
pub fn window_bit_set()
    ensures same { (start window : ℕ) → bit (with_bit start window) window ≡ true }
    ensures other { (start window other : ℕ) → other % 16 ≢ window % 16 → bit (with_bit start window) other ≡ bit start other }
{}

/// The bit of a window that is cleared is clear, and those of the other windows stay.
pub fn window_bit_cleared()
    ensures same { (start window : ℕ) → bit (without_bit start window) window ≡ false }
    ensures other { (start window other : ℕ) → other % 16 ≢ window % 16 → bit (without_bit start window) other ≡ bit start other }
{}

/// The window check finds the nearest window ahead, and a return looks for the nearest one behind.
pub fn nearest_windows()
    ensures ahead { (start base q : ℕ) → q < 4 → IsNearest (λ k. bit start (base + k)) q (ahead start base q) }
    ensures behind { (start base : ℕ) → IsNearest (λ k. bit start (base + (16 - k))) 3 (behind start base) }
{}

/// Where the caller's bit is set and the window check of ENTRY passed, RETW undoes ENTRY.
pub fn return_undoes_call()
    ensures { (start base n : ℕ) → start < 2 ^ 16 → base < 16 → 0 < n → n < 4 → bit start base ≡ true → ahead start base n ≡ 0 → ReturnUndoesCall start base n }
{}
