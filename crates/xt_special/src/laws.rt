//! Laws of PS as a word. Each is the contract of a function that does nothing.
#![tactic(auto)]

ghost use Rattle.std.specs.Prelude.{◌≡◌, ℕ, ◌<◌, ◌^◌, bit_and};
ghost use Rattle.xt_special.specs.declared.ps.Ps.{Ps};
ghost use Rattle.xt_special.specs.Control.{ps_of, ps_word};
ghost use Rattle.xt_special.specs.Shape.{IsPs};

/// The word of fields that are in their ranges gives them back, and of a word the bits in 0x0007_0FFF are kept.
pub fn ps_as_word()
    ensures fields { (ps : Ps) → IsPs ps → ps_of (ps_word ps) ≡ ps }
    ensures kept { (w : ℕ) → w < 2 ^ 32 → ps_word (ps_of w) ≡ bit_and w 0x70FFF }
{}
