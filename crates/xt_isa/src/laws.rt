//! Laws of the tables of instructions. Each is the contract of a function that does nothing.
#![tactic(auto)]

ghost use Rattle.std.specs.Prelude.{◌≡◌, ℕ, ◌+◌, ◌<◌, true};
ghost use Rattle.xt_isa.specs.declared.Fields.{Fields};
ghost use Rattle.xt_isa.specs.Apart.{AllRows, AreApart, FitsByWord, HasItsLength, ThirdByteIsFree};
ghost use Rattle.xt_isa.specs.Ranges.{AreNibbles, holds};
ghost use Rattle.xt_isa.specs.Spelling.{all_rows, spelled_insn};

/// Whatever six fields spell has its operands in their ranges.
pub fn spelled_is_in_range()
    ensures { (w : Fields) → AreNibbles w → holds (spelled_insn w) ≡ true }
{}

/// No word is of two rows.
pub fn rows_are_apart()
    ensures { AreApart all_rows }
{}

/// The third byte plays no part in a 16-bit word.
pub fn third_byte_is_free()
    ensures { (k t s r op1 op2 : ℕ) → k < 6 → ThirdByteIsFree (8 + k) t s r op1 op2 }
{}

/// A row's length is that of its words by their first byte.
pub fn rows_have_their_length()
    ensures { AllRows HasItsLength all_rows }
{}

/// A row's test by nibbles is the test of the whole word under the mask.
pub fn rows_fit_by_word()
    ensures { AllRows FitsByWord all_rows }
{}
