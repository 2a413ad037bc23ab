//! Words of which not every bit is known.
#![tactic(auto)]

ghost use Rattle.std.specs.Prelude.{◌≡◌};
ghost use Rattle.xt_uses.specs.Words.{and_mask, and_word, below_unknown, both_mask, complement, is_whole, knows, mask_where, not_word, ones, or_mask, whole_word, zeros};

/// A value, and a mask of the bits of it that are known. The others are 0 in the value.
#[derive(Clone, Copy)]
pub struct Word {
    pub value: u32,
    pub mask: u32,
}

/// The mask of a word of which each bit is known.
pub const ALL_BITS: u32 = 0xFFFF_FFFF;

/// A number of which each bit is known.
pub fn whole_word(value: u32) -> Word
    ensures { result ≡ whole_word value }
{
    Word {
        value,
        mask: ALL_BITS,
    }
}

/// Whether each of these bits is known.
pub fn knows(bits: u32, w: Word) -> bool
    ensures { result ≡ knows bits w }
{
    bits & w.mask == bits
}

/// Whether each bit is known.
pub fn is_whole(w: Word) -> bool
    ensures { result ≡ is_whole w }
{
    knows(ALL_BITS, w)
}

/// The other bits.
pub fn complement(bits: u32) -> u32
    ensures { result ≡ complement bits }
{
    bits ^ ALL_BITS
}

/// Where a bit is known to be 1.
fn ones(w: Word) -> u32
    ensures { result ≡ ones w }
{
    w.value & w.mask
}

/// Where a bit is known to be 0.
fn zeros(w: Word) -> u32
    ensures { result ≡ zeros w }
{
    complement(w.value) & w.mask
}

/// Where both are known.
pub fn both_mask(x: Word, y: Word) -> u32
    ensures { result ≡ both_mask x y }
{
    x.mask & y.mask
}

/// Where both are known, or one is known to be 0.
pub fn and_mask(x: Word, y: Word) -> u32
    ensures { result ≡ and_mask x y }
{
    both_mask(x, y) | (zeros(x) | zeros(y))
}

/// Where both are known, or one is known to be 1.
pub fn or_mask(x: Word, y: Word) -> u32
    ensures { result ≡ or_mask x y }
{
    both_mask(x, y) | (ones(x) | ones(y))
}

/// The bits below the lowest that is not known.
pub fn below_unknown(mask: u32) -> u32
    ensures { result ≡ below_unknown mask }
{
    if mask == ALL_BITS {
        mask
    } else {
        (1 << mask.trailing_ones()) - 1
    }
}

/// All bits where the condition holds, else none.
pub fn mask_where(condition: bool) -> u32
    ensures { result ≡ mask_where condition }
{
    if condition { ALL_BITS } else { 0 }
}

/// The bits that both have.
pub fn and_word(x: Word, y: Word) -> Word
    ensures { result ≡ and_word x y }
{
    Word {
        value: x.value & y.value,
        mask: and_mask(x, y),
    }
}

/// The bits that a word has not.
pub fn not_word(x: Word) -> Word
    ensures { result ≡ not_word x }
{
    Word {
        value: zeros(x),
        mask: x.mask,
    }
}
