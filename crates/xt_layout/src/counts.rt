ghost use Rattle.std.specs.Prelude.{◌≡◌, ℕ, ◌+◌, ◌^◌, ◌<◌, length, slice_index, slice_set, IfOk};
ghost use Rattle.xt_layout.specs.Bounds.{ArePools};
ghost use Rattle.xt_layout.specs.Sizes.{pool_size};

use crate::PoolWord;
use std::alloc::{AllocError, Global};

/// One more at a place; nothing changes past the end.
pub(crate) fn count_one(counts: &mut [u64], place: usize)
    requires { slice_index counts.old place < 2 ^ 63 }
    ensures { counts.new ≡ slice_set counts.old place (slice_index counts.old place + 1) }
{
    if place < counts.len() {
        counts[place] += 1;
    }
}

/// Counts the words of the pool at each place, from 0.
fn count_words(counts: &mut [u64], words: &[PoolWord])
    requires none { (k : ℕ) → slice_index counts.old k ≡ 0 }
    requires few { length words.now < 2 ^ 32 }
    ensures { (k : ℕ) → k < length counts.old → slice_index counts.new k ≡ pool_size words.now k }
{
    for word in words {
        count_one(counts, word.position as usize);
    }
}

/// How many words the pool at each of n places has.
pub(crate) fn pool_sizes(
    alloc: Global,
    words: &[PoolWord],
    n: usize,
) -> Result<Vec<u64>, AllocError>
    requires { length words.now < 2 ^ 32 }
    ensures { IfOk result (λ pools. ArePools words.now n pools.items) }
{
    let mut pools = vec![in alloc; 0u64; n]?;
    count_words(pools.as_mut_slice(), words);
    Ok(pools)
}
