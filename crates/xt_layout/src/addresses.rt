ghost use Rattle.std.specs.Prelude.{◌≡◌, ℕ, ◌+◌, ◌^◌, ◌<◌, ◌≤◌, [], length, map, replicate, None, Some, slice_index, slice_index_or, slice_set, unwrap_or, All, IfOk, pos};
ghost use Rattle.xt_layout.specs.Pools.{IsAmong};
ghost use Rattle.xt_layout.specs.Addresses.{home, words_after};
ghost use Rattle.xt_layout.specs.Bounds.{IsBelow};
ghost use Rattle.xt_layout.specs.Spots.{address};

use crate::PoolWord;
use crate::counts::count_one;
use crate::size::padding;
use crate::spot::{Spot, address};
use std::alloc::{AllocError, Global};

/// The addresses of the lines.
pub(crate) fn line_addresses(alloc: Global, spots: &[Option<Spot>]) -> Result<Vec<u64>, AllocError>
    requires { All (IsBelow (2 ^ 34)) spots.now }
    ensures addresses { IfOk result (λ addresses. addresses.items ≡ map address spots.now) }
    ensures small { IfOk result (λ addresses. (k : ℕ) → slice_index addresses.items k ≤ 2 ^ 34) }
    ensures fit { IfOk result (λ addresses. All (λ a. a < 2 ^ 40) addresses.items) }
{
    let addresses = addresses_at(alloc, spots)?;
    Ok(addresses)
}

/// The addresses of spots.
fn addresses_at(alloc: Global, spots: &[Option<Spot>]) -> Result<Vec<u64>, AllocError>
    ensures { IfOk result (λ addresses. addresses.items ≡ map address spots.now) }
{
    spots.iter().map(|spot| address(*spot)).collect(alloc)
}

/// The addresses of the pool words; `used` counts the words of each pool, from 0.
fn words_behind(
    alloc: Global,
    used: &mut [u64],
    words: &[PoolWord],
    addresses: &[u64],
) -> Result<Vec<u64>, AllocError>
    requires none { (k : ℕ) → slice_index used.old k ≡ 0 }
    requires same { length used.old ≡ length addresses.now }
    requires few { length words.now ≤ 2 ^ 21 }
    requires places { All (IsAmong (length addresses.now)) words.now }
    requires small { (k : ℕ) → slice_index addresses.now k ≤ 2 ^ 34 }
    ensures words { IfOk result (λ v. v.items ≡ words_after addresses.now [] words.now) }
    ensures small { IfOk result (λ v. All (λ a. a < 2 ^ 40) v.items) }
{
    let mut behind = Vec::new(alloc);
    for word in words {
        let place = word.position as usize;
        let base = addresses[place];
        behind.push(base + padding(4, base) + 4 * used[place])?;
        count_one(used, place);
    }
    Ok(behind)
}

/// The addresses of the pool words, by those of the lines.
pub(crate) fn word_addresses(
    alloc: Global,
    words: &[PoolWord],
    addresses: &[u64],
) -> Result<Vec<u64>, AllocError>
    requires few { length words.now ≤ 2 ^ 21 }
    requires places { All (IsAmong (length addresses.now)) words.now }
    requires small { (k : ℕ) → slice_index addresses.now k ≤ 2 ^ 34 }
    ensures words { IfOk result (λ v. v.items ≡ words_after addresses.now [] words.now) }
    ensures small { IfOk result (λ v. All (λ a. a < 2 ^ 40) v.items) }
{
    let mut used = vec![in alloc; 0u64; addresses.len()]?;
    words_behind(alloc, used.as_mut_slice(), words, addresses)
}

/// The address of a line's word, where none is known yet; nothing changes past the end.
fn settle(homes: &mut [Option<u64>], place: usize, address: u64)
    ensures { homes.new ≡ slice_set homes.old place (Some (unwrap_or (slice_index_or homes.old place None) address)) }
{
    if place < homes.len() {
        homes[place] = match homes[place] {
            Some(first) => Some(first),
            None => Some(address),
        };
    }
}

/// The address of the word that each line first needs, where `homes` knows none yet.
fn settle_all(homes: &mut [Option<u64>], words: &[PoolWord], addresses: &[u64])
    requires none { (k : ℕ) → slice_index_or homes.old k None ≡ None }
    requires same { length addresses.now ≡ length words.now }
    ensures { (k : ℕ) → k < length homes.old → slice_index_or homes.new k None ≡ home k words.now addresses.now }
{
    for (i, word) in words.iter().enumerate() {
        settle(homes, word.line as usize, addresses[i]);
    }
}

/// As many absent addresses as there are lines.
fn no_homes(alloc: Global, n: usize) -> Result<Vec<Option<u64>>, AllocError>
    ensures { IfOk result (λ homes. homes.items ≡ replicate n None) }
{
    let mut homes = Vec::new(alloc);
    for k in 0..n {
        prove!(k < n);
        homes.push(None)?;
    }
    Ok(homes)
}

/// The address of the word that each of n lines first needs, where it needs one.
pub(crate) fn homes_of(
    alloc: Global,
    words: &[PoolWord],
    addresses: &[u64],
    n: usize,
) -> Result<Vec<Option<u64>>, AllocError>
    requires { length addresses.now ≡ length words.now }
    ensures many { IfOk result (λ homes. length homes.items ≡ n) }
    ensures homes { IfOk result (λ homes. (k : ℕ) → k < n → slice_index_or homes.items k None ≡ home k words.now addresses.now) }
{
    let mut homes = no_homes(alloc, n)?;
    settle_all(homes.as_mut_slice(), words, addresses);
    Ok(homes)
}

/// An address as a signed number.
pub(crate) fn signed(address: u64) -> i64
    requires { address < 2 ^ 40 }
    ensures { result ≡ pos address }
{
    address as i64
}

/// Addresses as signed numbers.
pub(crate) fn signed_all(alloc: Global, addresses: &[u64]) -> Result<Vec<i64>, AllocError>
    requires { All (λ a. a < 2 ^ 40) addresses.now }
    ensures { IfOk result (λ v. v.items ≡ map pos addresses.now) }
{
    let mut numbers = Vec::new(alloc);
    for address in addresses {
        numbers.push(signed(*address))?;
    }
    Ok(numbers)
}
