//! The mnemonic of a name.

ghost use Rattle.std.specs.Prelude.{◌≡◌, ◌<◌, Some, None, if◌then◌else◌, slice_index_or};
ghost use Rattle.std.specs.Str.{bytes_eq};
ghost use Rattle.xt_names.specs.Names.{mnemonic_of, name_of};
ghost use Rattle.xt_names.specs.Search.{key};

use crate::mnemonic::Mnemonic;
use crate::names::{mnemonics, name_of};

/// A byte of a name, and zero after the last.
fn byte_at(name: &[u8], place: usize) -> u64
    ensures value { result ≡ slice_index_or name.now place 0 }
    ensures byte { result < 256 }
{
    name.get(place).copied().unwrap_or(0) as u64
}

/// The first seven bytes of a name as a number, the first of them highest. The names of the mnemonics have no more, and are
/// in the order of these numbers.
fn key(name: &[u8]) -> u64
    ensures { result ≡ key name.now }
{
    let high = byte_at(name, 2) + 256 * (byte_at(name, 1) + 256 * byte_at(name, 0));
    let middle = byte_at(name, 4) + 256 * (byte_at(name, 3) + 256 * high);
    byte_at(name, 6) + 256 * (byte_at(name, 5) + 256 * middle)
}

/// This mnemonic, where it has this name.
fn named(mnemonic: Mnemonic, name: &[u8]) -> Option<Mnemonic>
    ensures { result ≡ (if bytes_eq (name_of mnemonic) name.now then Some mnemonic else None) }
{
    if name_of(mnemonic).as_bytes() == name {
        Some(mnemonic)
    } else {
        None
    }
}

/// The mnemonic of a name, in lower case.
pub fn mnemonic_of(name: &[u8]) -> Option<Mnemonic>
    ensures { result ≡ mnemonic_of name.now }
{
    let wanted = key(name);
    let all = mnemonics();
    let mut low = 0;
    let mut high = all.len();
    while low < high {
        let middle = low + (high - low) / 2;
        let mnemonic = all[middle];
        let here = key(name_of(mnemonic).as_bytes());
        if here < wanted {
            low = middle + 1;
        } else if wanted < here {
            high = middle;
        } else {
            return named(mnemonic, name);
        }
    }
    None
}
