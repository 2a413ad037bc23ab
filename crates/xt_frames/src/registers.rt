//! What a call and a return do to the 16 visible registers, or to what is kept beside each of them.
#![tactic(auto)]

ghost use Rattle.std.specs.Prelude.{◌≡◌, ◌<◌, ◌≤◌, ◌*◌, ◌-◌, ◌++◌, ℕ, drop, replicate, take};

/// The 16 visible registers, each with its value or none.
pub type Seen = [Option<u32>; 16];

/// What is kept of a caller: the registers a0 to a11.
pub fn kept_of<T: Copy>(seen: &[T; 16]) -> [T; 12]
    ensures { (n : ℕ) → n ≤ 3 → take (4 * n) result ≡ take (4 * n) seen.now }
{
    let mut kept = [seen[0]; 12];
    kept.copy_from_slice(&seen[..12]);
    kept
}

/// The callee's registers after a call by `n` windows: the caller's from a(4n) on, then as many that hold `unset`.
pub fn after_call<T: Copy>(seen: &[T; 16], n: u8, unset: T) -> [T; 16]
    requires { n < 4 }
    ensures { result ≡ drop (4 * n) seen.now ++ replicate (4 * n) unset }
{
    let seen = &seen[..];
    let moved = 4 * n as usize;
    let mut callee = [unset; 16];
    callee[..16 - moved].copy_from_slice(&seen[moved..]);
    callee
}

/// The caller's registers after a return by `n` windows: those that were kept for it, then the callee's.
pub fn after_return<T: Copy>(kept: &[T; 12], seen: &[T; 16], n: u8) -> [T; 16]
    requires { n < 4 }
    ensures { result ≡ take (4 * n) kept.now ++ take (16 - 4 * n) seen.now }
{
    let (kept, seen) = (&kept[..], &seen[..]);
    let moved = 4 * n as usize;
    let mut caller = [seen[0]; 16];
    caller[..moved].copy_from_slice(&kept[..moved]);
    let rest = &mut caller[..];
    rest[moved..].copy_from_slice(&seen[..16 - moved]);
    caller
}
