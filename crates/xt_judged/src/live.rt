//! The save areas of a core's frames.
ghost use Rattle.std.specs.Prelude.{◌≡◌, ◌+◌, ◌-◌, ◌*◌, ◌<◌, ◌^◌, ◌||◌, ℕ, true, false};
ghost use Rattle.xt_map.specs.Touching.{touches};
ghost use Rattle.xt_frames.specs.SaveAreas.{is_live};

use xt_frames::Frames;

/// Whether an address is one of so many bytes.
pub fn touches(from: u64, size: u64, addr: u64) -> bool
    requires { from + size < 2 ^ 64 }
    ensures { result ≡ touches from size addr }
{
    from <= addr && addr < from + size
}

// Whether a byte is one of the 16 below a stack pointer.
fn is_below(sp: u32, addr: u64) -> bool
    ensures { result ≡ touches (sp - 16) 16 addr }
{
    touches(u64::from(sp).saturating_sub(16), 16, addr)
}

// Whether a byte lies in the other area of a call by so many windows, below the caller's caller's stack
// pointer or the end of the stack.
fn is_above(end: u32, by: u8, addr: u64) -> bool
    ensures { result ≡ touches (end - 16 * by) (16 * (by - 1)) addr }
{
    let n = u64::from(by);
    touches(
        u64::from(end).saturating_sub(16 * n),
        16 * n.saturating_sub(1),
        addr,
    )
}

// Whether a byte lies in an area of a frame with these stack pointers of its own and of its caller, which
// has called by so many windows.
fn is_called(sp: u32, above: u32, by: u8, addr: u64) -> bool
    ensures { result ≡ (touches (sp - 16) 16 addr || touches (above - 16 * by) (16 * (by - 1)) addr) }
{
    is_below(sp, addr) || is_above(above, by, addr)
}

// Whether a byte lies in an area of the opening frame, which has called by so many windows, where the
// stack ends at `hi`.
fn is_first(hi: u32, by: u8, addr: u64) -> bool
    ensures { result ≡ (touches (hi - 76) 4 addr || (touches (hi - 16 * by) (16 * (by - 1)) addr || false)) }
{
    touches(u64::from(hi).saturating_sub(76), 4, addr) || is_above(hi, by, addr)
}

/// Whether a byte lies in a live save area of a core.
pub fn is_live(frames: &Frames, addr: u64) -> bool
    ensures { result ≡ is_live frames.now.bounds.range frames.now.state addr }
{
    let depth = frames.depth();
    let mut by = 1;
    for back in 0..depth {
        let j = depth - back;
        let sp = frames.sp(j);
        let above = frames.sp(j - 1);
        if is_called(sp, above, by, addr) {
            return true;
        }
        by = frames.calls(j - 1);
    }
    is_first(frames.limits().hi, by, addr)
}

// Whether two stretches of bytes, each from an address on, have one in common.
fn meet(from: u64, size: u64, other: u64, many: u64) -> bool
    requires one { from + size < 2 ^ 64 }
    requires two { other + many < 2 ^ 64 }
    ensures { result ≡ false → (a : ℕ) → touches from size a ≡ true → touches other many a ≡ false }
{
    from < other + many && other < from + size
}

// Whether some of so many bytes may lie in an area of a frame with these stack pointers of its own and of its
// caller, which has called by so many windows.
fn may_be_called(sp: u32, above: u32, by: u8, from: u64, size: u64) -> bool
    requires { from + size < 2 ^ 64 }
    ensures { result ≡ false → (a : ℕ) → touches from size a ≡ true → (touches (sp - 16) 16 a || touches (above - 16 * by) (16 * (by - 1)) a) ≡ false }
{
    if meet(from, size, u64::from(sp).saturating_sub(16), 16) {
        return true;
    }
    let n = u64::from(by);
    let other = u64::from(above).saturating_sub(16 * n);
    meet(from, size, other, 16 * n.saturating_sub(1))
}

// Whether some of so many bytes may lie in an area of the opening frame, which has called by so many windows,
// where the stack ends at `hi`.
fn may_be_first(hi: u32, by: u8, from: u64, size: u64) -> bool
    requires { from + size < 2 ^ 64 }
    ensures { result ≡ false → (a : ℕ) → touches from size a ≡ true → (touches (hi - 76) 4 a || (touches (hi - 16 * by) (16 * (by - 1)) a || false)) ≡ false }
{
    if meet(from, size, u64::from(hi).saturating_sub(76), 4) {
        return true;
    }
    let n = u64::from(by);
    let other = u64::from(hi).saturating_sub(16 * n);
    meet(from, size, other, 16 * n.saturating_sub(1))
}

/// Whether some of so many bytes may lie in a live save area of a core; false: none does.
pub fn may_be_live(frames: &Frames, from: u64, size: u64) -> bool
    requires { from + size < 2 ^ 64 }
    ensures { result ≡ false → (a : ℕ) → touches from size a ≡ true → is_live frames.now.bounds.range frames.now.state a ≡ false }
{
    let depth = frames.depth();
    let mut by = 1;
    for back in 0..depth {
        let j = depth - back;
        let sp = frames.sp(j);
        let above = frames.sp(j - 1);
        if may_be_called(sp, above, by, from, size) {
            return true;
        }
        by = frames.calls(j - 1);
    }
    may_be_first(frames.limits().hi, by, from, size)
}
