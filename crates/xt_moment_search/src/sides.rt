//! A core between two turns, and what is known of it.
ghost use Rattle.std.specs.Prelude.{◌≡◌, ◌≢◌, ◌<◌, true, false, length, slice_set, if◌then◌else◌};
ghost use Rattle.xt_exec.specs.States.{file_state};
ghost use Rattle.xt_exec.specs.TurnLaws.{IsShaped};
ghost use Rattle.xt_core.specs.Runs.{opening_at};
ghost use Rattle.xt_moments.specs.Moments.{core_fired, is_armed, opening_core, with_special};
ghost use Rattle.xt_moments.specs.WorldLaws.{opening_known};
ghost use Rattle.xt_moment_search.specs.KnownCores.{core_of, moment_known_of};

use std::marker::Model;
use xt_exec::Regs;
use xt_moments::timer_bit;
use xt_outcomes::Part;
use xt_secret_walk::{CoreMasks, WatchedFile};
use xt_special::number;
use xt_trace::Options;
use xt_uses::ALL_BITS;
use xt_window::Windows;

/// A core between two turns: its registers, in which each bit that is not known is 0, which bits are known, the bits of
/// INTERRUPT whose timers are armed, and whether the core has stopped. Contracts see its state in place of the registers.
#[derive(Drop)]
pub struct Side {
    pub(crate) regs: Regs<WatchedFile>,
    pub(crate) masks: CoreMasks,
    pub(crate) armed: u32,
    pub(crate) stopped: bool,
}

impl Model for Side {
    ghost use Rattle.xt_exec.specs.States.{file_state};
    ghost use Rattle.xt_exec.specs.TurnLaws.{IsShaped};
    ghost use Rattle.xt_moment_search.specs.Sides as sides;

    ghost Value = { sides.KnownCore };

    ghost view = { λ s. record { state = file_state s.regs; masks = s.masks; armed = s.armed; stopped = s.stopped } };

    ghost invariant = { λ s. IsShaped (file_state s.regs) };
}

/// The same masks.
pub(crate) fn copy_of(masks: &CoreMasks) -> CoreMasks
    ensures { result ≡ masks.now }
{
    CoreMasks {
        regs: masks.regs,
        special: masks.special,
        threadptr: masks.threadptr,
    }
}

/// A special register gets this mask.
pub(crate) fn set_mask(masks: &mut CoreMasks, n: u8, mask: u32)
    ensures regs { masks.new.regs ≡ masks.old.regs }
    ensures special { masks.new.special ≡ slice_set masks.old.special n mask }
    ensures threadptr { masks.new.threadptr ≡ masks.old.threadptr }
    ensures long { n < length masks.old.special }
{
    masks.special[n as usize] = mask;
}

// The masks of a core as it opens: all is known but CCOUNT and CCOMPARE.
fn opening_masks() -> CoreMasks
    ensures { moment_known_of result ≡ opening_known }
{
    let mut masks = CoreMasks::whole();
    set_mask(&mut masks, number::EPC1, ALL_BITS);
    masks
}

/// The registers with this value in a special register.
pub(crate) fn with_register(regs: Regs<WatchedFile>, n: u8, value: u32) -> Regs<WatchedFile>
    requires shaped { IsShaped (file_state regs) }
    requires sar { n ≢ 3 }
    requires vecbase { n ≢ 231 }
    ensures state { file_state result ≡ with_special n value (file_state regs) }
    ensures shaped { IsShaped (file_state result) }
{
    let mut kept = regs;
    kept.sr.set_register(n, value);
    kept
}

// Whether the same is known.
fn is_same_masks(a: &CoreMasks, b: &CoreMasks) -> bool
    ensures { result ≡ true → a.now ≡ b.now }
{
    a.regs.as_slice() == b.regs.as_slice()
        && a.special.as_slice() == b.special.as_slice()
        && a.threadptr == b.threadptr
}

impl Side {
    ghost use Rattle.xt_trace.specs.Validity.{IsValid};

    /// A core that opens at `pc`, with this core's stack of the options. All of it is known but CCOUNT and CCOMPARE.
    ///
    /// Conditions: the core is 0 or 1, and the options are valid.
    pub fn open(core: u8, pc: u32, options: &Options) -> Side
        requires core { core < 2 }
        requires valid { IsValid options.now }
        ensures core { core_of result ≡ opening_core (opening_at core pc options.now) }
        ensures masks { moment_known_of result.masks ≡ opening_known }
        ensures shaped { IsShaped result.state }
    {
        let stack = if core == 0 {
            options.stack0
        } else {
            options.stack1
        };
        Side {
            regs: Regs::open(core, pc, options.vecbase, stack.hi, WatchedFile::new()),
            masks: opening_masks(),
            armed: 0,
            stopped: false,
        }
    }

    /// Whether two cores are equal, and the same is known of them.
    pub fn is_same(&self, other: &Side) -> bool
        ensures { result ≡ true → self.now ≡ other.now }
    {
        self.armed == other.armed
            && self.stopped == other.stopped
            && self.regs.pc == other.regs.pc
            && self.regs.waiting == other.regs.waiting
            && self.regs.sr.is_same(&other.regs.sr)
            && self.regs.win.is_same(&other.regs.win)
            && is_same_masks(&self.masks, &other.masks)
    }

    /// Whether the core has stopped.
    pub fn has_stopped(&self) -> bool
        ensures { result ≡ self.now.stopped }
    {
        self.stopped
    }

    /// The program counter.
    pub fn pc(&self) -> u32
        ensures { result ≡ self.now.state.control.pc }
    {
        self.regs.pc
    }

    /// Whether interrupts of level 1 are off: an interrupt or an exception is at work.
    pub fn is_interrupted(&self) -> bool {
        let ps = self.regs.sr.ps_fields();
        ps.intlevel > 0 || ps.excm
    }

    /// Whether a timer is armed.
    ///
    /// Condition: `timer` is 0, 1 or 2.
    pub fn is_armed(&self, timer: u8) -> bool
        requires { timer < 3 }
        ensures { result ≡ is_armed timer (core_of self.now) }
    {
        self.armed & timer_bit(timer) != 0
    }

    /// The same core.
    pub fn copy(&self) -> Side
        ensures { result ≡ self.now }
    {
        Side {
            regs: self.regs,
            masks: copy_of(&self.masks),
            armed: self.armed,
            stopped: self.stopped,
        }
    }

    /// The core after a timer has fired, or as it is if the timer is not armed.
    ///
    /// Condition: `timer` is 0, 1 or 2.
    pub fn fired(&self, timer: u8) -> Side
        requires { timer < 3 }
        ensures core { core_of result ≡ core_fired timer (core_of self.now) }
        ensures masks { result.masks ≡ self.now.masks }
    {
        if !self.is_armed(timer) {
            return self.copy();
        }
        let interrupt = self.regs.sr.register(number::INTERRUPT) | timer_bit(timer);
        Side {
            regs: with_register(self.regs, number::INTERRUPT, interrupt),
            masks: copy_of(&self.masks),
            armed: self.armed & !timer_bit(timer),
            stopped: self.stopped,
        }
    }

    /// A number that is the same for equal cores.
    pub fn digest(&self) -> u64 {
        let mut digest = (self.regs.pc as u64).wrapping_add(
            (self.armed as u64).wrapping_mul(0x1_0000_0000),
        );
        for i in 0..16u8 {
            digest = digest
                .wrapping_mul(0x9E37_79B9_7F4A_7C15)
                .wrapping_add(self.regs.win.read(i) as u64);
        }
        digest
    }
}

impl Part for Side {
    fn is_like(&self, other: &Side) -> bool {
        self.is_same(other)
    }

    fn mark(&self) -> u64 {
        self.digest()
    }
}
