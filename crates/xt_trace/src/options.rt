ghost use Rattle.std.specs.Prelude.{◌≡◌, true};
ghost use Rattle.xt_trace.specs.Validity.{IsValid, IsValidStack};

use xt_map::can_execute_at;

/// The range of a core's stack: the addresses from `lo` to `hi` - 1.
#[derive(Clone, Copy)]
pub struct Stack {
    /// The lowest address, a multiple of 16 in the internal data memory.
    pub lo: u32,
    /// The address after the highest, a multiple of 16.
    pub hi: u32,
}

/// The options of a run.
#[derive(Clone, Copy)]
pub struct Options {
    /// The turns of core 0, at most 4,000,000.
    pub turns0: u32,
    /// The turns of core 1, at most 4,000,000.
    pub turns1: u32,
    /// Where core 1 begins, an address of an executable region.
    pub entry1: u32,
    /// VECBASE as both cores open, a multiple of 1024.
    pub vecbase: u32,
    /// The stack of core 0.
    pub stack0: Stack,
    /// The stack of core 1.
    pub stack1: Stack,
}

impl Stack {
    // Whether it is a range of at least 256 bytes in the internal data memory, whose ends are multiples of 16.
    fn valid(&self) -> bool
        ensures accepted { result ≡ true → IsValidStack self.now }
        ensures refused { IsValidStack self.now → result ≡ true }
    {
        self.lo >= 0x3FFA_E000
            && self.hi <= 0x4000_0000
            && self.lo % 16 == 0
            && self.hi % 16 == 0
            && self.lo <= self.hi
            && self.hi - self.lo >= 256
    }
}

impl Options {
    /// Whether a run accepts these options: no turn count is above 4,000,000, core 1's entry lies in an executable region,
    /// VECBASE is a multiple of 1024, and each stack is a range of at least 256 bytes in the internal data memory, whose
    /// ends are multiples of 16.
    pub fn valid(&self) -> bool
        ensures accepted { result ≡ true → IsValid self.now }
        ensures refused { IsValid self.now → result ≡ true }
    {
        self.turns0 <= 4_000_000
            && self.turns1 <= 4_000_000
            && can_execute_at(self.entry1)
            && self.vecbase % 1024 == 0
            && self.stack0.valid()
            && self.stack1.valid()
    }
}
