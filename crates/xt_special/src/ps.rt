//! PS, the processor state register.
#![tactic(auto)]

ghost use Rattle.std.specs.Prelude.{◌≡◌, ◌<◌, ◌^◌};
ghost use Rattle.xt_special.specs.Control.{ps_of, ps_word};
ghost use Rattle.xt_special.specs.Shape.{IsPs};

/// The fields of PS, the processor state register.
#[derive(Clone, Copy, PartialEq, Eq)]
pub struct Ps {
    /// The interrupt level that is masked, 0 to 15 (bits 3 to 0).
    pub intlevel: u8,
    /// Exception mode (bit 4).
    pub excm: bool,
    /// User vector mode (bit 5).
    pub um: bool,
    /// The protection ring, 0 to 3, which is kept and not checked (bits 7 and 6).
    pub ring: u8,
    /// The old window base, 0 to 15 (bits 11 to 8).
    pub owb: u8,
    /// By how many windows the last call moves, 0 to 3 (bits 17 and 16).
    pub callinc: u8,
    /// Whether window overflows are detected (bit 18).
    pub woe: bool,
}

impl Ps {
    /// The fields of a word. Its other bits play no part.
    #[tactic(auto, unfolding(crate::specs::Control::ps_of))]
    #[inline(always)]
    pub fn of_word(w: u32) -> Ps
        ensures value { result ≡ ps_of w }
        ensures range { IsPs result }
    {
        Ps {
            intlevel: (w % 16) as u8,
            excm: (w >> 4) % 2 == 1,
            um: (w >> 5) % 2 == 1,
            ring: ((w >> 6) % 4) as u8,
            owb: ((w >> 8) % 16) as u8,
            callinc: ((w >> 16) % 4) as u8,
            woe: (w >> 18) % 2 == 1,
        }
    }

    /// The fields as a word; all its other bits are 0.
    ///
    /// Condition: each field is in its range.
    #[tactic(auto, unfolding(crate::specs::Control::ps_word))]
    #[inline(always)]
    pub fn word(self) -> u32
        requires { IsPs self }
        ensures value { result ≡ ps_word self }
        ensures range { result < 2 ^ 19 }
    {
        self.intlevel as u32
            + (1 << 4) * (self.excm as u32)
            + (1 << 5) * (self.um as u32)
            + (1 << 6) * (self.ring as u32)
            + (1 << 8) * (self.owb as u32)
            + (1 << 16) * (self.callinc as u32)
            + (1 << 18) * (self.woe as u32)
    }
}
