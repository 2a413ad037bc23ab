//! PS, whole and field by field.
#![tactic(auto)]

ghost use Rattle.std.specs.Prelude.{◌≡◌, ◌<◌};
ghost use Rattle.xt_special.specs.Control.{ps_word};
ghost use Rattle.xt_special.specs.Shape.{IsPs};

use super::Special;
use crate::Ps;

impl Special {
    /// PS as a word.
    #[inline(always)]
    pub fn ps(&self) -> u32
        ensures { result ≡ ps_word self.now.ps }
    {
        self.ps.word()
    }

    /// The fields of PS.
    #[inline(always)]
    pub fn ps_fields(&self) -> Ps
        ensures value { result ≡ self.now.ps }
        ensures range { IsPs result }
    {
        self.ps
    }

    /// Sets all fields of PS, and changes nothing else.
    ///
    /// Condition: each field is in its range.
    #[inline(always)]
    pub fn set_ps_fields(&mut self, ps: Ps)
        requires { IsPs ps }
        ensures { self.new ≡ record self.old { ps = ps } }
    {
        self.ps = ps;
    }

    /// The interrupt level that is masked, 0 to 15.
    #[inline(always)]
    pub fn intlevel(&self) -> u8
        ensures value { result ≡ self.now.ps.intlevel }
        ensures range { result < 16 }
    {
        self.ps.intlevel
    }

    /// Sets that field of PS, and changes nothing else.
    ///
    /// Condition: `v` is below 16.
    #[inline(always)]
    pub fn set_intlevel(&mut self, v: u8)
        requires { v < 16 }
        ensures { self.new ≡ record self.old { ps = record self.old.ps { intlevel = v } } }
    {
        self.ps.intlevel = v;
    }

    /// Whether the core is in exception mode.
    #[inline(always)]
    pub fn excm(&self) -> bool
        ensures { result ≡ self.now.ps.excm }
    {
        self.ps.excm
    }

    /// Sets that field of PS, and changes nothing else.
    #[inline(always)]
    pub fn set_excm(&mut self, v: bool)
        ensures { self.new ≡ record self.old { ps = record self.old.ps { excm = v } } }
    {
        self.ps.excm = v;
    }

    /// Whether exceptions go to the user vector.
    #[inline(always)]
    pub fn um(&self) -> bool
        ensures { result ≡ self.now.ps.um }
    {
        self.ps.um
    }

    /// The protection ring, 0 to 3.
    #[inline(always)]
    pub fn ring(&self) -> u8
        ensures value { result ≡ self.now.ps.ring }
        ensures range { result < 4 }
    {
        self.ps.ring
    }

    /// The old window base, 0 to 15.
    #[inline(always)]
    pub fn owb(&self) -> u8
        ensures value { result ≡ self.now.ps.owb }
        ensures range { result < 16 }
    {
        self.ps.owb
    }

    /// Sets that field of PS, and changes nothing else.
    ///
    /// Condition: `v` is below 16.
    #[inline(always)]
    pub fn set_owb(&mut self, v: u8)
        requires { v < 16 }
        ensures { self.new ≡ record self.old { ps = record self.old.ps { owb = v } } }
    {
        self.ps.owb = v;
    }

    /// By how many windows the last call moves, 0 to 3.
    #[inline(always)]
    pub fn callinc(&self) -> u8
        ensures value { result ≡ self.now.ps.callinc }
        ensures range { result < 4 }
    {
        self.ps.callinc
    }

    /// Whether window overflows are detected.
    #[inline(always)]
    pub fn woe(&self) -> bool
        ensures { result ≡ self.now.ps.woe }
    {
        self.ps.woe
    }
}
