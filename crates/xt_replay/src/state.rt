//! What a replay shows at a position.
ghost use Rattle.std.specs.Prelude.{◌≡◌, ◌<◌};
ghost use Rattle.xt_exec.specs.States.{file_state};
ghost use Rattle.xt_replay.specs.Shown.{byte_in, state_in, step_in};

use std::marker::Model;
use xt_bus::Memory;
use xt_core::Core;
use xt_exec::Regs;
use xt_map::regions::Region;
use xt_map::{Constants, is_constant_at, region};
use xt_window::WindowFile;

/// The states of both cores and of memory at a position. Contracts see the state of each core and the
/// number of its next step, what memory holds, and the image's constant bytes.
#[derive(Drop)]
pub struct State<'s> {
    pub(crate) core0: &'s Core<WindowFile>,
    pub(crate) core1: &'s Core<WindowFile>,
    pub(crate) memory: &'s Memory,
    pub(crate) code: &'s Constants<'s>,
    pub(crate) step0: u32,
    pub(crate) step1: u32,
}

impl<'s> Model for State<'s> {
    ghost use Rattle.xt_replay.specs.Shown.{Shown};

    ghost Value = { Shown };

    ghost view = { λ s. record { state0 = s.core0.now.state; step0 = s.step0; state1 = s.core1.now.state; step1 = s.step1; memory = s.memory.now.contents; segments = s.code.now } };
}

impl<'s> State<'s> {
    /// The registers of a core.
    ///
    /// Condition: the core is 0 or 1.
    pub fn regs(&self, core: u8) -> &Regs<WindowFile>
        requires { core < 2 }
        ensures { file_state result.now ≡ state_in core self.now }
    {
        if core == 0 {
            self.core0.regs()
        } else {
            self.core1.regs()
        }
    }

    /// The number of a core's next step: how many it has made.
    ///
    /// Condition: the core is 0 or 1.
    pub fn step(&self, core: u8) -> u32
        requires { core < 2 }
        ensures { result ≡ step_in core self.now }
    {
        if core == 0 { self.step0 } else { self.step1 }
    }

    /// The byte at an address. None comes exactly outside the memory regions and the constant regions.
    pub fn byte(&self, addr: u32) -> Option<u8>
        ensures { result ≡ byte_in addr self.now }
    {
        match region(addr) {
            Some(Region::RtcFastData | Region::Dram | Region::RtcSlow) => Some(
                self.memory.byte(addr),
            ),
            _ if is_constant_at(addr) => Some(self.code.byte(addr)),
            _ => None,
        }
    }
}
