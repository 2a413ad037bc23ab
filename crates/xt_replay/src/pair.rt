//! Two cores and their memory, and copies of them.
ghost use Rattle.std.specs.Prelude.{◌≡◌, None};

use std::marker::Model;
use xt_bus::Memory;
use xt_core::Core;
use xt_exec::Regs;
use xt_window::WindowFile;

/// Two cores over a memory, with the number of each core's next step, and how many accesses were
/// served.
pub struct Pair {
    pub core0: Core<WindowFile>,
    pub core1: Core<WindowFile>,
    pub memory: Memory,
    pub step0: u32,
    pub step1: u32,
    pub used: u32,
    ghost waiting: { (core0.waiting ≡ None) × (core1.waiting ≡ None) },
}

/// A copy of two cores and a memory. Contracts see where they stand, and for how many bytes that are sent
/// it has room.
pub struct Mark {
    pub regs0: Regs<WindowFile>,
    pub regs1: Regs<WindowFile>,
    pub left0: u32,
    pub left1: u32,
    pub step0: u32,
    pub step1: u32,
    pub memory: Memory,
    pub used: u32,
}

impl Model for Mark {
    ghost use Rattle.xt_exec.specs.States.{file_state};
    ghost use Rattle.xt_replay.specs.Sides.{Copied};

    ghost Value = { Copied };

    ghost view = { λ m. record { stand = record { side0 = record { state = file_state m.regs0; left = m.left0; step = m.step0 }; side1 = record { state = file_state m.regs1; left = m.left1; step = m.step1 }; memory = m.memory.contents; entries = m.used }; room = m.memory.room } };
}

// A `drop` of its own is a call at each place where a value is dropped; a derived one is laid out there
// field by field.
impl Drop for Pair {
    fn drop(self) {
        let Pair {
            core0: _,
            core1: _,
            memory: _,
            step0: _,
            step1: _,
            used: _,
        } = self;
    }
}

impl Drop for Mark {
    fn drop(self) {
        let Mark {
            regs0: _,
            regs1: _,
            left0: _,
            left1: _,
            step0: _,
            step1: _,
            memory: _,
            used: _,
        } = self;
    }
}

/// A copy of what a run has at a position.
#[derive(Drop)]
pub struct Checkpoint {
    pub position: u32,
    pub mark: Mark,
}
