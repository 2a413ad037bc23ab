ghost use Rattle.std.specs.Prelude.{◌≡◌};
ghost use Rattle.xt_debug.specs.declared.script.ScriptFault.TheVariants.{Memory};

use crate::targets::Target;
use std::alloc::{AllocError, AllocFailed};
use std::marker::Model;

/// A command of a script. A core is 0 or 1, a position a number of steps of the run's schedule.
#[derive(Drop)]
pub enum Command {
    /// `go C N`: to the position directly before this core's step of this number.
    Go(u8, u32),
    /// `end`: to the position after the run's last step.
    End,
    /// `next N`: this many positions on.
    Next(u32),
    /// `back N`: this many positions back.
    Back(u32),
    /// `break C ADDR,ADDR,..`: to the first later position where this core is next, with one of these program counters.
    /// `watch ADDR`: directly after the next step that stores into the word at this address.
    Ahead(Target),
    /// `prior C ADDR,ADDR,..`: to the last earlier position where this core is next, with one of these program counters.
    /// `last ADDR`: directly before the last step before here that stores into the word at this address.
    Behind(Target),
    /// `trace N`: this many positions on; prints the line of each turn on the way.
    Trace(u32),
    /// `regs C`: prints the registers of this core.
    Regs(u8),
    /// `ring C`: prints the 64 registers of this core's ring.
    Ring(u8),
    /// `special C`: prints the special registers of this core.
    Special(u8),
    /// `mem ADDR N`: prints this many bytes, at most 64, from this address on.
    Mem(u32, u32),
    /// `words ADDR N`: prints this many words, at most 64, from this address on.
    Words(u32, u32),
    /// `frames C`: prints how many frames of callers this core has.
    Frames(u8),
    /// `calls C`: prints the frames of this core.
    Calls(u8),
    /// `events`: prints which kinds of turns came in the whole run, how often, and when first.
    Events,
}

/// A list of commands. Contracts see the list.
#[derive(Drop)]
pub struct Script {
    items: Vec<Command>,
}

impl Model for Script {
    ghost use Rattle.std.specs.Prelude.{List};
    ghost use Rattle.xt_debug.specs.declared.script.Command.{Command};

    ghost Value = { List Command };

    ghost view = { λ s. s.items.items };
}

impl Script {
    /// These commands, without a copy.
    pub fn new(items: Vec<Command>) -> Script
        ensures { result ≡ items.items }
    {
        Script { items }
    }

    /// The commands.
    pub fn as_slice(&self) -> &[Command]
        ensures { result.now ≡ self.now }
    {
        &self.items
    }
}

/// Why a text is no script.
#[derive(Clone, Copy)]
pub enum ScriptFault {
    /// The text is not a list of commands.
    Bad,
    /// There is not enough memory for the script.
    Memory,
}

impl From<AllocError> for ScriptFault {
    ghost from_gives = { λ _ e. e ≡ Memory };

    fn from(_: AllocError) -> Self {
        ScriptFault::Memory
    }
}

impl<T: Drop> From<AllocFailed<T>> for ScriptFault {
    ghost from_gives = { λ _ e. e ≡ Memory };

    fn from(_: AllocFailed<T>) -> Self {
        ScriptFault::Memory
    }
}
