ghost use Rattle.std.specs.Prelude.{◌≡◌, Some};
ghost use Rattle.xt_map.specs.declared.access.Access.{Access};
ghost use Rattle.xt_map.specs.History.{replies_of};
ghost use Rattle.xt_map.specs.Memory.{constant_byte};
ghost use Rattle.xt_trace.specs.Traces.{replies_past, reply_for};
ghost use Rattle.xt_exec.specs.States.{file_state};
ghost use Rattle.xt_exec.specs.Turn.{demand, turn};

use crate::begun::StartedTurn;
use crate::file::CursorFile;
use crate::turn::{begin, end};
use std::marker::Model;
use xt_exec::Regs;
use xt_map::{Constants, Entry};
use xt_trace::{Run, StepRecord};

/// What is left of the replies that a history has for a core. Contracts see the list.
#[derive(Drop)]
pub struct Replies<'a> {
    core: u8,
    entries: &'a [Entry],
}

impl<'a> Model for Replies<'a> {
    ghost use Rattle.std.specs.Prelude.{ℕ, List};
    ghost use Rattle.xt_map.specs.History.{replies_of};

    ghost Value = { List ℕ };

    ghost view = { λ r. replies_of r.core r.entries.now };
}

impl<'a> Replies<'a> {
    /// All that a run has for a core.
    pub fn of(run: &'a Run, core: u8) -> Replies<'a>
        ensures { result ≡ replies_of core run.now.history }
    {
        Replies {
            core,
            entries: run.history.as_slice(),
        }
    }

    /// The next reply, 0 if there is none.
    #[inline(always)]
    pub fn next(&mut self) -> u32
        ensures reply { (a : Access) → result ≡ reply_for (Some a) self.old }
        ensures rest { (a : Access) → self.new ≡ replies_past (Some a) self.old }
    {
        let (reply, rest) = reply_in(self.entries, self.core);
        self.entries = rest;
        reply
    }
}

// The reply of the first entry of a core, 0 where there is none, and the entries after it.
#[inline(always)]
fn reply_in<'a>(entries: &'a [Entry], core: u8) -> (u32, &'a [Entry])
    ensures reply { (a : Access) → result.0 ≡ reply_for (Some a) (replies_of core entries.now) }
    ensures rest { (a : Access) → replies_of core result.1.now ≡ replies_past (Some a) (replies_of core entries.now) }
{
    let mut rest = entries;
    while !rest.is_empty() {
        let entry = rest[0];
        rest = &rest[1..];
        if entry.core == core {
            return (entry.reply, rest);
        }
    }
    (0, rest)
}

/// One turn of a core with the reply that the entries have for it, and the entries after that one.
pub fn next_turn<'a>(
    regs: &mut Regs<CursorFile>,
    code: &Constants,
    core: u8,
    entries: &'a [Entry],
) -> (StepRecord, &'a [Entry])
    ensures turn { let s = file_state regs.old in let code = constant_byte code.now in
        (result.0, file_state regs.new) ≡ turn code s (reply_for (demand code s) (replies_of core entries.now)) }
    ensures rest { let s = file_state regs.old in
        replies_of core result.1.now ≡ replies_past (demand (constant_byte code.now) s) (replies_of core entries.now) }
{
    match begin(regs, code) {
        StartedTurn::Local(record) => (record, entries),
        StartedTurn::Asks(pending) => {
            let (reply, rest) = reply_in(entries, core);
            (end(regs, pending, reply), rest)
        }
    }
}
