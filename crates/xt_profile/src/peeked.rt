//! The records of a core, of which the next one can be seen before it is taken.
#![tactic(auto)]

ghost use Rattle.std.specs.Prelude.{◌≡◌};
ghost use Rattle.xt_profile.specs.Peeks.{pc_and_kind};

use std::marker::Model;
use xt_core::Cursor;
use xt_trace::{Records, StepKind, StepRecord};

/// The records of one core, made again one by one. Contracts see the list of the records that are
/// left.
#[derive(Drop)]
pub struct Peeked<'a> {
    // The first of them, where it was made already.
    first: Option<StepRecord>,
    rest: Cursor<'a>,
}

impl<'a> Model for Peeked<'a> {
    ghost use Rattle.std.specs.Prelude.{List};
    ghost use Rattle.xt_trace.specs.declared.record.StepRecord.{StepRecord};
    ghost use Rattle.xt_profile.specs.Peeks.{with_held};

    ghost Value = { List StepRecord };

    ghost view = { λ p. with_held p.first p.rest };
}

impl<'a> Peeked<'a> {
    /// These records.
    pub fn new(rest: Cursor<'a>) -> Peeked<'a>
        ensures { result ≡ rest.entry }
    {
        Peeked { first: None, rest }
    }

    /// The PC and the kind of the next record, which is not taken; none exactly where none is left.
    pub fn peek(&mut self) -> Option<(u32, StepKind)>
        ensures same { self.new ≡ self.old }
        ensures peeked { result ≡ pc_and_kind self.old }
    {
        if self.first.is_none() {
            self.first = self.rest.next();
        }
        match self.first {
            Some(rec) => Some((rec.pc, rec.kind)),
            None => None,
        }
    }
}

impl<'a> Records for Peeked<'a> {
    ghost left = { λ p. p };

    fn next(&mut self) -> Option<StepRecord> {
        match self.first {
            Some(rec) => {
                self.first = None;
                Some(rec)
            }
            None => self.rest.next(),
        }
    }
}
