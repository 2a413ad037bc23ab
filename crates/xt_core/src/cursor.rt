use crate::ends::left_past;
use crate::file::CursorFile;
use crate::replies::next_turn;
use std::alloc::{AllocError, Global};
use std::marker::Model;
use xt_exec::Regs;
use xt_image::Image;
use xt_map::{Constants, Entry};
use xt_trace::{Records, Run, StepRecord};

/// The records of one core of a run, made again one by one. Contracts see the list of the records that are left.
pub struct Cursor<'a> {
    code: Constants<'a>,
    core: u8,
    regs: Regs<CursorFile>,
    left: u32,
    entries: &'a [Entry],
}

// A `drop` of its own is one call at each place where a value is dropped.
impl Drop for Cursor<'_> {
    fn drop(self) {
        let Cursor {
            code: _,
            core: _,
            regs: _,
            left: _,
            entries: _,
        } = self;
    }
}

impl<'a> Model for Cursor<'a> {
    ghost use Rattle.std.specs.Prelude.{List};
    ghost use Rattle.xt_trace.specs.declared.record.StepRecord.{StepRecord};

    ghost Value = { List StepRecord };

    ghost use Rattle.xt_map.specs.Memory.{constant_byte};
    ghost use Rattle.xt_exec.specs.States.{file_state};
    ghost use Rattle.xt_core.specs.Cursors.{records_over};

    ghost view = { λ c. records_over (constant_byte c.code) c.core (file_state c.regs) c.left c.entries.now };
}

impl<'a> Cursor<'a> {
    ghost use Rattle.std.specs.Prelude.{◌≡◌, ◌<◌, IfOk};
    ghost use Rattle.xt_map.specs.Placing.{IsPlaced};
    ghost use Rattle.xt_core.specs.Runs.{IsRunOf, records_of};

    /// The records of a core of a run of an image. The only error is running out of memory; all of it is taken here.
    ///
    /// Conditions: the core is 0 or 1, and the run is the image's. The image's segments lie in one region each and share no byte, as
    /// those of every image that was read.
    pub fn make(
        alloc: Global,
        image: &'a Image,
        run: &'a Run,
        core: u8,
    ) -> Result<Cursor<'a>, AllocError>
        requires core { core < 2 }
        requires run { IsRunOf image.now run.now }
        requires placed { IsPlaced image.now.segments }
        ensures { IfOk result (λ c. c ≡ (records_of core image.now run.now).records) }
    {
        let options = &run.options;
        let (entry, turns, stack) = if core == 0 {
            (image.entry, options.turns0, options.stack0)
        } else {
            (options.entry1, options.turns1, options.stack1)
        };
        Ok(Cursor {
            code: Constants::make(alloc, image.segments.as_slice())?,
            core,
            regs: Regs::open(core, entry, options.vecbase, stack.hi, CursorFile::new()),
            left: turns,
            entries: run.history.as_slice(),
        })
    }
}

impl<'a> Records for Cursor<'a> {
    ghost left = { λ c. c };

    fn next(&mut self) -> Option<StepRecord> {
        if self.left == 0 {
            return None;
        }
        let (record, rest) = next_turn(&mut self.regs, &self.code, self.core, self.entries);
        self.entries = rest;
        self.left = left_past(record, self.left - 1);
        Some(record)
    }
}
