//! A run that is made from its entries.
ghost use Rattle.std.specs.Prelude.{◌≡◌, ◌<◌, All, List, IfOk};
ghost use Rattle.xt_map.specs.declared.access.Entry.{Entry};
ghost use Rattle.xt_map.specs.Memory.{constant_byte};
ghost use Rattle.xt_map.specs.Placing.{IsPlaced};
ghost use Rattle.xt_trace.specs.Validity.{IsValid};
ghost use Rattle.xt_record.specs.Standing.{IsFree, Stands, StandsOpen, TakesAt, Walks, WentOn, WentThrough};

use crate::fault::RecordFault;
use crate::file::WalkFile;
use crate::setting::Setting;
use crate::walking::{File, end, take_entry};
use std::alloc::{AllocError, Global};
use xt_bus::Memory;
use xt_core::{Core, stack_links};
use xt_image::Image;
use xt_map::{Bytes, Constants, Entry};
use xt_trace::{Options, Trace};

/// Both cores of a run of an image, and what they work on.
#[derive(Drop)]
pub(crate) struct Walk<'a> {
    pub image: &'a Image,
    pub options: Options,
    pub core0: File,
    pub core1: File,
    pub setting: Setting<'a>,
}

/// What is made from the entries of a run: both traces, and the checkpoints.
#[derive(Drop)]
pub(crate) struct Walked {
    pub trace0: Trace,
    pub trace1: Trace,
    pub points: Vec<Bytes>,
}

// What both cores work on as a run of the image opens.
fn opening_setting<'a>(
    alloc: Global,
    image: &'a Image,
    options: &Options,
) -> Result<Setting<'a>, AllocError>
    requires placed { IsPlaced image.now.segments }
    requires valid { IsValid options.now }
    ensures { IfOk result (StandsOpen image.now options.now) }
{
    let links = stack_links(options);
    let room = options.turns0 + options.turns1;
    let segments = image.segments.as_slice();
    Ok(Setting {
        code: Constants::make(alloc, segments)?,
        memory: Memory::make(alloc, segments, &links, room as usize)?,
        points: Vec::new(alloc),
    })
}

impl<'a> Walk<'a> {
    // Before the first entry. Takes all memory of the run but that of its checkpoints.
    fn open(alloc: Global, image: &'a Image, options: &Options) -> Result<Walk<'a>, AllocError>
        requires placed { IsPlaced image.now.segments }
        requires valid { IsValid options.now }
        ensures stands { IfOk result (λ w. (es : List Entry) → Stands es 0 w) }
        ensures image { IfOk result (λ w. w.image.now ≡ image.now) }
        ensures options { IfOk result (λ w. w.options ≡ options.now) }
    {
        Ok(Walk {
            image,
            options: *options,
            core0: Core::make(alloc, 0, image.entry, options, WalkFile::new())?,
            core1: Core::make(alloc, 1, options.entry1, options, WalkFile::new())?,
            setting: opening_setting(alloc, image, options)?,
        })
    }

    // The turns of its core up to and with the access of the entry of this number.
    #[inline(always)]
    fn take(&mut self, alloc: Global, index: u32, entry: &Entry) -> Result<(), RecordFault>
        requires core { entry.now.core < 2 }
        requires free { IsFree self.old }
        ensures takes { TakesAt result entry.now.core self.old self.new index entry.now }
    {
        if entry.core == 0 {
            take_entry(
                alloc,
                0,
                &mut self.core0,
                &self.core1,
                &mut self.setting,
                index,
                entry,
            )
        } else {
            take_entry(
                alloc,
                1,
                &mut self.core1,
                &self.core0,
                &mut self.setting,
                index,
                entry,
            )
        }
    }

    // The turns up to and with the access of the last entry.
    fn take_all(&mut self, alloc: Global, entries: &[Entry]) -> Result<(), RecordFault>
        requires cores { All (λ (e : Entry). e.core < 2) entries.now }
        requires stands { Stands entries.now 0 self.old }
        ensures through { WentThrough result entries.now self.old self.new }
    {
        let mut index = 0u32;
        for entry in entries {
            self.take(alloc, index, entry)?;
            index += 1;
        }
        Ok(())
    }

    // All turns of the run: those up to the last entry, and then those that each core has left.
    fn take_turns(&mut self, alloc: Global, entries: &[Entry]) -> Result<(), RecordFault>
        requires cores { All (λ (e : Entry). e.core < 2) entries.now }
        requires valid { IsValid self.old.options }
        requires stands { Stands entries.now 0 self.old }
        ensures { WentOn result entries.now self.old self.new }
    {
        self.take_all(alloc, entries)?;
        let count = entries.len() as u32;
        end(
            alloc,
            0,
            &mut self.core0,
            &self.core1,
            &mut self.setting,
            count,
        )?;
        end(
            alloc,
            1,
            &mut self.core1,
            &self.core0,
            &mut self.setting,
            count,
        )?;
        Ok(())
    }
}

/// Makes the run of an image with these entries, or finds the first turn or reply that is not
/// theirs.
pub(crate) fn walk_entries(
    alloc: Global,
    image: &Image,
    options: &Options,
    entries: &[Entry],
) -> Result<Walked, RecordFault>
    requires placed { IsPlaced image.now.segments }
    requires valid { IsValid options.now }
    requires cores { All (λ (e : Entry). e.core < 2) entries.now }
    ensures { Walks result image.now options.now entries.now }
{
    let mut walk = Walk::open(alloc, image, options)?;
    walk.take_turns(alloc, entries)?;
    let Walk {
        core0,
        core1,
        setting,
        ..
    } = walk;
    Ok(Walked {
        trace0: core0.into_trace(),
        trace1: core1.into_trace(),
        points: setting.points,
    })
}
