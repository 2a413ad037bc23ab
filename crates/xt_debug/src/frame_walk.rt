//! The walk of the judge at one position of a run after another.
ghost use Rattle.std.specs.Prelude.{◌≡◌, ◌+◌, ◌<◌, ◌++◌, OnOk, IfOk, ℕ, Option, slice_get, string_bytes};
ghost use Rattle.xt_trace.specs.declared.run.Run.{Run};
ghost use Rattle.xt_image.specs.declared.image.Image.{Image};
ghost use Rattle.xt_trace.specs.Validity.{IsValid};
ghost use Rattle.xt_map.specs.Placing.{IsPlaced};
ghost use Rattle.xt_core.specs.Runs.{IsRunOf, records_of};
ghost use Rattle.xt_discipline.specs.Walks.{IsOpened};
ghost use Rattle.xt_debug.specs.FrameWalks.{IsTurnOf, StandsAt, course_of, is_lost, opening_course};

use crate::calls::{push_known, push_unknown};
use crate::frame_notes::{push_frames, push_no_frames};
use std::alloc::{AllocError, Global};
use std::marker::Model;
use xt_core::Cursor;
use xt_discipline::{Schedule, Walk, are_yes, handlers_of, schedule_of};
use xt_frames::Judged;
use xt_image::Image;
use xt_map::Constants;
use xt_trace::{Options, Records, Run};

/// How the walk of the judge goes on.
#[derive(Clone, Copy)]
enum Course {
    // It stands at the position.
    GoesOn,
    // A core had no record left.
    Ended,
    // The window handlers do not pass their check, or a breach came.
    Lost,
}

/// What the judge knows of the frames of both cores, at one position of a run after another. Contracts
/// see the image, the run and the position.
pub struct FrameWalk<'a> {
    image: &'a Image,
    run: &'a Run,
    schedule: Schedule,
    records0: Cursor<'a>,
    records1: Cursor<'a>,
    walk: Walk<'a>,
    course: Course,
    position: u32,
}

impl<'a> Model for FrameWalk<'a> {
    ghost use Rattle.xt_replay.specs.Shown.{ReplayState};

    ghost Value = { ReplayState };

    ghost use Rattle.xt_debug.specs.FrameWalks.{IsAtPosition, state_of};

    ghost view = { state_of };

    ghost invariant = { IsAtPosition };
}

// A `drop` of its own is a call at each place where a walk is dropped; a derived one is laid out there
// field by field.
impl Drop for FrameWalk<'_> {
    fn drop(self) {
        let FrameWalk {
            image: _,
            run: _,
            schedule: _,
            records0: _,
            records1: _,
            walk: _,
            course: _,
            position: _,
        } = self;
    }
}

// How a walk begins, by whether the window handlers pass their check.
fn opening_course(checked: bool) -> Course
    ensures { result ≡ opening_course checked }
{
    if checked {
        Course::GoesOn
    } else {
        Course::Lost
    }
}

// How a walk goes on that made a turn with this answer.
fn course_of(answer: Result<(), Judged>) -> Course
    ensures { result ≡ course_of answer }
{
    match answer {
        Ok(()) => Course::GoesOn,
        Err(Judged::Whole) => Course::Ended,
        Err(_) => Course::Lost,
    }
}

fn is_lost(course: Course) -> bool
    ensures { result ≡ is_lost course }
{
    match course {
        Course::GoesOn | Course::Ended => false,
        Course::Lost => true,
    }
}

// The core of the turn at a position of a schedule.
fn core_at(schedule: &[u8], position: u32) -> Option<u8>
    ensures { result ≡ slice_get schedule.now position }
{
    schedule.get(position as usize).copied()
}

// Makes the next turn of a walk that goes on, which is this core's: how it goes on.
fn step<R: Records>(
    walk: &mut Walk,
    course: Course,
    core: u8,
    records0: &mut R,
    records1: &mut R,
) -> Course
    requires core { core < 2 }
    requires stands { (image : Image) × (r : Run) × (p : ℕ) × IsTurnOf image r p core × StandsAt course walk.old image r p (R.left records0.old) (R.left records1.old) }
    ensures { (image : Image) (r : Run) (p : ℕ) → IsTurnOf image r p core → StandsAt course walk.old image r p (R.left records0.old) (R.left records1.old)
        → StandsAt result walk.new image r (p + 1) (R.left records0.new) (R.left records1.new) }
{
    match course {
        Course::GoesOn => course_of(walk.turn(core, records0, records1)),
        Course::Ended => Course::Ended,
        Course::Lost => Course::Lost,
    }
}

// The records of both cores. The only error is running out of memory.
fn both_records<'a>(
    alloc: Global,
    image: &'a Image,
    run: &'a Run,
) -> Result<(Cursor<'a>, Cursor<'a>), AllocError>
    requires run { IsRunOf image.now run.now }
    requires placed { IsPlaced image.now.segments }
    ensures zero { IfOk result (λ both. both.0 ≡ (records_of 0 image.now run.now).records) }
    ensures one { IfOk result (λ both. both.1 ≡ (records_of 1 image.now run.now).records) }
{
    let records0 = Cursor::make(alloc, image, run, 0)?;
    let records1 = Cursor::make(alloc, image, run, 1)?;
    Ok((records0, records1))
}

// The walk of the judge as both cores open. The only error is running out of memory.
fn opened<'a>(alloc: Global, image: &'a Image, options: &Options) -> Result<Walk<'a>, AllocError>
    requires placed { IsPlaced image.now.segments }
    requires valid { IsValid options.now }
    ensures { IfOk result (λ walk. IsOpened walk image.now.segments image.now.entry options.now) }
{
    let code = Constants::make(alloc, image.segments.as_slice())?;
    Walk::open(alloc, code, image.entry, options)
}

impl<'a> FrameWalk<'a> {
    ghost use Rattle.xt_debug.specs.Calls.{calls_text, stack_end};
    ghost use Rattle.xt_debug.specs.Depths.{depth_at, frame_at};
    ghost use Rattle.xt_debug.specs.FrameNotes.{note_at, note_text};
    ghost use Rattle.xt_debug.specs.FrameWalks.{Advances, Skips};

    /// The walk at the start of a run. The only error is running out of memory; all of it is taken here.
    ///
    /// Conditions: the run is the image's. The image's segments lie in one region each and share no byte,
    /// as those of every image that was read.
    pub fn make(alloc: Global, image: &'a Image, run: &'a Run) -> Result<FrameWalk<'a>, AllocError>
        requires run { IsRunOf image.now run.now }
        requires placed { IsPlaced image.now.segments }
        ensures { IfOk result (λ w. w ≡ record { image = image.now; run = run.now; position = 0 }) }
    {
        let handlers = handlers_of(alloc, image, run.options.vecbase)?;
        let schedule = schedule_of(alloc, run)?;
        let records = both_records(alloc, image, run)?;
        let walk = opened(alloc, image, &run.options)?;
        Ok(FrameWalk {
            image,
            run,
            schedule,
            records0: records.0,
            records1: records.1,
            walk,
            course: opening_course(are_yes(&handlers)),
            position: 0,
        })
    }

    /// Goes over the next turn: its core; none after the last turn.
    pub fn advance(&mut self) -> Option<u8>
        ensures { Advances result self.old self.new }
    {
        let Some(core) = core_at(self.schedule.as_slice(), self.position) else {
            return None;
        };
        self.course = step(
            &mut self.walk,
            self.course,
            core,
            &mut self.records0,
            &mut self.records1,
        );
        self.position += 1;
        Some(core)
    }

    /// Goes over so many turns, as far as there are turns.
    pub fn skip(&mut self, count: u32)
        ensures { Skips count self.old self.new }
    {
        for _ in 0..count {
            if self.advance().is_none() {
                return;
            }
        }
    }

    /// The position: how many turns it has gone over.
    pub fn position(&self) -> u32
        ensures { result ≡ self.now.position }
    {
        self.position
    }

    /// How many frames of callers a core has; none if the window handlers do not pass their check, or a breach comes
    /// before the position.
    ///
    /// Condition: the core is 0 or 1.
    pub fn depth(&self, core: u8) -> Option<u32>
        requires { core < 2 }
        ensures { result ≡ depth_at self.now.image self.now.run core self.now.position }
    {
        if is_lost(self.course) {
            return None;
        }
        Some(self.walk.frames(core).depth())
    }

    /// Appends the lines of the frames of a core, or the line that says that they are not known.
    ///
    /// Condition: the core is 0 or 1.
    pub fn push_calls(&self, alloc: Global, out: &mut Vec<u8>, core: u8) -> Result<(), AllocError>
        requires { core < 2 }
        ensures { OnOk result (out.new.items ≡ out.old.items ++ calls_text core (stack_end core self.now.run) (frame_at self.now.image self.now.run core self.now.position)) }
    {
        if is_lost(self.course) {
            return push_unknown(alloc, out, core);
        }
        push_known(alloc, out, core, self.walk.frames(core))
    }

    // Appends what is known of a core's frames, as a note on a line.
    fn push_note(&self, alloc: Global, out: &mut String, core: u8) -> Result<(), AllocError>
        requires { core < 2 }
        ensures { OnOk result (string_bytes out.new ≡ string_bytes out.old ++ note_text (stack_end core self.now.run) (frame_at self.now.image self.now.run core self.now.position)) }
    {
        if is_lost(self.course) {
            return push_no_frames(out);
        }
        push_frames(alloc, out, self.walk.frames(core))
    }

    /// Goes over the next turn: what is known of its core's frames after it, as a note; an empty one after the
    /// last turn. The only error is running out of memory.
    pub fn note(&mut self, alloc: Global) -> Result<String, AllocError>
        ensures note { IfOk result (λ note. string_bytes note ≡ note_at self.old.image self.old.run self.old.position) }
        ensures moved { (core : Option ℕ) × Advances core self.old self.new }
    {
        let mut note = String::new(alloc);
        if let Some(core) = self.advance() {
            self.push_note(alloc, &mut note, core)?;
        }
        Ok(note)
    }
}
