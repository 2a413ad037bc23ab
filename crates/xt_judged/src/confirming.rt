//! Whether the run of an order has a breach as its verdict.
ghost use Rattle.std.specs.Prelude.{◌≡◌, ◌≤◌, ◌<◌, ◌↔◌, true, IfOk, length, slice_get};
ghost use Rattle.xt_trace.specs.Validity.{IsValid};
ghost use Rattle.xt_image.specs.ImageParts.{IsWellFormed};
ghost use Rattle.xt_core.specs.Runs.{IsRunOf, records_of};
ghost use Rattle.xt_search.specs.Worlds.{IsOrder};
ghost use Rattle.xt_judged.specs.OrderFrames.{HasTurnsOf, IsRealBreach, has_pc, turns_in};
ghost use Rattle.xt_discipline.specs.Verdicts.{judged_of};

use crate::frames::OrderBreach;
use std::alloc::{AllocError, Global};
use xt_core::Cursor;
use xt_discipline::{handlers_of, judge};
use xt_frames::{Breach, Judged};
use xt_image::{Image, well_formed_is_placed};
use xt_machine::{run_has_schedule, run_schedule};
use xt_trace::{Options, Records, Run, StepRecord};

// No core has more than 4,000,000 turns.
const MOST: usize = 8_000_000;

// How many turns of a core an order has.
fn turns_in(order: &[u8], core: u8) -> u32
    requires { length order.now ≤ 8000000 }
    ensures { result ≡ turns_in core order.now }
{
    let mut turns = 0;
    let mut at = order.len();
    while at > 0 {
        at -= 1;
        if order[at] == core {
            turns += 1;
        }
    }
    turns
}

// The record with this number, of those that are left.
fn record_at<R: Records>(records: &mut R, number: u32) -> Option<StepRecord>
    ensures { result ≡ slice_get (R.left records.old) number }
{
    for _ in 0..number {
        let _ = records.next();
    }
    records.next()
}

// Whether a record has this address.
fn has_pc(pc: u32, found: Option<StepRecord>) -> bool
    ensures { result ≡ has_pc pc found }
{
    match found {
        Some(found) => found.pc == pc,
        None => false,
    }
}

// Whether the record with this number of a core has this address. The only error is running out of memory.
fn stands_at(
    alloc: Global,
    image: &Image,
    run: &Run,
    found: Breach,
    pc: u32,
) -> Result<bool, AllocError>
    requires core { found.core < 2 }
    requires image { IsWellFormed image.now }
    requires run { IsRunOf image.now run.now }
    ensures { IfOk result (λ is. is ≡ has_pc pc (slice_get (records_of found.core image.now run.now).records found.step)) }
{
    well_formed_is_placed();
    let mut records = Cursor::make(alloc, image, run, found.core)?;
    let record = record_at(&mut records, found.step);
    Ok(has_pc(pc, record))
}

// What is judged of a run. The only error is running out of memory.
fn verdict_of(alloc: Global, image: &Image, run: &Run) -> Result<Judged, AllocError>
    requires image { IsWellFormed image.now }
    requires valid { IsValid run.now.options }
    requires run { IsRunOf image.now run.now }
    ensures { IfOk result (λ judged. judged ≡ judged_of image.now run.now) }
{
    well_formed_is_placed();
    run_has_schedule();
    let handlers = handlers_of(alloc, image, run.options.vecbase)?;
    let mut records0 = Cursor::make(alloc, image, run, 0)?;
    let mut records1 = Cursor::make(alloc, image, run, 1)?;
    let judged = judge(alloc, image, &handlers, run, &mut records0, &mut records1)?;
    Ok(judged)
}

// Whether both breaches are of one core and of one kind.
fn is_same(found: Breach, breach: &OrderBreach) -> bool
    ensures core { result ≡ true → found.core ≡ breach.now.core }
    ensures kind { result ≡ true → found.kind ≡ breach.now.kind }
    ensures same { found.core ≡ breach.now.core → found.kind ≡ breach.now.kind → result ≡ true }
{
    found.core == breach.core && found.kind == breach.kind
}

// Whether an order has no more turns of a core than these options give, or, if it is not timed, than a run
// can have.
fn has_turns_of(timed: bool, options: &Options, own: &Options, order: &[u8]) -> bool
    requires turns0 { own.now.turns0 ≡ turns_in 0 order.now }
    requires turns1 { own.now.turns1 ≡ turns_in 1 order.now }
    ensures has { result ≡ true → HasTurnsOf timed options.now order.now }
    ensures lacks { HasTurnsOf timed options.now order.now → result ≡ true }
{
    if timed {
        own.turns0 <= options.turns0 && own.turns1 <= options.turns1
    } else {
        own.turns0 <= 4_000_000 && own.turns1 <= 4_000_000
    }
}

/// Whether the run of an order's turns has this breach as its verdict, and the order has no more turns of a
/// core than the options give, or, if it is not timed, than a run can have. The only error is running out of
/// memory.
///
/// Conditions: the image is well formed, the options are valid, and the order is one of two cores.
pub fn is_real(
    alloc: Global,
    image: &Image,
    options: &Options,
    timed: bool,
    breach: &OrderBreach,
) -> Result<bool, AllocError>
    requires image { IsWellFormed image.now }
    requires valid { IsValid options.now }
    requires order { IsOrder breach.now.order.items }
    ensures { IfOk result (λ real. (real ≡ true) ↔ IsRealBreach image.now options.now timed breach.now) }
{
    let order = breach.order.as_slice();
    if order.len() > MOST {
        return Ok(false);
    }
    let turns0 = turns_in(order, 0);
    let turns1 = turns_in(order, 1);
    let own = Options {
        turns0,
        turns1,
        entry1: options.entry1,
        vecbase: options.vecbase,
        stack0: options.stack0,
        stack1: options.stack1,
    };
    if !has_turns_of(timed, options, &own, order) {
        return Ok(false);
    }
    let run = run_schedule(alloc, image, &own, order)?;
    let judged = verdict_of(alloc, image, &run)?;
    let Judged::Broken(found) = judged else {
        return Ok(false);
    };
    if !is_same(found, breach) {
        return Ok(false);
    }
    let stands = stands_at(alloc, image, &run, found, breach.pc)?;
    Ok(stands)
}
