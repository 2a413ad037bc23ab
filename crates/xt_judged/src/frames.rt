//! What is judged of the runs of an image in all orders.
ghost use Rattle.std.specs.Prelude.{◌≡◌, true, IfOk};
ghost use Rattle.xt_trace.specs.Validity.{IsValid};
ghost use Rattle.xt_image.specs.ImageParts.{IsWellFormed};
ghost use Rattle.xt_judged.specs.Kept.{IsTree};
ghost use Rattle.xt_judged.specs.OrderFrames.{AreFrames, place_of};
ghost use Rattle.xt_discipline.specs.Verdicts.{are_checked};

use crate::apart::{self, search_watched};
use crate::breaches::{Met, breaches_of};
use crate::joint::{self, search_scenes};
use crate::judging::SceneDesk;
use crate::scene::Shown;
use std::alloc::{AllocError, Global};
use xt_discipline::{are_yes, handlers_of};
use xt_frames::BreachKind;
use xt_image::{Image, well_formed_is_placed};
use xt_outcomes::Dead;
use xt_search::Graph;
use xt_trace::Options;

/// A breach of the stack discipline: its kind, the core and the address of the turn that shows it, and an
/// order whose run has it as its verdict.
#[derive(Drop)]
pub struct OrderBreach {
    pub kind: BreachKind,
    pub core: u8,
    pub pc: u32,
    /// The cores that make the turns, one by one.
    pub order: Vec<u8>,
}

impl OrderBreach {
    /// Its kind, core and address.
    pub fn place(&self) -> Shown
        ensures { result ≡ place_of self.now }
    {
        Shown {
            core: self.core,
            pc: self.pc,
            kind: self.kind,
        }
    }
}

/// What is judged of the runs of all orders by the discipline of the stack.
pub enum JudgedOrders {
    /// Nothing is known of them all.
    Unknown,
    /// A window handler fails its check, so no run is judged.
    Unchecked,
    /// The run of each order keeps it.
    Whole,
    /// The runs of these orders break it, at least one, each in another way or at another place.
    Broken(Vec<OrderBreach>),
}

// A `drop` of its own is one call at each place where a value is dropped.
impl Drop for JudgedOrders {
    fn drop(self) {
        match self {
            JudgedOrders::Unknown => {}
            JudgedOrders::Unchecked => {}
            JudgedOrders::Whole => {}
            JudgedOrders::Broken(_) => {}
        }
    }
}

// What is judged by the breaches that a search met. The only error is running out of memory.
fn found_in<W: Met + Drop>(
    alloc: Global,
    image: &Image,
    options: &Options,
    timed: bool,
    graph: &Graph<W>,
) -> Result<JudgedOrders, AllocError>
    requires image { IsWellFormed image.now }
    requires valid { IsValid options.now }
    requires checked { are_checked image.now options.now ≡ true }
    requires tree { IsTree graph.now }
    ensures { IfOk result (AreFrames image.now options.now timed) }
{
    let list = breaches_of(alloc, image, options, timed, graph)?;
    if list.is_empty() {
        return Ok(JudgedOrders::Unknown);
    }
    Ok(JudgedOrders::Broken(list))
}

// Whether nothing is known.
fn is_unknown(frames: &JudgedOrders) -> bool {
    matches!(frames, JudgedOrders::Unknown)
}

// What is judged by a search in which each core has a judge of its own, without these dead registers, and
// whether a search with all registers may tell more. The only error is running out of memory.
fn judge_apart(
    alloc: Global,
    image: &Image,
    options: &Options,
    timed: bool,
    dead: &Dead,
    desk: &mut SceneDesk,
    most: u32,
) -> Result<(JudgedOrders, bool), AllocError>
    requires image { IsWellFormed image.now }
    requires valid { IsValid options.now }
    requires checked { are_checked image.now options.now ≡ true }
    ensures { IfOk result (λ r. AreFrames image.now options.now timed r.0) }
{
    well_formed_is_placed();
    let search = search_watched(alloc, image, options, timed, dead, desk, most)?;
    if apart::is_whole(image, options, timed, &search) {
        return Ok((JudgedOrders::Whole, false));
    }
    let frames = found_in(alloc, image, options, timed, &search.graph)?;
    let again = is_unknown(&frames) && search.graph.kept.len() < most as usize;
    Ok((frames, again))
}

// What is judged by such a search, or by one with all registers, if it tells more. The only error is running
// out of memory.
fn judge_own(
    alloc: Global,
    image: &Image,
    options: &Options,
    timed: bool,
    dead: &Dead,
    desk: &mut SceneDesk,
    most: u32,
) -> Result<JudgedOrders, AllocError>
    requires image { IsWellFormed image.now }
    requires valid { IsValid options.now }
    requires checked { are_checked image.now options.now ≡ true }
    ensures { IfOk result (AreFrames image.now options.now timed) }
{
    let (frames, again) = judge_apart(alloc, image, options, timed, dead, desk, most)?;
    if !again || dead.masks.is_empty() {
        return Ok(frames);
    }
    let none = Dead::none(alloc);
    let (frames, _) = judge_apart(alloc, image, options, timed, &none, desk, most)?;
    Ok(frames)
}

// What is judged by a search in which the judge looks at both cores. The only error is running out of
// memory.
fn judge_both(
    alloc: Global,
    image: &Image,
    options: &Options,
    timed: bool,
    desk: &mut SceneDesk,
    most: u32,
) -> Result<JudgedOrders, AllocError>
    requires image { IsWellFormed image.now }
    requires valid { IsValid options.now }
    requires checked { are_checked image.now options.now ≡ true }
    ensures { IfOk result (AreFrames image.now options.now timed) }
{
    well_formed_is_placed();
    let search = search_scenes(alloc, image, options, timed, desk, most)?;
    if joint::is_whole(image, options, timed, &search) {
        return Ok(JudgedOrders::Whole);
    }
    found_in(alloc, image, options, timed, &search.graph)
}

/// What is judged of the runs of an image in all orders, where each search keeps at most so many states:
/// timed, with the turns that the options give, or with any number of turns. These registers may be dead,
/// which each turn of the search checks. The only error is running out of memory.
///
/// Conditions: the image is well formed, and the options are valid.
pub fn judge_orders(
    alloc: Global,
    image: &Image,
    options: &Options,
    timed: bool,
    dead: &Dead,
    most: u32,
) -> Result<JudgedOrders, AllocError>
    requires image { IsWellFormed image.now }
    requires valid { IsValid options.now }
    ensures { IfOk result (AreFrames image.now options.now timed) }
{
    well_formed_is_placed();
    let handlers = handlers_of(alloc, image, options.vecbase)?;
    if !are_yes(&handlers) {
        return Ok(JudgedOrders::Unchecked);
    }
    let mut desk = SceneDesk::make(alloc, options)?;
    let frames = judge_own(alloc, image, options, timed, dead, &mut desk, most)?;
    if is_unknown(&frames) {
        return judge_both(alloc, image, options, timed, &mut desk, most);
    }
    Ok(frames)
}
