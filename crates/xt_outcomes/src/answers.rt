//! What is found of all orders.
ghost use Rattle.std.specs.Prelude.{◌≡◌, ◌+◌, ◌≤◌, ◌^◌, IfOk, IfSome, IfNone};
ghost use Rattle.std.specs.List.{All as Each};
ghost use Rattle.xt_map.specs.Placing.{IsPlaced};
ghost use Rattle.xt_trace.specs.Validity.{IsValid};
ghost use Rattle.xt_image.specs.ImageParts.{FitsImage};
ghost use Rattle.xt_exec.specs.Chips.{processor};
ghost use Rattle.xt_core.specs.Runs.{code_of, opening_of};
ghost use Rattle.xt_search.specs.Worlds.{IsOrder};
ghost use Rattle.xt_outcomes.specs.Answered.{AreAnswers};
ghost use Rattle.xt_outcomes.specs.Outcomes.{CanAllEnd, IsStuck};
ghost use Rattle.xt_outcomes.specs.declared.answers.Ending.TheVariants.{All};
ghost use Rattle.xt_outcomes.specs.Searched.{HasEnded, IsComplete, IsSearch};

use crate::dead::Dead;
use crate::found::Search;
use crate::listing::{Found, outcomes_of};
use crate::meeting::search_orders;
use crate::races::{NextRace, race_of};
use crate::stuck::stuck_of;
use std::alloc::{AllocError, Global};
use xt_image::Image;
use xt_trace::Options;

/// How a search of all orders ended.
#[derive(Clone, Copy)]
pub enum Ending {
    /// The worlds after all orders were found.
    All,
    /// As many worlds are kept as may be, and no two of them are the same.
    States,
    /// Where time is left out: a turn uses it, of this core at this address.
    Time(u8, u32),
}

/// What was found of the orders of an image's turns.
pub struct Answers {
    /// The outcomes in rising order.
    pub found: Vec<Found>,
    /// How the search ended.
    pub ended: Ending,
    /// An order after which the cores never both end, if one was found.
    pub stuck: Option<Vec<u8>>,
    /// A race, if one was found.
    pub race: Option<NextRace>,
    /// The registers that were dead in the search. Another search may take them for dead too, as long as it
    /// checks each turn.
    pub dead: Dead,
}

// A `drop` of its own is one call at each place where a value is dropped.
impl Drop for Answers {
    fn drop(self) {
        let Answers {
            found: _,
            ended: _,
            stuck: _,
            race: _,
            dead: _,
        } = self;
    }
}

// An order after which the cores never both end; it is looked for only where the search came to its
// end. The only error is running out of memory.
fn stuck_where(
    alloc: Global,
    image: &Image,
    options: &Options,
    search: &Search,
    ended: Ending,
) -> Result<Option<Vec<u8>>, AllocError>
    requires search { IsSearch image.now options.now search.now }
    requires valid { IsValid options.now }
    requires whole { ended ≡ All → IsComplete search.now }
    ensures order { IfOk result (λ r. IfSome r (λ v. IsOrder v.items)) }
    ensures stuck { IfOk result (λ r. IfSome r (λ v. IsStuck (processor (code_of image.now)) search.now.machine.timed (opening_of image.now options.now) v.items)) }
    ensures none { IfOk result (λ r. ended ≡ All → IfNone r (CanAllEnd (processor (code_of image.now)) search.now.machine.timed (opening_of image.now options.now))) }
{
    match ended {
        Ending::All => stuck_of(alloc, image, options, search),
        Ending::States => Ok(None),
        Ending::Time(_, _) => Ok(None),
    }
}

// What can be said by a search that keeps at most so many worlds and ended so. The only error is running out
// of memory.
fn answers_by(
    alloc: Global,
    image: &Image,
    options: &Options,
    search: &Search,
    ended: Ending,
    timed: bool,
    words: &[u32],
    most: u32,
) -> Result<Answers, AllocError>
    requires search { IsSearch image.now options.now search.now }
    requires timed { search.now.machine.timed ≡ timed }
    requires ended { HasEnded image.now options.now most search.now ended }
    requires valid { IsValid options.now }
    requires fits { FitsImage image.now }
    requires placed { IsPlaced image.now.segments }
    requires words { Each (λ a. a + 4 ≤ 2 ^ 32) words.now }
    ensures { IfOk result (λ a. AreAnswers image.now options.now timed words.now most a) }
{
    let found = outcomes_of(alloc, image, options, search, words)?;
    let stuck = stuck_where(alloc, image, options, search, ended)?;
    let race = race_of(alloc, image, options, search)?;
    let dead = search.machine.dead.copy(alloc)?;
    Ok(Answers {
        found,
        ended,
        stuck,
        race,
        dead,
    })
}

/// What can be said of all orders of an image's turns, where at most so many worlds are kept: timed,
/// with the turns that the options give, or with any number of turns. Outcomes have the words at these
/// addresses. The only error is running out of memory.
///
/// Conditions: the options are valid, the image's segments lie in one region each and share no byte, as
/// those of every image that was read, and each address lies at least 4 below 2^32.
pub fn answers_of(
    alloc: Global,
    image: &Image,
    options: &Options,
    timed: bool,
    words: &[u32],
    most: u32,
) -> Result<Answers, AllocError>
    requires valid { IsValid options.now }
    requires fits { FitsImage image.now }
    requires placed { IsPlaced image.now.segments }
    requires words { Each (λ a. a + 4 ≤ 2 ^ 32) words.now }
    ensures { IfOk result (λ a. AreAnswers image.now options.now timed words.now most a) }
{
    let (search, ended) = search_orders(alloc, image, options, timed, most)?;
    answers_by(alloc, image, options, &search, ended, timed, words, most)
}
