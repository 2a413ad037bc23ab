//! What comes out of an order with moments.
ghost use Rattle.std.specs.Prelude.{◌≡◌, ◌+◌, ◌≤◌, ◌^◌, IfOk, IfSome, IfNone, false, map};
ghost use Rattle.std.specs.List.{All};
ghost use Rattle.xt_map.specs.Memory.{HasSizes, constant_byte};
ghost use Rattle.xt_map.specs.Placing.{IsPlaced};
ghost use Rattle.xt_map.specs.Serving.{number_at};
ghost use Rattle.xt_map.specs.Code.{AreBytes};
ghost use Rattle.xt_trace.specs.Validity.{IsValid};
ghost use Rattle.xt_image.specs.ImageParts.{FitsImage};
ghost use Rattle.xt_core.specs.Runs.{code_of, opening_of};
ghost use Rattle.xt_search.specs.Changed.{contents_of};
ghost use Rattle.xt_moments.specs.Made.{world_of};
ghost use Rattle.xt_moments.specs.Moments.{IsMove, world_past};
ghost use Rattle.xt_moments.specs.Outcomes.{EndsIn, have_stopped, outcome_in, world_after};

use crate::moves::Move;
use crate::worlds::Actors;
use std::alloc::{AllocError, Global};
use std::marker::Model;
use xt_bus::Memory;
use xt_core::stack_links;
use xt_image::Image;
use xt_map::Constants;
use xt_search::Changes;
use xt_trace::Options;

/// What was sent, where both cores stopped, and the values of the chosen words. Contracts see
/// these.
#[derive(Drop)]
pub struct Outcome {
    sent: Vec<u8>,
    pc0: u32,
    pc1: u32,
    words: Vec<u32>,
}

impl Model for Outcome {
    ghost use Rattle.xt_moments.specs.Outcomes as outcomes;

    ghost Value = { outcomes.MomentOutcome };

    ghost view = { λ x. record { sent = x.sent.items; pc0 = x.pc0; pc1 = x.pc1; words = x.words.items } };
}

impl Outcome {
    /// The bytes that UART0 has sent.
    pub fn sent(&self) -> &[u8]
        ensures { result.now ≡ self.now.sent }
    {
        self.sent.as_slice()
    }

    /// The last program counter of core 0.
    pub fn pc0(&self) -> u32
        ensures { result ≡ self.now.pc0 }
    {
        self.pc0
    }

    /// The last program counter of core 1.
    pub fn pc1(&self) -> u32
        ensures { result ≡ self.now.pc1 }
    {
        self.pc1
    }

    /// The values of the chosen words.
    pub fn words(&self) -> &[u32]
        ensures { result.now ≡ self.now.words }
    {
        self.words.as_slice()
    }
}

// The words at these addresses.
fn values(
    alloc: Global,
    opening: &Memory,
    changes: &Changes,
    words: &[u32],
) -> Result<Vec<u32>, AllocError>
    requires sizes { HasSizes opening.now.contents }
    requires words { All (λ a. a + 4 ≤ 2 ^ 32) words.now }
    ensures { IfOk result (λ v. v.items ≡ map (λ a. number_at (contents_of opening.now.contents changes.now) a 4) words.now) }
{
    let mut values = Vec::new(alloc);
    for word in words {
        values.push(changes.number(opening, *word, 4))?;
    }
    Ok(values)
}

/// The outcome in a world in which both cores have stopped, for the words at these addresses. The
/// only error is running out of memory.
///
/// Condition: each address lies at least 4 below 2^32.
pub fn outcome_in(
    alloc: Global,
    opening: &Memory,
    world: &Actors,
    words: &[u32],
) -> Result<Outcome, AllocError>
    requires sizes { HasSizes opening.now.contents }
    requires words { All (λ a. a + 4 ≤ 2 ^ 32) words.now }
    ensures { IfOk result (λ x. x ≡ outcome_in words.now (world_of opening.now.contents world.now)) }
{
    let mut sent = Vec::new(alloc);
    sent.extend_from_slice(world.changes.sent())?;
    Ok(Outcome {
        sent,
        pc0: world.core0.pc(),
        pc1: world.core1.pc(),
        words: values(alloc, opening, &world.changes, words)?,
    })
}

// The world after the moves of an order, at each of which CCOUNT is 0. The only error is running
// out of memory.
fn world_past(
    code: &Constants,
    opening: &Memory,
    first: Actors,
    order: &[Move],
) -> Result<Actors, AllocError>
    requires sizes { HasSizes opening.now.contents }
    requires bytes { AreBytes (constant_byte code.now) }
    requires moves { All IsMove order.now }
    ensures { IfOk result (λ w. world_of opening.now.contents w ≡ world_past (constant_byte code.now) (λ k. 0) order.now (world_of opening.now.contents first)) }
{
    let mut world = first;
    for made in order {
        world = world.moved(code, opening, 0, *made)?;
    }
    Ok(world)
}

/// What comes out of an order with moments of an image, for the words at these addresses, where
/// CCOUNT is 0 at each turn. None: after it a core has not stopped. The only error is running out
/// of memory.
///
/// Conditions: the options are valid, the image's segments lie in one region each and share no
/// byte, as those of every image that was read, and each address lies at least 4 below 2^32.
#[tactic(auto, using(crate::proofs::CodeBytes::code_bytes, crate::proofs::CodeBytes::memory_sizes))]
pub fn outcome_after(
    alloc: Global,
    image: &Image,
    options: &Options,
    order: &[Move],
    words: &[u32],
) -> Result<Option<Outcome>, AllocError>
    requires valid { IsValid options.now }
    requires fits { FitsImage image.now }
    requires placed { IsPlaced image.now.segments }
    requires moves { All IsMove order.now }
    requires words { All (λ a. a + 4 ≤ 2 ^ 32) words.now }
    ensures ends { IfOk result (λ r. IfSome r (λ x. EndsIn (code_of image.now) (opening_of image.now options.now) words.now (λ k. 0) order.now x)) }
    ensures going { IfOk result (λ r. IfNone r (have_stopped (world_after (code_of image.now) (opening_of image.now options.now) (λ k. 0) order.now) ≡ false)) }
{
    let links = stack_links(options);
    let code = Constants::make(alloc, image.segments.as_slice())?;
    let opening = Memory::make(alloc, image.segments.as_slice(), &links, 0)?;
    let first = Actors::open(alloc, image, options);
    let world = world_past(&code, &opening, first, order)?;
    if !world.have_stopped() {
        return Ok(None);
    }
    let outcome = outcome_in(alloc, &opening, &world, words)?;
    Ok(Some(outcome))
}
