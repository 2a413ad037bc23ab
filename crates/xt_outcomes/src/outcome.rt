//! What comes out of an order.
ghost use Rattle.std.specs.Prelude.{◌≡◌, ◌+◌, ◌≤◌, ◌^◌, IfOk, map};
ghost use Rattle.std.specs.List.{All};
ghost use Rattle.std.specs.Ordering.{is_eq, is_lt};
ghost use Rattle.xt_map.specs.Memory.{HasSizes};
ghost use Rattle.xt_map.specs.Serving.{number_at};
ghost use Rattle.xt_search.specs.Changed.{contents_of};
ghost use Rattle.xt_outcomes.specs.Endings.{outcome_at};
ghost use Rattle.xt_outcomes.specs.KeptWorlds.{spot_of};
ghost use Rattle.xt_outcomes.specs.Listing.{outcome_ordering, rank};

use crate::world::World;
use std::alloc::{AllocError, Global};
use std::cmp::Ordering;
use std::marker::Model;
use xt_bus::Memory;
use xt_search::Changes;
use xt_trace::Stop;

/// How both cores ended, what was sent, and the values of the chosen words. Contracts see these.
pub struct Outcome {
    /// The bytes that UART0 has sent.
    pub(crate) sent: Vec<u8>,
    pub(crate) stop0: Stop,
    /// The last program counter of core 0.
    pub(crate) pc0: u32,
    pub(crate) stop1: Stop,
    /// The last program counter of core 1.
    pub(crate) pc1: u32,
    pub(crate) words: Vec<u32>,
}

// A `drop` of its own is one call at each place where a value is dropped.
impl Drop for Outcome {
    fn drop(self) {
        let Outcome {
            sent: _,
            stop0: _,
            pc0: _,
            stop1: _,
            pc1: _,
            words: _,
        } = self;
    }
}

impl Model for Outcome {
    ghost use Rattle.xt_outcomes.specs.Outcomes as outcomes;

    ghost Value = { outcomes.Outcome };

    ghost view = { λ x. record { sent = x.sent.items; stop0 = x.stop0; pc0 = x.pc0; stop1 = x.stop1; pc1 = x.pc1; words = x.words.items } };
}

// The place of a way to end.
fn rank(stop: Stop) -> u32
    ensures { result ≡ rank stop }
{
    match stop {
        Stop::Turns => 0,
        Stop::Break => 1,
    }
}

impl Outcome {
    /// The bytes that UART0 has sent.
    pub fn sent(&self) -> &[u8]
        ensures { result.now ≡ self.now.sent }
    {
        self.sent.as_slice()
    }

    /// How core 0 has ended.
    pub fn stop0(&self) -> Stop
        ensures { result ≡ self.now.stop0 }
    {
        self.stop0
    }

    /// The last program counter of core 0.
    pub fn pc0(&self) -> u32
        ensures { result ≡ self.now.pc0 }
    {
        self.pc0
    }

    /// How core 1 has ended.
    pub fn stop1(&self) -> Stop
        ensures { result ≡ self.now.stop1 }
    {
        self.stop1
    }

    /// The last program counter of core 1.
    pub fn pc1(&self) -> u32
        ensures { result ≡ self.now.pc1 }
    {
        self.pc1
    }

    /// The values of the chosen words.
    pub fn words(&self) -> &[u32]
        ensures { result.now ≡ self.now.words }
    {
        self.words.as_slice()
    }

    // Which of two outcomes comes first.
    fn outcome_ordering(&self, other: &Outcome) -> Ordering
        ensures { result ≡ outcome_ordering self.now other.now }
    {
        let words = self.words.as_slice().cmp(other.words.as_slice());
        let core1 = rank(self.stop1)
            .cmp(&rank(other.stop1))
            .then(self.pc1.cmp(&other.pc1).then(words));
        let core0 = rank(self.stop0)
            .cmp(&rank(other.stop0))
            .then(self.pc0.cmp(&other.pc0).then(core1));
        self.sent.as_slice().cmp(other.sent.as_slice()).then(core0)
    }

    /// Whether it comes before another one.
    pub fn is_before(&self, other: &Outcome) -> bool
        ensures { result ≡ is_lt (outcome_ordering self.now other.now) }
    {
        self.outcome_ordering(other).is_lt()
    }

    /// Whether it is the same as another one.
    pub fn is_same(&self, other: &Outcome) -> bool
        ensures { result ≡ is_eq (outcome_ordering self.now other.now) }
    {
        self.outcome_ordering(other).is_eq()
    }
}

// The words at these addresses.
fn values(
    alloc: Global,
    opening: &Memory,
    changes: &Changes,
    words: &[u32],
) -> Result<Vec<u32>, AllocError>
    requires sizes { HasSizes opening.now.contents }
    requires words { All (λ a. a + 4 ≤ 2 ^ 32) words.now }
    ensures { IfOk result (λ v. v.items ≡ map (λ a. number_at (contents_of opening.now.contents changes.now) a 4) words.now) }
{
    let mut values = Vec::new(alloc);
    for word in words {
        values.push(changes.number(opening, *word, 4))?;
    }
    Ok(values)
}

/// The outcome in a world in which both cores have ended, for the words at these addresses. The only
/// error is running out of memory.
///
/// Condition: each address lies at least 4 below 2^32.
pub(crate) fn outcome_of(
    alloc: Global,
    opening: &Memory,
    world: &World,
    words: &[u32],
) -> Result<Outcome, AllocError>
    requires sizes { HasSizes opening.now.contents }
    requires words { All (λ a. a + 4 ≤ 2 ^ 32) words.now }
    ensures { IfOk result (λ x. x ≡ outcome_at words.now (spot_of opening.now.contents world.now)) }
{
    let mut sent = Vec::new(alloc);
    sent.extend_from_slice(world.changes.sent())?;
    Ok(Outcome {
        sent,
        stop0: world.side(0).stop(),
        pc0: world.side(0).pc(),
        stop1: world.side(1).stop(),
        pc1: world.side(1).pc(),
        words: values(alloc, opening, world.changes.as_ref(), words)?,
    })
}
