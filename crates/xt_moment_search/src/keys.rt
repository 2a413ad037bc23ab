//! By what outcomes are told apart.
ghost use Rattle.std.specs.Prelude.{◌≡◌, ◌+◌, ◌≤◌, ◌^◌, true, false, IfOk, map};
ghost use Rattle.std.specs.List.{All};
ghost use Rattle.xt_map.specs.Serving.{number_at};
ghost use Rattle.xt_search.specs.Changed.{contents_of};
ghost use Rattle.xt_moments.specs.WorldLaws.{AreKnown};
ghost use Rattle.xt_moment_search.specs.KnownCores.{known_byte};
ghost use Rattle.xt_moment_search.specs.Keyed.{outcome_of};

use crate::ground::Ground;
use crate::worlds::World;
use std::alloc::{AllocError, Global};
use std::cmp::Ordering;
use xt_moments::Outcome;

/// What was sent, where both cores stopped, and the values of the chosen words.
#[derive(Clone, Copy)]
pub struct Key<'a> {
    pub sent: &'a [u8],
    pub pc0: u32,
    pub pc1: u32,
    pub words: &'a [u32],
}

impl<'a> Key<'a> {
    /// That of an outcome.
    pub fn of(outcome: &'a Outcome) -> Key<'a>
        ensures { outcome_of result ≡ outcome.now }
    {
        Key {
            sent: outcome.sent(),
            pc0: outcome.pc0(),
            pc1: outcome.pc1(),
            words: outcome.words(),
        }
    }

    /// Whether two are the same.
    pub fn is_same(&self, other: &Key) -> bool
        ensures { result ≡ true → outcome_of self.now ≡ outcome_of other.now }
    {
        self.sent == other.sent
            && self.pc0 == other.pc0
            && self.pc1 == other.pc1
            && self.words == other.words
    }

    /// Which of two comes first.
    pub fn compare(&self, other: &Key) -> Ordering {
        let words = self.words.cmp(other.words);
        let ends = self.pc0.cmp(&other.pc0).then(self.pc1.cmp(&other.pc1));
        self.sent.cmp(other.sent).then(ends.then(words))
    }
}

/// The values of the words at these addresses. The only error is running out of memory.
pub fn values(
    alloc: Global,
    ground: &Ground,
    world: &World,
    words: &[u32],
) -> Result<Vec<u32>, AllocError>
    requires { All (λ a. a + 4 ≤ 2 ^ 32) words.now }
    ensures { IfOk result (λ v. v.items ≡ map (λ a. number_at (contents_of ground.now.opening.contents world.now.held.value) a 4) words.now) }
{
    let mut values = Vec::new(alloc);
    for word in words {
        values.push(world.held.number(&ground.opening, *word, 4))?;
    }
    Ok(values)
}

/// Whether a bit of one of these words is not known.
pub fn has_hidden_word(ground: &Ground, world: &World, words: &[u32]) -> bool
    requires { All (λ a. a + 4 ≤ 2 ^ 32) words.now }
    ensures { result ≡ false → AreKnown (known_byte ground.now.cleared.contents world.now.hidden.value) words.now }
{
    for word in words {
        if world.hidden.number(&ground.cleared, *word, 4) != 0 {
            return true;
        }
    }
    false
}
