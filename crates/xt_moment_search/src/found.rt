//! Outcomes that were found, and whether those of kept worlds are among them.
ghost use Rattle.std.specs.Prelude.{◌≡◌, ◌+◌, ◌≤◌, ◌^◌, true, IfOk};
ghost use Rattle.std.specs.List.{All, Contains};
ghost use Rattle.xt_moments.specs.Outcomes.{outcome_in};
ghost use Rattle.xt_moment_search.specs.Covering.{standing};
ghost use Rattle.xt_moment_search.specs.Keyed.{outcome_of};
ghost use Rattle.xt_moment_search.specs.Listed.{AreListed, IsListed};
ghost use Rattle.xt_moment_search.specs.Told.{outcomes_in};

use crate::keys::{Key, has_hidden_word, values};
use crate::machine::Moments;
use crate::worlds::World;
use std::alloc::AllocError;
use xt_moments::{Move, Outcome};
use xt_search::Graph;

/// An outcome, and an order with moments that leads there.
#[derive(Drop)]
pub struct Found {
    pub outcome: Outcome,
    pub order: Vec<Move>,
}

// Whether one of these outcomes is this one.
fn is_in(list: &[Found], key: &Key) -> bool
    ensures { result ≡ true → Contains (outcomes_in list.now) (outcome_of key.now) }
{
    for found in list {
        if Key::of(&found.outcome).is_same(key) {
            return true;
        }
    }
    false
}

/// Whether the outcome of a world is listed. The only error is running out of memory.
pub fn is_listed(
    machine: &Moments,
    world: &World,
    words: &[u32],
    list: &[Found],
) -> Result<bool, AllocError>
    requires { All (λ a. a + 4 ≤ 2 ^ 32) words.now }
    ensures { IfOk result (λ b. b ≡ true → Contains (outcomes_in list.now) (outcome_in words.now (standing machine.now.ground.opening.contents world.now))) }
{
    let values = values(machine.alloc, &machine.ground, world, words)?;
    let key = Key {
        sent: world.held.sent(),
        pc0: world.side0.pc(),
        pc1: world.side1.pc(),
        words: values.as_slice(),
    };
    Ok(is_in(list, &key))
}

// Whether both cores have not stopped in a world, or its outcome is known and listed. The only error
// is running out of memory.
fn is_told(
    machine: &Moments,
    world: &World,
    words: &[u32],
    list: &[Found],
) -> Result<bool, AllocError>
    requires { All (λ a. a + 4 ≤ 2 ^ 32) words.now }
    ensures { IfOk result (λ b. b ≡ true → IsListed machine.now.ground.opening.contents machine.now.ground.cleared.contents words.now list.now world.now) }
{
    if !world.has_ended() {
        return Ok(true);
    }
    if has_hidden_word(&machine.ground, world, words) {
        return Ok(false);
    }
    is_listed(machine, world, words, list)
}

/// Whether the outcome of each kept world in which both cores have stopped is known and listed. The
/// only error is running out of memory.
pub fn are_told(
    machine: &Moments,
    graph: &Graph<World>,
    words: &[u32],
    list: &[Found],
) -> Result<bool, AllocError>
    requires { All (λ a. a + 4 ≤ 2 ^ 32) words.now }
    ensures { IfOk result (λ b. b ≡ true → AreListed machine.now.ground.opening.contents machine.now.ground.cleared.contents words.now list.now graph.now.kept.items) }
{
    for kept in &graph.kept {
        if !is_told(machine, &kept.world, words, list)? {
            return Ok(false);
        }
    }
    Ok(true)
}
