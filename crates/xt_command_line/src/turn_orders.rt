//! The order of the turns of both cores, as the words ask for it.
ghost use Rattle.std.specs.Prelude.{◌≡◌, ◌<◌, ◌==◌, All, IfOk, map, option_map};
ghost use Rattle.std.specs.List.{slice_split};
ghost use Rattle.xt_command_line.specs.MeaningAnswers.{Means};
ghost use Rattle.xt_command_line.specs.Numbers.{number_of};
ghost use Rattle.xt_command_line.specs.Parts.{all_said};
ghost use Rattle.xt_command_line.specs.TurnOrders.{are_few, core_of, cores_of, is_short, number_of_core, order_in, turns_by, turns_in, turns_of};

use crate::command::Refusal;
use crate::numbers::number;
use std::alloc::{AllocError, Global};
use std::marker::Model;

/// One of the two cores.
#[derive(Clone, Copy)]
pub enum Which {
    /// Core 0.
    Zero,
    /// Core 1.
    One,
}

/// So many turns of one core, one after another.
#[derive(Clone, Copy)]
pub struct CoreTurns {
    /// The core that makes them.
    pub core: Which,
    /// How many.
    pub count: u32,
}

/// Turns of one core, then of one core, and so on. Contracts see the list.
#[derive(Drop)]
pub struct TurnList {
    items: Vec<CoreTurns>,
}

impl Model for TurnList {
    ghost use Rattle.std.specs.Prelude.{List};
    ghost use Rattle.xt_command_line.specs.declared.turn_orders.CoreTurns.{CoreTurns};

    ghost Value = { List CoreTurns };

    ghost view = { λ s. s.items.items };
}

impl TurnList {
    /// These turns, without a copy.
    pub fn new(items: Vec<CoreTurns>) -> TurnList
        ensures { result ≡ items.items }
    {
        TurnList { items }
    }

    /// The turns.
    pub fn as_slice(&self) -> &[CoreTurns]
        ensures { result.now ≡ self.now }
    {
        &self.items
    }
}

/// In which order both cores make their turns.
#[derive(Drop)]
pub enum TurnOrder {
    /// As two threads come to them.
    Free,
    /// As this number determines it (`--seed`).
    Seeded(u32),
    /// This one (`--order`); after it core 0 makes its remaining turns, and then core 1.
    Listed(TurnList),
}

/// The most bytes of the text of an order.
const MOST_BYTES: usize = 65_536;

/// The most turns that an order may ask for: those of two cores with 4,000,000 each.
const MOST_ASKED: u32 = 8_000_000;

// The number of a core.
fn number_of_core(core: Which) -> u8
    ensures { result ≡ number_of_core core }
{
    match core {
        Which::Zero => 0,
        Which::One => 1,
    }
}

// The core that a text names.
#[tactic(auto, unfolding(crate::specs::TurnOrders::core_of))]
fn core_in(text: &str) -> Option<Which>
    ensures { result ≡ core_of text.now }
{
    match number(text)? {
        0 => Some(Which::Zero),
        1 => Some(Which::One),
        _ => None,
    }
}

// So many turns of a core, where both are there.
fn turns_by(core: Option<Which>, count: Option<u32>) -> Option<CoreTurns>
    ensures { result ≡ turns_by core count }
{
    match (core, count) {
        (Some(core), Some(count)) => Some(CoreTurns { core, count }),
        _ => None,
    }
}

// The turns that `C*N` says.
fn turns_of(text: &str) -> Option<CoreTurns>
    ensures { result ≡ turns_of text.now }
{
    match text.split_once('*') {
        Some((core, count)) => turns_by(core_in(core), number(count)),
        None => None,
    }
}

/// The texts between commas.
pub fn parts_in<'a>(alloc: Global, text: &'a str) -> Result<Vec<&'a str>, AllocError>
    ensures { IfOk result (λ parts. map (λ part. part.now) parts.items ≡ slice_split (λ byte. byte == 44) text.now) }
{
    text.split(',').collect(alloc)
}

// The turns of these texts, each of which has to say some.
fn all_turns(alloc: Global, parts: &[&str]) -> Result<Option<TurnList>, AllocError>
    ensures { IfOk result (λ list. list ≡ all_said turns_of (map (λ part. part.now) parts.now)) }
{
    let mut turns = Vec::new(alloc);
    for part in parts {
        match turns_of(part) {
            Some(some) => turns.push(some)?,
            None => return Ok(None),
        }
    }
    Ok(Some(TurnList::new(turns)))
}

// The turns that a text lists.
#[tactic(auto, unfolding(crate::specs::TurnOrders::turns_in))]
fn turns_in(alloc: Global, text: &str) -> Result<Option<TurnList>, AllocError>
    ensures { IfOk result (λ list. list ≡ turns_in text.now) }
{
    if text.len() > MOST_BYTES {
        return Ok(None);
    }
    let parts = parts_in(alloc, text)?;
    all_turns(alloc, &parts)
}

/// The order that the texts of `--seed` and `--order` ask for, of which one at most may be there.
///
/// `Usage(3)` says that both are there, `Usage(4)` that the seed is no number or the other text no order: parts `C*N`
/// with commas between them, each of which is N turns of core C, 65,536 bytes at most. C and N are numbers, and C is 0
/// or 1. `Memory` says only that memory ran out.
pub fn order_in(alloc: Global, seed: Option<&str>, list: Option<&str>) -> Result<TurnOrder, Refusal>
    ensures { Means result (order_in (option_map (λ t. t.now) seed.entry) (option_map (λ t. t.now) list.entry)) }
{
    match (seed, list) {
        (None, None) => Ok(TurnOrder::Free),
        (Some(seed), None) => match number(seed) {
            Some(seed) => Ok(TurnOrder::Seeded(seed)),
            None => Err(Refusal::Usage(4)),
        },
        (None, Some(list)) => match turns_in(alloc, list)? {
            Some(turns) => Ok(TurnOrder::Listed(turns)),
            None => Err(Refusal::Usage(4)),
        },
        (Some(_), Some(_)) => Err(Refusal::Usage(3)),
    }
}

// The turns are 8,000,000 at most.
fn are_few(list: &[CoreTurns]) -> bool
    ensures { result ≡ are_few list.now }
{
    let mut left = MOST_ASKED;
    for turns in list {
        if turns.count > left {
            return false;
        }
        left -= turns.count;
    }
    true
}

/// An order that a text lists asks for 8,000,000 turns at most.
pub fn is_short(order: &TurnOrder) -> bool
    ensures { result ≡ is_short order.now }
{
    match order {
        TurnOrder::Listed(turns) => are_few(turns.as_slice()),
        _ => true,
    }
}

// The cores of these turns, one after another.
fn listed_cores(alloc: Global, list: &[CoreTurns]) -> Result<Vec<u8>, AllocError>
    ensures { IfOk result (λ cores. cores.items ≡ cores_of list.now) }
{
    let mut cores = Vec::new(alloc);
    for turns in list {
        let end = cores.len() + turns.count as usize;
        cores.resize(end, number_of_core(turns.core))?;
    }
    Ok(cores)
}

/// The list of cores that these turns stand for: each turn by the core that makes it. The only error is running out of
/// memory.
pub fn cores_of(alloc: Global, list: &[CoreTurns]) -> Result<Vec<u8>, AllocError>
    ensures list { IfOk result (λ cores. cores.items ≡ cores_of list.now) }
    ensures cores { IfOk result (λ cores. All (λ core. core < 2) cores.items) }
{
    let cores = listed_cores(alloc, list)?;
    Ok(cores)
}
