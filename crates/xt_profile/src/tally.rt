//! What is counted of one core, step by step.
#![tactic(auto)]

ghost use Rattle.std.specs.Prelude.{◌≡◌, ◌+◌, ◌-◌, ◌<◌, ◌≤◌, ◌^◌, IfOk, OnOk, List, [], ◌∷◌, length, map, unwrap_or};
ghost use Rattle.xt_profile.specs.After.{step_with_change};
ghost use Rattle.xt_profile.specs.Counts.{compare, lines};
ghost use Rattle.xt_profile.specs.Keys.{handlers, keys, shown_key};
ghost use Rattle.xt_profile.specs.Profiled.{turns_past};
ghost use Rattle.xt_profile.specs.Steps.{Step, frames_standing};
ghost use Rattle.xt_profile.specs.CountedSteps.{AreCounted, IsTally, Origin, count_in, from_here, origin, puts, line_of_entry};

use crate::changes::Change;
use crate::profiles::{CoreTurns, Key, Lines, ProfileLine};
use std::alloc::{AllocError, Global};
use std::collections::BTreeMap;
use xt_frames::HandlerPhase;

/// What is counted of a core so far.
pub struct Tally {
    // The core's opening PC, and the PC of the ENTRY of each frame that stands, the oldest first.
    functions: Vec<u32>,
    // How many functions a key has at most.
    depth: u32,
    // How many steps each key has, but for the last ones in a row.
    counts: BTreeMap<Vec<u32>, u32>,
    // How many steps in a row have the key of these functions.
    row: u32,
    handlers: u32,
    // How many steps there are in all.
    steps: u32,
}

// A `drop` of its own is one call at each place where a value is dropped.
impl Drop for Tally {
    fn drop(self) {
        let Tally {
            functions: _,
            depth: _,
            counts: _,
            row: _,
            handlers: _,
            steps: _,
        } = self;
    }
}

/// The key of these functions: all, or where they are more than `depth` the first, 0 for those that are left out, and
/// the last ones.
fn shown_key(alloc: Global, functions: &[u32], depth: u32) -> Result<Vec<u32>, AllocError>
    ensures { IfOk result (λ key. key.items ≡ shown_key depth functions.now) }
{
    let depth = depth as usize;
    if functions.len() <= depth {
        return Vec::from_slice(alloc, functions);
    }
    let mut key = Vec::from_slice(alloc, &functions[..1])?;
    key.push(0)?;
    key.extend_from_slice(&functions[functions.len() - depth.saturating_sub(1)..])?;
    Ok(key)
}

/// How many steps a key has so far.
fn count_in(counts: &BTreeMap<Vec<u32>, u32>, key: &[u32]) -> u32
    ensures { result ≡ count_in key.now (map line_of_entry counts.now.entries) }
{
    match counts.get(key) {
        Some(count) => *count,
        None => 0,
    }
}

/// Counts so many steps more of a key.
fn add(counts: &mut BTreeMap<Vec<u32>, u32>, key: Vec<u32>, row: u32) -> Result<(), AllocError>
    requires { count_in key.items (map line_of_entry counts.old.entries) + row < 2 ^ 32 }
    ensures { OnOk result (map line_of_entry counts.new.entries ≡ puts key.items (count_in key.items (map line_of_entry counts.old.entries) + row) (map line_of_entry counts.old.entries)) }
{
    let count = count_in(counts, &key) + row;
    counts.insert(key, count)?;
    Ok(())
}

/// The lines of a map, in order.
fn lines_of(alloc: Global, counts: BTreeMap<Vec<u32>, u32>) -> Result<Lines, AllocError>
    ensures { IfOk result (λ lines. lines ≡ map line_of_entry counts.entries) }
{
    let mut items = Vec::new(alloc);
    for (key, count) in counts {
        items.push(ProfileLine {
            key: Key::new(key),
            count,
        })?;
    }
    Ok(Lines::new(items))
}

impl Tally {
    /// No steps yet of a core that opens at `pc`, whose keys have so many functions at most.
    pub fn open(alloc: Global, pc: u32, depth: u32) -> Result<Tally, AllocError>
        ensures { IfOk result (λ t. IsTally (origin pc depth []) [] t) }
    {
        let mut functions = Vec::new(alloc);
        functions.push(pc)?;
        Ok(Tally {
            functions,
            depth,
            counts: BTreeMap::new(alloc),
            row: 0,
            handlers: 0,
            steps: 0,
        })
    }

    /// Puts the steps in a row to those of their key.
    fn flush(&mut self, alloc: Global) -> Result<(), AllocError>
        requires room { self.old.steps < 2 ^ 32 }
        requires known { (opening : Origin) × (past : List Step) × AreCounted opening past self.old }
        ensures functions { self.new.functions ≡ self.old.functions }
        ensures row { OnOk result (self.new.row ≡ 0) }
        ensures steps { self.new.steps ≡ self.old.steps }
        ensures counted { OnOk result ((opening : Origin) (past : List Step) → AreCounted opening past self.old → AreCounted opening past self.new) }
    {
        if self.row > 0 {
            let row = self.row;
            let key = shown_key(alloc, &self.functions, self.depth)?;
            add(&mut self.counts, key, row)?;
            self.row = 0;
        }
        Ok(())
    }

    /// Counts a step, which may change the functions then.
    fn count(&mut self, phase: HandlerPhase)
        requires room { self.old.steps + 1 < 2 ^ 32 }
        requires known { (opening : Origin) × (past : List Step) × AreCounted opening past self.old }
        ensures functions { self.new.functions ≡ self.old.functions }
        ensures steps { self.new.steps ≡ self.old.steps + 1 }
        ensures counted { (opening : Origin) (past : List Step) (s : Step) → IsTally opening past self.old → s.phase ≡ phase → s.before ≡ frames_standing past → AreCounted opening (s ∷ past) self.new }
    {
        self.steps += 1;
        match phase {
            HandlerPhase::InHandler => self.handlers += 1,
            HandlerPhase::Outside => self.row += 1,
            HandlerPhase::Nested => self.row += 1,
        }
    }

    /// A step at this PC, after which so many frames stand. The only error is running out of memory.
    pub fn step(
        &mut self,
        alloc: Global,
        pc: u32,
        phase: HandlerPhase,
        after: u32,
    ) -> Result<(), AllocError>
        requires room { self.old.steps + 1 < 2 ^ 32 }
        requires known { (opening : Origin) × (past : List Step) × IsTally opening past self.old }
        ensures { OnOk result ((opening : Origin) (past : List Step) → IsTally opening past self.old
            → IsTally opening (record { pc = pc; phase = phase; before = frames_standing past; after = after } ∷ past) self.new) }
    {
        self.count(phase);
        let depth = after as usize + 1;
        let len = self.functions.as_slice().len();
        if depth == len {
            return Ok(());
        }
        self.flush(alloc)?;
        self.functions.resize(depth, pc)?;
        Ok(())
    }

    /// A step at this PC after the cut, which does this to the functions. The only error is running
    /// out of memory.
    pub fn change(
        &mut self,
        alloc: Global,
        pc: u32,
        phase: HandlerPhase,
        change: Change,
    ) -> Result<(), AllocError>
        requires room { self.old.steps + 1 < 2 ^ 32 }
        requires known { (opening : Origin) × (past : List Step) × IsTally opening past self.old }
        ensures steps { OnOk result (self.new.steps ≡ self.old.steps + 1) }
        ensures tally { OnOk result ((opening : Origin) (past : List Step) → IsTally opening past self.old
            → IsTally opening (step_with_change pc phase change past ∷ past) self.new) }
    {
        self.count(phase);
        match change {
            Change::Stays => Ok(()),
            Change::Calls => {
                self.flush(alloc)?;
                self.functions.push(pc)?;
                Ok(())
            }
            Change::Returns => {
                self.flush(alloc)?;
                let len = self.functions.as_slice().len();
                if 1 < len {
                    self.functions.truncate(len - 1);
                }
                Ok(())
            }
        }
    }

    /// How many steps were counted.
    pub fn steps(&self) -> u32
        ensures { result ≡ self.now.steps }
    {
        self.steps
    }

    /// What was counted, and a tally of the steps from there on. The only error is running out of
    /// memory.
    pub fn split(mut self, alloc: Global) -> Result<(CoreTurns, Tally), AllocError>
        requires known { (opening : Origin) × (past : List Step) × IsTally opening past self }
        ensures turns { IfOk result (λ p. (opening : Origin) (past : List Step) → IsTally opening past self → p.0 ≡ turns_past opening.start opening.first past) }
        ensures tally { IfOk result (λ p. (opening : Origin) (past : List Step) → IsTally opening past self → IsTally (from_here opening past) past p.1) }
        ensures steps { IfOk result (λ p. p.1.steps ≡ 0) }
    {
        self.flush(alloc)?;
        let Tally {
            functions,
            depth,
            counts,
            row: _,
            handlers,
            steps: _,
        } = self;
        let lines = lines_of(alloc, counts)?;
        let later = Tally {
            functions,
            depth,
            counts: BTreeMap::new(alloc),
            row: 0,
            handlers: 0,
            steps: 0,
        };
        Ok((CoreTurns { lines, handlers }, later))
    }
}
