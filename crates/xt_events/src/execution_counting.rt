//! Counting the turns of a core.
ghost use Rattle.std.specs.Prelude.{◌≡◌, ◌<◌, ◌^◌, ℕ, IfOk, OnOk, length};
ghost use Rattle.std.specs.Ordering.{nat_cmp};
ghost use Rattle.std.specs.BTreeMap.{get};
ghost use Rattle.xt_map.specs.Memory.{constant_byte};
ghost use Rattle.xt_events.specs.Counts.{tally, turns, unless_none};
ghost use Rattle.xt_events.specs.CountedTurns.{IsSmall, tally_after_turn};

use crate::branch::target_at;
use crate::tally::Tally;
use crate::turn::{Turn, is_executed, is_raised};
use std::alloc::{AllocError, Global};
use std::collections::BTreeMap;
use xt_map::Constants;
use xt_trace::Records;

// Counts a turn.
fn note(counts: &mut BTreeMap<u32, Tally>, code: &Constants, turn: Turn) -> Result<(), AllocError>
    requires { (a : ℕ) → IsSmall 4294967295 (get nat_cmp counts.old a) }
    ensures { OnOk result ((a : ℕ) → get nat_cmp counts.new a ≡ tally_after_turn (constant_byte code.now) a turn (get nat_cmp counts.old a)) }
{
    if !is_executed(turn.kind) && !is_raised(turn.kind) {
        return Ok(());
    }
    let so_far = match counts.get(&turn.pc) {
        Some(tally) => *tally,
        None => Tally::start(target_at(code, turn.pc)),
    };
    counts.insert(turn.pc, so_far.with(turn))?;
    Ok(())
}

/// What the turns of a core did at each address. These are its records, and `last` is where it
/// stands at the end. The records are taken one by one, and none is kept. The only error is
/// running out of memory.
///
/// Condition: there are fewer than 4,294,967,296 records.
pub fn counts_of<R: Records>(
    alloc: Global,
    code: &Constants,
    last: u32,
    records: &mut R,
) -> Result<BTreeMap<u32, Tally>, AllocError>
    requires { length (R.left records.old) < 2 ^ 32 }
    ensures { IfOk result (λ counts. (a : ℕ) → get nat_cmp counts a ≡ unless_none (tally (constant_byte code.now) (turns (R.left records.old) last) a)) }
{
    let mut counts = BTreeMap::new(alloc);
    let Some(first) = records.next() else {
        return Ok(counts);
    };
    let mut here = first;
    while let Some(after) = records.next() {
        let turn = Turn {
            pc: here.pc,
            kind: here.kind,
            next: after.pc,
        };
        note(&mut counts, code, turn)?;
        here = after;
    }
    let turn = Turn {
        pc: here.pc,
        kind: here.kind,
        next: last,
    };
    note(&mut counts, code, turn)?;
    Ok(counts)
}
