//! A walk over the code from where control can come in.
#![tactic(auto)]

ghost use Rattle.std.specs.Prelude.{◌≡◌, ◌+◌, ◌%◌, ◌^◌, ◌++◌, ◌<◌, map, IfOk, OnOk, option_to_list};
ghost use Rattle.xt_map.specs.Placing.{IsPlaced};
ghost use Rattle.xt_flow.specs.Following.{aims_at, behind};
ghost use Rattle.xt_flow.specs.FlowTables.{IsVisited, pending_after, reads_after, starts_after, with_word};
ghost use Rattle.xt_flow.specs.Starts.{openings};

use crate::calls::aims_at;
use crate::code::{code_from, ends_flow, literal_of};
use crate::table::{empty_table, is_marked, mark};
use std::alloc::{AllocError, Global};
use xt_disasm::front;
use xt_image::Image;
use xt_map::Segment;
use xt_names::{Parts, parts_of};

/// The vectors, by their distance from VECBASE: those of the window exceptions, of the interrupt levels 2 to 5, and the
/// kernel, user and double vector.
const VECTOR_OFFSETS: [u32; 13] = [
    0x000, 0x040, 0x080, 0x0C0, 0x100, 0x140, 0x180, 0x1C0, 0x200, 0x240, 0x300, 0x340, 0x3C0,
];

/// What a walk has found.
pub struct Visited {
    /// The table of the addresses at which an instruction starts.
    pub starts: Vec<bool>,
    /// The table of the addresses in code at which an L32R reads a word.
    pub reads: Vec<bool>,
}

// A `drop` of its own is one call at each place where a value is dropped.
impl Drop for Visited {
    fn drop(self) {
        let Visited {
            starts: _,
            reads: _,
        } = self;
    }
}

/// Adds the addresses of vectors by their distance from VECBASE; addresses wrap at 2^32.
fn push_vectors(all: &mut Vec<u32>, vecbase: u32, offsets: &[u32]) -> Result<(), AllocError>
    ensures { OnOk result (all.new.items ≡ all.old.items ++ map (λ offset. (vecbase + offset) % 2 ^ 32) offsets.now) }
{
    for offset in offsets {
        all.push(vecbase.wrapping_add(*offset))?;
    }
    Ok(())
}

/// Where control can come in: the entries of both cores, the vectors and the roots.
#[tactic(auto, unfolding(crate::specs::Starts::openings))]
fn openings(
    alloc: Global,
    entry: u32,
    entry1: u32,
    vecbase: u32,
    roots: &[u32],
) -> Result<Vec<u32>, AllocError>
    ensures { IfOk result (λ v. v.items ≡ openings entry entry1 vecbase roots.now) }
{
    let mut all = Vec::new(alloc);
    all.push(entry)?;
    all.push(entry1)?;
    push_vectors(&mut all, vecbase, &VECTOR_OFFSETS)?;
    all.extend_from_slice(roots)?;
    Ok(all)
}

/// Adds where control goes from an instruction of these parts, `len` bytes long, at the address `at`.
fn push_successors(
    segments: &[Segment],
    pending: &mut Vec<u32>,
    parts: Parts,
    at: u32,
    len: usize,
) -> Result<(), AllocError>
    requires { len < 4 }
    ensures { OnOk result (pending.new.items ≡ pending.old.items ++ (behind parts at len ++ option_to_list (aims_at segments.now parts at ((at + len) % 2 ^ 32)))) }
{
    let next = at.wrapping_add(len as u32);
    if !ends_flow(parts) {
        pending.push(next)?;
    }
    if let Some(target) = aims_at(segments, parts, at, next) {
        pending.push(target)?;
    }
    Ok(())
}

/// Marks the word that an L32R reads, where it is in code.
fn mark_word(segments: &[Segment], reads: &mut [bool], word: Option<u32>)
    ensures { reads.new ≡ with_word segments.now reads.old word }
{
    if let Some(word) = word
        && !code_from(segments, word).is_empty()
    {
        mark(reads, word);
    }
}

/// Visits an address: where an instruction lies there that has no mark yet, it is marked, the word that it reads is, and
/// where control goes from it is added to what is pending.
fn visit(
    segments: &[Segment],
    visited: &mut Visited,
    pending: &mut Vec<u32>,
    at: u32,
) -> Result<(), AllocError>
    ensures starts { OnOk result (visited.new.starts.items ≡ starts_after segments.now visited.old.starts.items at) }
    ensures reads { OnOk result (visited.new.reads.items ≡ reads_after segments.now visited.old.starts.items visited.old.reads.items at) }
    ensures pending { OnOk result (pending.new.items ≡ pending_after segments.now visited.old.starts.items pending.old.items at) }
{
    if is_marked(&visited.starts, at) {
        return Ok(());
    }
    let Some((insn, len)) = front(code_from(segments, at)) else {
        return Ok(());
    };
    let parts = parts_of(insn);
    mark(&mut visited.starts, at);
    mark_word(segments, &mut visited.reads, literal_of(parts, at));
    push_successors(segments, pending, parts, at, len)
}

/// The instructions and the words that are found by following the code.
pub fn visit_all(
    alloc: Global,
    image: &Image,
    vecbase: u32,
    entry1: u32,
    roots: &[u32],
) -> Result<Visited, AllocError>
    requires { IsPlaced image.now.segments }
    ensures { IfOk result (λ v. IsVisited image.now vecbase entry1 roots.now v.starts.items v.reads.items) }
{
    let segments = image.segments.as_slice();
    let mut visited = Visited {
        starts: empty_table(alloc)?,
        reads: empty_table(alloc)?,
    };
    let mut pending = openings(alloc, image.entry, entry1, vecbase, roots)?;
    while let Some(at) = pending.pop() {
        visit(segments, &mut visited, &mut pending, at)?;
    }
    Ok(visited)
}
