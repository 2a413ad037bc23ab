//! What was seen of the turns of a search, and which registers nobody will read by that.
//! Nothing is claimed of it, since each turn of a search is checked.

use crate::dead::{Dead, Registers};
use std::alloc::{AllocError, Global};
use xt_trace::RegWrite;
use xt_window::ring::with_bit;

// Of how many program counters something is noted.
const SLOTS: usize = 131072;

// How often what is read is carried backwards at most.
const MOST_PASSES: u32 = 1000;

// All registers.
const ALL: u32 = 0x1_FFFF;

// All visible registers, and SCOMPARE1.
const VISIBLE: u32 = 0xFFFF;

const COMPARE: u32 = 0x1_0000;

/// A turn: its program counter and the next one, the registers that it reads and the one that it writes,
/// whether it stays in its window, and whether it reads and writes SCOMPARE1.
#[derive(Clone, Copy)]
pub(crate) struct Passage {
    pub from: u32,
    pub to: u32,
    pub reads: Registers,
    pub write: Option<RegWrite>,
    pub stays: bool,
    pub reads_compare: bool,
    pub writes_compare: bool,
}

// What the turns at a program counter read, which registers some of them did not write, and one more than
// the number of the last edge from there, or 0.
#[derive(Clone, Copy)]
struct Point {
    reads: u32,
    spared: u32,
    last: u32,
    is_seen: bool,
}

// A turn led from the one program counter to the other. The edge before it from the same one has a number
// one less than `before`, which is 0 if there is none.
#[derive(Clone, Copy)]
struct Edge {
    from: u32,
    to: u32,
    before: u32,
}

/// The program counters to which turns led, and what these turns read and wrote.
pub struct Paths {
    points: Vec<Point>,
    edges: Vec<Edge>,
}

// A `drop` of its own is one call at each place where a value is dropped.
impl Drop for Paths {
    fn drop(self) {
        let Paths {
            points: _,
            edges: _,
        } = self;
    }
}

// The place of a program counter.
fn slot_of(pc: u32) -> u32 {
    pc % 131072
}

// The mask of a register, if it is one.
fn mask_of(register: Option<u8>) -> u32 {
    match register {
        Some(register) => u32::from(with_bit(0, register)),
        None => 0,
    }
}

// What a turn reads. If it moves the window, each visible register may be read.
fn read_by(passage: &Passage) -> u32 {
    let compare = if passage.reads_compare { COMPARE } else { 0 };
    if passage.stays {
        compare | mask_of(passage.reads.0) | mask_of(passage.reads.1)
    } else {
        compare | VISIBLE
    }
}

// What a turn does not write.
fn spared_by(passage: &Passage) -> u32 {
    let written = match passage.write {
        Some(write) => mask_of(Some(write.reg)),
        None => 0,
    };
    let compare = if passage.writes_compare { COMPARE } else { 0 };
    ALL & !(written | compare)
}

impl Paths {
    /// Nothing was seen. The only error is running out of memory.
    pub fn new(alloc: Global) -> Result<Paths, AllocError> {
        let none = Point {
            reads: 0,
            spared: 0,
            last: 0,
            is_seen: false,
        };
        Ok(Paths {
            points: vec![in alloc; none; SLOTS]?,
            edges: Vec::new(alloc),
        })
    }

    // Whether an edge to a place is known, where the last one has this number.
    fn has_edge(&self, last: u32, to: u32) -> bool {
        let mut number = last;
        for _ in 0..self.edges.len() {
            if number == 0 {
                return false;
            }
            let at = number as usize - 1;
            let Some(edge) = self.edges.get(at) else {
                return false;
            };
            if edge.to == to {
                return true;
            }
            number = edge.before;
        }
        false
    }

    /// Notes a turn, and answers whether that is new. The only error is running out of memory.
    pub(crate) fn note(&mut self, passage: &Passage) -> Result<bool, AllocError> {
        let from = slot_of(passage.from);
        let to = slot_of(passage.to);
        let point = match self.points.get(from as usize) {
            Some(point) => *point,
            None => return Ok(false),
        };
        let mut after = point;
        after.reads |= read_by(passage);
        after.spared |= spared_by(passage);
        after.is_seen = true;
        let mut is_new = after.reads != point.reads || after.spared != point.spared;
        let count = self.edges.len();
        if count < 0xFFFF_FFFF && !self.has_edge(after.last, to) {
            let before = after.last;
            self.edges.push(Edge { from, to, before })?;
            after.last = count as u32 + 1;
            is_new = true;
        }
        if let Some(point) = self.points.get_mut(from as usize) {
            *point = after;
        }
        Ok(is_new)
    }

    // What is read from a place on, if so much is read from another one on to which an edge leads.
    fn live_before(&self, from: u32, after: u32) -> u32 {
        match self.points.get(from as usize) {
            Some(point) => point.reads | (after & point.spared),
            None => ALL,
        }
    }

    // Carries what is read back along each edge, the last ones first, and answers whether anything changed.
    fn carry_back(&self, live: &mut [u32]) -> bool {
        let mut changed = false;
        let last = self.edges.len().saturating_sub(1);
        for past in 0..self.edges.len() {
            let Some(edge) = self.edges.get(last.saturating_sub(past)) else {
                return changed;
            };
            let after = match live.get(edge.to as usize) {
                Some(mask) => *mask,
                None => ALL,
            };
            let before = self.live_before(edge.from, after);
            if let Some(mask) = live.get_mut(edge.from as usize) {
                let old = *mask;
                *mask = old | before;
                if *mask != old {
                    changed = true;
                }
            }
        }
        changed
    }

    // What is read from each place on, as far as was seen. The only error is running out of memory.
    fn live(&self, alloc: Global) -> Result<Vec<u32>, AllocError> {
        let mut live = Vec::new(alloc);
        for point in &self.points {
            live.push(if point.is_seen { point.reads } else { ALL })?;
        }
        for _ in 0..MOST_PASSES {
            if !self.carry_back(live.as_mut_slice()) {
                return Ok(live);
            }
        }
        Ok(live)
    }

    /// The registers that nobody will read, as far as was seen. The only error is running out of memory.
    pub fn dead(&self, alloc: Global) -> Result<Dead, AllocError> {
        let mut masks = Vec::new(alloc);
        for live in &self.live(alloc)? {
            masks.push(ALL & !*live)?;
        }
        Ok(Dead { masks })
    }
}
