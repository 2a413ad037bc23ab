//! Both cores of the program beside each other: each waits before its accesses until the other has come as far.

use crate::asking::{asked_at, words_in};
use crate::cases::{lines_of, number_of, words_of};
use std::sync::Wait;
use std::sync::atomic::{AtomicU64, Ordering};
use std::thread;
use std::thread::Threads;
use xt_io::Gate;

/// How often a core looks for the other's note before one access.
const LOOKS: u64 = 2_000_000;

/// A gate that notes `k + 1` for a core before its access `k` of the first so many, and looks until the
/// other's note is as large. Where it never is, the gate marks failure, and looks no more from then on.
#[derive(Drop)]
pub struct Meet {
    most: u64,
    zero: AtomicU64,
    one: AtomicU64,
    failed: AtomicU64,
}

impl Meet {
    /// A gate at which both cores meet before so many accesses; 0 holds nobody up.
    pub fn new(most: u64) -> Meet {
        Meet {
            most,
            zero: AtomicU64::new(0),
            one: AtomicU64::new(0),
            failed: AtomicU64::new(0),
        }
    }

    /// Whether both cores met before each of these accesses.
    fn has_met(&self) -> bool {
        self.zero.load(Ordering::SeqCst) == self.most
            && self.one.load(Ordering::SeqCst) == self.most
            && self.failed.load(Ordering::SeqCst) == 0
    }
}

impl Gate for Meet {
    fn before(&self, core: u8, k: u64) {
        if k >= self.most {
            return;
        }
        let (mine, theirs) = if core == 0 {
            (&self.zero, &self.one)
        } else {
            (&self.one, &self.zero)
        };
        mine.store(k + 1, Ordering::SeqCst);
        for _look in 0..LOOKS {
            if self.failed.load(Ordering::SeqCst) != 0 || theirs.load(Ordering::SeqCst) > k {
                return;
            }
            thread::yield_now();
        }
        self.failed.store(1, Ordering::SeqCst);
    }
}

/// Whether both cores meet before as many accesses as a case says, in what its words do with an image, and what they write
/// begins with a word and lines of the case.
pub fn both_meet<R: Threads + Wait + Sync + AllocGlobal>(
    rt: &R,
    case: &str,
    image: &[u8],
) -> Option<bool> {
    let gate = Meet::new(number_of(case, "meets")?);
    let lines = lines_of(rt.alloc(), case, "starts", "")?;
    let words = Ok(words_in(rt.alloc(), &[words_of(case, "words")])?);
    let end = asked_at(rt, &words, image, &gate)?;
    Some(
        end.code == 0
            && gate.has_met()
            && end.output.starts_with(words_of(case, "begins").as_bytes())
            && end.output.starts_with(lines.as_bytes()),
    )
}
