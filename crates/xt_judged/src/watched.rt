//! Two cores, each with a judge of its own, which sees the turns of this core alone.
ghost use Rattle.std.specs.Prelude.{◌≡◌, None, true};
ghost use Rattle.xt_judged.specs.Lives.{AreApart};
ghost use Rattle.xt_judged.specs.OwnJudges.{breach_of, comes_to, goes, range_of};

use crate::breaches::Met;
use crate::scene::{Shown, Standing};
use crate::stale::Stale;
use std::rc::Rc;
use xt_frames::HandlerPhase;
use xt_map::Access;
use xt_outcomes::{Part, World};
use xt_trace::Stack;

/// How far a judge of one core has come.
#[derive(Clone, Copy, PartialEq, Eq)]
pub enum Fate {
    /// It goes on.
    Goes,
    /// Its core came to this breach.
    Broke(Shown),
    /// Its core came to the other core's stack, whose judge would have to look at that.
    Crossed,
}

/// The judge of one core.
pub struct OwnJudge {
    pub standing: Standing,
    /// The bytes that this core's own returns left stale.
    pub stale: Stale,
    pub fate: Fate,
}

// A `drop` of its own is one call at each place where a value is dropped.
impl Drop for OwnJudge {
    fn drop(self) {
        let OwnJudge {
            standing: _,
            stale: _,
            fate: _,
        } = self;
    }
}

/// The judge of a core that makes turns, beside the frames of that core.
#[derive(Drop)]
pub struct Running {
    /// Where the core stands among handler steps.
    pub phase: HandlerPhase,
    /// The bytes that this core's own returns left stale.
    pub stale: Stale,
    pub fate: Fate,
}

/// Two cores between two turns, what memory holds, and the judge of each core. They share what is equal in
/// them.
pub struct Watched {
    pub world: World,
    pub judge0: Rc<OwnJudge>,
    pub judge1: Rc<OwnJudge>,
    /// How many turns of one core led here, when this was met first.
    pub turns: u32,
    // No byte that is stale for a core is live for it.
    ghost apart0: { AreApart judge0.value.standing.frames None judge0.value.stale },
    ghost apart1: { AreApart judge1.value.standing.frames None judge1.value.stale },
}

impl Drop for Watched {
    fn drop(self) {
        let Watched {
            world: _,
            judge0: _,
            judge1: _,
            turns: _,
        } = self;
    }
}

/// Whether an access has a byte in a stack range.
pub fn comes_to(stack: Stack, access: Option<Access>) -> bool
    ensures { result ≡ comes_to (range_of stack) access }
{
    match access {
        Some(access) => {
            u64::from(access.addr) < u64::from(stack.hi)
                && u64::from(stack.lo) < u64::from(access.addr) + u64::from(access.size)
        }
        None => false,
    }
}

impl Fate {
    /// Whether the judge goes on.
    pub fn goes(self) -> bool
        ensures { result ≡ goes self }
    {
        match self {
            Fate::Goes => true,
            Fate::Broke(_) => false,
            Fate::Crossed => false,
        }
    }

    // The breach to which the core came, if it came to one.
    fn breach(self) -> Option<Shown>
        ensures { result ≡ breach_of self }
    {
        match self {
            Fate::Broke(shown) => Some(shown),
            Fate::Goes => None,
            Fate::Crossed => None,
        }
    }

    // Whether both are seen to be equal.
    fn is_same(self, other: Fate) -> bool
        ensures { result ≡ true → self ≡ other }
    {
        self == other
    }
}

impl Part for OwnJudge {
    fn is_like(&self, other: &OwnJudge) -> bool {
        self.fate.is_same(other.fate)
            && self.stale.is_same(&other.stale)
            && self.standing.is_same(&other.standing)
    }

    fn mark(&self) -> u64 {
        self.standing.digest().wrapping_add(self.stale.digest())
    }
}

impl Met for Watched {
    ghost use Rattle.xt_judged.specs.OwnJudges.{breach_in};

    ghost shows = { λ w. breach_in w.judge0.value.fate w.judge1.value.fate };

    fn breach(&self) -> Option<Shown> {
        match self.judge0.fate.breach() {
            Some(shown) => Some(shown),
            None => self.judge1.fate.breach(),
        }
    }

    fn turns(&self) -> u32 {
        self.turns
    }
}
