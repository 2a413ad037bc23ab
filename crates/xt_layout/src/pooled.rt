ghost use Rattle.std.specs.Prelude.{◌≡◌, ◌≤◌, length, All};

use crate::word::PoolWord;
use std::marker::Model;
use xt_lex::AsmPlace;
use xt_parse::{Line, Lines};

/// The lines of a text with their literal pools. Contracts see the list of lines.
pub struct Pooled {
    lines: Lines,
    words: Vec<PoolWord>,
    fault: Option<AsmPlace>,
}

// A `drop` of its own is one call at each place where a value is dropped, also in other crates.
impl Drop for Pooled {
    fn drop(self) {
        let Pooled {
            lines: _,
            words: _,
            fault: _,
        } = self;
    }
}

impl Model for Pooled {
    ghost use Rattle.std.specs.Prelude.{List, ◌≡◌};
    ghost use Rattle.xt_parse.specs.declared.line.Line.{Line};
    ghost use Rattle.xt_layout.specs.Pools.{words_of, pool_fault};

    ghost Value = { List Line };

    ghost view = { λ p. p.lines };

    ghost invariant = { λ p. (p.words.items ≡ words_of p.lines) × (p.fault ≡ pool_fault p.lines) };
}

impl Pooled {
    ghost use Rattle.xt_layout.specs.Pools.{words_of, pool_fault, IsAmong};

    /// The lines with their pools, without a copy.
    pub(crate) fn new(lines: Lines, words: Vec<PoolWord>, fault: Option<AsmPlace>) -> Pooled
        requires words { words.items ≡ words_of lines }
        requires fault { fault ≡ pool_fault lines }
        ensures { result ≡ lines }
    {
        Pooled {
            lines,
            words,
            fault,
        }
    }

    /// The lines, in the text's order.
    pub fn lines(&self) -> &[Line]
        ensures { result.now ≡ self.now }
    {
        self.lines.as_slice()
    }

    /// The words of all pools: pool after pool, and in a pool in the order of the lines that first need them.
    pub fn words(&self) -> &[PoolWord]
        ensures words { result.now ≡ words_of self.now }
        ensures few { length result.now ≤ length self.now }
        ensures places { All (IsAmong (length self.now)) result.now }
    {
        &self.words
    }

    /// The first literal with no `.literal_position` before it in its segment (kind 3), and none exactly where there is none.
    pub fn fault(&self) -> Option<AsmPlace>
        ensures { result ≡ pool_fault self.now }
    {
        self.fault
    }
}
