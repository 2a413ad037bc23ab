ghost use Rattle.std.specs.Prelude.{◌≡◌};

use crate::statement::Statement;
use std::alloc::AllocError;
use std::marker::Model;
use xt_lex::Name;

/// A name where it is defined.
#[derive(Drop)]
pub struct Placed {
    /// The column of the name's token, from 1.
    pub column: u32,
    /// The name.
    pub name: Name,
}

impl Clone for Placed {
    // A clone is the same name at the same column.
    ghost is_clone = { λ x y. y ≡ x };

    fn clone(&self) -> Result<Self, AllocError> {
        Ok(Placed {
            column: self.column,
            name: self.name.clone()?,
        })
    }
}

/// A line of the text.
pub struct Line {
    /// The number of the line, from 1.
    pub number: u32,
    /// The label that the line defines.
    pub label: Option<Placed>,
    /// The column of the statement's first token, from 1, and 0 where there is no statement.
    pub column: u32,
    /// The statement.
    pub statement: Statement,
}

// A `drop` of its own is one call at each place where a value is dropped.
impl Drop for Line {
    fn drop(self) {
        let Line {
            number: _,
            label: _,
            column: _,
            statement: _,
        } = self;
    }
}

/// The lines of a text that have a token, in the text's order. Contracts see the list.
pub struct Lines {
    items: Vec<Line>,
}

// A `drop` of its own is one call at each place where a value is dropped, also in other crates.
impl Drop for Lines {
    fn drop(self) {
        let Lines { items: _ } = self;
    }
}

impl Model for Lines {
    ghost use Rattle.std.specs.Prelude.{List};
    ghost use Rattle.xt_parse.specs.declared.line.Line.{Line};

    ghost Value = { List Line };

    ghost view = { λ l. l.items.items };
}

impl Lines {
    /// These lines, without a copy.
    pub fn new(items: Vec<Line>) -> Lines
        ensures { result ≡ items.items }
    {
        Lines { items }
    }

    /// The lines.
    pub fn as_slice(&self) -> &[Line]
        ensures { result.now ≡ self.now }
    {
        &self.items
    }
}
