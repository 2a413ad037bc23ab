ghost use Rattle.std.specs.Prelude.{◌≡◌};

use crate::Name;
use std::alloc::AllocError;
use std::marker::Model;

/// What a term stands for.
#[derive(Drop, PartialEq, Eq, PartialOrd, Ord)]
pub enum TermValue {
    /// A number below 2^32. A character is its code.
    Number(u32),
    /// The address of a label.
    Label(Name),
}

impl Clone for TermValue {
    // A clone stands for the same.
    ghost is_clone = { λ x y. y ≡ x };

    fn clone(&self) -> Result<Self, AllocError> {
        match self {
            TermValue::Number(number) => Ok(TermValue::Number(*number)),
            TermValue::Label(name) => Ok(TermValue::Label(name.clone()?)),
        }
    }
}

/// A term of an expression with its sign.
#[derive(PartialEq, Eq, PartialOrd, Ord)]
pub struct Term {
    /// Whether the term is taken away.
    pub minus: bool,
    /// What it stands for.
    pub value: TermValue,
}

// A `drop` of its own is one call at each place where a value is dropped, also in other crates.
impl Drop for Term {
    fn drop(self) {
        let Term { minus: _, value: _ } = self;
    }
}

impl Clone for Term {
    // A clone is the same term.
    ghost is_clone = { λ x y. y ≡ x };

    fn clone(&self) -> Result<Self, AllocError> {
        Ok(Term {
            minus: self.minus,
            value: self.value.clone()?,
        })
    }
}

/// An expression: the sum of its terms. Contracts see the list of terms.
pub struct Expr {
    items: Vec<Term>,
}

// A `drop` of its own is one call at each place where a value is dropped, also in other crates.
impl Drop for Expr {
    fn drop(self) {
        let Expr { items: _ } = self;
    }
}

impl Model for Expr {
    ghost use Rattle.std.specs.Prelude.{List};
    ghost use Rattle.xt_lex.specs.declared.expr.Term.{Term};

    ghost Value = { List Term };

    ghost view = { λ e. e.items.items };
}

impl Expr {
    /// The sum of these terms, without a copy.
    pub fn new(items: Vec<Term>) -> Expr
        ensures { result ≡ items.items }
    {
        Expr { items }
    }

    /// The terms.
    pub fn as_slice(&self) -> &[Term]
        ensures { result.now ≡ self.now }
    {
        &self.items
    }
}

impl Clone for Expr {
    // A clone has the same terms.
    ghost is_clone = { λ x y. y ≡ x };

    fn clone(&self) -> Result<Self, AllocError> {
        Ok(Expr::new(Vec::from_clones(*self.items.allocator(), self.as_slice())?))
    }
}
