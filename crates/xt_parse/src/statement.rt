ghost use Rattle.std.specs.Prelude.{◌≡◌, length};

use crate::line::Placed;
use std::marker::Model;
use xt_lex::{Expr, Name};
use xt_names::Mnemonic;

/// An operand of an instruction.
#[derive(Drop)]
pub enum Operand {
    /// A register, 0 to 15: an address register or a Boolean one, as the mnemonic says.
    Reg(u8),
    /// An expression: a number, a target's address, or the name of a special register as a single label.
    Value(Expr),
    /// A literal, which the pool of the segment holds.
    Pool(Expr),
}

/// What a line does.
pub enum Statement {
    /// Nothing.
    Empty,
    /// `.seg NUMBER`: begins a segment at this address.
    Seg(u32),
    /// `.entry EXPR`: sets the entry.
    Entry(Expr),
    /// `.literal_position`: zeros up to a multiple of 4, and then the pool.
    Position,
    /// `.literal NAME, EXPR`: a word of its own in the pool, with its name.
    Literal(Placed, Expr),
    /// `.word EXPR, ..`: words.
    Words(Exprs),
    /// `.short EXPR, ..`: half-words of two bytes.
    Shorts(Exprs),
    /// `.byte EXPR, ..`: bytes.
    Bytes(Exprs),
    /// `.ascii STRING`: the bytes of the string; of `.asciz STRING` with a zero after them.
    Ascii(Name),
    /// `.align NUMBER`: zeros up to a multiple of the number.
    Align(u32),
    /// `.space NUMBER`: this many zeros.
    Space(u32),
    /// An instruction by its mnemonic, with the operands in the order of the text.
    Insn(Mnemonic, Operands),
}

// A `drop` of its own is one call at each place where a value is dropped.
impl Drop for Statement {
    fn drop(self) {
        match self {
            Statement::Empty | Statement::Seg(_) | Statement::Position => {}
            Statement::Entry(_) | Statement::Literal(_, _) => {}
            Statement::Words(_) | Statement::Shorts(_) | Statement::Bytes(_) => {}
            Statement::Ascii(_) | Statement::Align(_) | Statement::Space(_) => {}
            Statement::Insn(_, _) => {}
        }
    }
}

/// A list of expressions. Contracts see the list.
pub struct Exprs {
    items: Vec<Expr>,
}

// A `drop` of its own is one call at each place where a value is dropped, also in other crates.
impl Drop for Exprs {
    fn drop(self) {
        let Exprs { items: _ } = self;
    }
}

impl Model for Exprs {
    ghost use Rattle.std.specs.Prelude.{List};
    ghost use Rattle.xt_lex.specs.declared.expr.Expr.{Expr};

    ghost Value = { List Expr };

    ghost view = { λ e. e.items.items };
}

impl Exprs {
    /// These expressions, without a copy.
    pub fn new(items: Vec<Expr>) -> Exprs
        ensures { result ≡ items.items }
    {
        Exprs { items }
    }

    /// The expressions.
    pub fn as_slice(&self) -> &[Expr]
        ensures { result.now ≡ self.now }
    {
        &self.items
    }

    /// How many expressions there are.
    pub fn len(&self) -> usize
        ensures { result ≡ length self.now }
    {
        self.items.len()
    }
}

/// The operands of an instruction, in the order of the text. Contracts see the list.
pub struct Operands {
    items: Vec<Operand>,
}

// A `drop` of its own is one call at each place where a value is dropped, also in other crates.
impl Drop for Operands {
    fn drop(self) {
        let Operands { items: _ } = self;
    }
}

impl Model for Operands {
    ghost use Rattle.std.specs.Prelude.{List};
    ghost use Rattle.xt_parse.specs.declared.statement.Operand.{Operand};

    ghost Value = { List Operand };

    ghost view = { λ o. o.items.items };
}

impl Operands {
    /// These operands, without a copy.
    pub fn new(items: Vec<Operand>) -> Operands
        ensures { result ≡ items.items }
    {
        Operands { items }
    }

    /// The operands.
    pub fn as_slice(&self) -> &[Operand]
        ensures { result.now ≡ self.now }
    {
        &self.items
    }
}
