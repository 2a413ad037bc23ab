ghost use Rattle.std.specs.Prelude.{◌≡◌};
ghost use Rattle.std.specs.Option.{option_copied, option_map};
ghost use Rattle.xt_layout.specs.Addresses.{label_name, literal_name};
ghost use Rattle.xt_layout.specs.Pools.{pool_use, need, is_position, is_segment};
ghost use Rattle.xt_layout.specs.Seen.{need_of};

use xt_lex::Expr;
use xt_parse::{Operand, Placed, Statement};

/// What a statement needs of the pool.
#[derive(Clone, Copy)]
pub(crate) struct Need<'a> {
    /// The name, where a `.literal` makes a word of its own.
    pub(crate) name: Option<&'a Placed>,
    /// What the word holds.
    pub(crate) value: &'a Expr,
}

/// The expression of the first operand that is a use of the pool.
pub fn pool_use(operands: &[Operand]) -> Option<&Expr>
    ensures { option_copied result ≡ pool_use operands.now }
{
    for operand in operands {
        if let Operand::Pool(value) = operand {
            return Some(value);
        }
    }
    None
}

/// What a statement needs of the pool, if anything.
pub(crate) fn need_of(statement: &Statement) -> Option<Need<'_>>
    ensures { option_map need_of result ≡ need statement.now }
{
    match statement {
        Statement::Literal(name, value) => Some(Need {
            name: Some(name),
            value,
        }),
        Statement::Insn(_, operands) => match pool_use(operands.as_slice()) {
            Some(value) => Some(Need { name: None, value }),
            None => None,
        },
        _ => None,
    }
}

/// The name that a `.literal` defines.
pub(crate) fn literal_name(statement: &Statement) -> Option<&Placed>
    ensures { label_name (option_copied result) ≡ literal_name statement.now }
{
    match statement {
        Statement::Literal(name, _) => Some(name),
        _ => None,
    }
}

/// Whether a statement is a `.literal_position`.
pub(crate) fn is_position(statement: &Statement) -> bool
    ensures { result ≡ is_position statement.now }
{
    matches!(statement, Statement::Position)
}

/// Whether a statement is a `.seg`.
pub fn is_segment(statement: &Statement) -> bool
    ensures { result ≡ is_segment statement.now }
{
    matches!(statement, Statement::Seg(_))
}
