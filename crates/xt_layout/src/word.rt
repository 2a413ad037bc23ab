use xt_lex::Expr;
use xt_parse::Placed;

/// A word of a literal pool.
#[derive(Drop)]
pub struct PoolWord {
    /// The place of the pool's `.literal_position` among the lines, from 0.
    pub position: u32,
    /// The place of the line that first needs the word, from 0.
    pub line: u32,
    /// The name, where a `.literal` makes the word.
    pub name: Option<Placed>,
    /// What the word holds.
    pub value: Expr,
}
