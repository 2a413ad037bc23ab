ghost use Rattle.std.specs.Prelude.{◌≡◌, ◌<◌, ◌≤◌, ◌==◌, ◌||◌, ◌∷◌, length, take, drop, IfOk};
ghost use Rattle.std.specs.List.{prefix_len};
ghost use Rattle.xt_lex.specs.Tokens.{IsLexed};
ghost use Rattle.xt_parse.specs.Statements.{column_behind, fault_column, line_of};
ghost use Rattle.xt_parse.specs.Lines.{ArePlaced, ParsesLine, Parses, token_lines, is_segment, parsed_lines};
ghost use Rattle.xt_parse.specs.Small.{IsParsed};

use crate::line::{Line, Lines};
use crate::lines::whole_parts;
use crate::statement::Statement;
use crate::stop::Stop;
use std::alloc::Global;
use xt_lex::{AsmFault, AsmPlace, Token, Tokens};

// The column after the last token.
fn column_of_end(tokens: &[Token]) -> u32
    requires { ArePlaced tokens.now }
    ensures { result ≡ column_behind tokens.now }
{
    match tokens {
        [.., last] => last.column + last.width,
        [] => 1,
    }
}

// The column of a line's fault, where so many of its tokens are left.
fn column_of_fault(tokens: &[Token], left: usize) -> u32
    requires { ArePlaced tokens.now }
    ensures { result ≡ fault_column tokens.now left }
{
    let end = column_of_end(tokens);
    match tokens.get(tokens.len().saturating_sub(left)) {
        Some(token) => token.column,
        None => end,
    }
}

// The line of these tokens, or its fault of the kind Syntax.
#[tactic(auto, unfolding(crate::specs::Statements::line_of))]
fn line_of_tokens(alloc: Global, begun: bool, tokens: &[Token]) -> Result<Line, AsmFault>
    requires some { 0 < length tokens.now }
    requires placed { ArePlaced tokens.now }
    ensures { ParsesLine result (line_of begun tokens.now) }
{
    let number = tokens[0].line;
    match whole_parts(alloc, begun, tokens) {
        Ok((label, column, statement)) => Ok(Line {
            number,
            label,
            column,
            statement,
        }),
        Err(Stop::At(left)) => Err(AsmFault::Place(AsmPlace {
            line: number,
            column: column_of_fault(tokens, left),
            kind: 8,
        })),
        Err(Stop::Memory) => Err(AsmFault::Memory),
    }
}

// How many tokens of this line stand at the front.
fn width_of_line(line: u32, tokens: &[Token]) -> usize
    ensures width { result ≡ prefix_len (λ t. line == t.line) tokens.now }
    ensures within { result ≤ length tokens.now }
{
    for (i, token) in tokens.iter().enumerate() {
        if line != token.line {
            return i;
        }
    }
    tokens.len()
}

// How many tokens the first line has.
fn group_width(tokens: &[Token]) -> usize
    requires { 0 < length tokens.now }
    ensures cut { token_lines tokens.now ≡ take result tokens.now ∷ token_lines (drop result tokens.now) }
    ensures forward { 0 < result }
    ensures within { result ≤ length tokens.now }
{
    width_of_line(tokens[0].line, tokens)
}

// Whether a segment was begun on a line before, or is by this statement.
fn has_begun(begun: bool, statement: &Statement) -> bool
    ensures { result ≡ (begun || is_segment statement.now) }
{
    match statement {
        Statement::Seg(_) => true,
        _ => begun,
    }
}

/// The lines of the tokens of a text, or the first fault of the kind Syntax.
///
/// A line has this fault where it breaks the grammar, where a mnemonic, a directive or a register does not exist, where it has a token
/// `Bad`, and where a label, or a statement other than `.seg` and `.entry`, stands before the first `.seg`. The fault's column is that
/// of the first token that cannot continue the line, or the column after the line's last token.
///
/// The numbers of the lines rise, and the lines, the terms of their expressions and the bytes of their strings are at most 1,048,576
/// together.
pub fn parse(alloc: Global, tokens: &Tokens) -> Result<Lines, AsmFault>
    requires { IsLexed tokens.now }
    ensures lines { Parses result (parsed_lines tokens.now) }
    ensures small { IfOk result IsParsed }
{
    let mut lines = Vec::new(alloc);
    let mut begun = false;
    let mut rest = tokens.as_slice();
    'lines: while !rest.is_empty() {
        let (group, after) = rest.split_at(group_width(rest));
        let found = match line_of_tokens(alloc, begun, group) {
            Ok(found) => found,
            Err(fault) => return Err(fault),
        };
        begun = has_begun(begun, &found.statement);
        lines.push(found)?;
        rest = after;
    }
    Ok(Lines::new(lines))
}
