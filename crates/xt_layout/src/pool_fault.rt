ghost use Rattle.std.specs.Prelude.{◌≡◌};
ghost use Rattle.xt_layout.specs.Pools.{pool_fault, missing_pool};
ghost use Rattle.xt_layout.specs.Seen.{is_open_behind};

use crate::need::{is_position, is_segment, need_of};
use xt_lex::AsmPlace;
use xt_parse::Line;

/// The fault of a line that needs a literal where no pool is open.
fn missing_pool(is_open: bool, line: &Line) -> Option<AsmPlace>
    ensures { result ≡ missing_pool is_open line.now }
{
    match need_of(&line.statement) {
        Some(_) if !is_open => Some(AsmPlace {
            line: line.number,
            column: line.column,
            kind: 3,
        }),
        _ => None,
    }
}

/// Whether a pool is open after a line.
fn is_open_behind(is_open: bool, line: &Line) -> bool
    ensures { result ≡ is_open_behind is_open line.now }
{
    is_position(&line.statement) || (is_open && !is_segment(&line.statement))
}

/// The first literal with no `.literal_position` before it in its segment (kind 3).
pub(crate) fn fault_of(lines: &[Line]) -> Option<AsmPlace>
    ensures { result ≡ pool_fault lines.now }
{
    let mut is_open = false;
    for line in lines {
        if let Some(place) = missing_pool(is_open, line) {
            return Some(place);
        }
        is_open = is_open_behind(is_open, line);
    }
    None
}
