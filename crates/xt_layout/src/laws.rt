//! What the conditions of the layout follow from. Each law is the contract of a function that does nothing.
ghost use Rattle.std.specs.Prelude.{List};
ghost use Rattle.xt_parse.specs.declared.line.Line.{Line};
ghost use Rattle.xt_parse.specs.Small.{IsParsed};
ghost use Rattle.xt_layout.specs.Sizes.{IsSmall};

/// The lines that `xt_parse::parse` gives meet the condition of `layout`.
pub fn parsed_lines_are_small()
    ensures { (lines : List Line) → IsParsed lines → IsSmall lines }
{}
