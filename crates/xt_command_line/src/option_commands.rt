//! The simple commands of `clap` that read the words of the command line.
ghost use Rattle.std.specs.Prelude.{◌≡◌, true, map, string_bytes};
ghost use Rattle.clap.specs.Words.{is_simple_and_free};
ghost use Rattle.xt_command_line.specs.Forms.{app_with};
ghost use Rattle.xt_command_line.specs.Simple.{Matches, rows_by};

use crate::command::Refusal;
use crate::simple::{Form, Matched, Parser};
use std::alloc::Global;

/// The arguments of `replay`.
pub const REPLAY: [(Form, &str); 2] = [(Form::Positional, "script"), (Form::Flag, "lenient")];

/// What `clap` matches on the words of a command of this name with these arguments.
pub fn matches_for<'a>(
    alloc: Global,
    name: &'a str,
    arguments: &[(Form, &'a str)],
    words: &'a [String],
) -> Result<Matched<'a>, Refusal>
    requires { is_simple_and_free (app_with name.now arguments.now) ≡ true }
    ensures { Matches result (rows_by (app_with name.entry.now arguments.now) (map string_bytes words.now)) }
{
    let mut command = Parser::new(alloc, name);
    for one in arguments {
        command = command.with(alloc, one.0, one.1)?;
    }
    command.matches(words)
}
