//! Which script a text is.
ghost use Rattle.std.specs.Prelude.{◌≡◌, ◌<◌, ◌≤◌, ◌==◌, All, IfOk, IfSome, map};
ghost use Rattle.std.specs.List.{list_all, slice_split};
ghost use Rattle.xt_command_line.specs.Roots.{roots_of};
ghost use Rattle.xt_debug.specs.Grammar.{breakpoint_of, command_of_none, command_of_numbers, command_of_one, command_of_two, command_of_words, commands_of, core_of, count_of, script_of, words_of, IsInRange};
ghost use Rattle.xt_debug.specs.ScriptAnswers.{Reads};

use crate::script::{Command, Script, ScriptFault};
use crate::targets::{Breakpoint, Target};
use std::alloc::{AllocError, Global};
use xt_command_line::{addresses_in, number};

// The core that a word names.
#[tactic(auto, unfolding(crate::specs::Grammar::core_of))]
fn core_in(word: &str) -> Option<u8>
    ensures value { result ≡ core_of word.now }
    ensures range { IfSome result (λ core. core < 2) }
{
    match number(word)? {
        0 => Some(0),
        1 => Some(1),
        _ => None,
    }
}

// How many bytes or words a word asks for.
#[tactic(auto, unfolding(crate::specs::Grammar::count_of))]
fn count_in(word: &str) -> Option<u32>
    ensures value { result ≡ count_of word.now }
    ensures range { IfSome result (λ count. count ≤ 64) }
{
    let count = number(word)?;
    (count <= 64).then_some(count)
}

#[tactic(auto, unfolding(crate::specs::Grammar::command_of_none))]
fn command_alone(name: &str) -> Option<Command>
    ensures value { result ≡ command_of_none name.now }
    ensures range { IfSome result IsInRange }
{
    match name {
        "end" => Some(Command::End),
        "events" => Some(Command::Events),
        _ => None,
    }
}

#[tactic(auto, unfolding(crate::specs::Grammar::command_of_one))]
fn command_with_one(name: &str, word: &str) -> Option<Command>
    ensures value { result ≡ command_of_one name.now word.now }
    ensures range { IfSome result IsInRange }
{
    match name {
        "next" => Some(Command::Next(number(word)?)),
        "back" => Some(Command::Back(number(word)?)),
        "watch" => Some(Command::Ahead(Target::Store(number(word)?))),
        "last" => Some(Command::Behind(Target::Store(number(word)?))),
        "trace" => Some(Command::Trace(number(word)?)),
        "regs" => Some(Command::Regs(core_in(word)?)),
        "ring" => Some(Command::Ring(core_in(word)?)),
        "special" => Some(Command::Special(core_in(word)?)),
        "frames" => Some(Command::Frames(core_in(word)?)),
        "calls" => Some(Command::Calls(core_in(word)?)),
        _ => None,
    }
}

#[tactic(auto, unfolding(crate::specs::Grammar::command_of_numbers))]
fn command_with_numbers(name: &str, first: &str, second: &str) -> Option<Command>
    ensures value { result ≡ command_of_numbers name.now first.now second.now }
    ensures range { IfSome result IsInRange }
{
    match name {
        "go" => Some(Command::Go(core_in(first)?, number(second)?)),
        "mem" => Some(Command::Mem(number(first)?, count_in(second)?)),
        "words" => Some(Command::Words(number(first)?, count_in(second)?)),
        _ => None,
    }
}

// The core and the addresses that two words name.
#[tactic(auto, unfolding(crate::specs::Grammar::breakpoint_of))]
fn breakpoint_in(
    alloc: Global,
    core: &str,
    addresses: &str,
) -> Result<Option<Breakpoint>, AllocError>
    ensures value { IfOk result (λ found. found ≡ breakpoint_of core.now addresses.now) }
    ensures range { IfOk result (λ found. IfSome found (λ b. b.core < 2)) }
{
    let Some(core) = core_in(core) else {
        return Ok(None);
    };
    match addresses_in(alloc, addresses)? {
        Some(addresses) => Ok(Some(Breakpoint { core, addresses })),
        None => Ok(None),
    }
}

#[tactic(auto, unfolding(crate::specs::Grammar::command_of_two))]
fn command_with_two(
    alloc: Global,
    name: &str,
    first: &str,
    second: &str,
) -> Result<Option<Command>, AllocError>
    ensures value { IfOk result (λ command. command ≡ command_of_two name.now first.now second.now) }
    ensures range { IfOk result (λ command. IfSome command IsInRange) }
{
    match name {
        "break" => match breakpoint_in(alloc, first, second)? {
            Some(breakpoint) => Ok(Some(Command::Ahead(Target::Execution(breakpoint)))),
            None => Ok(None),
        },
        "prior" => match breakpoint_in(alloc, first, second)? {
            Some(breakpoint) => Ok(Some(Command::Behind(Target::Execution(breakpoint)))),
            None => Ok(None),
        },
        _ => Ok(command_with_numbers(name, first, second)),
    }
}

fn command_in_words(alloc: Global, words: &[&str]) -> Result<Option<Command>, AllocError>
    ensures value { IfOk result (λ command. command ≡ command_of_words (map (λ word. word.now) words.now)) }
    ensures range { IfOk result (λ command. IfSome command IsInRange) }
{
    match words {
        [name] => Ok(command_alone(name)),
        [name, word] => Ok(command_with_one(name, word)),
        [name, first, second] => command_with_two(alloc, name, first, second),
        _ => Ok(None),
    }
}

// The words of a text, which spaces separate.
fn words_in<'a>(alloc: Global, text: &'a str) -> Result<Vec<&'a str>, AllocError>
    ensures { IfOk result (λ words. map (λ word. word.now) words.items ≡ words_of text.now) }
{
    text.split(' ')
        .filter(|word| !word.is_empty())
        .collect(alloc)
}

fn command_in(alloc: Global, text: &str) -> Result<Option<Command>, AllocError>
    ensures value { IfOk result (λ command. command ≡ command_of_words (words_of text.now)) }
    ensures range { IfOk result (λ command. IfSome command IsInRange) }
{
    let words = words_in(alloc, text)?;
    command_in_words(alloc, &words)
}

// The texts between semicolons.
fn parts_in<'a>(alloc: Global, text: &'a str) -> Result<Vec<&'a str>, AllocError>
    ensures { IfOk result (λ parts. map (λ part. part.now) parts.items ≡ slice_split (λ byte. byte == 59) text.now) }
{
    text.split(';').collect(alloc)
}

// The commands of these texts, each of which has to be one.
fn commands_in(alloc: Global, parts: &[&str]) -> Result<Script, ScriptFault>
    ensures means { Reads result (commands_of (map (λ part. part.now) parts.now)) }
    ensures range { IfOk result (λ script. All IsInRange script) }
{
    let mut commands = Vec::new(alloc);
    for part in parts {
        match command_in(alloc, part)? {
            Some(command) => commands.push(command)?,
            None => return Err(ScriptFault::Bad),
        }
    }
    Ok(Script::new(commands))
}

fn is_blank(text: &[u8]) -> bool
    ensures { result ≡ list_all (λ byte. byte == 32) text.now }
{
    text.iter().all(|byte| *byte == b' ')
}

/// The script that a text is: commands that `;` separates, of words that spaces separate.
///
/// ```text
/// go C N      next N      back N      break C A,..  watch ADDR      trace N
/// regs C      ring C      special C   mem ADDR N    words ADDR N    frames C
/// calls C     end         events      prior C A,..  last ADDR
/// ```
///
/// Each number is decimal digits, or `0x` and one to eight hexadecimal digits, below 2^32; C is 0 or 1, and the N of `mem`
/// and of `words` at most 64. `A,..` is one number, or more with commas between them. A text of no bytes but spaces is the
/// script with no command; otherwise a part without words is no command. `Bad` says that the text is no script, `Memory`
/// says only that memory ran out.
#[tactic(auto, unfolding(crate::specs::Grammar::script_of))]
pub fn parse_script(alloc: Global, text: &str) -> Result<Script, ScriptFault>
    ensures means { Reads result (script_of text.now) }
    ensures range { IfOk result (λ script. All IsInRange script) }
{
    if is_blank(text.as_bytes()) {
        return Ok(Script::new(Vec::new(alloc)));
    }
    let parts = parts_in(alloc, text)?;
    commands_in(alloc, &parts)
}
