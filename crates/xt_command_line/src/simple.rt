//! A simple command of `clap`, and what it matches on words.
ghost use Rattle.std.specs.Prelude.{◌≡◌, false, true, IfOk, map, string_bytes, option_map};
ghost use Rattle.clap.specs.Kinds.{FailsBy};
ghost use Rattle.clap.specs.Words.{HasMatchesOf, all_of, fault_of, first_of, is_simple_and_free, new_app, rule_of, with_rule};
ghost use Rattle.xt_command_line.specs.Forms.{rule_by};
ghost use Rattle.xt_command_line.specs.Options.{is_set};
ghost use Rattle.xt_command_line.specs.Simple.{Matches, rows_by};

use crate::command::Refusal;
use clap::error::ErrorKind;
use clap::{Arg, ArgAction, ArgMatches, Command, Error};
use std::alloc::{AllocError, Global};
use std::marker::Model;

/// How an argument of a command is given.
#[derive(Clone, Copy)]
pub enum Form {
    /// By a text that must be there.
    Positional,
    /// By `--name TEXT`.
    Text,
    /// By `--name TEXT`, which may stand more than once.
    Texts,
    /// By `--name`.
    Flag,
}

// The argument of this form and this name.
fn argument<'a>(alloc: Global, form: Form, name: &'a str) -> Arg<'a>
    ensures rule { rule_of result ≡ rule_by form name.entry.now }
    ensures local { result.global ≡ false }
{
    match form {
        Form::Positional => Arg::new(alloc, name).required(true),
        Form::Text => Arg::new(alloc, name).long(name),
        Form::Texts => Arg::new(alloc, name).long(name).action(ArgAction::Append),
        Form::Flag => Arg::new(alloc, name).long(name).action(ArgAction::SetTrue),
    }
}

/// A simple command of `clap`. Contracts see what it takes.
pub struct Parser<'a> {
    command: Command<'a>,
}

impl<'a> Model for Parser<'a> {
    ghost use Rattle.clap.specs.Words.{App, app_of};

    ghost Value = { App };

    ghost view = { λ p. app_of p.command };
}

/// What a simple command of `clap` matched on words. Contracts see the rows.
pub struct Matched<'a> {
    matches: ArgMatches<'a>,
}

impl<'a> Model for Matched<'a> {
    ghost use Rattle.std.specs.Prelude.{List};
    ghost use Rattle.clap.specs.Words.{Row, found_of, rows_of};

    ghost Value = { List Row };

    ghost view = { λ m. rows_of (found_of m.matches) };
}

impl Drop for Matched<'_> {
    fn drop(self) {
        let Matched { matches: _ } = self;
    }
}

impl<'a> Parser<'a> {
    /// The command of this name, without an argument.
    pub fn new(alloc: Global, name: &'a str) -> Parser<'a>
        ensures { result ≡ new_app name.entry.now }
    {
        Parser {
            command: Command::new(alloc, name),
        }
    }

    /// The same command with one argument more. The only error is running out of memory.
    pub fn with(self, alloc: Global, form: Form, name: &'a str) -> Result<Parser<'a>, AllocError>
        ensures { IfOk result (λ p. p ≡ with_rule self.entry (rule_by form name.entry.now)) }
    {
        let Parser { command } = self;
        match command.arg(argument(alloc, form, name)) {
            Ok(command) => Ok(Parser { command }),
            Err(error) => Err(error),
        }
    }

    // What `clap` answers to the words, the first of which stands for the program's name.
    fn answer(self, words: &'a [String]) -> Result<ArgMatches<'a>, Error>
        requires { is_simple_and_free self ≡ true }
        ensures kinds { FailsBy (fault_of self.entry (map string_bytes words.now)) result }
        ensures matches { IfOk result (HasMatchesOf self.entry (map string_bytes words.now)) }
    {
        let Parser { command } = self;
        command.try_get_matches_from(words)
    }

    /// What the command matches on the words, the first of which stands for the program's name.
    pub fn matches(self, words: &'a [String]) -> Result<Matched<'a>, Refusal>
        requires { is_simple_and_free self ≡ true }
        ensures { Matches result (rows_by self.entry (map string_bytes words.now)) }
    {
        match self.answer(words) {
            Ok(matches) => Ok(Matched { matches }),
            Err(error) => match error.kind() {
                ErrorKind::OutOfMemory => Err(Refusal::Memory),
                _ => Err(Refusal::Usage(3)),
            },
        }
    }
}

impl<'a> Matched<'a> {
    /// The text of an option or of a positional.
    pub fn text(&self, name: &str) -> Option<&'a str>
        ensures { option_map (λ s. s.now) result ≡ first_of name.now self.now }
    {
        self.matches.get_str(name)
    }

    /// The texts of an option that may stand more than once; none where it does not stand.
    pub fn texts(&self, name: &str) -> Option<&[&'a str]>
        ensures { option_map (λ s. map (λ v. v.now) s.now) result ≡ all_of name.now self.now }
    {
        self.matches.get_raw(name)
    }

    /// A flag was given: it has the text `true`.
    pub fn is_given(&self, name: &str) -> bool
        ensures { result ≡ is_set (first_of name.now self.now) }
    {
        match self.text(name) {
            Some(text) => text == "true",
            None => false,
        }
    }
}
