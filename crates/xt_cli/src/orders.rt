//! What the words of the command line ask for.
ghost use Rattle.std.specs.Prelude.{◌≡◌, IfOk, map, string_bytes};
ghost use Rattle.xt_cli.specs.Orders.{IsFitOrder, discipline_of, order_of, replay_order, script_order};
ghost use Rattle.xt_command_line.specs.MeaningAnswers.{Means};
ghost use Rattle.xt_debug.specs.Grammar.{script_of};
ghost use Rattle.xt_command_line.specs.Arguments.{script_text_of};
ghost use Rattle.xt_command_line.specs.Beyond.{beyond_of};

use crate::tool::Job;
use std::alloc::Global;
use xt_command_line::{
    Beyond, Command, Refusal, Rigor, RunOptions, meaning, script_beyond, script_text,
};
use xt_debug::{ScriptFault, parse_script};
use xt_runs::Wanted;
use xt_uses::Discipline;

/// A command with all that its words say.
#[derive(Drop)]
pub enum Order {
    /// A command whose output is a function of its input.
    Work(Job),
    /// `replay -`: scripts over one recording, a line each, which end beyond the run or go on.
    Session(Beyond),
    /// A run of an image, with these options.
    Run(Wanted, RunOptions),
    /// `gen`: a run of the image that is made from this number.
    Generate(u32),
}

// The command `replay` with the script that a text is.
fn scripted(alloc: Global, text: &str, beyond: Beyond) -> Result<Order, Refusal>
    ensures means { Means result (script_order (script_of text.now) beyond) }
    ensures fit { IfOk result IsFitOrder }
{
    match parse_script(alloc, text) {
        Ok(script) => Ok(Order::Work(Job::Replay(script, beyond))),
        Err(ScriptFault::Bad) => Err(Refusal::Usage(9)),
        Err(ScriptFault::Memory) => Err(Refusal::Memory),
    }
}

// The command `replay` with the script that its words have, or as a session where they have `-`.
#[tactic(auto, unfolding(crate::specs::Orders::replay_order))]
fn replay_order(alloc: Global, words: &[String]) -> Result<Order, Refusal>
    ensures means { Means result (replay_order (script_text_of (map string_bytes words.now)) (beyond_of (map string_bytes words.now))) }
    ensures fit { IfOk result IsFitOrder }
{
    let text = match script_text(alloc, words) {
        Ok(text) => text,
        Err(refusal) => return Err(refusal),
    };
    let beyond = match script_beyond(alloc, words) {
        Ok(beyond) => beyond,
        Err(refusal) => return Err(refusal),
    };
    match text {
        "-" => Ok(Order::Session(beyond)),
        _ => scripted(alloc, text, beyond),
    }
}

// The discipline of uses that the words ask for.
fn discipline_of(rigor: Rigor) -> Discipline
    ensures { result ≡ discipline_of rigor }
{
    match rigor {
        Rigor::Strict => Discipline::Strict,
        Rigor::Lenient => Discipline::Lenient,
    }
}

// What the words ask for, or the first rule of usage that they break.
pub(crate) fn order_in(alloc: Global, words: &[String]) -> Result<Order, Refusal>
    ensures means { Means result (order_of (map string_bytes words.now)) }
    ensures fit { IfOk result IsFitOrder }
{
    match meaning(alloc, words) {
        Ok(Command::Assemble) => Ok(Order::Work(Job::Assemble)),
        Ok(Command::Convert) => Ok(Order::Work(Job::Convert)),
        Ok(Command::Disassemble(listing)) => Ok(Order::Work(Job::List(listing))),
        Ok(Command::Map) => Ok(Order::Work(Job::Map)),
        Ok(Command::Check(vecbase)) => Ok(Order::Work(Job::Check(vecbase))),
        Ok(Command::Migrate) => Ok(Order::Work(Job::Migrate)),
        Ok(Command::Replay) => replay_order(alloc, words),
        Ok(Command::Events) => Ok(Order::Work(Job::Events)),
        Ok(Command::Counts) => Ok(Order::Work(Job::Counts)),
        Ok(Command::Trace(turns)) => Ok(Order::Work(Job::Trace(turns))),
        Ok(Command::Race) => Ok(Order::Work(Job::Race)),
        Ok(Command::Profile(options)) => Ok(Order::Work(Job::Profile(options))),
        Ok(Command::Uses(rigor)) => Ok(Order::Work(Job::Uses(discipline_of(rigor)))),
        Ok(Command::Secrets(options)) => Ok(Order::Work(Job::Secrets(options))),
        Ok(Command::Outcomes(options)) => Ok(Order::Work(Job::Outcomes(options))),
        Ok(Command::Run(options)) => Ok(Order::Run(Wanted::Report, options)),
        Ok(Command::Record(options)) => Ok(Order::Run(Wanted::Recording, options)),
        Ok(Command::Generate(number)) => Ok(Order::Generate(number)),
        Err(refusal) => Err(refusal),
    }
}
