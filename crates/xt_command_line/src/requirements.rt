//! What is required of a run, as the words ask for it.
ghost use Rattle.std.specs.Prelude.{◌≡◌, [], Some, IfOk, map, option_map};
ghost use Rattle.xt_command_line.specs.MeaningAnswers.{Means};
ghost use Rattle.xt_command_line.specs.Requirements.{with_requirement, all_from, is_among, number_of_requirement, required_in, requirement_of, requirements_in};

use crate::command::Refusal;
use crate::turn_orders::parts_in;
use std::alloc::{AllocError, Global};
use std::marker::Model;

/// What may be required of a run.
#[derive(Clone, Copy)]
pub enum Requirement {
    /// `break`: each core that has turns ended by a BREAK.
    Break,
    /// `whole`: the report says `frames whole`.
    Whole,
    /// `used`: the text of `uses` says `uses whole`.
    Used,
    /// `race-free`: the text of `race` says `race none`.
    RaceFree,
    /// `exit0`: each core that has turns ended by `break 1, 15` with 0 in a2.
    Exit0,
    /// `secret`: the text of `secrets` says `secrets whole`.
    Secret,
}

/// Requirements, of which none stands twice. Contracts see the list.
#[derive(Drop)]
pub struct Requirements {
    items: Vec<Requirement>,
}

impl Model for Requirements {
    ghost use Rattle.std.specs.Prelude.{List};
    ghost use Rattle.xt_command_line.specs.declared.requirements.Requirement.{Requirement};

    ghost Value = { List Requirement };

    ghost view = { λ s. s.items.items };
}

impl Requirements {
    /// These requirements, without a copy.
    pub fn new(items: Vec<Requirement>) -> Requirements
        ensures { result ≡ items.items }
    {
        Requirements { items }
    }

    /// The requirements.
    pub fn as_slice(&self) -> &[Requirement]
        ensures { result.now ≡ self.now }
    {
        &self.items
    }
}

// The requirement that a word names.
#[tactic(auto, unfolding(crate::specs::Requirements::requirement_of))]
fn requirement_of(word: &str) -> Option<Requirement>
    ensures { result ≡ requirement_of word.now }
{
    match word {
        "break" => Some(Requirement::Break),
        "whole" => Some(Requirement::Whole),
        "used" => Some(Requirement::Used),
        "race-free" => Some(Requirement::RaceFree),
        "exit0" => Some(Requirement::Exit0),
        "secret" => Some(Requirement::Secret),
        _ => None,
    }
}

// The number of a requirement.
fn number_of_requirement(requirement: Requirement) -> u8
    ensures { result ≡ number_of_requirement requirement }
{
    match requirement {
        Requirement::Break => 0,
        Requirement::Whole => 1,
        Requirement::Used => 2,
        Requirement::RaceFree => 3,
        Requirement::Exit0 => 4,
        Requirement::Secret => 5,
    }
}

/// The requirement stands in the list.
pub fn is_among(requirement: Requirement, list: &[Requirement]) -> bool
    ensures { result ≡ is_among requirement list.now }
{
    list.iter().any(|one| number_of_requirement(*one) == number_of_requirement(requirement))
}

// The requirements that these texts name: each has to name one that does not stand before it.
fn all_named(alloc: Global, parts: &[&str]) -> Result<Option<Requirements>, AllocError>
    ensures { IfOk result (λ list. list ≡ all_from (Some []) (map (λ part. part.now) parts.now)) }
{
    let mut list = Vec::new(alloc);
    for part in parts {
        match requirement_of(part) {
            Some(requirement) => {
                if is_among(requirement, &list) {
                    return Ok(None);
                }
                list.push(requirement)?
            }
            None => return Ok(None),
        }
    }
    Ok(Some(Requirements::new(list)))
}

// The requirements that a text lists.
fn requirements_in(alloc: Global, text: &str) -> Result<Option<Requirements>, AllocError>
    ensures { IfOk result (λ list. list ≡ requirements_in text.now) }
{
    let parts = parts_in(alloc, text)?;
    all_named(alloc, &parts)
}

/// The requirements that the text of `--require` lists; none where there is no text.
///
/// `Usage(4)` says that the text is no list of them: words `break`, `whole`, `used`, `race-free`, `exit0` and `secret` with
/// commas between them, one or more, of which none stands twice. `Memory` says only that memory ran out.
pub fn required_in(alloc: Global, text: Option<&str>) -> Result<Option<Requirements>, Refusal>
    ensures { Means result (required_in (option_map (λ t. t.now) text.entry)) }
{
    let Some(text) = text else {
        return Ok(None);
    };
    match requirements_in(alloc, text)? {
        Some(list) => Ok(Some(list)),
        None => Err(Refusal::Usage(4)),
    }
}
