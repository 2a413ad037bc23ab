//! The text of a call profile.
ghost use Rattle.std.specs.Prelude.{◌≡◌, ◌++◌, IfOk, OnOk, string_bytes};
ghost use Rattle.std.specs.List.{flat_map};
ghost use Rattle.xt_profile.specs.ProfileText.{after_line_text, after_rest_text, after_text, core_text, key_text, line_text, lines_text, more_text, next_text, profile_text, rest_text, whole_text};

use crate::profiles::{CoreProfile, CoreTurns, Profile, ProfileLine, WholeProfile};
use std::alloc::{AllocError, Global};
use std::fmt::Write;
use xt_map::Text;
use xt_word::push_hex8;

// Appends an address behind a `;`.
fn push_next(out: &mut String, address: u32) -> Result<(), AllocError>
    ensures { OnOk result (string_bytes out.new ≡ string_bytes out.old ++ next_text address) }
{
    out.push_str(";")?;
    push_hex8(out, address)
}

// Appends addresses, each behind a `;`.
fn push_more(out: &mut String, more: &[u32]) -> Result<(), AllocError>
    ensures { OnOk result (string_bytes out.new ≡ string_bytes out.old ++ flat_map next_text more.now) }
{
    for address in more {
        push_next(out, *address)?;
    }
    Ok(())
}

// Appends the functions of a key behind the first, of which the first is `..` where the key was cut.
fn push_behind(out: &mut String, cut: bool, more: &[u32]) -> Result<(), AllocError>
    ensures { OnOk result (string_bytes out.new ≡ string_bytes out.old ++ more_text cut more.now) }
{
    if !cut {
        return push_more(out, more);
    }
    out.push_str(";..")?;
    match more.split_first() {
        Some((_, rest)) => push_more(out, rest),
        None => Ok(()),
    }
}

// Appends a key.
fn push_key(out: &mut String, depth: u32, key: &[u32]) -> Result<(), AllocError>
    ensures { OnOk result (string_bytes out.new ≡ string_bytes out.old ++ key_text depth key.now) }
{
    match key.split_first() {
        Some((address, more)) => {
            push_hex8(out, *address)?;
            push_behind(out, key.len() > depth as usize, more)
        }
        None => Ok(()),
    }
}

// Appends the line of a key.
#[tactic(auto, unfolding(crate::specs::ProfileText::line_text))]
fn push_line(out: &mut String, depth: u32, core: u8, line: &ProfileLine) -> Result<(), AllocError>
    ensures { OnOk result (string_bytes out.new ≡ string_bytes out.old ++ line_text depth core line.now) }
{
    write!(out, "core {core} ")?;
    push_key(out, depth, line.key.as_slice())?;
    let count = line.count;
    writeln!(out, " {count}")
}

// Appends the line of each key.
fn push_lines(
    out: &mut String,
    depth: u32,
    core: u8,
    lines: &[ProfileLine],
) -> Result<(), AllocError>
    ensures { OnOk result (string_bytes out.new ≡ string_bytes out.old ++ lines_text depth core lines.now) }
{
    for line in lines {
        push_line(out, depth, core, line)?;
    }
    Ok(())
}

// Appends what has no key.
#[tactic(auto, unfolding(crate::specs::ProfileText::rest_text))]
fn push_rest(out: &mut String, core: u8, profile: &CoreProfile) -> Result<(), AllocError>
    ensures { OnOk result (string_bytes out.new ≡ string_bytes out.old ++ rest_text core profile.now) }
{
    let handlers = profile.handlers;
    let after = profile.after;
    writeln!(out, "core {core} handlers {handlers} after {after}")
}

// Appends the lines of a core.
fn push_core(
    out: &mut String,
    depth: u32,
    core: u8,
    profile: &CoreProfile,
) -> Result<(), AllocError>
    ensures { OnOk result (string_bytes out.new ≡ string_bytes out.old ++ core_text depth core profile.now) }
{
    push_lines(out, depth, core, profile.lines.as_slice())?;
    push_rest(out, core, profile)
}

/// The text of a profile: for core 0 and then core 1 a line `core C KEY N` for each key, with its
/// addresses joined by `;`, and `..` behind the first of a key that was cut at `depth`, and a line `core C handlers H after A`; or `profile none`. The only
/// error is running out of memory.
#[tactic(auto, unfolding(crate::specs::ProfileText::profile_text))]
pub fn profile_text(alloc: Global, depth: u32, profile: &Profile) -> Result<Text, AllocError>
    ensures { IfOk result (λ text. text ≡ profile_text depth profile.now) }
{
    let mut out = String::new(alloc);
    match profile {
        Profile::Unchecked => out.push_str("profile none\n")?,
        Profile::Cores(zero, one) => {
            push_core(&mut out, depth, 0, zero)?;
            push_core(&mut out, depth, 1, one)?;
        }
    }
    Ok(Text::new(out.into_bytes()))
}

// Appends the line of each key of turns from the cut on.
fn push_after_lines(
    out: &mut String,
    depth: u32,
    core: u8,
    lines: &[ProfileLine],
) -> Result<(), AllocError>
    ensures { OnOk result (string_bytes out.new ≡ string_bytes out.old ++ flat_map (after_line_text depth core) lines.now) }
{
    for line in lines {
        out.push_str("~")?;
        push_line(out, depth, core, line)?;
    }
    Ok(())
}

// Appends how many handler steps there are from the cut on.
#[tactic(auto, unfolding(crate::specs::ProfileText::after_rest_text))]
fn push_after_rest(out: &mut String, core: u8, turns: &CoreTurns) -> Result<(), AllocError>
    ensures { OnOk result (string_bytes out.new ≡ string_bytes out.old ++ after_rest_text core turns.now) }
{
    let handlers = turns.handlers;
    writeln!(out, "~core {core} handlers {handlers}")
}

// Appends the lines of the turns of a core from the cut on.
fn push_after(out: &mut String, depth: u32, core: u8, turns: &CoreTurns) -> Result<(), AllocError>
    ensures { OnOk result (string_bytes out.new ≡ string_bytes out.old ++ after_text depth core turns.now) }
{
    push_after_lines(out, depth, core, turns.lines.as_slice())?;
    push_after_rest(out, core, turns)
}

/// The text of a profile with the turns from the cut on: behind the lines of each core, as
/// `profile_text` has them, a line `~core C KEY N` for each key of these turns, and a line
/// `~core C handlers H`. The only error is running out of memory.
#[tactic(auto, unfolding(crate::specs::ProfileText::whole_text))]
pub fn whole_text(alloc: Global, depth: u32, whole: &WholeProfile) -> Result<Text, AllocError>
    ensures { IfOk result (λ text. text ≡ whole_text depth whole.now) }
{
    let mut out = String::new(alloc);
    match &whole.profile {
        Profile::Unchecked => {
            out.push_str("profile none\n")?;
            push_after(&mut out, depth, 0, &whole.after0)?;
            push_after(&mut out, depth, 1, &whole.after1)?;
        }
        Profile::Cores(zero, one) => {
            push_core(&mut out, depth, 0, zero)?;
            push_after(&mut out, depth, 0, &whole.after0)?;
            push_core(&mut out, depth, 1, one)?;
            push_after(&mut out, depth, 1, &whole.after1)?;
        }
    }
    Ok(Text::new(out.into_bytes()))
}
