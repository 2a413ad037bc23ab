//! What `mem` and `words` print.
ghost use Rattle.std.specs.Prelude.{◌≡◌, ◌++◌, OnOk, string_bytes};
ghost use Rattle.xt_replay.specs.Shown.{byte_in};
ghost use Rattle.xt_replay.specs.Printed.{byte_text, bytes_text, digits, mem_text, word_text, words_from, words_text};

use crate::State;
use std::alloc::{AllocError, Global};
use xt_word::{push_hex2, push_hex8};

// Appends the digits of a byte, or `--` where there is none.
fn push_digits(out: &mut String, byte: Option<u8>) -> Result<(), AllocError>
    ensures { OnOk result (string_bytes out.new ≡ string_bytes out.old ++ digits byte) }
{
    match byte {
        None => out.push_str("--"),
        Some(byte) => push_hex2(out, byte),
    }
}

fn push_byte(out: &mut String, byte: Option<u8>) -> Result<(), AllocError>
    ensures { OnOk result (string_bytes out.new ≡ string_bytes out.old ++ byte_text byte) }
{
    out.push_str(" ")?;
    push_digits(out, byte)
}

fn push_bytes(out: &mut String, state: &State, addr: u32, count: u32) -> Result<(), AllocError>
    ensures { OnOk result (string_bytes out.new ≡ string_bytes out.old ++ bytes_text (λ a. byte_in a state.now) addr count) }
{
    let mut at = addr;
    for _ in 0..count {
        push_byte(out, state.byte(at))?;
        at = at.wrapping_add(1);
    }
    Ok(())
}

/// Appends the line of so many bytes from an address on.
#[tactic(auto, unfolding(crate::specs::Printed::mem_text))]
pub fn push_mem(
    alloc: Global,
    out: &mut Vec<u8>,
    state: &State,
    addr: u32,
    count: u32,
) -> Result<(), AllocError>
    ensures { OnOk result (out.new.items ≡ out.old.items ++ mem_text (λ a. byte_in a state.now) addr count) }
{
    let mut text = String::new(alloc);
    text.push_str("mem ")?;
    push_hex8(&mut text, addr)?;
    push_bytes(&mut text, state, addr, count)?;
    text.push_str("\n")?;
    out.extend_from_slice(text.as_bytes())
}

// Appends the word at an address, whose lowest byte is the first.
#[tactic(auto, unfolding(crate::specs::Printed::word_text))]
fn push_word(out: &mut String, state: &State, addr: u32) -> Result<(), AllocError>
    ensures { OnOk result (string_bytes out.new ≡ string_bytes out.old ++ word_text (λ a. byte_in a state.now) addr) }
{
    out.push_str(" ")?;
    push_digits(out, state.byte(addr.wrapping_add(3)))?;
    push_digits(out, state.byte(addr.wrapping_add(2)))?;
    push_digits(out, state.byte(addr.wrapping_add(1)))?;
    push_digits(out, state.byte(addr))
}

fn push_each_word(out: &mut String, state: &State, addr: u32, count: u32) -> Result<(), AllocError>
    ensures { OnOk result (string_bytes out.new ≡ string_bytes out.old ++ words_from (λ a. byte_in a state.now) addr count) }
{
    let mut at = addr;
    for _ in 0..count {
        push_word(out, state, at)?;
        at = at.wrapping_add(4);
    }
    Ok(())
}

/// Appends the line of so many words from an address on.
#[tactic(auto, unfolding(crate::specs::Printed::words_text))]
pub fn push_words(
    alloc: Global,
    out: &mut Vec<u8>,
    state: &State,
    addr: u32,
    count: u32,
) -> Result<(), AllocError>
    ensures { OnOk result (out.new.items ≡ out.old.items ++ words_text (λ a. byte_in a state.now) addr count) }
{
    let mut text = String::new(alloc);
    text.push_str("words ")?;
    push_hex8(&mut text, addr)?;
    push_each_word(&mut text, state, addr, count)?;
    text.push_str("\n")?;
    out.extend_from_slice(text.as_bytes())
}
