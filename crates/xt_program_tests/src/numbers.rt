//! Images that are made of a number, which are those of their texts.

use crate::asking::{words_in, written};
use crate::cases::{lines_of, words_of};
use std::alloc::Global;
use std::fmt::Write;
use std::sync::Wait;
use std::thread::Threads;
use xt_gen::generated_image;
use xt_image::write;

// Appends the words of the table of the image that is made of a number.
fn push_table(text: &mut String, number: u32) -> Option<()> {
    let mut x = number;
    for word in 0..32_768u32 {
        x = x.wrapping_mul(1_664_525).wrapping_add(1_013_904_223);
        let comma = if word == 0 { "" } else { ", " };
        write!(text, "{comma}{x}").ok()?;
    }
    Some(())
}

// The text of the image that is made of a number: its table, and what the case has behind it.
fn text_of(alloc: Global, case: &str, number: u32) -> Option<String> {
    let mut text = lines_of(alloc, case, "table", "")?;
    text.push_str("table: .word ").ok()?;
    push_table(&mut text, number)?;
    text.push('\n').ok()?;
    text.push_str(lines_of(alloc, case, "behind", "")?.as_str())
        .ok()?;
    Some(text)
}

// Whether an image that is made of a number has these bytes.
fn is_image(alloc: Global, number: u32, bytes: &[u8]) -> Option<bool> {
    let image = generated_image(alloc, number).ok()?;
    let wanted = write(alloc, &image).ok()?;
    Some(wanted.as_slice() == bytes)
}

/// Whether the images of the numbers of a case are those of their texts.
pub fn are_generated<R: Threads + Wait + Sync + AllocGlobal>(rt: &R, case: &str) -> Option<bool> {
    for number in words_of(case, "numbers").split(' ') {
        let number = number.parse::<u32>().ok()?;
        let text = text_of(rt.alloc(), case, number)?;
        let image = written(rt, words_in(rt.alloc(), &["asm"])?, text.as_bytes())?;
        if !is_image(rt.alloc(), number, &image)? {
            return Some(false);
        }
    }
    Some(true)
}
