//! Words that are no text.

use crate::asking::{Ended, asked_at};
use crate::cases::words_of;
use crate::gates::Meet;
use std::env::FillError;
use std::rt::Env;
use std::sync::Wait;
use std::thread::Threads;
use xt_cli::program_words;

/// The environment of a program that was called with these words, the first of which is its name.
#[derive(Clone, Copy)]
struct Called<'a> {
    words: [&'a [u8]; 3],
}

impl Env for Called<'_> {
    fn arg(&self, i: usize, buf: &mut [u8]) -> Result<usize, FillError> {
        let Some(word) = self.words.get(i).copied() else {
            return Err(FillError::NotPresent);
        };
        if buf.len() < word.len() {
            return Err(FillError::TooLong);
        }
        buf[..word.len()].copy_from_slice(word);
        Ok(word.len())
    }

    fn var(&self, _name: &str, _buf: &mut [u8]) -> Result<usize, FillError> {
        Err(FillError::NotPresent)
    }

    fn var_at(&self, _i: usize, _buf: &mut [u8]) -> Result<usize, FillError> {
        Err(FillError::NotPresent)
    }
}

/// How the program ends over an input, called with the only word of a case and the bytes of its part `raw` as a further one.
pub fn end_with_raw<R: Threads + Wait + Sync + AllocGlobal>(
    rt: &R,
    case: &str,
    input: &[u8],
) -> Option<Ended> {
    let word = hex::decode(rt.alloc(), words_of(case, "raw")).ok()?;
    let command = words_of(case, "words").as_bytes();
    let called = Called {
        words: [b"xt".as_slice(), command, word.as_slice()],
    };
    let words = program_words(&(called, rt.alloc()));
    asked_at(rt, &words, input, &Meet::new(0))
}
