//! Devices that fail at each of their calls. What a command does then follows from the rules of the formats.

use crate::asking::{Devices, Ended, asked_over, words_with};
use crate::cases::{has_output, number_of, words_of};
use crate::gates::Meet;
use std::sync::Wait;
use std::thread::Threads;

// A number of a case, which counts bytes.
fn size_of(case: &str, part: &str) -> Option<usize> {
    Some(number_of(case, part)? as usize)
}

// How many bytes so many calls write of an output that comes in two pieces.
fn front_of(case: &str, calls: u64) -> Option<usize> {
    let each = size_of(case, "each")?;
    let first = size_of(case, "first")?;
    let second = size_of(case, "second")?;
    if each == 0 {
        return None;
    }
    let calls = calls as usize;
    let front = calls.saturating_mul(each).min(first);
    let left = calls.saturating_sub(first.div_ceil(each));
    Some(front.saturating_add(left.saturating_mul(each).min(second)))
}

// How many bytes are written before a command reads for the time of this number, counted from 0.
fn written_before(case: &str, call: u64) -> Option<usize> {
    if call < number_of(case, "before-first")? {
        return Some(0);
    }
    let first = size_of(case, "first")?;
    if call < number_of(case, "before-second")? {
        return Some(first);
    }
    Some(first.saturating_add(size_of(case, "second")?))
}

// How the command of a case ends where these calls of its source and its sink fail.
fn end_where<R: Threads + Wait + Sync + AllocGlobal>(
    rt: &R,
    case: &str,
    input: &[u8],
    failing_reads: &[u64],
    failing_writes: &[u64],
) -> Option<Ended> {
    let devices = Devices {
        most: size_of(case, "each")?,
        failing_reads,
        failing_writes,
    };
    let words = Ok(words_with(
        rt.alloc(),
        words_of(case, "words"),
        words_of(case, "script"),
    )?);
    asked_over(rt, &words, input, &devices, &Meet::new(0))
}

// Whether the program ended with this code, and wrote so many bytes of what it writes where nothing fails.
fn is_so(end: &Ended, code: u8, length: usize, whole: &[u8]) -> bool {
    end.code == code && end.output.len() == length && whole.starts_with(&end.output)
}

// Whether a command ends as it must if this read fails; one that it does not make changes nothing.
fn is_so_at_read<R: Threads + Wait + Sync + AllocGlobal>(
    rt: &R,
    case: &str,
    input: &[u8],
    whole: &[u8],
    call: u64,
) -> Option<bool> {
    let code = if call < number_of(case, "reads")? {
        5
    } else {
        0
    };
    let length = written_before(case, call)?;
    let end = end_where(rt, case, input, &[call], &[])?;
    Some(is_so(&end, code, length, whole))
}

// The same of a write.
fn is_so_at_write<R: Threads + Wait + Sync + AllocGlobal>(
    rt: &R,
    case: &str,
    input: &[u8],
    whole: &[u8],
    call: u64,
) -> Option<bool> {
    let code = if call < number_of(case, "writes")? {
        6
    } else {
        0
    };
    let length = front_of(case, call)?;
    let end = end_where(rt, case, input, &[], &[call])?;
    Some(is_so(&end, code, length, whole))
}

// Whether this holds for each call of the source and of the sink, and for the next one that is not made.
fn is_so_at_each<R: Threads + Wait + Sync + AllocGlobal>(
    rt: &R,
    case: &str,
    input: &[u8],
    whole: &[u8],
) -> Option<bool> {
    for call in 0..number_of(case, "reads")?.saturating_add(1) {
        if !is_so_at_read(rt, case, input, whole, call)? {
            return Some(false);
        }
    }
    for call in 0..number_of(case, "writes")?.saturating_add(1) {
        if !is_so_at_write(rt, case, input, whole, call)? {
            return Some(false);
        }
    }
    Some(true)
}

/// Whether the command of a case ends as it must where nothing fails, and where each call of its devices does in turn.
pub fn fails_in_turn<R: Threads + Wait + Sync + AllocGlobal>(
    rt: &R,
    case: &str,
    input: &[u8],
) -> Option<bool> {
    let length = front_of(case, number_of(case, "writes")?)?;
    let whole = end_where(rt, case, input, &[], &[])?;
    if whole.code != 0 || whole.output.len() != length {
        return Some(false);
    }
    Some(
        has_output(rt.alloc(), case, &whole.output)?
            && is_so_at_each(rt, case, input, &whole.output)?,
    )
}
