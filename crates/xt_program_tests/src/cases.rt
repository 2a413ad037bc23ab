//! The parts of a case, as the files of cases tell them.

use std::alloc::Global;

/// What follows a part's name in its line, without blanks around it; nothing where there is no such
/// part.
pub fn words_of<'a>(case: &'a str, part: &str) -> &'a str {
    for line in case.lines() {
        if let Some((name, rest)) = line.split_once(' ') {
            if name == part {
                return rest.trim();
            }
        }
    }
    ""
}

/// The number that follows a part's name.
pub fn number_of(case: &str, part: &str) -> Option<u64> {
    words_of(case, part).parse::<u64>().ok()
}

/// Whether there is such a part.
pub fn has_part(case: &str, part: &str) -> bool {
    for line in case.lines() {
        if line == part {
            return true;
        }
    }
    false
}

// Whether a line is one of a part's below its name: it is indented or empty.
fn is_below(line: &str) -> bool {
    line.is_empty() || line.starts_with("    ")
}

// Whether a line begins with a part's name.
fn is_head(line: &str, part: &str) -> bool {
    match line.strip_prefix(part) {
        Some(rest) => rest.is_empty() || rest.starts_with(' '),
        None => false,
    }
}

// Appends a line below a part's name without the blanks before it, with a newline.
fn push_line(lines: &mut String, line: &str, handlers: &str) -> Option<()> {
    if line == "    %handlers" {
        return lines.push_str(handlers).ok();
    }
    lines
        .push_str(line.strip_prefix("    ").unwrap_or(""))
        .ok()?;
    lines.push('\n').ok()
}

/// The lines below a part's name, without the blanks before them, each with a newline. A line
/// `%handlers` stands for the text of the handlers.
pub fn lines_of(alloc: Global, case: &str, part: &str, handlers: &str) -> Option<String> {
    let mut lines = String::new(alloc);
    let mut is_inside = false;
    for line in case.lines() {
        if !is_below(line) {
            is_inside = is_head(line, part);
        } else if is_inside {
            push_line(&mut lines, line, handlers)?;
        }
    }
    Some(lines)
}

/// The bytes of a part, in hexadecimal.
pub fn bytes_of(alloc: Global, case: &str, part: &str) -> Option<Vec<u8>> {
    let lines = lines_of(alloc, case, part, "")?;
    let digits = lines.as_str().replace(alloc, "\n", "").ok()?;
    hex::decode(alloc, digits.as_str()).ok()
}

/// Whether the lines of a part are all of an output.
pub fn is_output(alloc: Global, case: &str, output: &[u8]) -> Option<bool> {
    let lines = lines_of(alloc, case, "output", "")?;
    Some(lines.as_bytes() == output)
}

/// Whether an output is what a case says of it, if it says that.
pub fn has_output(alloc: Global, case: &str, output: &[u8]) -> Option<bool> {
    if has_part(case, "written") {
        let written = bytes_of(alloc, case, "written")?;
        return Some(written.as_slice() == output);
    }
    if has_part(case, "output") {
        return is_output(alloc, case, output);
    }
    Some(true)
}

/// Whether the lines stand in a text, in their order.
pub fn has_lines(text: &str, lines: &str) -> bool {
    let mut wanted = lines.lines();
    let mut next = wanted.next();
    for line in text.lines() {
        if next == Some(line) {
            next = wanted.next();
        }
    }
    next.is_none()
}

/// Whether the first lines of a text begin with these lines, each with the one in its place.
pub fn has_starts(text: &str, starts: &str) -> bool {
    let mut lines = text.lines();
    for start in starts.lines() {
        let Some(line) = lines.next() else {
            return false;
        };
        if !line.starts_with(start) {
            return false;
        }
    }
    true
}
