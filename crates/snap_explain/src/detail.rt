//! What helps to mend a snapshot that gives no pass.
use crate::line_ends::are_alike_lines;
use crate::position::place_behind;
use crate::refusal::ReasonWords;
use snap_content::characters::begins_with;
use snap_content::{OutOfMemory, Text};
use snap_emit::{Refusal, read_text};
use snap_run_requests::Reason;
use snap_scan_tokens::ScanError;
use snap_store::SnapshotContents;
use snap_store::split::split_file;
use snap_str::lines::next_ended_line;
use snap_text::TextSnapshotContents;
use snap_text::normal::is_fence;
use std::alloc::Global;
use std::str;

/// The first line, counted from 1, in which two texts differ.
fn first_unlike_line(old: &str, new: &str) -> u64 {
    let mut line: u64 = 1;
    for (was, is) in old.chars().zip(new.chars()) {
        if was != is {
            break;
        }
        if is == '\n' {
            line = line.saturating_add(1);
        }
    }
    line
}

/// Where two texts differ, by their normal forms: the first line that does, and whether they are the same but for white space at the
/// ends of their lines.
#[derive(Clone, Copy, Debug)]
pub(crate) struct Difference {
    pub line: u64,
    pub by_line_ends: bool,
}

/// Where two texts differ.
pub(crate) fn difference_of(
    alloc: Global,
    old: &TextSnapshotContents,
    new: &TextSnapshotContents,
) -> Result<Difference, OutOfMemory> {
    let old = old.normal(alloc)?;
    let new = new.normal(alloc)?;
    Ok(Difference {
        line: first_unlike_line(old.as_str(), new.as_str()),
        by_line_ends: are_alike_lines(old.as_str(), new.as_str()),
    })
}

/// Where a body differs from the one that came, and whether a tool that drops the white space at the ends of lines may have done it.
pub(crate) fn body_detail(
    alloc: Global,
    old: &TextSnapshotContents,
    new: &SnapshotContents,
) -> Result<Text, OutOfMemory> {
    let Some(new) = new.as_text() else {
        return Ok(Text::empty());
    };
    let difference = difference_of(alloc, old, new)?;
    let detail = format!(in alloc; " in line {} of its body", difference.line)?;
    let mut text = Text::from_str(alloc, detail.as_str())?;
    if difference.by_line_ends {
        text.push_ascii(
            alloc,
            "; but for white space at the ends of lines it agrees",
        )?;
    }
    Ok(text)
}

/// The first line, counted from 1, that begins as a mark of a merge does.
fn merge_mark(text: &str) -> Option<u64> {
    let mut number: u64 = 0;
    for line in text.lines() {
        number = number.saturating_add(1);
        if line.starts_with("<<<<<<< ") {
            return Some(number);
        }
    }
    None
}

/// How many characters stand before what a refusal speaks of, where it tells.
fn before_of(refusal: &Refusal) -> Option<usize> {
    match refusal {
        Refusal::NoYaml(ScanError::Syntax(mark, _)) => Some(mark.index()),
        _ => None,
    }
}

/// Why a header, which begins with the first line of its file, is refused, and where.
fn refusal_detail(alloc: Global, header: &str, refusal: Refusal) -> Result<Text, OutOfMemory> {
    let before = before_of(&refusal);
    let why = Reason::NoTree(refusal);
    let words = ReasonWords { why: &why };
    let detail = match before {
        Some(before) => format!(in alloc; " at {}: {words}", place_behind(header, 1, before))?,
        None => format!(in alloc; ": {words}")?,
    };
    Text::from_str(alloc, detail.as_str())
}

/// What is wrong with the header of a file that is refused for it.
fn header_fault(alloc: Global, text: &str) -> Result<Text, OutOfMemory> {
    match split_file(alloc, text)? {
        None => Ok(Text::empty()),
        Some(headed) => match read_text(alloc, headed.header.as_str())? {
            Ok(tree) => {
                drop(tree);
                Ok(Text::empty())
            }
            Err(refusal) => refusal_detail(alloc, headed.header.as_str(), refusal),
        },
    }
}

/// Whether a file begins with a header that no second `---` ends.
fn is_unclosed(text: &str) -> bool {
    let Some((first, others)) = next_ended_line(text) else {
        return false;
    };
    if !is_fence(first) {
        return false;
    }
    let mut rest = others;
    while let Some((line, more)) = next_ended_line(rest) {
        if is_fence(line) {
            return false;
        }
        rest = more;
    }
    true
}

/// What a file begins with that hides its body: a header without an end, or a byte order mark before it.
fn begin_words(text: &str) -> &'static str {
    if begins_with(text, '\u{feff}') {
        "; a byte order mark stands before its first ---"
    } else if is_unclosed(text) {
        "; no second line --- ends its header"
    } else {
        ""
    }
}

/// The same of bytes, as a text of its own.
pub(crate) fn begin_detail(alloc: Global, file: &[u8]) -> Result<Text, OutOfMemory> {
    match str::from_utf8(file) {
        Ok(text) => Text::from_str(alloc, begin_words(text)),
        Err(_) => Ok(Text::empty()),
    }
}

/// What is wrong with a file whose header is no YAML: the marks of a merge in it, or why the header is read as no tree.
fn merge_or_fault(alloc: Global, text: &str) -> Result<Text, OutOfMemory> {
    match merge_mark(text) {
        None => header_fault(alloc, text),
        Some(line) => {
            let detail = format!(in alloc; ", the marks of a merge from line {line} on")?;
            Text::from_str(alloc, detail.as_str())
        }
    }
}

/// What is wrong with a file whose header is no YAML, and whether nothing ends it.
pub(crate) fn header_detail(alloc: Global, file: &[u8]) -> Result<Text, OutOfMemory> {
    let Ok(text) = str::from_utf8(file) else {
        return Ok(Text::empty());
    };
    let mut detail = merge_or_fault(alloc, text)?;
    detail.push_str(alloc, begin_words(text))?;
    Ok(detail)
}
