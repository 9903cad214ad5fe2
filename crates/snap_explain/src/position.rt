//! Places in a stream, by line and column.
use std::fmt;

/// A place of a stream: a line, and a column where one is meant, both counted from 1, columns in characters.
#[derive(Clone, Copy, Debug, PartialEq, Eq)]
pub struct Place {
    pub line: u64,
    pub column: Option<u64>,
}

impl fmt::Display for Place {
    ghost use Rattle.std.specs.Prelude.{Some};
    ghost use Rattle.snap_explain.specs.Refusals.{place_text};

    ghost output = { λ place. Some (place_text place) };

    fn fmt<W: fmt::Write>(&self, f: &mut fmt::Formatter<W>) -> fmt::Result {
        match self.column {
            None => write!(f, "line {}", self.line),
            Some(column) => write!(f, "line {}, column {column}", self.line),
        }
    }
}

/// The place behind so many characters of a text whose first line is this one, or behind the text where it has fewer.
pub(crate) fn place_behind(text: &str, first: u64, before: usize) -> Place {
    let mut line = first;
    let mut column: u64 = 1;
    let mut ahead = before;
    for character in text.chars() {
        if ahead == 0 {
            break;
        }
        ahead -= 1;
        if character == '\n' {
            line = line.saturating_add(1);
            column = 1;
        } else {
            column = column.saturating_add(1);
        }
    }
    Place {
        line,
        column: Some(column),
    }
}

/// How many lines end in the bytes.
pub(crate) fn line_ends(bytes: &[u8]) -> u64 {
    let mut count: u64 = 0;
    for byte in bytes {
        if *byte == b'\n' {
            count = count.saturating_add(1);
        }
    }
    count
}
