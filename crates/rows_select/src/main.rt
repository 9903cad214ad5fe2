//! Prints what texts of selectors are read as, which paths they match, and what redactions make of trees, as lines.
//! A line is a heading, `# ` and a text, which is answered by itself; or columns with a tab between each two: the name of a table,
//! and what it asks of the others.
//!
//! - `selector parse TEXT` tells whether the text is a selector, or the names of its fault and its column; `selector match SELECTOR
//!   PATH` whether the selector matches the path, a column for each step, as `paths` reads them. `selector fronts SELECTOR PATH` has
//!   a sign for each front of the path, from the empty one to the whole, `+` where it is matched: of the selector, of a copy, and of
//!   one with a text of its own. `selector between FROM TO STEP` tells whether the step is an item between the bounds, of which each
//!   may be empty. `selector path PATH` is the text of the path, and that of a copy. `selector no memory` is the name of that error.
//! - `redaction LAYOUT TREE SELECTOR REPLACEMENT ..` is the tree once it is redacted, as `redacted` tells.
//!
//! In a column `\n`, `\r`, `\0`, `\t` and `\\` stand for these characters. A case that has no answer is answered by `! ` and why.
//! The gate runs it on selectors with each kind of segment, on texts that are refused, and on paths; on trees of every kind, on those
//! of the original's own tests of redactions, with whole numbers in place of floats, and on what callers' own redactions put. The
//! original matches and makes the same.
#![tactic(auto)]

mod asked;
mod error;
mod paths;
mod redacted;
mod redactions;
mod replacements;

use crate::asked::answered;
use crate::error::AskError;
use crate::redacted::redacted;
use rows::{answer_rows, first_column};
use snap_content::Text;
use std::alloc::Global;

fn selector_line(alloc: Global, columns: &str) -> Result<Text, anyhow::Error> {
    let (name, columns) = first_column(columns);
    answered(alloc, name, columns)
}

/// The line that answers a line.
fn answer(alloc: Global, line: &str) -> Result<Text, anyhow::Error> {
    let (table, columns) = first_column(line);
    match table {
        "selector" => selector_line(alloc, columns),
        "redaction" => redacted(alloc, columns),
        _ => Err(AskError::NoQuestion.into()),
    }
}

fn main(rt: HostRuntime) -> Result<(), anyhow::Error> {
    answer_rows(rt.alloc(), rt.stdin(), rt.stdout(), answer)
}
