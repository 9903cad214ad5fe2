//! Answers rows on what is made of texts of YAML: tokens, events, documents and trees.
//!
//! A line is a heading, `# ` and a text, which is answered by itself; or two columns with a tab between them, the name of a table and a
//! text, in which `\n`, `\r`, `\0`, `\t` and `\\` stand for these characters.
//!
//! - `scan`: the lines of `token_lines`, what the scanner makes of the text, and an empty one.
//! - `parse`: the lines of `event_lines`, what the parser makes of it, and an empty one.
//! - `load`: the lines of `document_lines`, the documents of the text, and an empty one.
//! - `read`: the line of `tree_line`, the tree that the text is read as.
//!
//! The gate compares the answers with those of the original, insta 1.49.0, on texts of its tests, on the smallest text of each refusal,
//! on keys and levels at their limits, on scalars of every type and on generated documents; and with worked rows of free layouts.
//! `compare/scan`, `compare/parse`, `compare/load`, `compare/read`, `compare/layouts` and `compare/blocks` hold them against the
//! original's code.
#![tactic(auto)]

mod documents;
mod events;
mod marks;
mod tokens;
mod trees;

use crate::documents::document_lines;
use crate::events::event_lines;
use crate::tokens::token_lines;
use crate::trees::tree_line;
use rows::{answer_rows, first_column, text_of};
use snap_content::{OutOfMemory, Text};
use std::alloc::Global;

/// What is made of a text, by the name of a table.
fn made_of(alloc: Global, table: &str, text: &str) -> Result<Text, OutOfMemory> {
    match table {
        "scan" => token_lines(alloc, text),
        "parse" => event_lines(alloc, text),
        "load" => document_lines(alloc, text),
        "read" => tree_line(alloc, text),
        _ => Text::from_ascii(alloc, "! no such table"),
    }
}

/// The lines that answer a line.
fn answer(alloc: Global, line: &str) -> Result<Text, anyhow::Error> {
    let (table, column) = first_column(line);
    let text = text_of(alloc, column)?;
    Ok(made_of(alloc, table, text.as_str())?)
}

fn main(rt: HostRuntime) -> Result<(), anyhow::Error> {
    answer_rows(rt.alloc(), rt.stdin(), rt.stdout(), answer)
}
