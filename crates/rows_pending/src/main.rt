//! Answers rows on pending records and their file.
//!
//! A line is a heading, `# ` and a text, which is answered by itself; or columns with a tab between each two, the first the name of a
//! table. In a text `\n`, `\r`, `\0`, `\t` and `\\` stand for these characters. A case that has no answer is answered by `! ` and why.
//!
//! - `record`, a call and what it needs, as `calls` lists: how many faults the store has had then, how many files it has, and the text
//!   of the file.
//! - `batch TEXT`: what a file of this text is saved as once its batch was loaded; after `bytes ` come the numbers of bytes.
//!   `compare/pending` holds that against the original's code.
//! - `no_file`: the same where there is no file.
//!
//! The gate compares the answers with what is wanted: by the rules, and for files that the original wrote by what it makes of them.
#![tactic(auto)]

mod batches;
mod calls;
mod records;
mod steps;
mod stored;

use crate::batches::{batch_line, no_file_line};
use crate::calls::called;
use rows::{answer_rows, first_column};
use snap_content::{OutOfMemory, Text};
use std::alloc::Global;

/// The answer to the columns of a table.
fn table_line(alloc: Global, table: &str, columns: &str) -> Result<Text, OutOfMemory> {
    match table {
        "record" => called(alloc, columns),
        "batch" => batch_line(alloc, columns),
        "no_file" => no_file_line(alloc),
        _ => Text::from_ascii(alloc, "! no such table"),
    }
}

/// The line that answers a line.
fn answer(alloc: Global, line: &str) -> Result<Text, anyhow::Error> {
    let (table, columns) = first_column(line);
    Ok(table_line(alloc, table, columns)?)
}

fn main(rt: HostRuntime) -> Result<(), anyhow::Error> {
    answer_rows(rt.alloc(), rt.stdin(), rt.stdout(), answer)
}
