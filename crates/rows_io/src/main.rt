//! Answers rows that tell what is done with stores, sources and sinks: those in memory, those over streams, and the store over real
//! files, in the folder in which the program runs.
//! Each line of standard input is a row: a call, and what it needs, in columns. A line that begins with `# ` is a heading, and is
//! answered by itself. The gate compares the answers with what is wanted.
//!
//! - `memory STEP..`, `steady STEP..` and `folder STEP..`: the answer of a store to each step, on one store; `stores`, `memory` and
//!   `folder` list the steps.
//! - `long_names FOLDER COUNT`: files with names of 255 digits, how many are written, and how many are listed.
//! - `told NAMES` and `told_often NAMES TIMES`: what is listed of a folder that tells these names, each ended by `;`.
//! - `memory_source HOW TEXT`, `steady_source HOW TEXT`, `reader HOW TEXT` and `stubborn_reader HOW`: what a source gives in each read.
//! - `memory_sink STEP..`, `steady_sink STEP..`, `writer STEP..`, `stubborn_writer STEP..` and `slow_writer STEP..`: what a sink takes
//!   in each write; of the first two also what is written then.
//! - `file PATH TEXT..`: what a sink over a file takes, and what a source over it gives after each write.
//! - `names NAMES NAMES`: how two lists of names compare.
//! - `error NAME`: how an error is told.
#![tactic(auto)]

mod columns;
mod folder;
mod memory;
mod names;
mod sinks;
mod sources;
mod stores;
mod streams;
mod told;

use crate::folder::{folder_line, long_names_line};
use crate::memory::{memory_line, steady_line};
use crate::names::{error_line, names_line};
use crate::sinks::{memory_sink_line, steady_sink_line};
use crate::sources::{memory_source_line, steady_source_line};
use crate::streams::{
    file_line, reader_line, slow_writer_line, stubborn_reader_line, stubborn_writer_line,
    writer_line,
};
use crate::told::{told_line, told_often_line};
use rows::{answer_rows, first_column};
use snap_content::{OutOfMemory, Text};
use std::alloc::Global;
use std::fs::Files;

/// The answer to a row that needs real files, or to one that does not.
fn answer_row<R: Files + Alloc>(
    files: &R,
    alloc: Global,
    call: &str,
    columns: &str,
) -> Result<Text, anyhow::Error> {
    match call {
        "folder" => Ok(folder_line(files, alloc, columns)?),
        "long_names" => Ok(long_names_line(files, alloc, columns)?),
        "file" => file_line(files, alloc, columns),
        _ => Ok(answer_of_memory(alloc, call, columns)?),
    }
}

fn answer_of_memory(alloc: Global, call: &str, columns: &str) -> Result<Text, OutOfMemory> {
    match call {
        "memory" => memory_line(alloc, columns),
        "steady" => steady_line(alloc, columns),
        "told" => told_line(alloc, columns),
        "told_often" => told_often_line(alloc, columns),
        "names" => names_line(alloc, columns),
        "error" => error_line(alloc, columns),
        _ => answer_of_streams(alloc, call, columns),
    }
}

fn answer_of_streams(alloc: Global, call: &str, columns: &str) -> Result<Text, OutOfMemory> {
    match call {
        "memory_source" => memory_source_line(alloc, columns),
        "steady_source" => steady_source_line(alloc, columns),
        "reader" => reader_line(alloc, columns),
        "stubborn_reader" => stubborn_reader_line(alloc, columns),
        "memory_sink" => memory_sink_line(alloc, columns),
        "steady_sink" => steady_sink_line(alloc, columns),
        "writer" => writer_line(alloc, columns),
        "stubborn_writer" => stubborn_writer_line(alloc, columns),
        "slow_writer" => slow_writer_line(alloc, columns),
        _ => Text::from_ascii(alloc, "! no such call"),
    }
}

/// The line that answers a line.
fn answer<R: Files + Alloc>(files: &R, alloc: Global, line: &str) -> Result<Text, anyhow::Error> {
    let (call, columns) = first_column(line);
    answer_row(files, alloc, call, columns)
}

fn main(rt: HostRuntime) -> Result<(), anyhow::Error> {
    answer_rows(rt.alloc(), rt.stdin(), rt.stdout(), |alloc, line| {
        answer(&rt, alloc, line)
    })
}
