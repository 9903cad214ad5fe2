//! Prints what `front`, whole runs of the program over forms in memory, and commands on several documents come to: a row for each of
//! their cases.
//! Each line of standard input is a case, a tab between each two columns, in which `\n`, `\r`, `\t`, `\0` and `\\` stand for these
//! characters. The first column says what is asked:
//!
//! - `front`: the words, a bar between each two, and the document. The answer is the text that is answered, or the error.
//! - `program`: the words, how the outside behaves, and the input. The answer is the exit status, what the status says, what was
//!   written, and how often the source and the sink failed.
//! - `commands`: a command in each column, its words with a bar between each two: `put|NAME|TEXT`, `get|NAME|PATH`,
//!   `set|NAME|PATH|VALUE`, `remove|NAME|PATH` and `print|NAME`. The answer is the reply to each of them.
//!
//! An input that begins with `bytes ` is the bytes of the numbers after it. A line that begins with `# ` is a heading, and is answered
//! by itself.
#![tactic(auto)]

mod commands;
mod runs;

use crate::commands::commands_line;
use crate::runs::{front_line, program_line};
use rows::{answer_rows, first_column};
use snap_content::Text;
use std::alloc::Global;

/// The line that answers a line.
fn answer(alloc: Global, line: &str) -> Result<Text, anyhow::Error> {
    let (call, columns) = first_column(line);
    match call {
        "front" => front_line(alloc, columns),
        "program" => program_line(alloc, columns),
        "commands" => commands_line(alloc, columns),
        _ => Ok(Text::from_str(alloc, "! no such call")?),
    }
}

fn main(rt: HostRuntime) -> Result<(), anyhow::Error> {
    answer_rows(rt.alloc(), rt.stdin(), rt.stdout(), answer)
}
