//! Prints what whole runs of the program that says why over forms in memory come to: a row for each of their cases.
//! Each line of standard input is a case, a tab between each two columns, in which `\n`, `\r`, `\t`, `\0` and `\\` stand for these
//! characters: `explain`, the words, how the outside behaves, the input, and the files, of each its path and its bytes; where none stand there,
//! the snapshot `a__c.snap` of the requests of most rows. The answer is the exit status and what was written.
//!
//! An input that begins with `bytes ` is the bytes of the numbers after it. A line that begins with `# ` is a heading, and is answered
//! by itself.
#![tactic(auto)]

mod cases;
mod runs;

use crate::runs::explain_line;
use rows::{answer_rows, first_column};
use snap_content::Text;
use std::alloc::Global;

/// The line that answers a line.
fn answer(alloc: Global, line: &str) -> Result<Text, anyhow::Error> {
    let (call, columns) = first_column(line);
    match call {
        "explain" => explain_line(alloc, columns),
        _ => Ok(Text::from_str(alloc, "! no such call")?),
    }
}

fn main(rt: HostRuntime) -> Result<(), anyhow::Error> {
    answer_rows(rt.alloc(), rt.stdin(), rt.stdout(), answer)
}
