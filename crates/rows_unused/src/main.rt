//! Prints which files whole runs over forms in memory name: a row for each of their cases.
//! Each line of standard input is a case, a tab between each two columns, in which `\n`, `\r`, `\t`, `\0` and `\\` stand for these
//! characters: `unused`, the workspace, how the outside behaves, the requests, and the files, of each its path and its bytes. The answer is
//! the exit status and what was written.
//!
//! The requests are those of an input, or, where they begin with `of `, those of the words after it, each a module and a name with two
//! underscores between them. A line that begins with `# ` is a heading, and is answered by itself.
#![tactic(auto)]

mod cases;
mod runs;

use crate::runs::unused_line;
use rows::{answer_rows, first_column};
use snap_content::Text;
use std::alloc::Global;

/// The line that answers a line.
fn answer(alloc: Global, line: &str) -> Result<Text, anyhow::Error> {
    let (call, columns) = first_column(line);
    match call {
        "unused" => unused_line(alloc, columns),
        _ => Ok(Text::from_str(alloc, "! no such call")?),
    }
}

fn main(rt: HostRuntime) -> Result<(), anyhow::Error> {
    answer_rows(rt.alloc(), rt.stdin(), rt.stdout(), answer)
}
