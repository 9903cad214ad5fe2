//! Prints what whole runs of the redacting filter over forms in memory come to: a row for each of their cases.
//! Each line of standard input is a case, a tab between each two columns, in which `\n`, `\r`, `\t`, `\0` and `\\` stand for these
//! characters. The first column says what is asked:
//!
//! - `mask`: the words, how the outside behaves, and the input. The answer is the exit status, what the status says, what was written,
//!   and how often the source and the sink failed.
//! - `built`: the same of an input that is built of texts, each with how often it stands there. The answer ends with how many bytes
//!   were written.
//! - `status`: the name of a status and the number of its line. The answer is its exit status and what it says.
//!
//! An input that begins with `bytes ` is the bytes of the numbers after it. A line that begins with `# ` is a heading, and is answered
//! by itself.
#![tactic(auto)]

mod built;
mod runs;
mod statuses;

use crate::runs::{built_line, mask_line};
use crate::statuses::status_line;
use rows::{answer_rows, first_column};
use snap_content::Text;
use std::alloc::Global;

/// The line that answers a line.
fn answer(alloc: Global, line: &str) -> Result<Text, anyhow::Error> {
    let (call, columns) = first_column(line);
    match call {
        "mask" => mask_line(alloc, columns),
        "built" => built_line(alloc, columns),
        "status" => status_line(alloc, columns),
        _ => Ok(Text::from_str(alloc, "! no such call")?),
    }
}

fn main(rt: HostRuntime) -> Result<(), anyhow::Error> {
    answer_rows(rt.alloc(), rt.stdin(), rt.stdout(), answer)
}
