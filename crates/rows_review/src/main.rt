//! Prints what reviews over a store in memory come to, why they would be refused, and sources with new literals: a row for each of their
//! cases.
//! Each line of standard input is a case, a tab between each two columns, in which `\n`, `\r`, `\t`, `\0` and `\\` stand for these
//! characters. The first column says what is asked:
//!
//! - `review`: the words, a bar between each two, which call of the store and of the sink fails, as `store=3 write=1`, and the files, each
//!   as its path and its bytes. The answer is the exit status, what the status says, what was written, how often the store failed, how
//!   many files there are then, and the bytes of each file of the case.
//! - `explain`: the same columns. The answer is the exit status of the run that tells why such a review would be refused, what was
//!   written, and how often the store failed.
//! - `patched`: the source, and what is asked for, each as `LINE|TEXT` or `LINE|TEXT|OLD`. The answer is the source with the new
//!   literals, or why there is none.
//!
//! Bytes after `bytes ` are those of the numbers after it. A line that begins with `# ` is a heading, and is answered by itself.
#![tactic(auto)]

mod cases;
mod explains;
mod patches;
mod runs;

use crate::explains::explain_line;
use crate::patches::patched_line;
use crate::runs::review_line;
use rows::{answer_rows, first_column};
use snap_content::Text;
use std::alloc::Global;

/// The line that answers a line.
fn answer(alloc: Global, line: &str) -> Result<Text, anyhow::Error> {
    let (call, columns) = first_column(line);
    match call {
        "review" => review_line(alloc, columns),
        "explain" => explain_line(alloc, columns),
        "patched" => Ok(patched_line(alloc, columns)?),
        _ => Ok(Text::from_str(alloc, "! no such call")?),
    }
}

fn main(rt: HostRuntime) -> Result<(), anyhow::Error> {
    answer_rows(rt.alloc(), rt.stdin(), rt.stdout(), answer)
}
