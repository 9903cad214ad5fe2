//! Prints what whole runs over forms in memory come to: a row for each of their cases.
//! Each line of standard input is a case, a tab between each two columns, in which `\n`, `\r`, `\t`, `\0` and `\\` stand for these
//! characters. The first column says what is asked:
//!
//! - `run`: the words, how the outside behaves, the input, and the files before, each a path and its bytes. The store, the source and
//!   the sink fail where the second column says so. The answer is the exit status, what the status says and the lines that were
//!   written, of each run; how often the store failed; and how many files there are then, each with its path and its bytes.
//! - `each`: the same once for each call of the store, which goes wrong in the first run as `wrong` in the second column says: `failed`,
//!   `done` (it did what it was asked, and tells that it failed) or `memory`. Before each answer stands `call` with the number, and last
//!   stands the run of which no call goes wrong, with `whole` before it.
//! - `steady`: the same over forms that never fail, whose answer counts no faults.
//! - `ends`: the same as `steady`, without the paths and the bytes of the files.
//! - `long`: the words, and of how many line ends the input is. The answer ends with how many of them were not read.
//! - `request`: a document, and whether it is a request. Else the answer is why it is none: what is wrong with its text, its tree, a key
//!   (`unknown` has the place of its pair, counted from 0) or a redaction, whose place in the list comes first.
//! - `status`: the name of a status, the number of its document, and its path or its kind. The answer is its exit status and what it says.
//! - `conclude`: the same of a status that ends the program. The answer is the exit status, and what the sink of errors is told.
//! - `usage` and `usage_lines`: whether the usage text has this part, and whether it has at most so many lines.
//!
//! An input that begins with `bytes ` is the bytes of the numbers after it. A line that begins with `# ` is a heading, and is answered
//! by itself.
#![tactic(auto)]

mod answers;
mod cases;
mod each;
mod faulty;
mod long;
mod requests;
mod statuses;
mod steady;
mod usage;

use crate::each::each_line;
use crate::faulty::run_line;
use crate::long::long_line;
use crate::requests::request_line;
use crate::statuses::{conclude_line, status_line};
use crate::steady::{ends_line, steady_line};
use crate::usage::{usage_length_line, usage_line};
use rows::{answer_rows, first_column};
use snap_content::Text;
use std::alloc::Global;

/// The line that answers a case.
fn answer_case(alloc: Global, call: &str, columns: &str) -> Result<Text, anyhow::Error> {
    match call {
        "run" => run_line(alloc, columns),
        "each" => each_line(alloc, columns),
        "steady" => steady_line(alloc, columns),
        "ends" => ends_line(alloc, columns),
        "long" => long_line(alloc, columns),
        "request" => request_line(alloc, columns),
        "status" => status_line(alloc, columns),
        "conclude" => conclude_line(alloc, columns),
        "usage" => usage_line(alloc, columns),
        "usage_lines" => usage_length_line(alloc, columns),
        _ => Ok(Text::from_str(alloc, "! no such call")?),
    }
}

/// The line that answers a line.
fn answer(alloc: Global, line: &str) -> Result<Text, anyhow::Error> {
    let (call, columns) = first_column(line);
    answer_case(alloc, call, columns)
}

fn main(rt: HostRuntime) -> Result<(), anyhow::Error> {
    answer_rows(rt.alloc(), rt.stdin(), rt.stdout(), answer)
}
