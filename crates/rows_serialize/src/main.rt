//! Prints values as texts, a row for each case.
//! Each line of standard input is a case, a tab between each two columns. A tree stands in one column, as `rows` reads it; the first
//! column says what is asked:
//!
//! - `content FORMAT TREE`: the text of the tree.
//! - `value FORMAT TREE`: the same of a value that means the tree.
//! - `redacted FORMAT TREE SELECTOR TEXT`: the same, where the text is put first at what the selector hits.
//!
//! The format is `Yaml`, `Json` or `JsonCompact`. A line that begins with `# ` is a heading, and is answered by itself.
#![tactic(auto)]

mod serialized;

use crate::serialized::{content_line, redacted_line, value_line};
use rows::{answer_rows, first_column};
use snap_content::Text;
use std::alloc::Global;

/// The line that answers a line.
fn answer(alloc: Global, line: &str) -> Result<Text, anyhow::Error> {
    let (call, columns) = first_column(line);
    match call {
        "content" => content_line(alloc, columns),
        "value" => value_line(alloc, columns),
        "redacted" => redacted_line(alloc, columns),
        _ => Ok(Text::from_str(alloc, "! no such call")?),
    }
}

fn main(rt: HostRuntime) -> Result<(), anyhow::Error> {
    answer_rows(rt.alloc(), rt.stdin(), rt.stdout(), answer)
}
