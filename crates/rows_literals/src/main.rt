//! Prints what assertions of literals, and of texts and payloads beside them, come to, over a store in memory.
//!
//! Each line of standard input is a case, a tab between each two columns, in which `\n`, `\r`, `\t`, `\0` and `\\` stand for these
//! characters. The first column is the mode, `new`, `inplace` or `no`, and after blanks the flags `force` and `full`. The others are done
//! in one session over one store, as `steps` says. The answer is what each came to, and then the text of the file of records.
//!
//! A line that begins with `# ` is a heading, and is answered by itself.
#![tactic(auto)]

mod answers;
mod files;
mod steps;

use crate::steps::steps_line;
use rows::{answer_rows, first_column};
use snap_assert::{Config, Update};
use snap_content::{OutOfMemory, Text};
use std::alloc::Global;

fn mode_of(word: &str) -> Update {
    match word {
        "inplace" => Update::InPlace,
        "new" => Update::NewFile,
        _ => Update::NoUpdate,
    }
}

/// The configuration of a run `r1` that a column says.
fn config_of(alloc: Global, column: &str) -> Result<Config, OutOfMemory> {
    let (mode, flags) = column.split_once(' ').unwrap_or((column, ""));
    let run_id = Text::from_ascii(alloc, "r1")?;
    Ok(Config {
        update: mode_of(mode),
        force_update: flags.contains("force"),
        require_full_match: flags.contains("full"),
        force_pass: false,
        literal: false,
        run_id,
    })
}

/// The line that answers a line.
fn answer(alloc: Global, line: &str) -> Result<Text, anyhow::Error> {
    let (column, steps) = first_column(line);
    let config = config_of(alloc, column)?;
    steps_line(alloc, &config, steps)
}

fn main(rt: HostRuntime) -> Result<(), anyhow::Error> {
    answer_rows(rt.alloc(), rt.stdin(), rt.stdout(), answer)
}
