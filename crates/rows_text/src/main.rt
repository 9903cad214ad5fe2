//! Prints what is done with paths, with the texts of snapshots, and with literals, as lines.
//! A line is a heading, `# ` and a text, which is answered by itself; or columns with a tab between each two: the name of a table, a
//! word that says what is asked, and what it asks of.
//!
//! - `path name PATH`: the path's last component, if it has one.
//! - `path names PATH`: the name and the module that the path of a snapshot tells.
//! - `path parent PATH`: the path of the parent, and what comes before the names in a folder of that path.
//! - `path join BASE TAIL` and `path relative PATH BASE`: the joined path, and what the path is seen from the base.
//! - `text form KIND TEXT`: the normal form of a text, what is written of the text, and the text as it was given. The kind is `file`
//!   or `inline`.
//! - `text latest KIND TEXT KIND TEXT`, `text legacy ..` and `text fully ..`: whether two texts match so.
//! - `text literal TEXT`: the literal that an inline text is written as after four blanks, and whether contents that are read of it
//!   match the text.
//! - `text copy KIND TEXT`: whether a copy is equal, and the kind and the text of the copy.
//! - `literal CALL LITERAL LITERAL`: what a call of `snap_text_literals` returns for the texts that the literals are of. `compare/literals`
//!   compares these answers with those of the original crate's code.
//!
//! In a column `\n`, `\r`, `\0`, `\t` and `\\` stand for these characters. A case that has no answer is answered by `! ` and why.
//! The gate compares the answers with what is wanted, by the rules and by the original.
#![tactic(auto)]

mod contents;
mod forms;
mod literals;
mod paths;

use crate::contents::{copy_line, form_line, match_line};
use crate::literals::literal_line;
use crate::paths::path_line;
use rows::{answer_rows, first_column};
use snap_content::Text;
use std::alloc::Global;

/// What is asked of the texts of snapshots.
fn text_line(alloc: Global, columns: &str) -> Result<Text, anyhow::Error> {
    let (name, columns) = first_column(columns);
    match name {
        "form" => Ok(form_line(alloc, columns)?),
        "latest" | "legacy" | "fully" => Ok(match_line(alloc, name, columns)?),
        "literal" => literal_line(alloc, columns),
        "copy" => Ok(copy_line(alloc, columns)?),
        _ => Ok(Text::from_ascii(alloc, "! no such question")?),
    }
}

fn path_row(alloc: Global, columns: &str) -> Result<Text, anyhow::Error> {
    let (name, columns) = first_column(columns);
    Ok(path_line(alloc, name, columns)?)
}

/// The line that answers a line.
fn answer(alloc: Global, line: &str) -> Result<Text, anyhow::Error> {
    let (table, columns) = first_column(line);
    match table {
        "path" => path_row(alloc, columns),
        "text" => text_line(alloc, columns),
        "literal" => Ok(forms::answer(alloc, columns)?),
        _ => Ok(Text::from_ascii(alloc, "! no such table")?),
    }
}

fn main(rt: HostRuntime) -> Result<(), anyhow::Error> {
    answer_rows(rt.alloc(), rt.stdin(), rt.stdout(), answer)
}
