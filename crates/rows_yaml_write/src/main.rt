//! Answers rows on what is written of values and trees: how scalars are typed, what the emitter writes, the public calls that print
//! and read trees, and trees as JSON.
//!
//! A line is a heading, `# ` and a text, which is answered by itself; or columns with a tab between each two, the first the name of a
//! table. In a text `\n`, `\r`, `\0`, `\t` and `\\` stand for these characters. A value or a tree takes all columns from the one where it
//! begins, as `rows` reads them. A case that has no answer is answered by `! ` and why.
//!
//! - `typing`, a question and what it asks of. `plain TEXT` is the value of a plain scalar, and `tagged HANDLE SUFFIX TEXT` that of one
//!   after a tag. `readers VALUE` has the name of each reader that gives something, and what it gives: a list that is borrowed as how
//!   long it is. `get KEY VALUE` and `get_at INDEX VALUE` are what is found there. `items VALUE` are the items of the value, and what
//!   stands after them: `end`. `list INDEX VALUE` tells of a list that was filled anew whether it is empty, how long it is, and what
//!   stands at the index. `copy VALUE` tells whether a copy is equal, and what the copy is. `order VALUE` has a word for each item of an
//!   array, and in it a sign for each item: how the first compares with the second.
//! - `dump VALUE`: the dump of the value, and nothing where the columns are none. `dump CALL ..`: what a call of the emitter gives.
//!   `document VALUE` is a document of the value, `documents VALUE` one of each item of an array, one after the other, and `dumps VALUE`
//!   what one emitter adds to the text `before` and a line's end when it dumps each item. `length VALUE` is how long a scalar is
//!   written. `printed TREE` is the document of a tree, and `lines TREE` its lines alone. With literal blocks: `inside VALUE`,
//!   `end VALUE` and `last VALUE` are a document that stands there, `literal VALUE` is the dump of a value, `switched VALUE` what one
//!   emitter adds that is switched after each item, with blocks for the second one; and `literal printed TREE` and
//!   `literal lines TREE` are as above. `out of memory` is the name of that error.
//! - `emit CALL ..`: what a public call gives. `tree TREE` is what is printed of a tree. `read TEXT` is what is printed of the tree that
//!   the text is read as, or `!`, why it is refused, and the path of the refusal. `header TEXT` has the text of a header, and is
//!   answered like `read`, after whether a number in it is kept as its text. `quotes TEXT` tells whether a text needs quotes.
//!   `literal tree` and `literal read` are `tree` and `read`, printed with literal blocks.
//! - `json TREE`: three lines, the condensed, the compact and the pretty text, and `! JsonKey` in place of one where the tree has a key
//!   that JSON refuses. Columns that are no tree are answered by an empty line.
//!
//! The gate compares the answers with what is wanted: by the original, insta 1.49.0, and by worked rows where it leaves something open.
//! `compare/dump`, `compare/json`, `compare/layouts` and `compare/blocks` hold them against the original's code.
#![tactic(auto)]

mod asked;
mod calls;
mod dumps;
mod emits;
mod error;
mod headers;
mod json;
mod lists;
mod prints;
mod readers;
mod refusals;
mod words;

use crate::asked::question_line;
use crate::dumps::dump_row;
use crate::emits::emit_row;
use crate::json::json_lines;
use rows::{answer_rows, first_column};
use snap_content::Text;
use std::alloc::Global;

/// The lines that answer a line.
fn answer(alloc: Global, line: &str) -> Result<Text, anyhow::Error> {
    let (table, columns) = first_column(line);
    match table {
        "typing" => question_line(alloc, columns),
        "dump" => dump_row(alloc, columns),
        "emit" => Ok(emit_row(alloc, columns)?),
        "json" => Ok(json_lines(alloc, columns)?),
        _ => Ok(Text::from_ascii(alloc, "! no such table")?),
    }
}

fn main(rt: HostRuntime) -> Result<(), anyhow::Error> {
    answer_rows(rt.alloc(), rt.stdin(), rt.stdout(), answer)
}
