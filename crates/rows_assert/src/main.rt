//! Prints what single assertions come to, over stores in memory: a row for each of their cases.
//! Each line of standard input is a case, a tab between each two columns, in which `\n`, `\r`, `\t`, `\0` and `\\` stand for these
//! characters. The first column says what is asked:
//!
//! - `place`: a source file, and whether an assertion may stand in it.
//! - `path`: a function, and the path of the snapshot that an assertion in it has under a given name.
//! - `judged`: a stored file, and the verdict on the tree `a: 1` with its warnings.
//! - `judged_text`: `blocks` or `quotes`, a text and a stored file. The answer is the verdict on the tree `a` to that text, printed
//!   with literal blocks or without.
//! - `full`: a description, an info and a stored file, `-` where nothing is set. The answer is as for `judged`, where a full match is
//!   required.
//! - `text`: a mode with flags, a stored file, a name and a text, `-` for no file and for the name of the function. The answer is the verdict on
//!   the text with its warnings, the path of its snapshot, the file there, and the pending one.
//! - `new_settings`: what new settings say.
//! - `settings`: what is done with new settings, a column each, as `settings` says. The answer is what became of each, and the file
//!   that is saved of the tree `id: 42` with those settings.
//! - `function`, `depth` and `object`: a selector, and for the last one a number. What stands there is put by a stored function as `[id]`, by one
//!   that counts the steps to it, or by an object that holds the number. The answer is as for `settings`.
//! - `list`: a selector and a text, and what the list of this one redaction makes of 42.
//! - `session`: several assertions in one session, a column each, as `sessions` says, and what each comes to: the path of its snapshot, or why there is
//!   none.
//! - `counted`: a module, a name and how often it was used, and then as for `session`.
//! - `error`: the name of an error and its texts, and what is written of it.
//!
//! A line that begins with `# ` is a heading, and is answered by itself.
#![tactic(auto)]

mod asserted;
mod columns;
mod errors;
mod full;
mod judged;
mod lists;
mod news;
mod places;
mod sessions;
mod settings;
mod stored;
mod texts;

use crate::errors::error_line;
use crate::full::full_line;
use crate::judged::{judged_line, judged_text_line};
use crate::lists::list_line;
use crate::news::new_settings_line;
use crate::places::{path_line, place_line};
use crate::sessions::{counted_line, session_line};
use crate::settings::settings_line;
use crate::stored::{depth_line, function_line, object_line};
use crate::texts::text_line;
use rows::{answer_rows, first_column};
use snap_content::Text;
use std::alloc::Global;

/// The line that answers a case.
fn answer_case(alloc: Global, call: &str, columns: &str) -> Result<Text, anyhow::Error> {
    match call {
        "place" => place_line(alloc, columns),
        "path" => path_line(alloc, columns),
        "judged" => judged_line(alloc, columns),
        "judged_text" => judged_text_line(alloc, columns),
        "full" => full_line(alloc, columns),
        "text" => text_line(alloc, columns),
        "new_settings" => new_settings_line(alloc),
        "settings" => settings_line(alloc, columns),
        "function" => function_line(alloc, columns),
        "depth" => depth_line(alloc, columns),
        "object" => object_line(alloc, columns),
        "list" => list_line(alloc, columns),
        "session" => session_line(alloc, columns),
        "counted" => counted_line(alloc, columns),
        "error" => error_line(alloc, columns),
        _ => Ok(Text::from_str(alloc, "! no such call")?),
    }
}

/// The line that answers a line.
fn answer(alloc: Global, line: &str) -> Result<Text, anyhow::Error> {
    let (call, columns) = first_column(line);
    answer_case(alloc, call, columns)
}

fn main(rt: HostRuntime) -> Result<(), anyhow::Error> {
    answer_rows(rt.alloc(), rt.stdin(), rt.stdout(), answer)
}
