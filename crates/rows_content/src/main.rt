//! Answers rows that tell what is done with texts, bytes and trees of values.
//! A line is a heading, `# ` and a text, which is answered by itself; or columns with a tab between each two: a word that says what is
//! asked, and what it asks of. A tree stands in a column, as `rows` reads it, and is answered likewise.
//!
//! - `sort TREE`: the tree with its maps in the order of their keys, and what that is when it is sorted once more.
//! - `key TREE..`: what each tree is as a key, a column for each.
//! - `key_order TREE..` and `order TREE..`: a column for each tree, and in it a sign for each tree: how the first compares with the
//!   second, as keys and as trees. The sign is `!` where a comparison and `==` disagree.
//! - `copy TREE`: whether a copy is equal, and what the copy is.
//! - `held TREE`: how many bytes, items, pairs or fields the tree holds, whether a copy of these is equal, and what the copy is.
//! - `read TREE`: the text that is read of the tree, and how many items are.
//! - `inside TREE TREE`: the first tree, where the second one is written inside its wrappers.
//! - `walk TREE`: the tree after a walk that puts `None` in place of each text and goes into all but tuples, and how many nodes it visited.
//! - `value TYPE TEXT..`: the tree that is made of a value of that type.
//! - `text STEP..`: the text that the steps make, and how many characters a copy has. A step is the name of a call, and a text:
//!   none for `from_ascii`, which makes `d`, and for `push_ascii`, which adds `c`.
//! - `lent TEXT TEXT`: whether the first, once borrowed and once held, is equal to the second, which is borrowed; and its text.
//! - `error NAME PATH`: how an error is told.
//!
//! In a column `\n`, `\r`, `\0`, `\t` and `\\` stand for these characters. A case that has no answer is answered by `! ` and why.
//! The gate compares the answers with what is wanted, by the rules.
#![tactic(auto)]

mod asked;
mod columns;
mod error;
mod errors;
mod held;
mod keys;
mod orders;
mod texts;
mod trees;
mod values;
mod walks;

use crate::asked::answered;
use rows::{answer_rows, first_column};
use snap_content::Text;
use std::alloc::Global;

/// The line that answers a line.
fn answer(alloc: Global, line: &str) -> Result<Text, anyhow::Error> {
    let (name, columns) = first_column(line);
    answered(alloc, name, columns)
}

fn main(rt: HostRuntime) -> Result<(), anyhow::Error> {
    answer_rows(rt.alloc(), rt.stdin(), rt.stdout(), answer)
}
