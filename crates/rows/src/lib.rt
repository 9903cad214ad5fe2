//! Texts, trees and values of YAML on lines, for the programs that are held, row by row, against what is wanted.
//! On a line `\n`, `\r`, `\t`, `\0` and `\\` stand for these characters.
//!
//! `lines` and `columns` (texts), `answers` (an answer for each row of the input), `trees`, with `scalars` and `held`, and `written`
//! (trees, by words), `tree_columns` (a tree in one column), `values` (values of YAML), `laws`.
#![tactic(auto)]

pub mod answers;
pub mod columns;
pub mod error;
mod held;
pub mod laws;
pub mod lines;
mod scalars;
pub mod tree_columns;
pub mod trees;
pub mod values;
pub mod written;

pub use answers::answer_rows;
pub use columns::{add_file, add_number_column, add_text_column, first_column};
pub use error::LineError;
pub use lines::{add_escaped, text_of};
pub use tree_columns::{add_column, tree_of_column};
pub use trees::tree_of_line;
pub use values::value_of_line;
pub use written::add_tree;
