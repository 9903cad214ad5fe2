//! The requests of a demonstration: made of two numbers, always the same for the same two, for trying the program and for measuring it.
//!
//! In the order in which data flows: `words` (those of the command line that ask for one), `numbers` (each made of the one before), `texts` and `values` (the parts of a request), `requests` (one
//! request, and its document), `input` (the documents of all, one behind the other), `paths` (where their snapshots stand), `held`
//! (how many bytes the files at these paths have), `answers` (the lines that tell of a demonstration), `laws`.
#![tactic(auto)]

pub mod answers;
pub mod held;
pub mod input;
pub mod laws;
pub mod numbers;
pub mod paths;
mod requests;
mod texts;
mod values;
pub mod words;

pub use answers::demo_lines;
pub use held::{HeldError, bytes_held};
pub use input::demo_input;
pub use paths::demo_path;
pub use words::{DemoWords, demo_words};
