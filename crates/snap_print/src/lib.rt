//! How texts are spelled: a text stands in double quotes exactly where a reader would take the bare one for something else.
//! `specs/Blocks` and `specs/Lines` say which lines a tree is printed as, with literal blocks or without; `laws` and
//! `proofs/Typing` what every printed line and every word is known by.
//!
//! In the order in which data flows: `integers`, `floats` and `numbers` (what a reader takes for a number), `quotes` (when a text
//! needs them), `escaping` (how its characters stand between them), `laws`.
#![tactic(auto)]

pub mod escaping;
pub mod floats;
pub mod integers;
pub mod laws;
pub mod numbers;
pub mod quotes;

pub use quotes::need_quotes;
