//! Selectors of places in a tree, and what stands there in place of a value.
//! Exactly the texts of the grammar are selectors; every other text is refused with the column of its first fault.
//! A redacted tree is as the tree was, but for what the selector hits.
//!
//! In the order in which data flows: `pieces` and `quotes` (blanks, names, numbers and keys at the front of a text), `reading`,
//! `deep`, `parts` and `stop` (segments and parts), `segment`, `part` and `selector` (what was read), `fault` (what was not),
//! `copies`, `path_item`, `step_ref` and `matching` (which paths are hit), `content_path` (paths as they are shown), `redaction`, `redactor`,
//! `fn_redactor`, `replacement` and `in_order` (what stands in place of a value), `put` and `redact` (the new tree), `laws`.
#![tactic(auto)]

pub mod content_path;
pub mod copies;
pub mod deep;
pub mod fault;
pub mod fn_redactor;
pub mod in_order;
pub mod laws;
pub mod matching;
pub mod part;
pub mod parts;
pub mod path_item;
pub mod pieces;
mod put;
pub mod quotes;
pub mod reading;
pub mod redact;
pub mod redaction;
pub mod redactor;
pub mod replacement;
pub mod segment;
pub mod selector;
mod step_ref;
pub mod stop;

pub use content_path::ContentPath;
pub use fault::{SelectError, SelectFault, SelectorParseError};
pub use fn_redactor::{Answers, FnRedactor, RedactFn};
pub use path_item::PathItem;
pub use redaction::Redaction;
pub use redactor::Redactor;
pub use replacement::Replacement;
pub use segment::Segment;
pub use selector::Selector;
pub use step_ref::is_same_text;
