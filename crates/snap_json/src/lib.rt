//! Trees of values as JSON, in three layouts.
//!
//! A text is written in one pass, straight into where it is to stand. A map's key is written as a text; one that JSON has no text for
//! ends the writing, and what stands before it is kept.
//!
//! In the order in which data flows: `format` (the layouts) and `error`, `words` (the pieces that a text is made of), `strings` and
//! `numbers` (scalars), `layout` (what stands between values), `keys`, `walk` (whole trees), `serializer` and `print` (the public calls), `laws`.
#![tactic(auto)]

pub mod error;
pub mod format;
mod keys;
pub mod laws;
mod layout;
mod numbers;
pub mod print;
pub mod serializer;
mod strings;
mod walk;
mod words;

pub use error::JsonError;
pub use format::Format;
pub use print::{to_string, to_string_compact, to_string_pretty};
pub use serializer::Serializer;
