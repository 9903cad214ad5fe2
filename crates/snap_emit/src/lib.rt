//! YAML texts of trees: printing, and reading of any text.
//! It hands on what the crates below print and read, with paths in its refusals, and the emitter of values,
//! and says in laws what holds of every printed text.
//!
//! In the order in which data flows: `whole` (texts of whole numbers), `made` (what a node is as a tree), `frame` (what is open),
//! `builder` (the tree of a document, from events), `refusal` (why a text is no tree), `loaded` (the document of a text as a tree),
//! `reading` (the tree of a text, or why there is none), `pieces` (numbers that stand in a text), `yaml` (the calls that every crate
//! above makes), `laws`.
#![tactic(auto)]

mod builder;
mod frame;
pub mod laws;
mod loaded;
mod made;
mod pieces;
pub mod reading;
pub mod refusal;
mod whole;
pub mod yaml;

pub use reading::{read_header, read_text};
pub use refusal::Refusal;
pub use snap_emit_values::scalars::push_spelled_text;
pub use snap_emit_values::{EmitError, EmitResult, YamlEmitter, written_len};
pub use snap_print::need_quotes;
pub use yaml::{Header, body_to_string, parse_header, parse_str, to_string};
