//! The emitter: a value is printed in one walk into one text that is lent, with literal blocks where they are asked for.
//! Its `specs/` say what is printed of a value, as a shape: a scalar as it is spelled, a text, a list, or a dict.
//!
//! In the order in which data flows: `node` (what is seen of a value or a tree), `written` (how long a
//! scalar is), `scalars`, `blanks`, `blocks` (where a tree stands), `block` (a literal block) and `emit` (the walk),
//! `ending`, `emitter`, `documents` (whole documents), `printing` (trees), `laws`.
#![tactic(auto)]

pub mod blanks;
pub mod block;
pub mod blocks;
pub mod documents;
pub mod emit;
pub mod emitter;
pub mod ending;
pub mod laws;
pub mod node;
pub mod printing;
pub mod scalars;
pub mod written;

pub use blocks::Blocks;
pub use emitter::{EmitError, EmitResult, YamlEmitter};
pub use written::written_len;
