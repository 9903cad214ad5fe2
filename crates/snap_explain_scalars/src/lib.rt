//! Plain scalars that other readers of YAML take otherwise than ours: which they are, and the first one of a document.
//!
//! In the order in which data flows: `otherwise` (how such a scalar is taken, in words), `numbers` (numbers and dates), `words`
//! (truths, nulls and signs), `elsewhere` (how other readers take a scalar), `parts` (a look at a document's characters alone),
//! `finding` (the first one, found by the parser).
#![tactic(auto)]

pub mod elsewhere;
pub mod finding;
mod numbers;
pub mod otherwise;
mod parts;
mod words;

pub use elsewhere::read_elsewhere;
pub use finding::{Found, first_otherwise};
pub use otherwise::Otherwise;
