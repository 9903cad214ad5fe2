//! The documents of an input, and the request that a document spells.
//!
//! In the order in which data flows: `cut` (the documents of an input), `request` (what a document asks for), `key`, `pairs` and
//! `redaction_items` (what its pairs tell), `fault` (why a document is no request), `laws`.
#![tactic(auto)]

pub mod cut;
pub mod fault;
pub mod key;
pub mod laws;
mod pairs;
mod redaction_items;
pub mod request;

pub use fault::{KeyFault, Reason, RedactionFault, RequestError};
pub use key::Key;
pub use request::{Assertion, Request, read_request};
