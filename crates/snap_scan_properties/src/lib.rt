//! Readers of anchors, aliases, tags and directives.
//!
//! In the order in which data flows: `runs` (characters of one kind), `anchor`, `octets` (escapes in a tag), `tag`, `directive`.
#![tactic(auto)]

pub mod anchor;
pub mod directive;
pub mod octets;
pub mod runs;
pub mod tag;
