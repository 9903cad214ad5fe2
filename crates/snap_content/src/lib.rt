//! Texts, bytes and trees of values: what every other crate speaks of.
//! Its `specs/` hold the plain definitions that the crates above cite: what a tree means, its plain form,
//! how a scalar is spelled and typed, and the lines and the text that a plain tree is printed as.
//!
//! In the order in which data flows: `memory` and `error` (what goes wrong), `text`, `characters`, `blob` and `lent`
//! (what a tree holds), `content` and `lists` (trees), `make` (trees of one value), `access` (looking into them),
//! `clone`, `order` and `comparisons` (copies and comparisons), `key` and `sorting` (maps in the order of their keys),
//! `walking` (walks over trees), `to_content` (what a tree can be made of), `laws`.
#![tactic(auto)]

pub mod access;
pub mod blob;
pub mod characters;
pub mod clone;
pub mod comparisons;
pub mod content;
pub mod error;
pub mod key;
pub mod laws;
pub mod lent;
pub mod lists;
pub mod make;
pub mod memory;
pub mod order;
pub mod sorting;
pub mod text;
pub mod to_content;
pub mod walking;

pub use blob::Blob;
pub use content::Content;
pub use error::Error;
pub use key::Key;
pub use lent::Lent;
pub use lists::{Fields, Items, List, Pairs};
pub use memory::OutOfMemory;
pub use text::Text;
pub use to_content::ToContent;
