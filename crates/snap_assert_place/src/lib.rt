//! Where an assertion stands, and the path of its snapshot.
//!
//! In the order in which data flows: `file_path` (which paths are those of a file), `place`, `front` (what stands after the
//! front of a text), `below` (paths below others), `paths` (the path of a snapshot), `metadata` (what its header tells), `laws`.
#![tactic(auto)]

mod below;
pub mod file_path;
pub mod front;
pub mod laws;
pub mod metadata;
pub mod names;
pub mod paths;
pub mod place;

pub use place::{BadPlace, Place};
