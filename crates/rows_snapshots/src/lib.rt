//! Metadata, snapshots and trees on lines, for the programs whose rows tell what is done with them.
//! The columns of a line have a tab between each two; a text stands there as `rows` writes it.
#![tactic(auto)]

pub mod bytes;
pub mod fields;
pub mod snapshots;
pub mod trees;

pub use bytes::bytes_of;
pub use fields::metadata_of;
pub use snapshots::snapshot_of;
pub use trees::tree_of_word;
