//! Snapshots and their files: a file falls into header and body, the header's fields are read as metadata,
//! and both make a snapshot; a snapshot is saved the other way round.
//! Files of the oldest format have no header; two fields stand in their first lines.
//!
//! In the order in which data flows: `split` (header and body), `metadata` and
//! `metadata_tree` (what the header tells, and metadata as a tree), `legacy` (what a file without a header tells), `contents`
//! (the body), `snapshot` and `reading` (all of it), `header` and `saving` (the way back), `sidecar` (where a payload stands), `named` (the calls of a store that
//! both make), `relative` (the source as it is seen from a folder), `laws`.
#![tactic(auto)]

pub mod contents;
pub mod header;
pub mod laws;
pub mod legacy;
pub mod metadata;
mod metadata_tree;
pub mod named;
mod reading;
pub mod relative;
mod saving;
mod sidecar;
pub mod snapshot;
pub mod split;

pub use contents::SnapshotContents;
pub use metadata::{MetaData, SnapshotKind};
pub use snap_io::{
    Fault, FolderStore, MemorySink, MemorySource, MemoryStore, Names, Sink, Source, SteadySink,
    SteadySource, SteadyStore, Store, StoreError, StreamSink, StreamSource,
};
pub use snap_path::{names_of_path, path_join, path_name, path_parent, path_relative_from};
pub use snapshot::Snapshot;
