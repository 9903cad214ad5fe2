//! The outside as the product sees it: a source of bytes, a sink of bytes and a store of files,
//! each with a count of its faults and, where it can tell, with what it holds.
//! Beside the traits stand the forms in memory, and the adapters over real streams and folders.
//!
//! In the order in which data flows: `outside` (the traits), `names`, `files`, `pieces` and `schedule` (what the forms are made
//! of), `steady` and `memory` (forms that tell all, without and with faults), `listing`, and the real ones: `call` and `record`
//! (what was asked of the system), `answers` and `opening` (how answers are told, and files are opened), `disk` (the calls),
//! `beside`, `reading`, `replacing` and `folder_names` (what is done with them), `folder` and `stream`.
#![tactic(auto)]

mod answers;
mod beside;
mod call;
mod disk;
pub mod files;
pub mod folder;
mod folder_names;
mod listing;
pub mod memory;
pub mod names;
mod opening;
pub mod outside;
mod pieces;
mod reading;
mod record;
mod replacing;
pub mod schedule;
pub mod steady;
pub mod stream;

pub use files::MemoryFiles;
pub use folder::FolderStore;
pub use memory::{MemorySink, MemorySource, MemoryStore};
pub use names::Names;
pub use outside::{Fault, Sink, Source, Store, StoreError};
pub use steady::{SteadySink, SteadySource, SteadyStore};
pub use stream::{StreamSink, StreamSource};
