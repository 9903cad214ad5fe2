//! Pending records: a literal that changed is kept as one line of JSON in a file beside its source, and read back from there.
//!
//! In the order in which data flows: `pending` (the record), `record` (its tree and its line), `saving` (the file), `snapshots`
//! and `lines` (what a line is read as), `batch` and `loading` (the records of the last run).
#![tactic(auto)]

pub mod batch;
pub mod laws;
mod lines;
mod loading;
pub mod pending;
mod record;
mod saving;
mod snapshots;

pub use batch::Batch;
pub use pending::PendingInlineSnapshot;
