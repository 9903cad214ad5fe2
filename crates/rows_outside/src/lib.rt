//! What lines say of a run over forms in memory, for the programs of rows of whole programs.
//!
//! `columns` (words, and bytes that are read or were written), `outside` (a source and a sink, of which a call may fail), `failing` (a
//! store, of which a call may go wrong).
#![tactic(auto)]

pub mod columns;
pub mod failing;
pub mod outside;

pub use columns::{add_bytes, input_of, words_of};
pub use failing::{FailingStore, Wrong, wrong_named};
pub use outside::{Outside, outside_of, sink_of, source_of};
