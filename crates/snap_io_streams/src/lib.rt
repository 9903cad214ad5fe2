//! Whole texts out of sources and into sinks.
#![tactic(auto)]

pub mod streams;

pub use streams::{ReadError, read_all, write_all};
