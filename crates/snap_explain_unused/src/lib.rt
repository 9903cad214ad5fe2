//! Which snapshots no request of a stream asks for. It reads only, and writes nothing but their paths.
//!
//! In the order in which data flows: `path_set` (sets of paths), `asking` (what the requests of a stream ask for), `ending` (which
//! snapshot a file is of), `looking` (the unused files of the folders that requests touch), `path_lines` (their paths, a line each),
//! `status` (how a run ended), `naming` (the run).
#![tactic(auto)]

mod asking;
mod ending;
mod looking;
pub mod naming;
mod path_lines;
mod path_set;
pub mod status;

pub use naming::name_unused;
pub use status::UnusedStatus;
