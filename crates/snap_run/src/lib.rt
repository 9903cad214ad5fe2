//! A run over a stream of requests, and what stands between it and the system's words, streams and exit status.
//! Until the first refusal, what a run leaves and says is that of one stated step for each request in turn:
//! the clauses of `run` say so.
//!
//! In the order in which data flows: `words` (the command line), `runner`, `documents`, `tally` and `document_error`
//! (each request in turn, what is counted of the answers, and why one stops the run), `previewing`
//! (what one would answer), `quiet` and `demo` (requests of the program's own, run twice without lines), `running` (all that the words ask for), `status` and `usage` (what is said of it, and
//! of the program), `command` (the run that the arguments ask for, what standard error is told, and the exit status), `laws`.
#![tactic(auto)]

pub mod command;
mod demo;
mod document_error;
mod documents;
pub mod laws;
pub mod previewing;
mod quiet;
pub mod runner;
pub mod running;
pub mod status;
pub mod tally;
pub mod usage;
mod words;

pub use command::program;
pub use previewing::preview_assertion;
pub use runner::Runner;
pub use running::run;
pub use status::{RefusalKind, Status};
