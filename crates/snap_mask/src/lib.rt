//! Masks places in JSON lines: one line and one record are held, and each record is written before the next line is read.
//! What is written is exactly the masked records, however the input is cut into pieces: the clauses of `mask` say so.
//!
//! In the order in which data flows: `rules` (what the words ask for), `beginning` (what a JSON text may begin with), `record`
//! (a line to its record), `writing`, `masking` (the loop over the lines), `status` and `usage` (what is said of a run, and of
//! the program), `command` (the run that the arguments ask for), `laws` (what definitions promise by themselves).
#![tactic(auto)]

pub mod beginning;
pub mod command;
pub mod laws;
pub mod masking;
pub mod record;
pub mod rules;
pub mod status;
pub mod usage;
pub mod writing;

pub use command::program;
pub use masking::mask;
pub use status::MaskStatus;
