//! Lines out of a source that gives its bytes in pieces: one line and the bytes of one read are held, whatever the input's length.
#![tactic(auto)]

pub mod lines;

pub use lines::{Held, LineEnd, LineError, MAX_INPUT, MAX_LINE};
