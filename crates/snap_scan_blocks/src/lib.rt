//! The reader of block scalars, literal and folded: a function from a place in a text to what stands there, and the place after it.
//!
//! In the order in which data flows: `header` (the line of `|` or `>`), `indentation` (empty lines, and where the others begin),
//! `lines` (the text of the lines as it is read), `block_scalar` (the whole).
#![tactic(auto)]

pub mod block_scalar;
mod header;
mod indentation;
mod lines;

pub use block_scalar::{BlockScalar, scan_block_scalar};
