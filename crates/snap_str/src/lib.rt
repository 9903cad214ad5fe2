//! Texts cut, seen by contracts as lists of characters.
//! The calls are std's, under std's names; what is added is their meaning in characters, where std speaks of bytes.
//!
//! `cut` (at a character, and at an end), `trim` (white space at the ends), `lines` (one line after the other).
#![tactic(auto)]

pub mod cut;
pub mod lines;
pub mod trim;
