//! What a scanner owes of a JSON text: the tokens of its tree, where the tree is bounded.
//!
//! The laws are in `laws`. A JSON text is one line of flow: at each bracket, comma, colon and scalar one fetch is known, and a
//! value's fetches are those of its parts.
#![tactic(auto)]

pub mod laws;
