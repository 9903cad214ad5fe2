//! What a scanner owes: the tokens of the texts that are printed, with literal blocks or without, and of those in free layouts,
//! for every plain tree.
//!
//! The laws are in `laws`. Their one induction goes over layouts: a tree together with all that the writer of its text chose. A
//! printed text is the layout of the tree's form, in which it is decided what is quoted and which keys stand before a colon; at
//! each piece of a layout's text one fetch is known.
#![tactic(auto)]

pub mod laws;
