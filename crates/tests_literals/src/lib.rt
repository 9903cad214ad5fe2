//! Tests of `snap_text_literals` through its public calls.
//! They stand apart, since a crate with tests is proved twice.
#![tactic(auto)]

#[cfg(test)]
mod texts;
