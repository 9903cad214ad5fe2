//! Tests of `snap_explain_scalars` through its public calls.
//! They stand apart, since a crate with tests is proved twice.
#![tactic(auto)]

#[cfg(test)]
mod documents;
#[cfg(test)]
mod scalars;
