//! What a demonstration promises over files of which none stands at its paths.
//!
//! The laws are in `laws`. They follow from what `snap_run` says of a demonstration: its two runs are the step of one request after the
//! other, and no step touches another's file.
#![tactic(auto)]

pub mod laws;
