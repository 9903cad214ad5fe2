//! Tests of `snap_assert` that rows can't say: a block of duplicates round a closure, and a comparator of the caller's own.
//! They stand apart, since a crate with tests is proved twice.
#![tactic(auto)]

#[cfg(test)]
mod blocks;
#[cfg(test)]
mod comparators;
