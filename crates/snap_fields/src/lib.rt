//! The fields of a map. The last pair of a name counts, and keys and values are looked at inside their wrappers.
#![tactic(auto)]

pub mod fields;
