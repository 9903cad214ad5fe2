//! Tests of `snap_json` that rows can't say: several calls of one serializer.
//! They stand apart, since a crate with tests is proved twice.
#![tactic(auto)]

#[cfg(test)]
mod serializers;
