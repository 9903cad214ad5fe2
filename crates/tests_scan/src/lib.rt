//! Tests of the scanner and the crates below it through their public calls, beside the rows of `rows_yaml_read`, which hold its tokens
//! against the original's: `places` and `pieces` of `snap_scan_tokens`, `properties` and `property_faults` of `snap_scan_properties`,
//! `block_scalars` of `snap_scan_blocks`, `calls` of `snap_scan`. They stand apart, since a crate with tests is proved twice.
#![tactic(auto)]

#[cfg(test)]
mod block_scalars;
#[cfg(test)]
mod calls;
#[cfg(test)]
mod pieces;
#[cfg(test)]
mod places;
#[cfg(test)]
mod properties;
#[cfg(test)]
mod property_faults;
