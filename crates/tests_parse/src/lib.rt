//! Tests of the parser and the loader through their public calls: `events` and `loading` of `snap_parse_events`, `readers` of
//! `snap_parse`, whose documents are told by the rows of `rows_yaml_read`. They stand apart, since a crate with tests is proved twice.
#![tactic(auto)]

#[cfg(test)]
mod events;
#[cfg(test)]
mod loading;
#[cfg(test)]
mod readers;
