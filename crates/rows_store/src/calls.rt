//! The calls, each with its columns; a snapshot stands in three.
//!
//! - `split TEXT`: the header and the body of a file.
//! - `legacy TEXT`: the metadata and the body of a file without a header.
//! - `read PATH TEXT`, `read_bytes PATH BYTES` and `missing PATH`: the snapshot of a file.
//! - `save PATH SNAPSHOT` and `save_new PATH SNAPSHOT`: the path that was written, how many files the store has then, and that file.
//! - `put PATH METADATA CONTENTS CALLS` and `put_new PATH METADATA CONTENTS CALLS`: how the saving ends where these calls of the store
//!   fail, how many files the store has then, the file, and the one beside it.
//! - `beside PATH TEXT SIDECAR CALLS`: the snapshot of a file, beside which another stands, where these calls fail.
//! - `back PATH METADATA CONTENTS` and `taken PATH METADATA CONTENTS`: what is read of a snapshot that was saved, and of one whose
//!   payload was taken away.
//! - `binary_path PATH METADATA`: where the payload stands.
//! - `tree PAIRS`, `wrapped PAIRS` and `other WORD`: the metadata of a map, of a map in a wrapper, and of another tree.
//! - `made PAIRS`: the tree that is made of the metadata of a map.
//! - `copy_metadata METADATA`, `copy_contents CONTENTS` and `copy_snapshot SNAPSHOT`: what a copy tells.
//! - `agree CONTENTS CONTENTS`: whether they agree.
//! - `relative_source BASE SOURCE`: the source as it is seen from the base; without the second column there is no source.
use crate::{copies, reading, relative, saving, sidecars, trees};
use rows::first_column;
use snap_content::{Error, OutOfMemory, Text};
use std::alloc::Global;

/// The answer to a row.
pub(crate) fn called(alloc: Global, row: &str) -> Result<Text, Error> {
    let (call, columns) = first_column(row);
    match call {
        "split" => Ok(reading::split_line(alloc, columns)?),
        "legacy" => Ok(reading::legacy_line(alloc, columns)?),
        "read" => reading::read_line(alloc, columns),
        "read_bytes" => reading::read_bytes_line(alloc, columns),
        "missing" => reading::missing_line(alloc, columns),
        _ => called_otherwise(alloc, call, columns),
    }
}

fn called_otherwise(alloc: Global, call: &str, columns: &str) -> Result<Text, Error> {
    match call {
        "save" => saving::save_line(alloc, columns),
        "save_new" => saving::save_new_line(alloc, columns),
        "put" => sidecars::put_line(alloc, columns),
        "put_new" => sidecars::put_new_line(alloc, columns),
        "beside" => sidecars::beside_line(alloc, columns),
        "back" => sidecars::back_line(alloc, columns),
        "taken" => sidecars::taken_line(alloc, columns),
        _ => told(alloc, call, columns),
    }
}

fn told(alloc: Global, call: &str, columns: &str) -> Result<Text, Error> {
    match call {
        "tree" => trees::tree_line(alloc, columns),
        "wrapped" => trees::wrapped_line(alloc, columns),
        "other" => trees::other_line(alloc, columns),
        "made" => trees::made_line(alloc, columns),
        _ => Ok(copied(alloc, call, columns)?),
    }
}

fn copied(alloc: Global, call: &str, columns: &str) -> Result<Text, OutOfMemory> {
    match call {
        "copy_metadata" => copies::metadata_line(alloc, columns),
        "copy_contents" => copies::contents_line(alloc, columns),
        "copy_snapshot" => copies::snapshot_line(alloc, columns),
        "agree" => copies::agree_line(alloc, columns),
        "binary_path" => sidecars::binary_path_line(alloc, columns),
        "relative_source" => relative::relative_source_line(alloc, columns),
        _ => Text::from_ascii(alloc, "no call"),
    }
}
