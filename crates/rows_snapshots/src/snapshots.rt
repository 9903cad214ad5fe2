//! A snapshot of a text in three columns: its name, `-` where it has none, its metadata and its text.
ghost use Rattle.std.specs.Prelude.{IfOk, IsSome};
ghost use Rattle.snap_store.specs.Views.{contents_in, text_in};

use crate::fields::metadata_of;
use rows::{first_column, text_of};
use snap_content::{OutOfMemory, Text};
use snap_store::{Snapshot, SnapshotContents};
use snap_text::{TextSnapshotContents, TextSnapshotKind};
use std::alloc::Global;

/// The snapshot of the first three columns, in a module, and the columns after them.
pub fn snapshot_of(
    alloc: Global,
    module: Text,
    kind: TextSnapshotKind,
    columns: &str,
) -> Result<(Snapshot, &str), OutOfMemory>
    ensures { IfOk result (λ found. IsSome (text_in (contents_in found.0))) }
{
    let (name, columns) = first_column(columns);
    let (fields, columns) = first_column(columns);
    let (text, columns) = first_column(columns);
    let name = name_of(alloc, name)?;
    let contents = contents_of(alloc, kind, text)?;
    let metadata = metadata_of(alloc, fields)?;
    let snapshot = Snapshot::from_components(module, name, metadata, contents);
    Ok((snapshot, columns))
}

fn name_of(alloc: Global, column: &str) -> Result<Option<Text>, OutOfMemory> {
    match column {
        "-" => Ok(None),
        _ => Ok(Some(text_of(alloc, column)?)),
    }
}

/// The text of a column, as contents.
fn contents_of(
    alloc: Global,
    kind: TextSnapshotKind,
    column: &str,
) -> Result<SnapshotContents, OutOfMemory>
    ensures { IfOk result (λ contents. IsSome (text_in contents)) }
{
    let text = TextSnapshotContents::new(text_of(alloc, column)?, kind);
    Ok(SnapshotContents::from_text(text))
}
