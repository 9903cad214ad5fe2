//! What helps where no snapshot is there: the names of its folder.
use crate::nearest::{is_snapshot_name, nearest_snapshot};
use snap_content::{OutOfMemory, Text};
use snap_emit::push_spelled_text;
use snap_path::path_name;
use std::alloc::Global;

/// Whether one of the names is that of the pending snapshot of this name.
fn has_pending(names: &[Text], name: &str) -> bool {
    for other in names {
        if let Some(front) = other.as_str().strip_suffix(".new") {
            if front == name {
                return true;
            }
        }
    }
    false
}

fn has_snapshot(names: &[Text]) -> bool {
    for name in names {
        if is_snapshot_name(name.as_str()) {
            return true;
        }
    }
    false
}

/// The words on the snapshot that is nearest to the name.
fn nearest_detail(alloc: Global, name: &str, names: &[Text]) -> Result<Text, OutOfMemory> {
    match nearest_snapshot(alloc, name, names)? {
        None => Ok(Text::empty()),
        Some(nearest) => {
            let mut detail = Text::from_ascii(alloc, "; the nearest there is ")?;
            push_spelled_text(&mut detail, alloc, nearest)?;
            Ok(detail)
        }
    }
}

/// What helps where no snapshot is at the path, by the names of its folder: that there is none at all, or which is the nearest. Where
/// a pending one waits nothing more is needed.
pub(crate) fn folder_detail(
    alloc: Global,
    path: &Text,
    names: &[Text],
) -> Result<Text, OutOfMemory> {
    let Some(name) = path_name(path) else {
        return Ok(Text::empty());
    };
    if has_pending(names, name) {
        return Ok(Text::empty());
    }
    if !has_snapshot(names) {
        return Text::from_ascii(alloc, "; its folder holds no snapshot");
    }
    nearest_detail(alloc, name, names)
}
