//! The known name that is nearest to one that isn't known.
use snap_content::{OutOfMemory, Text};
use snap_run_requests::Key;
use std::alloc::Global;
use strsim::levenshtein;

/// The first of the keys that takes the fewest edits.
pub(crate) fn nearest_key(
    alloc: Global,
    name: &str,
    keys: &[Key],
) -> Result<Option<Key>, OutOfMemory> {
    let mut nearest = None;
    let mut fewest = usize::MAX;
    for key in keys {
        let edits = levenshtein(alloc, name, key.name())?;
        if edits < fewest {
            fewest = edits;
            nearest = Some(*key);
        }
    }
    Ok(nearest)
}

/// Whether a file of this name may be a snapshot.
pub(crate) fn is_snapshot_name(name: &str) -> bool {
    name.ends_with(".snap")
}

/// The first of the snapshots among these names that takes the fewest edits, where fewer are enough than half of the bytes.
pub(crate) fn nearest_snapshot<'a>(
    alloc: Global,
    name: &str,
    names: &'a [Text],
) -> Result<Option<&'a Text>, OutOfMemory> {
    let mut nearest = None;
    let mut fewest = name.len() / 2;
    for other in names {
        let gap = other.as_str().len().abs_diff(name.len());
        if gap / 4 < fewest && is_snapshot_name(other.as_str()) {
            let edits = levenshtein(alloc, name, other.as_str())?;
            if edits < fewest {
                fewest = edits;
                nearest = Some(other);
            }
        }
    }
    Ok(nearest)
}
