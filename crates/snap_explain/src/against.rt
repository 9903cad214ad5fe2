//! Which earlier document stands against one that what is remembered refuses.
ghost use Rattle.std.specs.Prelude.{◌≡◌};
ghost use Rattle.snap_explain.specs.Asked.{seen_of};

use crate::detail::difference_of;
use crate::earlier::{Earlier, Taking};
use snap_assert::error::{AssertError, DuplicateKey};
use snap_content::{OutOfMemory, Text};
use snap_store::SnapshotContents;
use std::alloc::Global;

/// The words on the document that took the name.
fn taker_detail(alloc: Global, taker: Option<u64>) -> Result<Text, OutOfMemory> {
    match taker {
        None => Ok(Text::empty()),
        Some(number) => {
            let detail = format!(in alloc; "; document {number} took it")?;
            Text::from_str(alloc, detail.as_str())
        }
    }
}

/// The words on the document that put what a block keeps.
fn keeper_detail(alloc: Global, keeper: Option<u64>, line: u64) -> Result<Text, OutOfMemory> {
    match keeper {
        None => Ok(Text::empty()),
        Some(number) => {
            let detail = format!(in alloc; "; document {number} put it, and line {line} differs")?;
            Text::from_str(alloc, detail.as_str())
        }
    }
}

/// The document that put what is kept under the key.
fn keeper_of(earlier: &Earlier, key: DuplicateKey) -> Option<u64> {
    match key {
        DuplicateKey::Named(module_name, name) => {
            let key = (module_name, name);
            earlier.keeper(&key)
        }
        DuplicateKey::Inline(_, _, _) => None,
    }
}

/// The first line in which two contents differ.
fn line_of(
    alloc: Global,
    kept: &SnapshotContents,
    new: &SnapshotContents,
) -> Result<u64, OutOfMemory> {
    match (kept.as_text(), new.as_text()) {
        (Some(kept), Some(new)) => Ok(difference_of(alloc, kept, new)?.line),
        _ => Ok(1),
    }
}

/// Which document put what the innermost block keeps, and where that differs. The request had taken its name before.
fn kept_detail(
    alloc: Global,
    earlier: &Earlier,
    key: DuplicateKey,
    kept: SnapshotContents,
    new: SnapshotContents,
) -> Result<Text, OutOfMemory> {
    let line = line_of(alloc, &kept, &new);
    drop(kept);
    drop(new);
    let keeper = keeper_of(earlier, key);
    keeper_detail(alloc, keeper, line?)
}

/// Which earlier document stands against this one, in words.
pub(crate) fn against(
    alloc: Global,
    earlier: &mut Earlier,
    number: u64,
    taking: Taking,
    error: AssertError,
) -> Result<Text, OutOfMemory>
    ensures { seen_of earlier.new ≡ seen_of earlier.old }
{
    match error {
        AssertError::NameClash => taker_detail(alloc, earlier.taker(&taking)),
        AssertError::DuplicateDiffers { key, kept, new } => {
            let detail = kept_detail(alloc, earlier, key, kept, new);
            earlier.take(number, taking)?;
            detail
        }
        other => {
            drop(other);
            Ok(Text::empty())
        }
    }
}
