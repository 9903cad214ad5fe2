//! Sets of paths.
ghost use Rattle.std.specs.Prelude.{◌≡◌, ◌||◌, ℕ, List, OnOk};
ghost use Rattle.std.specs.Str.{bytes_eq};
ghost use Rattle.snap_assert.specs.Removed.{is_among};

use snap_content::{OutOfMemory, Text};
use std::collections::BTreeSet;

/// Whether the path is one of them.
pub(crate) fn holds(paths: &BTreeSet<Text>, path: &Text) -> bool
    ensures { result ≡ is_among paths.now.keys path.now }
{
    paths.contains(path)
}

/// Adds the path.
pub(crate) fn add(paths: &mut BTreeSet<Text>, path: Text) -> Result<(), OutOfMemory>
    ensures { OnOk result ((q : List ℕ) → is_among paths.new.keys q
        ≡ (bytes_eq path q || is_among paths.old.keys q)) }
{
    paths.insert(path)?;
    Ok(())
}
