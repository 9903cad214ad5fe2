//! Where the snapshots of a demonstration stand.
ghost use Rattle.std.specs.Prelude.{◌≡◌, IfOk};
ghost use Rattle.snap_demo.specs.Paths.{demo_path};

use crate::texts::push_number;
use snap_content::{OutOfMemory, Text};
use std::alloc::Global;

/// The path of the snapshot of the request with this number, counted from 0: below the workspace `demo`, in the folder of snapshots
/// beside the request's source file.
pub fn demo_path(alloc: Global, index: u32) -> Result<Text, OutOfMemory>
    ensures { IfOk result (λ path. path ≡ demo_path index) }
{
    let mut path = Text::from_ascii(alloc, "demo/src/d")?;
    push_number(&mut path, alloc, u128::from(index / 100))?;
    path.push_ascii(alloc, "/snapshots/demo__r")?;
    push_number(&mut path, alloc, u128::from(index))?;
    path.push_ascii(alloc, ".snap")?;
    Ok(path)
}
