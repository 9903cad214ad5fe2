//! Whether a path leaves the workspace.
ghost use Rattle.std.specs.Prelude.{◌≡◌, IfOk, codes};
ghost use Rattle.std.specs.Str.{bytes_eq, chars};
ghost use Rattle.snap_path.specs.Paths.{components};
ghost use Rattle.snap_explain.specs.Outside.{is_outside, leaves_from, rises};

use snap_content::characters::{begins_with, is_same};
use snap_content::{OutOfMemory, Text};
use snap_path::{next_component, path_relative_from};
use std::alloc::Global;

/// Whether the component is a step up.
fn is_up(part: &str) -> bool
    ensures { result ≡ bytes_eq (chars part.now) (codes "..") }
{
    is_same(part, "..")
}

/// Whether some front of the components has more steps up than names.
fn rises(path: &str) -> bool
    ensures { result ≡ rises 0 (components (chars path.now)) }
{
    let mut below: usize = 0;
    let mut rest = path;
    while let Some((part, next)) = next_component(rest) {
        if !is_up(part) {
            below += 1;
        } else if below == 0 {
            return true;
        } else {
            below -= 1;
        }
        rest = next;
    }
    false
}

/// Whether a path that is seen from the workspace leaves it.
fn leaves_from(seen: &str) -> bool
    ensures { result ≡ leaves_from (chars seen.now) }
{
    begins_with(seen, '/') || rises(seen)
}

/// Whether the path leaves the workspace.
pub(crate) fn is_outside(alloc: Global, workspace: &Text, path: &Text) -> Result<bool, OutOfMemory>
    ensures { IfOk result (λ outside. outside ≡ is_outside workspace.now path.now) }
{
    let seen = path_relative_from(alloc, path, workspace)?;
    Ok(leaves_from(seen.as_str()))
}
