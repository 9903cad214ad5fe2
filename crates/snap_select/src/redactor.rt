//! Whoever puts something in place of a value.
ghost use Rattle.std.specs.Prelude.{map, IfOk};
ghost use Rattle.snap_content.specs.View.{tree};
ghost use Rattle.snap_select.specs.Matching.{step_of};
ghost use Rattle.snap_select.specs.Paths.{items_of};

use crate::content_path::ContentPath;
use snap_content::{Content, OutOfMemory};
use std::alloc::Global;

/// Whoever puts something in place of a value at a path.
///
/// A type of one's own says in `allows` which trees it may put there. For a closure take `FnRedactor`.
pub trait Redactor: Drop {
    ghost use Rattle.std.specs.Prelude.{List};
    ghost use Rattle.snap_content.specs.Tree.{Tree};
    ghost use Rattle.snap_select.specs.Matching.{Step};

    /// Which answers are allowed for a value and the steps to it.
    ghost allows: { Self → Tree → List Step → Tree → Type 0 };

    /// What stands in place of the value at the path.
    fn redact(
        &self,
        alloc: Global,
        value: Content,
        path: ContentPath<'_>,
    ) -> Result<Content, OutOfMemory>
        ensures { IfOk result (λ out. allows self.now (tree value)
            (map step_of (items_of path.entry)) (tree out)) };
}
