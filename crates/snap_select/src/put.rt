//! Whoever puts something in place of a value, as the walk over a tree sees it. Functions in a cycle of calls cannot take
//! what holds a stored function, so they take any type of this trait, and their caller hands in a closure.
ghost use Rattle.std.specs.Prelude.{map, IfOk};
ghost use Rattle.snap_content.specs.View.{tree};
ghost use Rattle.snap_select.specs.Matching.{step_of};

use crate::path_item::PathItem;
use snap_content::{Content, OutOfMemory};
use std::alloc::Global;

/// Whoever puts something in place of a value at the end of these steps.
pub(crate) trait Put {
    ghost use Rattle.std.specs.Prelude.{List};
    ghost use Rattle.snap_content.specs.Tree.{Tree};
    ghost use Rattle.snap_select.specs.Matching.{Step};

    /// It may be called on every value and path.
    ghost can_put: { Self → Type 0 };

    /// Which answers are allowed for a value and the steps to it.
    ghost puts: { Self → Tree → List Step → Tree → Type 0 };

    fn put(&self, alloc: Global, value: Content, path: &[PathItem]) -> Result<Content, OutOfMemory>
        requires { can_put self.now }
        ensures { IfOk result (λ out. puts self.now (tree value) (map step_of path.now)
            (tree out)) };
}

impl<F: Fn(Global, Content, &[PathItem]) -> Result<Content, OutOfMemory>> Put for F {
    ghost use Rattle.std.specs.Prelude.{◌≡◌, map, Ok};
    ghost use Rattle.snap_content.specs.View.{tree};
    ghost use Rattle.snap_select.specs.Matching.{step_of};

    ghost can_put = { λ f. F.IsAlwaysCallable f };

    ghost puts = { λ f t steps new. (alloc : _) × (value : _) × (path : _) × (out : _)
        × (tree value ≡ t) × (map step_of path.now ≡ steps) × (tree out ≡ new)
        × F.post f alloc value path (Ok out) };

    fn put(
        &self,
        alloc: Global,
        value: Content,
        path: &[PathItem],
    ) -> Result<Content, OutOfMemory> {
        self(alloc, value, path)
    }
}
