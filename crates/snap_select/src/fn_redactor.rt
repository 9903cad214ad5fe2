//! Stored functions that redact.
ghost use Rattle.std.specs.Prelude.{◌≡◌, List, map, Ok};
ghost use Rattle.snap_content.specs.Tree.{Tree};
ghost use Rattle.snap_content.specs.View.{tree};
ghost use Rattle.snap_select.specs.Matching.{Step, step_of};

use crate::path_item::PathItem;
use snap_content::{Content, OutOfMemory};
use std::alloc::Global;

/// A boxed function of a value and the steps to it.
pub type RedactFn = Box<dyn Fn(Global, Content, &[PathItem]) -> Result<Content, OutOfMemory>>;

/// A name for what is promised of each answer of a function.
pub trait Answers {
    ghost use Rattle.std.specs.Prelude.{List};
    ghost use Rattle.snap_content.specs.Tree.{Tree};
    ghost use Rattle.snap_select.specs.Matching.{Step};

    /// Which answers are allowed for a value and the steps to it.
    ghost answers: { Tree → List Step → Tree → Type 0 };
}

/// A function beside the fact that it may be called on every value and path.
#[derive(Drop)]
pub struct FnRedactor {
    func: RedactFn,
    ghost callable: { RedactFn.IsAlwaysCallable func },
}

impl FnRedactor {
    ghost use Rattle.snap_select.specs.Put.{Gives};

    /// The function in this box, which the caller makes, so that its contract is known there: whatever it puts is what that
    /// contract promises of a call on such a value after such steps.
    pub fn new(func: RedactFn) -> FnRedactor
        requires { RedactFn.IsAlwaysCallable func }
        ensures { (t : Tree) (steps : List Step) (out : Tree) → Gives result t steps out
            → (alloc : _) × (value : _) × (path : _) × (new : _) × (tree value ≡ t)
            × (map step_of path.now ≡ steps) × (tree new ≡ out)
            × RedactFn.post func alloc value path (Ok new) }
    {
        FnRedactor { func }
    }

    /// The same for a caller that names what a call promises: `K` tells a relation that the function's contract gives.
    pub fn promising<K: Answers>(func: RedactFn) -> FnRedactor
        requires callable { RedactFn.IsAlwaysCallable func }
        requires promised { (alloc : _) (value : _) (path : _) (out : _)
            → RedactFn.post func alloc value path (Ok out)
            → K.answers (tree value) (map step_of path.now) (tree out) }
        ensures { (t : Tree) (steps : List Step) (out : Tree) → Gives result t steps out
            → K.answers t steps out }
    {
        FnRedactor { func }
    }

    /// What the function answers for the value at these steps.
    pub(crate) fn call(
        &self,
        alloc: Global,
        value: Content,
        path: &[PathItem],
    ) -> Result<Content, OutOfMemory>
        ensures { RedactFn.post self.now.func alloc value path.entry result }
    {
        (self.func)(alloc, value, path)
    }
}
