//! What stands in place of a value.
ghost use Rattle.std.specs.Prelude.{◌≡◌, map, IfOk};
ghost use Rattle.snap_content.specs.View.{tree};
ghost use Rattle.snap_select.specs.Matching.{step_of};
ghost use Rattle.snap_select.specs.Put.{Puts};

use crate::content_path::ContentPath;
use crate::fn_redactor::FnRedactor;
use crate::in_order::in_order;
use crate::path_item::PathItem;
use crate::redactor::Redactor;
use snap_content::{Content, OutOfMemory};
use std::alloc::Global;

/// What stands in place of a value.
#[derive(Drop)]
pub enum Redaction {
    /// The same tree, whatever the value is.
    Static(Content),
    /// The value with its list in order: the items of a list by the order of trees, the pairs of a map by their keys and
    /// then their values, the fields of a struct by their names and then their values. A tuple and all else stays as it is.
    Sorted,
    /// What an object of the caller's answers.
    Dynamic(Box<dyn Redactor>),
    /// What a stored function answers.
    Function(FnRedactor),
}

impl Redaction {
    ghost use Rattle.std.specs.Prelude.{List};
    ghost use Rattle.snap_content.specs.Tree.{Tree};
    ghost use Rattle.snap_select.specs.Matching.{Step};

    /// The tree that stands in place of each value.
    pub fn from_content(value: Content) -> Redaction
        ensures { result ≡ Redaction.Static value }
    {
        Redaction::Static(value)
    }

    /// What stands in place of the value at the path.
    pub(crate) fn put(
        &self,
        alloc: Global,
        value: Content,
        path: &[PathItem],
    ) -> Result<Content, OutOfMemory>
        ensures { IfOk result (λ out. Puts (λ v. (⟦<dyn Redactor as Redactor>⟧ v).allows) self.now
            (tree value) (map step_of path.now) (tree out)) }
    {
        match self {
            Redaction::Static(content) => {
                drop(value);
                content.try_clone(alloc)
            }
            Redaction::Sorted => in_order(alloc, value),
            Redaction::Dynamic(redactor) => redactor.redact(alloc, value, ContentPath::new(path)),
            Redaction::Function(function) => function.call(alloc, value, path),
        }
    }
}
