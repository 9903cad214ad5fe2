//! One step of a path through a tree.
ghost use Rattle.std.specs.Prelude.{◌≡◌};
ghost use Rattle.snap_select.specs.Matching.{step_of, lent_step, range_check};

use crate::step_ref::StepRef;
use snap_content::{Content, Text};

/// One step of a path, from a tree to a part of it.
#[derive(Debug, Drop)]
pub enum PathItem {
    /// The value under this key of a map.
    Content(Content),
    /// The field of this name.
    Field(Text),
    /// The item of a list at the first number, counted from 0. The list has as many items as the second says.
    Index(u64, u64),
}

impl PathItem {
    /// The step, lent.
    pub(crate) fn lent(&self) -> StepRef<'_>
        ensures { lent_step result ≡ step_of self.now }
    {
        match self {
            PathItem::Content(key) => StepRef::Key(key),
            PathItem::Field(name) => StepRef::Field(name.as_str()),
            PathItem::Index(index, length) => StepRef::Item(*index, *length),
        }
    }

    /// Whether this is an item of a list, from the first bound up to the second, which isn't counted. A bound below zero counts
    /// from the end, and never to before the first item. No key and no field is between bounds.
    pub fn range_check(&self, from: Option<i64>, to: Option<i64>) -> bool
        ensures { result ≡ range_check from to (step_of self.now) }
    {
        self.lent().range_check(from, to)
    }
}
