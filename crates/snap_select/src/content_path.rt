//! Paths through a tree, as they are shown.
ghost use Rattle.std.specs.Prelude.{◌≡◌};
ghost use Rattle.std.specs.Str.{chars};
ghost use Rattle.snap_content.specs.View.{tree};
ghost use Rattle.snap_select.specs.PathText.{key_text};

use crate::path_item::PathItem;
use snap_content::Content;
use std::fmt;

/// A path through a tree: the steps to a part of it.
#[derive(Clone, Debug, Drop)]
pub struct ContentPath<'a> {
    items: &'a [PathItem],
}

impl<'a> ContentPath<'a> {
    ghost use Rattle.snap_select.specs.Paths.{items_of};

    /// The path of these steps.
    pub fn new(items: &'a [PathItem]) -> ContentPath<'a>
        ensures { items_of result ≡ items.now }
    {
        ContentPath { items }
    }

    /// Its steps.
    pub fn items(&self) -> &'a [PathItem]
        ensures { result.now ≡ items_of self.now }
    {
        self.items
    }
}

/// The text of a text key, and `<content>` for any other.
fn key_text(key: &Content) -> &str
    ensures { chars result.now ≡ key_text (tree key.now) }
{
    match key.as_str() {
        Some(text) => text,
        None => "<content>",
    }
}

/// A step, as it is shown.
#[derive(Drop)]
struct ShownItem<'a> {
    item: &'a PathItem,
}

/// The text of a text key, the name of a field, an index, and `<content>` for any other key.
impl fmt::Display for ShownItem<'_> {
    ghost use Rattle.std.specs.Prelude.{Some};
    ghost use Rattle.snap_select.specs.Matching.{step_of};
    ghost use Rattle.snap_select.specs.PathText.{step_text};

    ghost output = { λ shown. Some (step_text (step_of shown.item.now)) };

    fn fmt<W: fmt::Write>(&self, f: &mut fmt::Formatter<W>) -> fmt::Result {
        match self.item {
            PathItem::Content(key) => f.write_str(key_text(key)),
            PathItem::Field(name) => f.write_str(name.as_str()),
            PathItem::Index(index, _) => write!(f, "{index}"),
        }
    }
}

/// A dot before each step.
impl fmt::Display for ContentPath<'_> {
    ghost use Rattle.std.specs.Prelude.{Some, map};
    ghost use Rattle.snap_select.specs.Matching.{step_of};
    ghost use Rattle.snap_select.specs.PathText.{path_text};
    ghost use Rattle.snap_select.specs.Paths.{items_of};

    ghost output = { λ path. Some (path_text (map step_of (items_of path))) };

    fn fmt<W: fmt::Write>(&self, f: &mut fmt::Formatter<W>) -> fmt::Result {
        for item in self.items {
            f.write_str(".")?;
            let shown = ShownItem { item };
            shown.fmt(f)?;
        }
        Ok(())
    }
}
