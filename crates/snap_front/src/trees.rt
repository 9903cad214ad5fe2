//! What stands in a tree at the end of a path.
ghost use Rattle.std.specs.Prelude.{◌≡◌, option_map};
ghost use Rattle.std.specs.Str.{chars};
ghost use Rattle.snap_content.specs.View.{tree, item_list, item_trees, pair_trees};
ghost use Rattle.snap_front.specs.Paths.{steps_of};
ghost use Rattle.snap_front.specs.TreePaths.{is_key, value_in, item_at, step_in, get_tree};

use crate::path::Path;
use crate::step::Step;
use snap_content::{Content, Items};
use snap_select::is_same_text;

/// Whether the key of an entry is this text.
pub(crate) fn is_key(key: &Content, name: &str) -> bool
    ensures { result ≡ is_key (chars name.now) (tree key.now) }
{
    match key {
        Content::String(text) => is_same_text(text.as_str(), name),
        _ => false,
    }
}

/// The value of the first entry with that key.
fn value_in<'a>(pairs: &'a [(Content, Content)], name: &str) -> Option<&'a Content>
    ensures { option_map (λ value. tree value.now) result
        ≡ value_in (chars name.now) (pair_trees pairs.now) }
{
    for pair in pairs {
        if is_key(&pair.0, name) {
            return Some(&pair.1);
        }
    }
    None
}

/// The item at that place, counted from 0.
fn item_at(items: &Items, place: u64) -> Option<&Content>
    ensures { option_map (λ item. tree item.now) result
        ≡ item_at place (item_trees (item_list items.now)) }
{
    items.get(place as usize)
}

/// What the step leads to: a key from a map, an index from a sequence, and nothing from anything else.
fn step_in<'a>(content: &'a Content, step: &Step) -> Option<&'a Content>
    ensures { option_map (λ part. tree part.now) result ≡ step_in step.now (tree content.now) }
{
    match (content, step) {
        (Content::Map(pairs), Step::Key(name)) => value_in(pairs.as_slice(), name.as_str()),
        (Content::Seq(items), Step::Index(place)) => item_at(items, *place),
        _ => None,
    }
}

/// The tree at the end of the path; none where a step leads to nothing: a key leads from a map to the value of its first entry
/// with that text as its key, an index from a sequence to its item. No wrapper is gone through.
pub fn get_tree<'a>(content: &'a Content, path: &Path) -> Option<&'a Content>
    ensures { option_map (λ part. tree part.now) result
        ≡ get_tree (steps_of path.now) (tree content.now) }
{
    let mut here = content;
    for step in path.steps() {
        match step_in(here, step) {
            Some(part) => here = part,
            None => return None,
        }
    }
    Some(here)
}
