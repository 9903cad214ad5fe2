//! Trees without what stands at the end of a path.
ghost use Rattle.std.specs.Prelude.{◌≡◌, ◌<◌, ◌∷◌, length};
ghost use Rattle.std.specs.List.{remove, slice_index_or};
ghost use Rattle.std.specs.Str.{chars};
ghost use Rattle.snap_content.specs.Tree as t;
ghost use Rattle.snap_content.specs.View.{tree, item_trees, pair_trees};
ghost use Rattle.snap_content.specs.declared.content.Content.{Content};
ghost use Rattle.snap_front.specs.Paths.{steps_of};
ghost use Rattle.snap_front.specs.Removing.{IsRemoved};
ghost use Rattle.snap_front.specs.TreePaths.{get_tree, remove_tree};
ghost use Rattle.snap_front.specs.declared.step.Step.TheVariants.{Key, Index};

use crate::path::Path;
use crate::setting::key_at;
use crate::step::Step;
use snap_content::{Content, Items, Pairs};
use std::mem;

/// The value of the pair at that place, which is taken out.
fn take_value(pairs: &mut Vec<(Content, Content)>, at: usize) -> Content
    requires { at < length pairs.old.items }
    ensures left { pairs.new.items ≡ remove pairs.old.items at }
    ensures taken { (key : Content) × ((key, result)
        ≡ slice_index_or pairs.old.items at (key, result)) }
{
    let (key, value) = pairs.remove(at);
    drop(key);
    value
}

/// What is at the end of the steps, taken out of the tree.
#[cycle(removing)]
fn remove_at(content: &mut Content, steps: &[Step]) -> Option<Content>
    ensures { IsRemoved (remove_tree steps.now (tree content.old))
        (get_tree steps.now (tree content.old)) (tree content.old) (tree content.new) result }
{
    match steps {
        [] => None,
        [step, rest @ ..] => {
            let whole = mem::replace(content, Content::Unit);
            let (whole, taken) = remove_inside(whole, step, rest);
            drop(mem::replace(content, whole));
            taken
        }
    }
}

/// The same after one step at least, of a tree that comes back.
#[cycle(removing)]
fn remove_inside(whole: Content, step: &Step, rest: &[Step]) -> (Content, Option<Content>)
    ensures { IsRemoved (remove_tree (step.now ∷ rest.now) (tree whole))
        (get_tree (step.now ∷ rest.now) (tree whole)) (tree whole) (tree result.0) result.1 }
{
    match step {
        Step::Key(name) => remove_under_key(whole, name.as_str(), rest),
        Step::Index(place) => remove_at_place(whole, *place, rest),
    }
}

/// The same after a key.
#[cycle(removing)]
fn remove_under_key(whole: Content, name: &str, rest: &[Step]) -> (Content, Option<Content>)
    ensures { IsRemoved (remove_tree (Key (chars name.now) ∷ rest.now) (tree whole))
        (get_tree (Key (chars name.now) ∷ rest.now) (tree whole))
        (tree whole) (tree result.0) result.1 }
{
    match whole {
        Content::Map(pairs) => {
            let mut pairs = pairs.into_vec();
            let taken = remove_in_pairs(&mut pairs, name, rest);
            (Content::Map(Pairs::from_vec(pairs)), taken)
        }
        other => (other, None),
    }
}

/// The same after a place.
#[cycle(removing)]
fn remove_at_place(whole: Content, place: u64, rest: &[Step]) -> (Content, Option<Content>)
    ensures { IsRemoved (remove_tree (Index place ∷ rest.now) (tree whole))
        (get_tree (Index place ∷ rest.now) (tree whole)) (tree whole) (tree result.0) result.1 }
{
    match whole {
        Content::Seq(items) => {
            let mut items = items.into_vec();
            let taken = remove_in_items(&mut items, place, rest);
            (Content::Seq(Items::from_vec(items)), taken)
        }
        other => (other, None),
    }
}

/// In a map: the first entry with that key, or what is further down in its value.
#[cycle(removing)]
fn remove_in_pairs(
    pairs: &mut Vec<(Content, Content)>,
    name: &str,
    rest: &[Step],
) -> Option<Content>
    ensures { IsRemoved (remove_tree (Key (chars name.now) ∷ rest.now)
        (t.map (pair_trees pairs.old.items)))
        (get_tree (Key (chars name.now) ∷ rest.now) (t.map (pair_trees pairs.old.items)))
        (t.map (pair_trees pairs.old.items)) (t.map (pair_trees pairs.new.items)) result }
{
    match key_at(pairs.as_slice(), name) {
        Some(at) if rest.is_empty() => Some(take_value(pairs, at)),
        Some(at) => remove_at(&mut pairs[at].1, rest),
        None => None,
    }
}

/// In a sequence: the item at that place, or what is further down in it.
#[cycle(removing)]
fn remove_in_items(items: &mut Vec<Content>, place: u64, rest: &[Step]) -> Option<Content>
    ensures { IsRemoved (remove_tree (Index place ∷ rest.now)
        (t.seq (item_trees items.old.items)))
        (get_tree (Index place ∷ rest.now) (t.seq (item_trees items.old.items)))
        (t.seq (item_trees items.old.items)) (t.seq (item_trees items.new.items)) result }
{
    let at = place as usize;
    if at >= items.len() {
        return None;
    }
    if rest.is_empty() {
        return Some(items.remove(at));
    }
    remove_at(&mut items[at], rest)
}

/// Takes out what is at the end of the path: the first entry with a key, or an item, after which those behind it move up. Nothing is
/// at the end of a path that is empty, or of which a step leads to nothing; then the tree is as it was. It takes no memory.
pub fn remove_tree(content: &mut Content, path: &Path) -> Option<Content>
    ensures { IsRemoved (remove_tree (steps_of path.now) (tree content.old))
        (get_tree (steps_of path.now) (tree content.old))
        (tree content.old) (tree content.new) result }
{
    remove_at(content, path.steps())
}
