//! Trees with another value at the end of a path.
ghost use Rattle.std.specs.Prelude.{◌≡◌, true, [], ◌∷◌, ◌++◌, IfOk, OnErr, position};
ghost use Rattle.std.specs.Str.{chars};
ghost use Rattle.snap_content.specs.Tree as t;
ghost use Rattle.snap_content.specs.View.{tree, item_trees, pair_trees};
ghost use Rattle.snap_front.specs.Paths.{steps_of};
ghost use Rattle.snap_front.specs.Setting.{IsSet};
ghost use Rattle.snap_front.specs.TreePaths.{is_key, set_tree};
ghost use Rattle.snap_front.specs.declared.step.Step.TheVariants.{Key, Index};

use crate::path::Path;
use crate::step::Step;
use crate::trees::is_key;
use snap_content::{Content, Items, OutOfMemory, Pairs};
use std::alloc::Global;
use std::mem;

/// Where the first entry with that key stands.
pub(crate) fn key_at(pairs: &[(Content, Content)], name: &str) -> Option<usize>
    ensures { result ≡ position (λ pair. is_key (chars name.now) (tree pair.0)) pairs.now }
{
    pairs.iter().position(|pair| is_key(&pair.0, name))
}

/// One pair more, after the others. The value ends where there is no memory for it.
fn push_pair(
    pairs: &mut Vec<(Content, Content)>,
    name: &str,
    value: Content,
    alloc: Global,
) -> Result<bool, OutOfMemory>
    ensures ok { IfOk result (λ done. (done ≡ true) × (key : Content) × (tree key ≡ t.string (chars name.now))
        × (pairs.new.items ≡ pairs.old.items ++ (key, value) ∷ [])) }
    ensures err { OnErr result (pairs.new.items ≡ pairs.old.items) }
{
    match Content::from_str(alloc, name) {
        Ok(key) => {
            pairs.push((key, value))?;
            Ok(true)
        }
        Err(error) => {
            drop(value);
            Err(error)
        }
    }
}

/// One item more, after the others. The value ends where there is no memory for it.
fn push_item(items: &mut Vec<Content>, value: Content) -> Result<bool, OutOfMemory>
    ensures ok { IfOk result (λ done. (done ≡ true)
        × (items.new.items ≡ items.old.items ++ value ∷ [])) }
    ensures err { OnErr result (items.new.items ≡ items.old.items) }
{
    items.push(value)?;
    Ok(true)
}

/// The tree with the value at the end of the steps, in its place.
#[cycle(setting)]
fn set_at(
    content: &mut Content,
    steps: &[Step],
    value: Content,
    alloc: Global,
) -> Result<bool, OutOfMemory>
    ensures { IsSet (set_tree steps.now (tree value) (tree content.old)) (tree content.old)
        (tree content.new) result }
{
    match steps {
        [] => {
            drop(mem::replace(content, value));
            Ok(true)
        }
        [step, rest @ ..] => {
            let whole = mem::replace(content, Content::Unit);
            let (whole, done) = set_inside(whole, step, rest, value, alloc);
            drop(mem::replace(content, whole));
            done
        }
    }
}

/// The same after one step at least, of a tree that comes back.
#[cycle(setting)]
fn set_inside(
    whole: Content,
    step: &Step,
    rest: &[Step],
    value: Content,
    alloc: Global,
) -> (Content, Result<bool, OutOfMemory>)
    ensures { IsSet (set_tree (step.now ∷ rest.now) (tree value) (tree whole)) (tree whole)
        (tree result.0) result.1 }
{
    match step {
        Step::Key(name) => set_under_key(whole, name.as_str(), rest, value, alloc),
        Step::Index(place) => set_at_place(whole, *place, rest, value, alloc),
    }
}

/// The same after a key.
#[cycle(setting)]
fn set_under_key(
    whole: Content,
    name: &str,
    rest: &[Step],
    value: Content,
    alloc: Global,
) -> (Content, Result<bool, OutOfMemory>)
    ensures { IsSet (set_tree (Key (chars name.now) ∷ rest.now) (tree value) (tree whole))
        (tree whole) (tree result.0) result.1 }
{
    match whole {
        Content::Map(pairs) => {
            let mut pairs = pairs.into_vec();
            let done = set_in_pairs(&mut pairs, name, rest, value, alloc);
            (Content::Map(Pairs::from_vec(pairs)), done)
        }
        other => {
            drop(value);
            (other, Ok(false))
        }
    }
}

/// The same after a place.
#[cycle(setting)]
fn set_at_place(
    whole: Content,
    place: u64,
    rest: &[Step],
    value: Content,
    alloc: Global,
) -> (Content, Result<bool, OutOfMemory>)
    ensures { IsSet (set_tree (Index place ∷ rest.now) (tree value) (tree whole)) (tree whole)
        (tree result.0) result.1 }
{
    match whole {
        Content::Seq(items) => {
            let mut items = items.into_vec();
            let done = set_in_items(&mut items, place, rest, value, alloc);
            (Content::Seq(Items::from_vec(items)), done)
        }
        other => {
            drop(value);
            (other, Ok(false))
        }
    }
}

/// In a map: in the first entry with that key, or in a new one at the end, where no step is left.
#[cycle(setting)]
fn set_in_pairs(
    pairs: &mut Vec<(Content, Content)>,
    name: &str,
    rest: &[Step],
    value: Content,
    alloc: Global,
) -> Result<bool, OutOfMemory>
    ensures { IsSet (set_tree (Key (chars name.now) ∷ rest.now) (tree value)
        (t.map (pair_trees pairs.old.items))) (t.map (pair_trees pairs.old.items))
        (t.map (pair_trees pairs.new.items)) result }
{
    match key_at(pairs.as_slice(), name) {
        Some(at) => set_at(&mut pairs[at].1, rest, value, alloc),
        None if rest.is_empty() => push_pair(pairs, name, value, alloc),
        None => {
            drop(value);
            Ok(false)
        }
    }
}

/// In a sequence: in the item at that place, or as a new one after the last, where no step is left.
#[cycle(setting)]
fn set_in_items(
    items: &mut Vec<Content>,
    place: u64,
    rest: &[Step],
    value: Content,
    alloc: Global,
) -> Result<bool, OutOfMemory>
    ensures { IsSet (set_tree (Index place ∷ rest.now) (tree value)
        (t.seq (item_trees items.old.items))) (t.seq (item_trees items.old.items))
        (t.seq (item_trees items.new.items)) result }
{
    let at = place as usize;
    if at < items.len() {
        return set_at(&mut items[at], rest, value, alloc);
    }
    if items.len() < at {
        drop(value);
        return Ok(false);
    }
    if !rest.is_empty() {
        drop(value);
        return Ok(false);
    }
    push_item(items, value)
}

/// Puts the value at the end of the path, and tells whether that could be done: each step leads on, but for the last one, where a
/// key that a map lacks adds an entry at its end, and the place after the last item of a sequence an item. Where it can't be
/// done, and after the one error, that memory is out, the tree is as it was.
pub fn set_tree(
    content: &mut Content,
    path: &Path,
    value: Content,
    alloc: Global,
) -> Result<bool, OutOfMemory>
    ensures { IsSet (set_tree (steps_of path.now) (tree value) (tree content.old))
        (tree content.old) (tree content.new) result }
{
    set_at(content, path.steps(), value, alloc)
}
