//! What a selector hits.
ghost use Rattle.std.specs.Prelude.{◌≡◌, ◌||◌, List, [], ◌∷◌, ◌++◌, map, codes, IfOk, OnOk};
ghost use Rattle.snap_content.specs.View.{tree, item_trees, pair_trees, field_trees};
ghost use Rattle.snap_select.specs.Matching.{step_of, into_field};
ghost use Rattle.snap_select.specs.Positions.{count_of};
ghost use Rattle.snap_select.specs.Selectors.{parts_of};
ghost use Rattle.snap_explain_values.specs.Missed.{hits, hits_inside, hits_items, hits_pairs, hits_fields, hits_keys, hits_values};

use snap_content::{Content, OutOfMemory, Text};
use snap_select::{PathItem, Selector};
use std::alloc::Global;

/// The step to the key of a pair.
fn key_step(alloc: Global) -> Result<PathItem, OutOfMemory>
    ensures { IfOk result (λ step. step_of step ≡ into_field (codes "$key")) }
{
    Ok(PathItem::Field(Text::from_ascii(alloc, "$key")?))
}

/// Whether the selector hits the value at the path, or something in it.
#[cycle(hits)]
fn hits_at(
    alloc: Global,
    selector: &Selector<'_>,
    value: &Content,
    path: &mut Vec<PathItem>,
) -> Result<bool, OutOfMemory>
    ensures hit { IfOk result (λ hit. hit
        ≡ hits (parts_of selector.now) (map step_of path.old.items) (tree value.now)) }
    ensures path { OnOk result (path.new.items ≡ path.old.items) }
{
    if selector.is_match(path.as_slice()) {
        return Ok(true);
    }
    hits_inside(alloc, selector, value, path)
}

/// The same after one step more, which is taken back.
#[cycle(hits)]
fn hits_behind(
    alloc: Global,
    selector: &Selector<'_>,
    value: &Content,
    step: PathItem,
    path: &mut Vec<PathItem>,
) -> Result<bool, OutOfMemory>
    ensures hit { IfOk result (λ hit. hit ≡ hits (parts_of selector.now)
        (map step_of path.old.items ++ step_of step ∷ []) (tree value.now)) }
    ensures path { OnOk result (path.new.items ≡ path.old.items) }
{
    path.push(step)?;
    let hit = hits_at(alloc, selector, value, path)?;
    drop(path.pop());
    Ok(hit)
}

/// Whether the selector hits something in the value at the path.
#[cycle(hits)]
fn hits_inside(
    alloc: Global,
    selector: &Selector<'_>,
    value: &Content,
    path: &mut Vec<PathItem>,
) -> Result<bool, OutOfMemory>
    ensures hit { IfOk result (λ hit. hit
        ≡ hits_inside (parts_of selector.now) (map step_of path.old.items) (tree value.now)) }
    ensures path { OnOk result (path.new.items ≡ path.old.items) }
{
    match value {
        Content::Some(inner) => hits_at(alloc, selector, inner, path),
        Content::NewtypeStruct(_, inner) => hits_at(alloc, selector, inner, path),
        Content::NewtypeVariant(_, _, _, inner) => hits_at(alloc, selector, inner, path),
        Content::Seq(items) => hits_item(alloc, selector, items.as_slice(), path),
        Content::Tuple(items) => hits_item(alloc, selector, items.as_slice(), path),
        Content::TupleStruct(_, items) => hits_item(alloc, selector, items.as_slice(), path),
        Content::TupleVariant(_, _, _, items) => hits_item(alloc, selector, items.as_slice(), path),
        Content::Map(pairs) => hits_pair(alloc, selector, pairs.as_slice(), path),
        Content::Struct(_, fields) => hits_field(alloc, selector, fields.as_slice(), path),
        Content::StructVariant(_, _, _, fields) => {
            hits_field(alloc, selector, fields.as_slice(), path)
        }
        _ => Ok(false),
    }
}

/// Whether it hits one of the items of the list at the path, or something in one.
#[cycle(hits)]
fn hits_item(
    alloc: Global,
    selector: &Selector<'_>,
    items: &[Content],
    path: &mut Vec<PathItem>,
) -> Result<bool, OutOfMemory>
    ensures hit { IfOk result (λ hit. hit ≡ hits_items (parts_of selector.now)
        (map step_of path.old.items) (count_of (item_trees items.now)) 0 (item_trees items.now)) }
    ensures path { OnOk result (path.new.items ≡ path.old.items) }
{
    let length = items.len() as u64;
    for (place, item) in items.iter().enumerate() {
        let step = PathItem::Index(place as u64, length);
        if hits_behind(alloc, selector, item, step, path)? {
            return Ok(true);
        }
    }
    Ok(false)
}

/// Whether it hits a value of these pairs, something in one, a key of them, or something in one.
#[cycle(hits)]
fn hits_pair(
    alloc: Global,
    selector: &Selector<'_>,
    pairs: &[(Content, Content)],
    path: &mut Vec<PathItem>,
) -> Result<bool, OutOfMemory>
    ensures hit { IfOk result (λ hit. hit ≡ hits_pairs (parts_of selector.now)
        (map step_of path.old.items) (pair_trees pairs.now)) }
    ensures path { OnOk result (path.new.items ≡ path.old.items) }
{
    if hits_value(alloc, selector, pairs, path)? {
        return Ok(true);
    }
    path.push(key_step(alloc)?)?;
    let hit = hits_key(alloc, selector, pairs, path)?;
    drop(path.pop());
    Ok(hit)
}

/// Whether it hits one of the values, each under its key, or something in one.
#[cycle(hits)]
fn hits_value(
    alloc: Global,
    selector: &Selector<'_>,
    pairs: &[(Content, Content)],
    path: &mut Vec<PathItem>,
) -> Result<bool, OutOfMemory>
    ensures hit { IfOk result (λ hit. hit ≡ hits_values (parts_of selector.now)
        (map step_of path.old.items) (pair_trees pairs.now)) }
    ensures path { OnOk result (path.new.items ≡ path.old.items) }
{
    for pair in pairs {
        let step = PathItem::Content(pair.0.try_clone(alloc)?);
        if hits_behind(alloc, selector, &pair.1, step, path)? {
            return Ok(true);
        }
    }
    Ok(false)
}

/// Whether it hits one of the keys, which all stand at this path, or something in one.
#[cycle(hits)]
fn hits_key(
    alloc: Global,
    selector: &Selector<'_>,
    pairs: &[(Content, Content)],
    path: &mut Vec<PathItem>,
) -> Result<bool, OutOfMemory>
    ensures hit { IfOk result (λ hit. hit ≡ hits_keys (parts_of selector.now)
        (map step_of path.old.items) (pair_trees pairs.now)) }
    ensures path { OnOk result (path.new.items ≡ path.old.items) }
{
    for pair in pairs {
        if hits_at(alloc, selector, &pair.0, path)? {
            return Ok(true);
        }
    }
    Ok(false)
}

/// Whether it hits the value of one of the fields, each under its name, or something in one.
#[cycle(hits)]
fn hits_field(
    alloc: Global,
    selector: &Selector<'_>,
    fields: &[(Text, Content)],
    path: &mut Vec<PathItem>,
) -> Result<bool, OutOfMemory>
    ensures hit { IfOk result (λ hit. hit ≡ hits_fields (parts_of selector.now)
        (map step_of path.old.items) (field_trees fields.now)) }
    ensures path { OnOk result (path.new.items ≡ path.old.items) }
{
    for field in fields {
        let step = PathItem::Field(field.0.try_clone(alloc)?);
        if hits_behind(alloc, selector, &field.1, step, path)? {
            return Ok(true);
        }
    }
    Ok(false)
}

/// Whether the selector hits the value or something in it.
pub(crate) fn is_hit(
    alloc: Global,
    selector: &Selector<'_>,
    value: &Content,
) -> Result<bool, OutOfMemory>
    ensures { IfOk result (λ hit. hit ≡ hits (parts_of selector.now) [] (tree value.now)) }
{
    let mut path = Vec::new(alloc);
    hits_at(alloc, selector, value, &mut path)
}
