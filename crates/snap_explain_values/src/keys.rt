//! Keys that stand twice in a map.
ghost use Rattle.std.specs.Prelude.{◌≡◌, ◌||◌, IfOk};
ghost use Rattle.snap_content.specs.View.{tree, item_trees, pair_trees, field_trees};
ghost use Rattle.snap_explain_values.specs.Twice.{has_key_twice, item_has_twice, pair_has_twice, field_has_twice, keys_in, has_twice};

use snap_content::{Content, OutOfMemory, Text};
use std::alloc::Global;
use std::collections::BTreeSet;

/// Whether two of the pairs have one key.
fn is_key_twice(alloc: Global, pairs: &[(Content, Content)]) -> Result<bool, OutOfMemory>
    ensures { IfOk result (λ twice. twice ≡ has_twice (keys_in (pair_trees pairs.now))) }
{
    let mut seen = BTreeSet::new(alloc);
    for pair in pairs {
        if !seen.insert(&pair.0)? {
            return Ok(true);
        }
    }
    Ok(false)
}

/// Whether a map of the value, at any depth, has a key twice.
#[cycle(twice)]
pub fn has_key_twice(alloc: Global, value: &Content) -> Result<bool, OutOfMemory>
    ensures { IfOk result (λ found. found ≡ has_key_twice (tree value.now)) }
{
    match value {
        Content::Some(inner) => has_key_twice(alloc, inner),
        Content::NewtypeStruct(_, inner) => has_key_twice(alloc, inner),
        Content::NewtypeVariant(_, _, _, inner) => has_key_twice(alloc, inner),
        Content::Seq(items) => item_has_twice(alloc, items.as_slice()),
        Content::Tuple(items) => item_has_twice(alloc, items.as_slice()),
        Content::TupleStruct(_, items) => item_has_twice(alloc, items.as_slice()),
        Content::TupleVariant(_, _, _, items) => item_has_twice(alloc, items.as_slice()),
        Content::Map(pairs) => map_has_twice(alloc, pairs.as_slice()),
        Content::Struct(_, fields) => field_has_twice(alloc, fields.as_slice()),
        Content::StructVariant(_, _, _, fields) => field_has_twice(alloc, fields.as_slice()),
        _ => Ok(false),
    }
}

/// The same in one of the items.
#[cycle(twice)]
fn item_has_twice(alloc: Global, items: &[Content]) -> Result<bool, OutOfMemory>
    ensures { IfOk result (λ found. found ≡ item_has_twice (item_trees items.now)) }
{
    for item in items {
        if has_key_twice(alloc, item)? {
            return Ok(true);
        }
    }
    Ok(false)
}

/// The same in the map of these pairs: there, or in one of them.
#[cycle(twice)]
fn map_has_twice(alloc: Global, pairs: &[(Content, Content)]) -> Result<bool, OutOfMemory>
    ensures { IfOk result (λ found. found
        ≡ (has_twice (keys_in (pair_trees pairs.now)) || pair_has_twice (pair_trees pairs.now))) }
{
    if is_key_twice(alloc, pairs)? {
        return Ok(true);
    }
    pair_has_twice(alloc, pairs)
}

/// The same in one of the pairs, in its key or in its value.
#[cycle(twice)]
fn pair_has_twice(alloc: Global, pairs: &[(Content, Content)]) -> Result<bool, OutOfMemory>
    ensures { IfOk result (λ found. found ≡ pair_has_twice (pair_trees pairs.now)) }
{
    for pair in pairs {
        if has_key_twice(alloc, &pair.0)? || has_key_twice(alloc, &pair.1)? {
            return Ok(true);
        }
    }
    Ok(false)
}

/// The same in one of the fields.
#[cycle(twice)]
fn field_has_twice(alloc: Global, fields: &[(Text, Content)]) -> Result<bool, OutOfMemory>
    ensures { IfOk result (λ found. found ≡ field_has_twice (field_trees fields.now)) }
{
    for field in fields {
        if has_key_twice(alloc, &field.1)? {
            return Ok(true);
        }
    }
    Ok(false)
}
