//! Sorted maps.
ghost use Rattle.std.specs.Prelude.{◌≡◌, map, OnOk};
ghost use Rattle.snap_content.specs.Tree as t;
ghost use Rattle.snap_content.specs.View.{tree, item_list, item_trees, pair_tree, pair_list, pair_trees, field_list, field_trees};
ghost use Rattle.snap_content.specs.Sorted.{InKeyOrder, AsBeforeOrInKeyOrder, ItemsRearranged, PairsRearranged, FieldsRearranged, Sorted, PartlySorted};

use crate::content::Content;
use crate::lists::{Fields, Items, Pairs};
use crate::memory::OutOfMemory;
use crate::text::Text;
use std::alloc::Global;
use std::mem;

/// The variant around what a sort gives back, and how that sort ended.
macro_rules! around {
    ($sort:expr, $inner:ident => $whole:expr) => {{
        let ($inner, outcome) = $sort;
        ($whole, outcome)
    }};
}

impl Content {
    /// Sorts the entries of each map by their keys; entries with equal keys keep their order.
    /// Children come first, keys and values alike, so that keys compare as what they become.
    /// After running out of memory some maps are sorted, and the others stand as before.
    #[cycle(sort)]
    pub fn sort_maps(&mut self, alloc: Global) -> Result<(), OutOfMemory>
        ensures ok { OnOk result (Sorted (tree self.old) (tree self.new)) }
        ensures partly { PartlySorted (tree self.old) (tree self.new) }
    {
        let whole = mem::replace(self, Content::Unit);
        let (whole, outcome) = sort_inside(whole, alloc);
        // Ended by a call, since each later goal has the steps of what the sort itself ends.
        drop(mem::replace(self, whole));
        outcome
    }
}

/// The tree comes back after running out of memory too.
#[cycle(sort)]
fn sort_inside(node: Content, alloc: Global) -> (Content, Result<(), OutOfMemory>)
    ensures ok { OnOk result.1 (Sorted (tree node) (tree result.0)) }
    ensures partly { PartlySorted (tree node) (tree result.0) }
{
    match node {
        Content::Some(inner) => around!(sort_box(inner, alloc), inner => Content::Some(inner)),
        Content::NewtypeStruct(name, inner) =>
            around!(sort_box(inner, alloc), inner => Content::NewtypeStruct(name, inner)),
        Content::NewtypeVariant(name, index, variant, inner) => around!(
            sort_box(inner, alloc),
            inner => Content::NewtypeVariant(name, index, variant, inner)
        ),
        Content::Seq(items) => around!(sort_list(items, alloc), items => Content::Seq(items)),
        Content::Tuple(items) => around!(sort_list(items, alloc), items => Content::Tuple(items)),
        Content::TupleStruct(name, items) =>
            around!(sort_list(items, alloc), items => Content::TupleStruct(name, items)),
        Content::TupleVariant(name, index, variant, items) => around!(
            sort_list(items, alloc),
            items => Content::TupleVariant(name, index, variant, items)
        ),
        Content::Map(pairs) => around!(sort_map(pairs, alloc), pairs => Content::Map(pairs)),
        Content::Struct(name, fields) =>
            around!(sort_struct(fields, alloc), fields => Content::Struct(name, fields)),
        Content::StructVariant(name, index, variant, fields) => around!(
            sort_struct(fields, alloc),
            fields => Content::StructVariant(name, index, variant, fields)
        ),
        leaf => (leaf, Ok(())),
    }
}

#[cycle(sort)]
fn sort_box(mut inner: Box<Content>, alloc: Global) -> (Box<Content>, Result<(), OutOfMemory>)
    ensures ok { OnOk result.1 (Sorted (tree inner.value) (tree result.0.value)) }
    ensures partly { PartlySorted (tree inner.value) (tree result.0.value) }
{
    let outcome = inner.sort_maps(alloc);
    (inner, outcome)
}

#[cycle(sort)]
fn sort_list(list: Items, alloc: Global) -> (Items, Result<(), OutOfMemory>)
    ensures ok { OnOk result.1 (ItemsRearranged InKeyOrder
        (item_trees (item_list list)) (item_trees (item_list result.0))) }
    ensures partly { ItemsRearranged AsBeforeOrInKeyOrder
        (item_trees (item_list list)) (item_trees (item_list result.0)) }
{
    around!(sort_items(list.into_vec(), alloc), items => Items::from_vec(items))
}

#[cycle(sort)]
fn sort_items(mut items: Vec<Content>, alloc: Global) -> (Vec<Content>, Result<(), OutOfMemory>)
    ensures ok { OnOk result.1 (ItemsRearranged InKeyOrder
        (item_trees items.items) (item_trees result.0.items)) }
    ensures partly { ItemsRearranged AsBeforeOrInKeyOrder
        (item_trees items.items) (item_trees result.0.items) }
{
    for index in 0..items.len() {
        match items[index].sort_maps(alloc) {
            Ok(()) => {}
            Err(error) => return (items, Err(error)),
        }
    }
    (items, Ok(()))
}

#[cycle(sort)]
fn sort_map(list: Pairs, alloc: Global) -> (Pairs, Result<(), OutOfMemory>)
    ensures ok { OnOk result.1 (Sorted
        (t.map (pair_trees (pair_list list))) (t.map (pair_trees (pair_list result.0)))) }
    ensures partly { PartlySorted
        (t.map (pair_trees (pair_list list))) (t.map (pair_trees (pair_list result.0))) }
{
    around!(sort_pairs(list.into_vec(), alloc), pairs => Pairs::from_vec(pairs))
}

/// The entries' own maps, and then the entries.
#[cycle(sort)]
fn sort_pairs(
    pairs: Vec<(Content, Content)>,
    alloc: Global,
) -> (Vec<(Content, Content)>, Result<(), OutOfMemory>)
    ensures ok { OnOk result.1 (Sorted
        (t.map (pair_trees pairs.items)) (t.map (pair_trees result.0.items))) }
    ensures partly { PartlySorted
        (t.map (pair_trees pairs.items)) (t.map (pair_trees result.0.items)) }
{
    let (mut pairs, outcome) = sort_inside_pairs(pairs, alloc);
    match outcome {
        Ok(()) => {
            let outcome = sort_entries(pairs.as_mut_slice(), alloc);
            (pairs, outcome)
        }
        Err(error) => (pairs, Err(error)),
    }
}

#[cycle(sort)]
fn sort_inside_pairs(
    mut pairs: Vec<(Content, Content)>,
    alloc: Global,
) -> (Vec<(Content, Content)>, Result<(), OutOfMemory>)
    ensures ok { OnOk result.1 (PairsRearranged InKeyOrder
        (pair_trees pairs.items) (map pair_tree result.0.items)) }
    ensures partly { PairsRearranged AsBeforeOrInKeyOrder
        (pair_trees pairs.items) (map pair_tree result.0.items) }
{
    for index in 0..pairs.len() {
        match sort_pair(&mut pairs[index], alloc) {
            Ok(()) => {}
            Err(error) => return (pairs, Err(error)),
        }
    }
    (pairs, Ok(()))
}

#[cycle(sort)]
fn sort_pair(pair: &mut (Content, Content), alloc: Global) -> Result<(), OutOfMemory>
    ensures key { OnOk result (Sorted (tree pair.old.0) (tree pair.new.0)) }
    ensures value { OnOk result (Sorted (tree pair.old.1) (tree pair.new.1)) }
    ensures key_partly { PartlySorted (tree pair.old.0) (tree pair.new.0) }
    ensures value_partly { PartlySorted (tree pair.old.1) (tree pair.new.1) }
{
    pair.0.sort_maps(alloc)?;
    pair.1.sort_maps(alloc)
}

/// The entries by their keys; those with equal keys keep their order. After running out of memory they stand as before.
fn sort_entries(entries: &mut [(Content, Content)], alloc: Global) -> Result<(), OutOfMemory>
    ensures ok { OnOk result (InKeyOrder (map pair_tree entries.old) (map pair_tree entries.new)) }
    ensures partly { AsBeforeOrInKeyOrder
        (map pair_tree entries.old) (map pair_tree entries.new) }
{
    entries.sort_by(alloc, |left, right| left.0.compare_as_keys(&right.0))?;
    Ok(())
}

#[cycle(sort)]
fn sort_struct(list: Fields, alloc: Global) -> (Fields, Result<(), OutOfMemory>)
    ensures ok { OnOk result.1 (FieldsRearranged InKeyOrder
        (field_trees (field_list list)) (field_trees (field_list result.0))) }
    ensures partly { FieldsRearranged AsBeforeOrInKeyOrder
        (field_trees (field_list list)) (field_trees (field_list result.0)) }
{
    around!(sort_fields(list.into_vec(), alloc), fields => Fields::from_vec(fields))
}

#[cycle(sort)]
fn sort_fields(
    mut fields: Vec<(Text, Content)>,
    alloc: Global,
) -> (Vec<(Text, Content)>, Result<(), OutOfMemory>)
    ensures ok { OnOk result.1 (FieldsRearranged InKeyOrder
        (field_trees fields.items) (field_trees result.0.items)) }
    ensures partly { FieldsRearranged AsBeforeOrInKeyOrder
        (field_trees fields.items) (field_trees result.0.items) }
{
    for index in 0..fields.len() {
        match sort_field(&mut fields[index], alloc) {
            Ok(()) => {}
            Err(error) => return (fields, Err(error)),
        }
    }
    (fields, Ok(()))
}

#[cycle(sort)]
fn sort_field(field: &mut (Text, Content), alloc: Global) -> Result<(), OutOfMemory>
    ensures name { field.new.0 ≡ field.old.0 }
    ensures value { OnOk result (Sorted (tree field.old.1) (tree field.new.1)) }
    ensures partly { PartlySorted (tree field.old.1) (tree field.new.1) }
{
    field.1.sort_maps(alloc)
}
