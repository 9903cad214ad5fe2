//! Walks over a tree.
ghost use Rattle.std.specs.Prelude.{◌≡◌, ◌≤◌};
ghost use Rattle.snap_content.specs.View.{tree, item_list, item_trees, pair_list, pair_trees, field_list, field_trees};
ghost use Rattle.snap_content.specs.Count.{count, count_items, count_pairs, count_fields};
ghost use Rattle.snap_content.specs.Walked.{Calls, NeverGrows, Walked, WalkedInside, ItemsWalked, PairsWalked, FieldsWalked};

use crate::content::Content;
use crate::lists::{Fields, Items, Pairs};
use crate::text::Text;
use std::mem;

impl Content {
    /// Visits the tree, and then each child that it has after that, where the visitor answers true;
    /// of a pair the key, then the value. A visitor may change what it visits, but leaves no more nodes in it.
    #[cycle(walk)]
    pub fn walk<F: FnMut(&mut Content) -> bool>(&mut self, visit: &mut F)
        requires callable { F.IsAlwaysCallable visit.old }
        requires shrinks { NeverGrows F.FnMut }
        ensures calls { Walked (Calls F.FnMut) visit.old (tree self.old) (tree self.new) visit.new }
        ensures callable { F.IsAlwaysCallable visit.new }
        ensures shrinks { count (tree self.new) ≤ count (tree self.old) }
    {
        if visit(self) {
            let whole = mem::replace(self, Content::Unit);
            // Ended by a call, since each later goal has the steps of what the walk itself ends.
            drop(mem::replace(self, walk_inside(whole, visit)));
        }
    }
}

#[cycle(walk)]
fn walk_inside<F: FnMut(&mut Content) -> bool>(node: Content, visit: &mut F) -> Content
    requires callable { F.IsAlwaysCallable visit.old }
    requires shrinks { NeverGrows F.FnMut }
    ensures calls { WalkedInside (Calls F.FnMut) visit.old (tree node) (tree result) visit.new }
    ensures callable { F.IsAlwaysCallable visit.new }
    ensures shrinks { count (tree result) ≤ count (tree node) }
{
    match node {
        Content::Some(inner) => Content::Some(walk_box(inner, visit)),
        Content::NewtypeStruct(name, inner) => Content::NewtypeStruct(name, walk_box(inner, visit)),
        Content::NewtypeVariant(name, index, variant, inner) => {
            Content::NewtypeVariant(name, index, variant, walk_box(inner, visit))
        }
        Content::Seq(items) => Content::Seq(walk_list(items, visit)),
        Content::Tuple(items) => Content::Tuple(walk_list(items, visit)),
        Content::TupleStruct(name, items) => Content::TupleStruct(name, walk_list(items, visit)),
        Content::TupleVariant(name, index, variant, items) => {
            Content::TupleVariant(name, index, variant, walk_list(items, visit))
        }
        Content::Map(pairs) => Content::Map(walk_map(pairs, visit)),
        Content::Struct(name, fields) => Content::Struct(name, walk_struct(fields, visit)),
        Content::StructVariant(name, index, variant, fields) => {
            Content::StructVariant(name, index, variant, walk_struct(fields, visit))
        }
        leaf => leaf,
    }
}

#[cycle(walk)]
fn walk_box<F: FnMut(&mut Content) -> bool>(mut inner: Box<Content>, visit: &mut F) -> Box<Content>
    requires callable { F.IsAlwaysCallable visit.old }
    requires shrinks { NeverGrows F.FnMut }
    ensures calls { Walked (Calls F.FnMut) visit.old (tree inner.value) (tree result.value)
        visit.new }
    ensures callable { F.IsAlwaysCallable visit.new }
    ensures shrinks { count (tree result.value) ≤ count (tree inner.value) }
{
    inner.walk(visit);
    inner
}

#[cycle(walk)]
fn walk_list<F: FnMut(&mut Content) -> bool>(list: Items, visit: &mut F) -> Items
    requires callable { F.IsAlwaysCallable visit.old }
    requires shrinks { NeverGrows F.FnMut }
    ensures calls { ItemsWalked (Calls F.FnMut) visit.old (item_trees (item_list list))
        (item_trees (item_list result)) visit.new }
    ensures callable { F.IsAlwaysCallable visit.new }
    ensures shrinks { count_items (item_trees (item_list result))
        ≤ count_items (item_trees (item_list list)) }
{
    Items::from_vec(walk_items(list.into_vec(), visit))
}

#[cycle(walk)]
fn walk_items<F: FnMut(&mut Content) -> bool>(
    mut items: Vec<Content>,
    visit: &mut F,
) -> Vec<Content>
    requires callable { F.IsAlwaysCallable visit.old }
    requires shrinks { NeverGrows F.FnMut }
    ensures calls { ItemsWalked (Calls F.FnMut) visit.old (item_trees items.items)
        (item_trees result.items) visit.new }
    ensures callable { F.IsAlwaysCallable visit.new }
    ensures shrinks { count_items (item_trees result.items)
        ≤ count_items (item_trees items.items) }
{
    for index in 0..items.len() {
        items[index].walk(visit);
    }
    items
}

#[cycle(walk)]
fn walk_map<F: FnMut(&mut Content) -> bool>(list: Pairs, visit: &mut F) -> Pairs
    requires callable { F.IsAlwaysCallable visit.old }
    requires shrinks { NeverGrows F.FnMut }
    ensures calls { PairsWalked (Calls F.FnMut) visit.old (pair_trees (pair_list list))
        (pair_trees (pair_list result)) visit.new }
    ensures callable { F.IsAlwaysCallable visit.new }
    ensures shrinks { count_pairs (pair_trees (pair_list result))
        ≤ count_pairs (pair_trees (pair_list list)) }
{
    Pairs::from_vec(walk_pairs(list.into_vec(), visit))
}

#[cycle(walk)]
fn walk_pairs<F: FnMut(&mut Content) -> bool>(
    mut items: Vec<(Content, Content)>,
    visit: &mut F,
) -> Vec<(Content, Content)>
    requires callable { F.IsAlwaysCallable visit.old }
    requires shrinks { NeverGrows F.FnMut }
    ensures calls { PairsWalked (Calls F.FnMut) visit.old (pair_trees items.items)
        (pair_trees result.items) visit.new }
    ensures callable { F.IsAlwaysCallable visit.new }
    ensures shrinks { count_pairs (pair_trees result.items)
        ≤ count_pairs (pair_trees items.items) }
{
    for index in 0..items.len() {
        walk_pair(&mut items[index], visit);
    }
    items
}

#[cycle(walk)]
fn walk_pair<F: FnMut(&mut Content) -> bool>(pair: &mut (Content, Content), visit: &mut F)
    requires callable { F.IsAlwaysCallable visit.old }
    requires shrinks { NeverGrows F.FnMut }
    ensures calls { (between : F)
        × Walked (Calls F.FnMut) visit.old (tree pair.old.0) (tree pair.new.0) between
        × Walked (Calls F.FnMut) between (tree pair.old.1) (tree pair.new.1) visit.new }
    ensures callable { F.IsAlwaysCallable visit.new }
    ensures key { count (tree pair.new.0) ≤ count (tree pair.old.0) }
    ensures value { count (tree pair.new.1) ≤ count (tree pair.old.1) }
{
    pair.0.walk(visit);
    pair.1.walk(visit);
}

#[cycle(walk)]
fn walk_struct<F: FnMut(&mut Content) -> bool>(list: Fields, visit: &mut F) -> Fields
    requires callable { F.IsAlwaysCallable visit.old }
    requires shrinks { NeverGrows F.FnMut }
    ensures calls { FieldsWalked (Calls F.FnMut) visit.old (field_trees (field_list list))
        (field_trees (field_list result)) visit.new }
    ensures callable { F.IsAlwaysCallable visit.new }
    ensures shrinks { count_fields (field_trees (field_list result))
        ≤ count_fields (field_trees (field_list list)) }
{
    Fields::from_vec(walk_fields(list.into_vec(), visit))
}

#[cycle(walk)]
fn walk_fields<F: FnMut(&mut Content) -> bool>(
    mut items: Vec<(Text, Content)>,
    visit: &mut F,
) -> Vec<(Text, Content)>
    requires callable { F.IsAlwaysCallable visit.old }
    requires shrinks { NeverGrows F.FnMut }
    ensures calls { FieldsWalked (Calls F.FnMut) visit.old (field_trees items.items)
        (field_trees result.items) visit.new }
    ensures callable { F.IsAlwaysCallable visit.new }
    ensures shrinks { count_fields (field_trees result.items)
        ≤ count_fields (field_trees items.items) }
{
    for index in 0..items.len() {
        walk_field(&mut items[index], visit);
    }
    items
}

#[cycle(walk)]
fn walk_field<F: FnMut(&mut Content) -> bool>(field: &mut (Text, Content), visit: &mut F)
    requires callable { F.IsAlwaysCallable visit.old }
    requires shrinks { NeverGrows F.FnMut }
    ensures calls { Walked (Calls F.FnMut) visit.old (tree field.old.1) (tree field.new.1)
        visit.new }
    ensures name { field.new.0 ≡ field.old.0 }
    ensures callable { F.IsAlwaysCallable visit.new }
    ensures shrinks { count (tree field.new.1) ≤ count (tree field.old.1) }
{
    field.1.walk(visit);
}
