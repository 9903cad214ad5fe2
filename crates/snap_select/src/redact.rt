//! Redacted trees.
ghost use Rattle.std.specs.Prelude.{◌≡◌, ◌≢◌, false, ℕ, List, [], ◌∷◌, ◌++◌, length, map, codes, IfOk, OnOk};
ghost use Rattle.snap_content.specs.View.{tree, item_list, item_trees, pair_list, pair_trees, field_list, field_trees};
ghost use Rattle.snap_select.specs.Matching.{step_of, lent_step, to_item, into_field, under_key};
ghost use Rattle.snap_select.specs.Positions.{count_of};
ghost use Rattle.snap_select.specs.Put.{Puts};
ghost use Rattle.snap_select.specs.Redacting.{RedactedAt, Inside, ItemsRedacted, PairsRedacted, FieldsRedacted, IsRedacted};
ghost use Rattle.snap_select.specs.Reaching.{opens};
ghost use Rattle.snap_select.specs.Selectors.{parts_of};

use crate::path_item::PathItem;
use crate::put::Put;
use crate::redaction::Redaction;
use crate::redactor::Redactor;
use crate::selector::Selector;
use crate::step_ref::StepRef;
use snap_content::{Content, Fields, Items, OutOfMemory, Pairs, Text};
use std::alloc::Global;
use std::mem;

/// The step to the item at a place, counted from 0, of a list with so many.
fn item_step(place: usize, length: u64) -> PathItem
    ensures { step_of result ≡ to_item place length }
{
    PathItem::Index(place as u64, length)
}

/// The same step, lent.
fn lent_item(place: usize, length: u64) -> StepRef<'static>
    ensures { lent_step result ≡ to_item place length }
{
    StepRef::Item(place as u64, length)
}

/// The name of the field in which the key of a pair stands.
fn key_name(alloc: Global) -> Result<Text, OutOfMemory>
    ensures { IfOk result (λ name. name ≡ codes "$key") }
{
    Text::from_ascii(alloc, "$key")
}

// Where the walk itself ends a tree or a step, each later goal has the steps of that, and where one is alive at an early return,
// each of them is walked through there. So they end in calls of `drop`, and a name stands for the step that is made of it.

/// The name of the field that the step leads into. Any other step has none.
fn name_of(step: PathItem) -> Text
    ensures { (name : List ℕ) → step ≡ PathItem.Field name → result ≡ name }
{
    match step {
        PathItem::Field(name) => name,
        other => {
            drop(other);
            Text::empty()
        }
    }
}

/// The key that the step leads after. Any other step has none.
fn key_of(step: PathItem) -> Content
    ensures { (key : Content) → step ≡ PathItem.Content key → result ≡ key }
{
    match step {
        PathItem::Content(key) => key,
        _ => Content::Unit,
    }
}

/// What the redaction puts stands in place of the tree.
fn put_at<P: Put>(
    value: &mut Content,
    put: &P,
    alloc: Global,
    path: &[PathItem],
) -> Result<(), OutOfMemory>
    requires { P.can_put put.now }
    ensures { OnOk result (P.puts put.now (tree value.old) (map step_of path.now) (tree value.new)) }
{
    let whole = mem::replace(value, Content::Unit);
    drop(mem::replace(value, put.put(alloc, whole, path)?));
    Ok(())
}

/// The last step of the path, which is taken from it.
fn taken_step(path: &mut Vec<PathItem>) -> PathItem
    requires { length path.old.items ≢ 0 }
    ensures { path.old.items ≡ path.new.items ++ result ∷ [] }
{
    path.pop().unwrap()
}

/// The tree at a path, redacted in its place. Where no match can lie below, it isn't seen.
#[cycle(redact)]
fn redact_at<P: Put>(
    value: &mut Content,
    selector: &Selector<'_>,
    put: &P,
    alloc: Global,
    path: &mut Vec<PathItem>,
) -> Result<(), OutOfMemory>
    requires { P.can_put put.now }
    ensures ok { OnOk result (RedactedAt (parts_of selector.now) (P.puts put.now)
        (map step_of path.old.items) (tree value.old) (tree value.new)) }
    ensures path { OnOk result (path.new.items ≡ path.old.items) }
{
    if selector.is_match(path.as_slice()) {
        return put_at(value, put, alloc, path.as_slice());
    }
    if !selector.reaches(path.as_slice()) {
        return Ok(());
    }
    let whole = mem::replace(value, Content::Unit);
    drop(mem::replace(value, redact_inside(whole, selector, put, alloc, path)?));
    Ok(())
}

/// The same after one step more, which comes back.
#[cycle(redact)]
fn redact_behind<P: Put>(
    value: &mut Content,
    step: PathItem,
    selector: &Selector<'_>,
    put: &P,
    alloc: Global,
    path: &mut Vec<PathItem>,
) -> Result<PathItem, OutOfMemory>
    requires { P.can_put put.now }
    ensures ok { OnOk result (RedactedAt (parts_of selector.now) (P.puts put.now)
        (map step_of path.old.items ++ step_of step ∷ []) (tree value.old) (tree value.new)) }
    ensures step { IfOk result (λ back. back ≡ step) }
    ensures path { OnOk result (path.new.items ≡ path.old.items) }
{
    path.push(step)?;
    redact_at(value, selector, put, alloc, path)?;
    Ok(taken_step(path))
}

/// The same in a box, after the same steps.
#[cycle(redact)]
fn redact_box<P: Put>(
    mut inner: Box<Content>,
    selector: &Selector<'_>,
    put: &P,
    alloc: Global,
    path: &mut Vec<PathItem>,
) -> Result<Box<Content>, OutOfMemory>
    requires { P.can_put put.now }
    ensures ok { IfOk result (λ out. RedactedAt (parts_of selector.now) (P.puts put.now)
        (map step_of path.old.items) (tree inner.value) (tree out.value)) }
    ensures path { OnOk result (path.new.items ≡ path.old.items) }
{
    redact_at(&mut inner, selector, put, alloc, path)?;
    Ok(inner)
}

/// The tree at a path that isn't matched, with its parts redacted in their places: of the tree itself only the node is moved.
#[cycle(redact)]
fn redact_inside<P: Put>(
    value: Content,
    selector: &Selector<'_>,
    put: &P,
    alloc: Global,
    path: &mut Vec<PathItem>,
) -> Result<Content, OutOfMemory>
    requires { P.can_put put.now }
    ensures ok { IfOk result (λ out. Inside (parts_of selector.now) (P.puts put.now)
        (map step_of path.old.items) (tree value) (tree out)) }
    ensures path { OnOk result (path.new.items ≡ path.old.items) }
{
    match value {
        Content::Some(inner) => {
            Ok(Content::Some(redact_box(inner, selector, put, alloc, path)?))
        }
        Content::NewtypeStruct(name, inner) => {
            let inner = redact_box(inner, selector, put, alloc, path)?;
            Ok(Content::NewtypeStruct(name, inner))
        }
        Content::NewtypeVariant(name, index, variant, inner) => {
            let inner = redact_box(inner, selector, put, alloc, path)?;
            Ok(Content::NewtypeVariant(name, index, variant, inner))
        }
        Content::Seq(items) => { Ok(Content::Seq(redact_list(items, selector, put, alloc, path)?)) }
        Content::Tuple(items) => {
            Ok(Content::Tuple(redact_list(items, selector, put, alloc, path)?))
        }
        Content::TupleStruct(name, items) => {
            let items = redact_list(items, selector, put, alloc, path)?;
            Ok(Content::TupleStruct(name, items))
        }
        Content::TupleVariant(name, index, variant, items) => {
            let items = redact_list(items, selector, put, alloc, path)?;
            Ok(Content::TupleVariant(name, index, variant, items))
        }
        Content::Map(pairs) => { Ok(Content::Map(redact_map(pairs, selector, put, alloc, path)?)) }
        Content::Struct(name, fields) => {
            let fields = redact_struct(fields, selector, put, alloc, path)?;
            Ok(Content::Struct(name, fields))
        }
        Content::StructVariant(name, index, variant, fields) => {
            let fields = redact_struct(fields, selector, put, alloc, path)?;
            Ok(Content::StructVariant(name, index, variant, fields))
        }
        leaf => Ok(leaf),
    }
}

/// The items of a list, each redacted after its place.
#[cycle(redact)]
fn redact_list<P: Put>(
    list: Items,
    selector: &Selector<'_>,
    put: &P,
    alloc: Global,
    path: &mut Vec<PathItem>,
) -> Result<Items, OutOfMemory>
    requires { P.can_put put.now }
    ensures ok { IfOk result (λ out. ItemsRedacted (parts_of selector.now) (P.puts put.now)
        (map step_of path.old.items) (count_of (item_trees (item_list list))) 0
        (item_trees (item_list list)) (item_trees (item_list out))) }
    ensures path { OnOk result (path.new.items ≡ path.old.items) }
{
    let mut items = list.into_vec();
    redact_items(items.as_mut_slice(), selector, put, alloc, path)?;
    Ok(Items::from_vec(items))
}

#[cycle(redact)]
fn redact_items<P: Put>(
    items: &mut [Content],
    selector: &Selector<'_>,
    put: &P,
    alloc: Global,
    path: &mut Vec<PathItem>,
) -> Result<(), OutOfMemory>
    requires { P.can_put put.now }
    ensures ok { OnOk result (ItemsRedacted (parts_of selector.now) (P.puts put.now)
        (map step_of path.old.items) (count_of (item_trees items.old)) 0
        (item_trees items.old) (item_trees items.new)) }
    ensures path { OnOk result (path.new.items ≡ path.old.items) }
{
    let length = items.len() as u64;
    for index in 0..items.len() {
        redact_item(&mut items[index], index, length, selector, put, alloc, path)?;
    }
    Ok(())
}

/// The item at a place, redacted after it.
#[cycle(redact)]
fn redact_item<P: Put>(
    item: &mut Content,
    place: usize,
    length: u64,
    selector: &Selector<'_>,
    put: &P,
    alloc: Global,
    path: &mut Vec<PathItem>,
) -> Result<(), OutOfMemory>
    requires { P.can_put put.now }
    ensures ok { OnOk result (RedactedAt (parts_of selector.now) (P.puts put.now)
        (map step_of path.old.items ++ to_item place length ∷ []) (tree item.old)
        (tree item.new)) }
    ensures path { OnOk result (path.new.items ≡ path.old.items) }
{
    if !selector.opens(path.len(), lent_item(place, length)) {
        return Ok(());
    }
    let step = item_step(place, length);
    drop(redact_behind(item, step, selector, put, alloc, path)?);
    Ok(())
}

/// The pairs of a map, each key redacted under the field `$key`, and each value under its key as it was.
#[cycle(redact)]
fn redact_map<P: Put>(
    list: Pairs,
    selector: &Selector<'_>,
    put: &P,
    alloc: Global,
    path: &mut Vec<PathItem>,
) -> Result<Pairs, OutOfMemory>
    requires { P.can_put put.now }
    ensures ok { IfOk result (λ out. PairsRedacted (parts_of selector.now) (P.puts put.now)
        (map step_of path.old.items) (pair_trees (pair_list list)) (pair_trees (pair_list out))) }
    ensures path { OnOk result (path.new.items ≡ path.old.items) }
{
    let mut pairs = list.into_vec();
    redact_pairs(pairs.as_mut_slice(), selector, put, alloc, path)?;
    Ok(Pairs::from_vec(pairs))
}

#[cycle(redact)]
fn redact_pairs<P: Put>(
    pairs: &mut [(Content, Content)],
    selector: &Selector<'_>,
    put: &P,
    alloc: Global,
    path: &mut Vec<PathItem>,
) -> Result<(), OutOfMemory>
    requires { P.can_put put.now }
    ensures ok { OnOk result (PairsRedacted (parts_of selector.now) (P.puts put.now)
        (map step_of path.old.items) (pair_trees pairs.old) (pair_trees pairs.new)) }
    ensures path { OnOk result (path.new.items ≡ path.old.items) }
{
    let mut name = key_name(alloc)?;
    let keys = selector.opens(path.len(), StepRef::Field(name.as_str()));
    for index in 0..pairs.len() {
        redact_pair(
            &mut pairs[index],
            keys,
            &mut name,
            selector,
            put,
            alloc,
            path,
        )?;
    }
    Ok(())
}

/// First the value, so that its step has the key as it was; then the key after the field of that name, where a match may lie there.
#[cycle(redact)]
fn redact_pair<P: Put>(
    pair: &mut (Content, Content),
    keys: bool,
    name: &mut Text,
    selector: &Selector<'_>,
    put: &P,
    alloc: Global,
    path: &mut Vec<PathItem>,
) -> Result<(), OutOfMemory>
    requires put { P.can_put put.now }
    requires keys { keys ≡ false → opens (parts_of selector.now) (length path.old.items)
        (into_field name.old) ≡ false }
    ensures key { OnOk result (RedactedAt (parts_of selector.now) (P.puts put.now)
        (map step_of path.old.items ++ into_field name.old ∷ []) (tree pair.old.0)
        (tree pair.new.0)) }
    ensures value { OnOk result (RedactedAt (parts_of selector.now) (P.puts put.now)
        (map step_of path.old.items ++ under_key (tree pair.old.0) ∷ []) (tree pair.old.1)
        (tree pair.new.1)) }
    ensures name { OnOk result (name.new ≡ name.old) }
    ensures path { OnOk result (path.new.items ≡ path.old.items) }
{
    redact_value(pair, selector, put, alloc, path)?;
    if !keys {
        return Ok(());
    }
    redact_named(&mut pair.0, name, selector, put, alloc, path)
}

/// The value of a pair, redacted after its key.
#[cycle(redact)]
fn redact_value<P: Put>(
    pair: &mut (Content, Content),
    selector: &Selector<'_>,
    put: &P,
    alloc: Global,
    path: &mut Vec<PathItem>,
) -> Result<(), OutOfMemory>
    requires { P.can_put put.now }
    ensures value { OnOk result (RedactedAt (parts_of selector.now) (P.puts put.now)
        (map step_of path.old.items ++ under_key (tree pair.old.0) ∷ []) (tree pair.old.1)
        (tree pair.new.1)) }
    ensures key { OnOk result (pair.new.0 ≡ pair.old.0) }
    ensures path { OnOk result (path.new.items ≡ path.old.items) }
{
    if !selector.opens(path.len(), StepRef::Key(&pair.0)) {
        return Ok(());
    }
    let step = PathItem::Content(mem::replace(&mut pair.0, Content::Unit));
    let step = redact_behind(&mut pair.1, step, selector, put, alloc, path)?;
    drop(mem::replace(&mut pair.0, key_of(step)));
    Ok(())
}

/// The tree in the field of that name, redacted after it.
#[cycle(redact)]
fn redact_named<P: Put>(
    value: &mut Content,
    name: &mut Text,
    selector: &Selector<'_>,
    put: &P,
    alloc: Global,
    path: &mut Vec<PathItem>,
) -> Result<(), OutOfMemory>
    requires { P.can_put put.now }
    ensures value { OnOk result (RedactedAt (parts_of selector.now) (P.puts put.now)
        (map step_of path.old.items ++ into_field name.old ∷ []) (tree value.old)
        (tree value.new)) }
    ensures name { OnOk result (name.new ≡ name.old) }
    ensures path { OnOk result (path.new.items ≡ path.old.items) }
{
    if !selector.opens(path.len(), StepRef::Field(name.as_str())) {
        return Ok(());
    }
    let step = PathItem::Field(mem::replace(name, Text::empty()));
    *name = name_of(redact_behind(value, step, selector, put, alloc, path)?);
    Ok(())
}

/// The fields of a struct, each redacted after its name.
#[cycle(redact)]
fn redact_struct<P: Put>(
    list: Fields,
    selector: &Selector<'_>,
    put: &P,
    alloc: Global,
    path: &mut Vec<PathItem>,
) -> Result<Fields, OutOfMemory>
    requires { P.can_put put.now }
    ensures ok { IfOk result (λ out. FieldsRedacted (parts_of selector.now) (P.puts put.now)
        (map step_of path.old.items) (field_trees (field_list list)) (field_trees (field_list out))) }
    ensures path { OnOk result (path.new.items ≡ path.old.items) }
{
    let mut fields = list.into_vec();
    redact_fields(fields.as_mut_slice(), selector, put, alloc, path)?;
    Ok(Fields::from_vec(fields))
}

#[cycle(redact)]
fn redact_fields<P: Put>(
    fields: &mut [(Text, Content)],
    selector: &Selector<'_>,
    put: &P,
    alloc: Global,
    path: &mut Vec<PathItem>,
) -> Result<(), OutOfMemory>
    requires { P.can_put put.now }
    ensures ok { OnOk result (FieldsRedacted (parts_of selector.now) (P.puts put.now)
        (map step_of path.old.items) (field_trees fields.old) (field_trees fields.new)) }
    ensures path { OnOk result (path.new.items ≡ path.old.items) }
{
    for index in 0..fields.len() {
        redact_field(&mut fields[index], selector, put, alloc, path)?;
    }
    Ok(())
}

#[cycle(redact)]
fn redact_field<P: Put>(
    field: &mut (Text, Content),
    selector: &Selector<'_>,
    put: &P,
    alloc: Global,
    path: &mut Vec<PathItem>,
) -> Result<(), OutOfMemory>
    requires { P.can_put put.now }
    ensures value { OnOk result (RedactedAt (parts_of selector.now) (P.puts put.now)
        (map step_of path.old.items ++ into_field field.old.0 ∷ []) (tree field.old.1)
        (tree field.new.1)) }
    ensures name { OnOk result (field.new.0 ≡ field.old.0) }
    ensures path { OnOk result (path.new.items ≡ path.old.items) }
{
    redact_named(&mut field.1, &mut field.0, selector, put, alloc, path)
}

/// The whole tree, redacted in its place.
fn redact_tree<P: Put>(
    value: &mut Content,
    selector: &Selector<'_>,
    put: &P,
    alloc: Global,
) -> Result<(), OutOfMemory>
    requires { P.can_put put.now }
    ensures { OnOk result (IsRedacted (parts_of selector.now) (P.puts put.now)
        (tree value.old) (tree value.new)) }
{
    let mut path = Vec::new(alloc);
    redact_at(value, selector, put, alloc, &mut path)
}

/// The same of a tree that is handed in and comes back.
fn redact_whole<P: Put>(
    mut value: Content,
    selector: &Selector<'_>,
    put: &P,
    alloc: Global,
) -> Result<Content, OutOfMemory>
    requires { P.can_put put.now }
    ensures { IfOk result (λ out. IsRedacted (parts_of selector.now) (P.puts put.now)
        (tree value) (tree out)) }
{
    let done = redact_tree(&mut value, selector, put, alloc);
    match done {
        Ok(()) => Ok(value),
        Err(error) => {
            drop(value);
            Err(error)
        }
    }
}

impl Selector<'_> {
    ghost use Rattle.snap_select.specs.Redacts.{IsHit, Redacts};

    /// The tree with what the redaction puts in place of each part whose path the selector matches. Nothing below such a part is visited.
    /// The path of the tree is empty. The key of a map stands in the field `$key`, its value under the key as it was; an
    /// item of a list, a tuple, a tuple struct and a tuple variant at its place, and the value of a field under the
    /// field's name. `Some`, newtypes and names of variants add nothing to a path. The one error is out of memory.
    pub fn redact(
        &self,
        alloc: Global,
        value: Content,
        redaction: &Redaction,
    ) -> Result<Content, OutOfMemory>
        ensures redacted { IfOk result (λ out. Redacts (parts_of self.now)
            (Puts (λ v. (⟦<dyn Redactor as Redactor>⟧ v).allows) redaction.now)
            (tree value) (tree out)) }
        ensures untouched { IfOk result (λ out. ((position : List ℕ)
            → ¬ IsHit (parts_of self.now) [] (tree value) position) → tree out ≡ tree value) }
        // Part by part, for who has to name the tree.
        ensures parts { IfOk result (λ out. IsRedacted (parts_of self.now)
            (Puts (λ v. (⟦<dyn Redactor as Redactor>⟧ v).allows) redaction.now)
            (tree value) (tree out)) }
    {
        let put = |alloc: Global, value: Content, path: &[PathItem]| -> Result<
            Content,
            OutOfMemory,
        > { redaction.put(alloc, value, path) };
        redact_whole(value, self, &put, alloc)
    }
}
