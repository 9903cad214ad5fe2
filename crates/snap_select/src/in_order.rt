//! Trees whose list is in order.
ghost use Rattle.std.specs.Prelude.{◌≡◌, map, IfOk, OnOk};
ghost use Rattle.snap_content.specs.Orders.{tree_cmp};
ghost use Rattle.snap_content.specs.View.{tree, item_list, pair_tree, pair_list, field_tree, field_list};
ghost use Rattle.snap_select.specs.InOrder.{ordered, pair_cmp, field_cmp, in_order};

use snap_content::{Content, Fields, Items, OutOfMemory, Pairs, Text};
use std::alloc::Global;
use std::cmp::Ordering;

/// The tree with its list in order, after its wrappers.
#[cycle(in_order)]
pub(crate) fn in_order(alloc: Global, value: Content) -> Result<Content, OutOfMemory>
    ensures { IfOk result (λ out. tree out ≡ in_order (tree value)) }
{
    match value {
        Content::Some(inner) => Ok(Content::Some(box_in_order(alloc, inner)?)),
        Content::NewtypeStruct(name, inner) => {
            Ok(Content::NewtypeStruct(name, box_in_order(alloc, inner)?))
        }
        Content::NewtypeVariant(name, index, variant, inner) => {
            let inner = box_in_order(alloc, inner)?;
            Ok(Content::NewtypeVariant(name, index, variant, inner))
        }
        Content::Seq(items) => Ok(Content::Seq(items_in_order(alloc, items)?)),
        Content::Map(pairs) => Ok(Content::Map(pairs_in_order(alloc, pairs)?)),
        Content::Struct(name, fields) => {
            Ok(Content::Struct(name, fields_in_order(alloc, fields)?))
        }
        Content::StructVariant(name, index, variant, fields) => {
            let fields = fields_in_order(alloc, fields)?;
            Ok(Content::StructVariant(name, index, variant, fields))
        }
        other => Ok(other),
    }
}

#[cycle(in_order)]
fn box_in_order(alloc: Global, inner: Box<Content>) -> Result<Box<Content>, OutOfMemory>
    ensures { IfOk result (λ out. tree out.value ≡ in_order (tree inner.value)) }
{
    let inner = in_order(alloc, Box::into_inner(inner))?;
    Ok(Box::new(alloc, inner)?)
}

fn sort_items(items: &mut [Content], alloc: Global) -> Result<(), OutOfMemory>
    ensures { OnOk result (map tree items.new ≡ ordered tree_cmp (map tree items.old)) }
{
    items.sort_by(alloc, |left, right| left.compare(right))?;
    Ok(())
}

fn items_in_order(alloc: Global, list: Items) -> Result<Items, OutOfMemory>
    ensures { IfOk result (λ out. map tree (item_list out)
        ≡ ordered tree_cmp (map tree (item_list list))) }
{
    let mut items = list.into_vec();
    sort_items(items.as_mut_slice(), alloc)?;
    Ok(Items::from_vec(items))
}

/// The order of keys, and that of values where the keys are equal.
fn compare_pairs(left: &(Content, Content), right: &(Content, Content)) -> Ordering
    ensures { result ≡ pair_cmp (pair_tree left.now) (pair_tree right.now) }
{
    match left.0.compare(&right.0) {
        Ordering::Equal => left.1.compare(&right.1),
        unequal => unequal,
    }
}

fn sort_pairs(pairs: &mut [(Content, Content)], alloc: Global) -> Result<(), OutOfMemory>
    ensures { OnOk result (map pair_tree pairs.new ≡ ordered pair_cmp (map pair_tree pairs.old)) }
{
    pairs.sort_by(alloc, |left, right| compare_pairs(left, right))?;
    Ok(())
}

fn pairs_in_order(alloc: Global, list: Pairs) -> Result<Pairs, OutOfMemory>
    ensures { IfOk result (λ out. map pair_tree (pair_list out)
        ≡ ordered pair_cmp (map pair_tree (pair_list list))) }
{
    let mut pairs = list.into_vec();
    sort_pairs(pairs.as_mut_slice(), alloc)?;
    Ok(Pairs::from_vec(pairs))
}

/// The order of names, and that of values where the names are equal.
fn compare_fields(left: &(Text, Content), right: &(Text, Content)) -> Ordering
    ensures { result ≡ field_cmp (field_tree left.now) (field_tree right.now) }
{
    match left.0.cmp(&right.0) {
        Ordering::Equal => left.1.compare(&right.1),
        unequal => unequal,
    }
}

fn sort_fields(fields: &mut [(Text, Content)], alloc: Global) -> Result<(), OutOfMemory>
    ensures { OnOk result (map field_tree fields.new
        ≡ ordered field_cmp (map field_tree fields.old)) }
{
    fields.sort_by(alloc, |left, right| compare_fields(left, right))?;
    Ok(())
}

fn fields_in_order(alloc: Global, list: Fields) -> Result<Fields, OutOfMemory>
    ensures { IfOk result (λ out. map field_tree (field_list out)
        ≡ ordered field_cmp (map field_tree (field_list list))) }
{
    let mut fields = list.into_vec();
    sort_fields(fields.as_mut_slice(), alloc)?;
    Ok(Fields::from_vec(fields))
}
