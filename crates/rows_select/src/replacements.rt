//! What stands in place of a value, by its name in a column.
//!
//! `put` and a tree is that tree, `sorted` the value with its list in order. The others are a caller's own: `depth` is an object that
//! puts the number of steps to a value, `listed` a function that puts the value
//! into a list, and `none` a function that promises to put no value.
//! Each function makes its own box: a function may not make one and hand it out.
use rows::tree_of_column;
use snap_content::{Content, Items, OutOfMemory};
use snap_select::{Answers, ContentPath, FnRedactor, PathItem, Redaction, Redactor, Selector};
use std::alloc::Global;
use std::mem;
use thiserror::Error;

/// A column that names nothing to put.
#[derive(Clone, Copy, Debug, Error)]
#[error("NoReplacement")]
pub(crate) struct NoReplacement;

/// Puts what is named in place of what the selector hits.
pub(crate) fn put(
    alloc: Global,
    tree: &mut Content,
    selector: &Selector<'_>,
    name: &str,
) -> Result<(), anyhow::Error> {
    match name {
        "sorted" => Ok(redact(alloc, tree, selector, Redaction::Sorted)?),
        "depth" => Ok(put_depth(alloc, tree, selector)?),
        "listed" => Ok(put_listed(alloc, tree, selector)?),
        "none" => Ok(put_none(alloc, tree, selector)?),
        _ => put_tree(alloc, tree, selector, name),
    }
}

/// Makes of a tree what a redaction does, which ends here.
fn redact(
    alloc: Global,
    tree: &mut Content,
    selector: &Selector<'_>,
    redaction: Redaction,
) -> Result<(), OutOfMemory> {
    let done = redact_by(alloc, tree, selector, &redaction);
    drop(redaction);
    done
}

fn redact_by(
    alloc: Global,
    tree: &mut Content,
    selector: &Selector<'_>,
    redaction: &Redaction,
) -> Result<(), OutOfMemory> {
    let whole = mem::replace(tree, Content::Unit);
    drop(mem::replace(tree, selector.redact(alloc, whole, redaction)?));
    Ok(())
}

fn put_tree(
    alloc: Global,
    tree: &mut Content,
    selector: &Selector<'_>,
    name: &str,
) -> Result<(), anyhow::Error> {
    let Some(words) = name.strip_prefix("put ") else {
        return Err(NoReplacement.into());
    };
    let redaction = Redaction::from_content(tree_of_column(alloc, words)?);
    Ok(redact(alloc, tree, selector, redaction)?)
}

/// Puts the number of steps to it in place of each value.
#[derive(Drop)]
struct Depth;

impl Redactor for Depth {
    ghost use Rattle.std.specs.Prelude.{◌≡◌, length};
    ghost use Rattle.snap_content.specs.Tree as t;

    ghost allows = { λ _ _ steps out. out ≡ t.u64 (length steps) };

    fn redact(
        &self,
        _alloc: Global,
        value: Content,
        path: ContentPath<'_>,
    ) -> Result<Content, OutOfMemory> {
        drop(value);
        Ok(Content::U64(path.items().len() as u64))
    }
}

fn put_depth(
    alloc: Global,
    tree: &mut Content,
    selector: &Selector<'_>,
) -> Result<(), OutOfMemory> {
    let redaction = Redaction::Dynamic(Box::new(alloc, Depth)?);
    redact(alloc, tree, selector, redaction)
}

fn put_listed(
    alloc: Global,
    tree: &mut Content,
    selector: &Selector<'_>,
) -> Result<(), OutOfMemory> {
    let function = FnRedactor::new(Box::new(
        alloc,
        |alloc: Global, value: Content, _path: &[PathItem]| -> Result<Content, OutOfMemory> {
            let mut items = Items::new(alloc);
            items.push(value)?;
            Ok(Content::Seq(items))
        },
    )?);
    redact(alloc, tree, selector, Redaction::Function(function))
}

/// Each answer is no value.
struct EachNone;

impl Answers for EachNone {
    ghost use Rattle.std.specs.Prelude.{◌≡◌};
    ghost use Rattle.snap_content.specs.Tree as t;

    ghost answers = { λ _ _ out. out ≡ t.none };
}

fn put_none(alloc: Global, tree: &mut Content, selector: &Selector<'_>) -> Result<(), OutOfMemory> {
    let function = FnRedactor::promising::<EachNone>(Box::new(
        alloc,
        |_alloc: Global, _value: Content, _path: &[PathItem]| -> Result<Content, OutOfMemory> {
            Ok(Content::None)
        },
    )?);
    redact(alloc, tree, selector, Redaction::Function(function))
}
