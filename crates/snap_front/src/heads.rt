//! What is done with one document.
ghost use Rattle.std.specs.Prelude.{◌≡◌, None, true, IfErr, IfOk, OnErr};
ghost use Rattle.std.specs.Str.{chars};
ghost use Rattle.snap_content.specs.Plain.{plain};
ghost use Rattle.snap_content.specs.View.{tree};
ghost use Rattle.snap_print.specs.Blocks.{off};
ghost use Rattle.snap_print.specs.Lines.{lines_of};
ghost use Rattle.snap_print.specs.Printed.{AreRows};
ghost use Rattle.snap_print.specs.Readable.{IsWithin};
ghost use Rattle.snap_front.specs.Heads.{IsChanged, IsHeadOf, IsMapOf, is_empty_path, is_map, printed_of, remove_head, removed_reply, set_head, set_reply};
ghost use Rattle.snap_front.specs.Kept.{IsPrintOf};
ghost use Rattle.snap_front.specs.Paths.{steps_of};

use crate::path::Path;
use crate::reading::read_tree;
use crate::refusal::Refusal;
use crate::removing::remove_tree;
use crate::setting::set_tree;
use snap_content::{Content, OutOfMemory, Text};
use snap_emit::yaml::to_string;
use std::alloc::Global;

/// The tree, where it is a map.
fn map_of(made: Content) -> Result<Content, Refusal>
    ensures { IsMapOf (tree made) result }
{
    if is_map(&made) {
        Ok(made)
    } else {
        drop(made);
        Err(Refusal::NotMap)
    }
}

/// The map that the header reads as, or why it reads as none.
pub(crate) fn read_head(
    alloc: Global,
    header: &str,
) -> Result<Result<Content, Refusal>, OutOfMemory>
    ensures { IfOk result (λ read. IsHeadOf (chars header.now) read) }
{
    match read_tree(alloc, header)? {
        None => Ok(Err(Refusal::BadHeader)),
        Some(made) => Ok(map_of(made)),
    }
}

/// Whether the path has no step.
fn is_empty_path(path: &Path) -> bool
    ensures { result ≡ is_empty_path (steps_of path.now) }
{
    match path.steps() {
        [] => true,
        _ => false,
    }
}

/// Whether the tree is a map.
fn is_map(value: &Content) -> bool
    ensures { result ≡ is_map (tree value.now) }
{
    match value {
        Content::Map(_) => true,
        _ => false,
    }
}

/// Puts the value at the end of the path, or says why that can't be done. After out of memory the head is as it was.
pub(crate) fn set_value(
    alloc: Global,
    head: &mut Content,
    path: &Path,
    value: Content,
) -> Result<Option<Refusal>, OutOfMemory>
    ensures ok { IfOk result (λ refusal.
        IsChanged (set_head (steps_of path.now) (tree value) (tree head.old))
        (tree head.old) (tree head.new) (set_reply refusal)) }
    ensures err { OnErr result (tree head.new ≡ tree head.old) }
{
    if is_empty_path(path) && !is_map(&value) {
        drop(value);
        return Ok(Some(Refusal::NotMap));
    }
    if set_tree(head, path, value, alloc)? {
        Ok(None)
    } else {
        Ok(Some(Refusal::NoParent))
    }
}

/// Takes out what stands at the end of the path, or says why that can't be done.
pub(crate) fn remove_value(head: &mut Content, path: &Path) -> Result<Content, Refusal>
    ensures changed { IsChanged (remove_head (steps_of path.now) (tree head.old))
        (tree head.old) (tree head.new) (removed_reply result) }
    ensures no_head { IfErr result (λ _. (remove_head (steps_of path.now) (tree head.old)).0
        ≡ None) }
{
    if is_empty_path(path) {
        return Err(Refusal::Root);
    }
    match remove_tree(head, path) {
        Some(part) => Ok(part),
        None => Err(Refusal::Absent),
    }
}

/// The text of a document: its header, printed anew between two fences, and its body.
pub(crate) fn print_document(alloc: Global, head: &Content, body: &str) -> Result<Text, OutOfMemory>
    ensures printed { IfOk result (λ text. text ≡ printed_of (tree head.now) (chars body.now)) }
    // The document that is read again is this one.
    ensures again { is_map (tree head.now) ≡ true
        → IfOk result (λ text. IsPrintOf (tree head.now) (chars body.now) text) }
{
    printed_parts(alloc, head, body)
}

/// The printed header, a fence, and the body.
fn printed_parts(alloc: Global, head: &Content, body: &str) -> Result<Text, OutOfMemory>
    ensures printed { IfOk result (λ text. text ≡ printed_of (tree head.now) (chars body.now)) }
    ensures within { IfOk result (λ _. IsWithin (plain (tree head.now))) }
    ensures rows { IfOk result (λ _. AreRows (lines_of off (plain (tree head.now)))) }
{
    let mut text = to_string(alloc, head, false)?;
    text.push_ascii(alloc, "---\n")?;
    text.push_str(alloc, body)?;
    Ok(text)
}
