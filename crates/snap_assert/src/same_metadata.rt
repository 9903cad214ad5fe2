//! Whether two metadata are the same but for the line.
ghost use Rattle.std.specs.Prelude.{◌≡◌, ◌↔◌, IfOk, IsTrue, option_map};
ghost use Rattle.std.specs.Str.{chars};
ghost use Rattle.snap_content.specs.Plain.{plain};
ghost use Rattle.snap_content.specs.View.{tree};
ghost use Rattle.snap_assert.specs.Default.{SameMeta, SameNames, PrintsInfo, filled, plain_info};
ghost use Rattle.snap_store.specs.Meta.{Meta, without_line};
ghost use Rattle.snap_store.specs.MetaTree.{TellsFields, without_nil_info};
ghost use Rattle.snap_store.specs.Views.{meta_of};

use snap_content::{Content, OutOfMemory, Text, characters};
use snap_emit::body_to_string;
use snap_fields::fields::text_named;
use snap_store::{MetaData, SnapshotKind};
use std::alloc::Global;

/// Whether both are one text.
fn is_same_text(old: &str, new: &str) -> bool
    ensures { IsTrue result ↔ (chars old.now ≡ chars new.now) }
{
    old == new
}

/// Whether both are one text, or both are absent.
fn is_same(old: Option<&str>, new: Option<&str>) -> bool
    ensures { IsTrue result ↔ (option_map (λ text. chars text.now) old.entry
        ≡ option_map (λ text. chars text.now) new.entry) }
{
    match (old, new) {
        (None, None) => true,
        (Some(old), Some(new)) => is_same_text(old, new),
        (None, Some(_)) | (Some(_), None) => false,
    }
}

/// Whether both are one text, or none.
fn is_same_held(old: &Option<Text>, new: &Option<Text>) -> bool
    ensures { IsTrue result ↔ (old.now ≡ new.now) }
{
    old == new
}

/// Whether both are one kind.
pub(crate) fn is_same_kind(old: &SnapshotKind, new: &SnapshotKind) -> bool
    ensures { IsTrue result ↔ (old.now ≡ new.now) }
{
    old == new
}

/// Whether the source, the expression, the input file and the kind are the same.
fn have_same_names(old: &MetaData, new: &MetaData) -> bool
    ensures { IsTrue result ↔ SameNames (meta_of old.now) (meta_of new.now) }
{
    is_same(old.source(), new.source())
        && is_same(old.expression(), new.expression())
        && is_same(old.input_file(), new.input_file())
        && is_same_kind(old.kind(), new.kind())
}

/// The metadata without their line, as a tree.
fn tree_without_line(alloc: Global, metadata: &MetaData) -> Result<Content, OutOfMemory>
    ensures { IfOk result (λ made. TellsFields (tree made)
        (without_nil_info (without_line (meta_of metadata.now)))) }
{
    let mut kept = metadata.try_clone(alloc)?;
    kept.set_assertion_line(None);
    let made = kept.to_content(alloc);
    drop(kept);
    made
}

/// The description that the tree of metadata tells, also an empty one.
fn told_description(alloc: Global, content: &Content) -> Result<Option<Text>, OutOfMemory>
    ensures { IfOk result (λ text. (meta : Meta) → TellsFields (tree content.now) meta
        → text ≡ meta.description) }
{
    let Content::Map(pairs) = content else {
        return Ok(None);
    };
    match text_named(pairs.as_slice(), "description") {
        None => Ok(None),
        Some(text) => Ok(Some(Text::from_str(alloc, text)?)),
    }
}

/// The description as it stands, which the metadata themselves show where it is not empty.
fn description(alloc: Global, metadata: &MetaData) -> Result<Option<Text>, OutOfMemory>
    ensures { IfOk result (λ text. text ≡ (meta_of metadata.now).description) }
{
    let content = tree_without_line(alloc, metadata)?;
    let text = told_description(alloc, &content);
    drop(content);
    text
}

/// Whether both have one description, or none.
fn is_same_description(alloc: Global, old: &MetaData, new: &MetaData) -> Result<bool, OutOfMemory>
    ensures { IfOk result (λ same. IsTrue same
        ↔ ((meta_of old.now).description ≡ (meta_of new.now).description)) }
{
    let old = description(alloc, old)?;
    let new = description(alloc, new)?;
    Ok(is_same_held(&old, &new))
}

/// The text of an info, and none where its plain form is null, whose text is `~`.
fn filled_text(alloc: Global, info: &Content) -> Result<Option<Text>, OutOfMemory>
    ensures { IfOk result (λ text. PrintsInfo (filled (plain (tree info.now))) text) }
{
    let text = body_to_string(alloc, info, false)?;
    if characters::is_same(text.as_str(), "~\n") {
        return Ok(None);
    }
    Ok(Some(text))
}

/// The text of an info, where there is one.
fn info_text(alloc: Global, info: Option<&Content>) -> Result<Option<Text>, OutOfMemory>
    ensures { IfOk result (λ text.
        PrintsInfo (plain_info (option_map (λ info. tree info.now) info.entry)) text) }
{
    match info {
        None => Ok(None),
        Some(info) => filled_text(alloc, info),
    }
}

/// Whether both are one tree by their plain forms, or both are absent: one text is one tree.
fn is_same_info(
    alloc: Global,
    old: Option<&Content>,
    new: Option<&Content>,
) -> Result<bool, OutOfMemory>
    ensures { IfOk result (λ same. IsTrue same
        ↔ (plain_info (option_map (λ info. tree info.now) old.entry)
        ≡ plain_info (option_map (λ info. tree info.now) new.entry))) }
{
    let old = info_text(alloc, old)?;
    let new = info_text(alloc, new)?;
    Ok(is_same_held(&old, &new))
}

/// Whether both are the same but for the line. The one error is out of memory.
pub(crate) fn is_same_metadata(
    alloc: Global,
    old: &MetaData,
    new: &MetaData,
) -> Result<bool, OutOfMemory>
    ensures { IfOk result (λ same. IsTrue same ↔ SameMeta (meta_of old.now) (meta_of new.now)) }
{
    if !have_same_names(old, new) {
        return Ok(false);
    }
    if !is_same_description(alloc, old, new)? {
        return Ok(false);
    }
    is_same_info(alloc, old.private_info(), new.private_info())
}
