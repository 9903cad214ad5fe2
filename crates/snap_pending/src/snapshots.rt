//! The snapshot that a tree tells, where a reader made it.
ghost use Rattle.std.specs.Prelude.{◌≡◌, codes};
ghost use Rattle.snap_content.specs.Plain.{Plain, Entries, dict, content_of, pairs_made};
ghost use Rattle.snap_content.specs.View.{tree, pair_trees};
ghost use Rattle.snap_fields.specs.Made.{last_value};
ghost use Rattle.snap_store.specs.Views.{meta_of};
ghost use Rattle.snap_pending.specs.Told.{HoldsText, HeldEnd};
ghost use Rattle.snap_pending.specs.Parts.{MetadataEnd, ContentsEnd, NamedEnd};

use snap_content::{Content, Error, Text};
use snap_fields::fields::{text_named, value_named};
use snap_store::{MetaData, Snapshot, SnapshotContents};
use snap_text::{TextSnapshotContents, TextSnapshotKind};
use std::alloc::Global;

/// `UnexpectedDataType` where the tree or its metadata is no map, or its text is none; else `MissingField` where it has no module,
/// no metadata or no text, or the metadata are those of a binary without an extension.
pub(crate) fn read_snapshot(alloc: Global, content: &Content) -> Result<Snapshot, Error>
    ensures { (plain : Plain) → tree content.now ≡ content_of plain → HeldEnd plain result }
{
    match content {
        Content::Map(pairs) => snapshot_of_pairs(alloc, pairs.as_slice()),
        _ => Err(Error::UnexpectedDataType),
    }
}

fn snapshot_of_pairs(alloc: Global, pairs: &[(Content, Content)]) -> Result<Snapshot, Error>
    ensures { (entries : Entries) → pair_trees pairs.now ≡ pairs_made entries
        → HeldEnd (dict entries) result }
{
    let metadata = read_metadata(alloc, pairs)?;
    let contents = read_contents(alloc, pairs)?;
    let Some(metadata) = metadata else {
        return Err(Error::MissingField);
    };
    let Some(contents) = contents else {
        return Err(Error::MissingField);
    };
    named_snapshot(alloc, pairs, metadata, contents)
}

/// The snapshot of these metadata and contents, with the names that the pairs tell.
fn named_snapshot(
    alloc: Global,
    pairs: &[(Content, Content)],
    metadata: MetaData,
    contents: SnapshotContents,
) -> Result<Snapshot, Error>
    ensures { (entries : Entries) → pair_trees pairs.now ≡ pairs_made entries
        → NamedEnd entries (meta_of metadata) contents result }
{
    let Some(module) = text_named(pairs, "module_name") else {
        return Err(Error::MissingField);
    };
    let module = Text::from_str(alloc, module)?;
    let name = match text_named(pairs, "snapshot_name") {
        None => None,
        Some(name) => Some(Text::from_str(alloc, name)?),
    };
    Ok(Snapshot::from_components(module, name, metadata, contents))
}

/// The metadata; none where they do not stand.
fn read_metadata(alloc: Global, pairs: &[(Content, Content)]) -> Result<Option<MetaData>, Error>
    ensures { (entries : Entries) → pair_trees pairs.now ≡ pairs_made entries
        → MetadataEnd (last_value (codes "metadata") entries) result }
{
    match value_named(pairs, "metadata") {
        None => Ok(None),
        Some(value) => Ok(Some(MetaData::from_content(alloc, value)?)),
    }
}

/// The text, as that of a literal; none where it does not stand.
fn read_contents(
    alloc: Global,
    pairs: &[(Content, Content)],
) -> Result<Option<SnapshotContents>, Error>
    ensures { (entries : Entries) → pair_trees pairs.now ≡ pairs_made entries
        → ContentsEnd (last_value (codes "snapshot") entries) result }
{
    match value_named(pairs, "snapshot") {
        None => Ok(None),
        Some(_) => match text_named(pairs, "snapshot") {
            None => Err(Error::UnexpectedDataType),
            Some(text) => Ok(Some(inline_contents(Text::from_str(alloc, text)?))),
        },
    }
}

fn inline_contents(text: Text) -> SnapshotContents
    ensures { HoldsText text result }
{
    SnapshotContents::Text(TextSnapshotContents::new(text, TextSnapshotKind::Inline))
}
