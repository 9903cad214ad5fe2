//! What is ready before anything is looked at.
ghost use Rattle.std.specs.Prelude.{◌≡◌, false, Some, IfOk};
ghost use Rattle.snap_store.specs.declared.contents.SnapshotContents.TheVariants as held;
ghost use Rattle.snap_store.specs.declared.metadata.SnapshotKind.TheVariants as kind;
ghost use Rattle.snap_content.specs.Plain.{plain};
ghost use Rattle.snap_content.specs.Tree.{Tree};
ghost use Rattle.snap_content.specs.View.{tree};
ghost use Rattle.snap_print.specs.Blocks.{blocks_if};
ghost use Rattle.snap_assert_settings.specs.Settings.{settings_of, PrintsAs};
ghost use Rattle.snap_assert_place.specs.Place.{place_of};
ghost use Rattle.snap_store.specs.Views.{meta_in, module_in, name_in, contents_in, legacy_in, number_text_in};
ghost use Rattle.snap_assert_place.specs.SnapshotPath.{flat_module, new_meta};
ghost use Rattle.snap_assert.specs.Steps.{asked_for};
ghost use Rattle.snap_assert.specs.Subjects.{Subject, tree_with, file_text, IsHeld};
ghost use Rattle.snap_assert.specs.Prepared.{IsPrepared};

use snap_assert_place::metadata::new_metadata;
use snap_assert_place::paths::{module_text, snapshot_path};
use snap_assert_place::place::Place;
use snap_assert_settings::settings::Settings;
use snap_content::{Blob, Content, OutOfMemory, Text};
use snap_emit::body_to_string;
use snap_path::path_parent;
use snap_select::Redactor;
use snap_store::{Snapshot, SnapshotContents, SnapshotKind};
use snap_text::{TextSnapshotContents, TextSnapshotKind};
use std::alloc::Global;

/// The paths of an assertion, and its new snapshot.
#[derive(Drop)]
pub struct Prepared {
    pub path: Text,
    /// The folder of the path.
    pub folder: Text,
    /// The path of the pending snapshot.
    pub pending: Text,
    pub snapshot: Snapshot,
}

impl Prepared {
    /// The path of the snapshot.
    pub fn into_path(self) -> Text
        ensures { result ≡ self.path }
    {
        let Prepared {
            path,
            folder,
            pending,
            snapshot,
        } = self;
        drop(folder);
        drop(pending);
        drop(snapshot);
        path
    }
}

/// What is asserted of a file: the kind that its metadata tell, and its contents.
#[derive(Drop)]
pub struct Asserted {
    pub kind: SnapshotKind,
    pub contents: SnapshotContents,
}

/// A text for a file.
pub fn asserted_text(text: Text) -> Asserted
    ensures { result ≡ record { kind = kind.Text; contents = file_text text } }
{
    let contents = SnapshotContents::from_text(TextSnapshotContents::new(
        text,
        TextSnapshotKind::File,
    ));
    Asserted {
        kind: SnapshotKind::Text,
        contents,
    }
}

/// A payload, which stands beside its file with this extension.
pub fn asserted_payload(content: Blob, extension: Text) -> Asserted
    ensures { result ≡ record { kind = kind.Binary extension; contents = held.Binary (Some content) } }
{
    Asserted {
        kind: SnapshotKind::Binary { extension },
        contents: SnapshotContents::Binary(Some(content)),
    }
}

/// The text of the tree, as the settings print it, where `literal` is on with texts of several lines as literal blocks.
pub fn asserted_tree(
    alloc: Global,
    settings: &Settings,
    content: Content,
    literal: bool,
) -> Result<Asserted, OutOfMemory>
    ensures { IfOk result (λ asserted. (printed : Tree)
        × PrintsAs (λ v. (⟦<dyn Redactor as Redactor>⟧ v).allows) settings.now (tree content) printed
        × IsHeld (tree_with (blocks_if literal) (plain printed)) asserted) }
{
    let printed = settings.printed_tree(alloc, content)?;
    let text = body_to_string(alloc, &printed, literal);
    drop(printed);
    Ok(asserted_text(text?))
}

fn new_snapshot(
    alloc: Global,
    settings: &Settings,
    place: &Place,
    name: &Text,
    asserted: Asserted,
) -> Result<Snapshot, OutOfMemory>
    ensures contents { IfOk result (λ snapshot. contents_in snapshot ≡ asserted.contents) }
    ensures metadata { IfOk result (λ snapshot. meta_in snapshot
        ≡ record (new_meta (settings_of settings.now) (place_of place.now)) { kind = asserted.kind }) }
    ensures module_name { IfOk result (λ snapshot. module_in snapshot
        ≡ flat_module (place_of place.now).module_name) }
    ensures name { IfOk result (λ snapshot. name_in snapshot ≡ Some name.now) }
    ensures legacy { IfOk result (λ snapshot. legacy_in snapshot ≡ false) }
    ensures number { IfOk result (λ snapshot. number_text_in snapshot ≡ false) }
{
    let module_name = module_text(alloc, place)?;
    let name = name.try_clone(alloc)?;
    let mut metadata = new_metadata(alloc, settings, place)?;
    let Asserted { kind, contents } = asserted;
    metadata.set_kind(kind);
    Ok(Snapshot::from_components(module_name, Some(name), metadata, contents))
}

/// All that an assertion needs under the name that it takes: it is ready before anything is looked at.
pub fn prepare(
    alloc: Global,
    settings: &Settings,
    place: &Place,
    name: &Text,
    asserted: Asserted,
) -> Result<Prepared, OutOfMemory>
    ensures { IfOk result (λ prepared. (subject : Subject) → IsHeld subject asserted → IsPrepared
        (asked_for (settings_of settings.now) (place_of place.now) name.now subject) prepared) }
{
    let path = snapshot_path(alloc, settings, place, name)?;
    let folder = path_parent(alloc, &path)?;
    let mut pending = path.try_clone(alloc)?;
    pending.push_ascii(alloc, ".new")?;
    let snapshot = new_snapshot(alloc, settings, place, name, asserted)?;
    Ok(Prepared {
        path,
        folder,
        pending,
        snapshot,
    })
}
