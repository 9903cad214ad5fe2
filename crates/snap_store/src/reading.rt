//! Reading the file of a snapshot.
ghost use Rattle.std.specs.Prelude.{◌≡◌, ℕ, false, List, Option, Some, IfOk, IfErr};
ghost use Rattle.snap_store.specs.Named.{HasNames};
ghost use Rattle.std.specs.Str.{chars};
ghost use Rattle.snap_io.specs.Causes.{Counted};
ghost use Rattle.snap_io.specs.Files.{Files};
ghost use Rattle.snap_store.specs.Causes.{is_file_fault};
ghost use Rattle.snap_store.specs.FileSplit.{is_headed};
ghost use Rattle.snap_store.specs.Reading.{IsTextFile, HoldsBody, FileEnd, IsReadAs, IsReadFrom, payload_at, IsPayloadError};
ghost use Rattle.snap_store.specs.Split.{IsSplit};

use crate::contents::SnapshotContents;
use crate::legacy::{legacy_metadata, legacy_text};
use crate::metadata::{MetaData, SnapshotKind};
use crate::named;
use crate::sidecar::sidecar_text;
use crate::snapshot::Snapshot;
use crate::split::{Headed, split_file};
use snap_content::{Blob, Error, OutOfMemory, Text};
use snap_emit::yaml::parse_header;
use snap_io::Store;
use snap_path::names_of_path;
use snap_text::{TextSnapshotContents, TextSnapshotKind};
use std::alloc::Global;
use std::str;

impl Snapshot {
    /// The snapshot that the file at the path holds, with the payload that stands beside it, where its header says binary; a payload
    /// that is missing is absent. The store is not changed.
    pub fn from_file<S: Store>(alloc: Global, store: &mut S, path: &Text) -> Result<Snapshot, Error>
        ensures end { IsReadFrom path.now (S.files store.old) result }
        ensures names { IfOk result (λ snapshot. HasNames path.now snapshot) }
        ensures same { S.files store.new ≡ S.files store.old }
        ensures cause { Counted is_file_fault (S.faults store.old) (S.faults store.new) result }
    {
        let found = named::read(alloc, store, path)?;
        let snapshot = snapshot_of_file(alloc, found, path)?;
        match payload_beside(alloc, store, path, snapshot.metadata().kind()) {
            Ok(payload) => Ok(snapshot.with_payload(payload)),
            Err(error) => {
                drop(snapshot);
                Err(error)
            }
        }
    }
}

/// The bytes that stand beside the file of a snapshot of this kind; none where there is no such file, and of a text. The store is
/// not changed.
fn payload_beside<S: Store>(
    alloc: Global,
    store: &mut S,
    path: &Text,
    kind: &SnapshotKind,
) -> Result<Option<Blob>, Error>
    ensures found { IfOk result (λ found. (m : Files) → S.files store.old ≡ Some m
        → found ≡ payload_at path.now kind.now m) }
    ensures error { IfErr result (λ error. IsPayloadError path.now kind.now error) }
    ensures same { S.files store.new ≡ S.files store.old }
    ensures cause { Counted is_file_fault (S.faults store.old) (S.faults store.new) result }
{
    match kind {
        SnapshotKind::Text => Ok(None),
        SnapshotKind::Binary { extension } => {
            let beside = sidecar_text(alloc, path, extension)?;
            named::read(alloc, store, &beside)
        }
    }
}

/// The snapshot that the bytes of a file are, or why there is none.
fn snapshot_of_file(alloc: Global, file: Option<Blob>, path: &Text) -> Result<Snapshot, Error>
    ensures end { FileEnd path.now file result }
    ensures names { IfOk result (λ snapshot. HasNames path.now snapshot) }
    ensures no_fault { (count : ℕ) → Counted is_file_fault count count result }
{
    let Some(bytes) = file else {
        return Err(Error::NoFile(path.try_clone(alloc)?));
    };
    match str::from_utf8(bytes.as_slice()) {
        Ok(text) => snapshot_of_text(alloc, text, path),
        Err(_) => Err(Error::NotText(path.try_clone(alloc)?)),
    }
}

fn snapshot_of_text(alloc: Global, text: &str, path: &Text) -> Result<Snapshot, Error>
    ensures end { (file : Option (List ℕ)) → IsTextFile file (chars text.now)
        → FileEnd path.now file result }
    ensures names { IfOk result (λ snapshot. HasNames path.now snapshot) }
    ensures no_fault { (count : ℕ) → Counted is_file_fault count count result }
{
    match split_file(alloc, text)? {
        Some(headed) => headed_snapshot(alloc, headed, path),
        None => Ok(legacy_snapshot(alloc, text, path)?),
    }
}

/// The snapshot of a file with a header.
fn headed_snapshot(alloc: Global, headed: Headed, path: &Text) -> Result<Snapshot, Error>
    ensures end { (file : Option (List ℕ)) → (text : List ℕ) → IsTextFile file text
        → IsSplit headed text → FileEnd path.now file result }
    ensures names { IfOk result (λ snapshot. HasNames path.now snapshot) }
    ensures no_fault { (count : ℕ) → Counted is_file_fault count count result }
{
    let (name, module) = names_of_path(alloc, path)?;
    let Headed { header, body } = headed;
    let header = parse_header(alloc, header.as_str(), path)?;
    let number_as_text = header.number_as_text;
    let metadata = MetaData::from_content(alloc, &header.content);
    drop(header);
    let metadata = metadata?;
    let contents = contents_of(metadata.kind(), body);
    let snapshot = Snapshot::from_components(module, Some(name), metadata, contents);
    Ok(snapshot.with_number_text(number_as_text))
}

/// The snapshot of a file without a header. The one error is that memory is out.
fn legacy_snapshot(alloc: Global, text: &str, path: &Text) -> Result<Snapshot, OutOfMemory>
    ensures read { (file : Option (List ℕ)) → IsTextFile file (chars text.now)
        → is_headed (chars text.now) ≡ false
        → IfOk result (λ snapshot. IsReadAs file snapshot) }
    ensures names { IfOk result (λ snapshot. HasNames path.now snapshot) }
{
    let (name, module) = names_of_path(alloc, path)?;
    let body = legacy_text(alloc, text)?;
    let metadata = legacy_metadata(alloc, text)?;
    let contents = contents_of(&SnapshotKind::Text, body);
    Ok(Snapshot::from_components(module, Some(name), metadata, contents).without_header())
}

/// A text with this body, or a payload, which is absent until it is read.
fn contents_of(kind: &SnapshotKind, body: Text) -> SnapshotContents
    ensures { HoldsBody kind.now body result }
{
    match kind {
        SnapshotKind::Text => {
            SnapshotContents::Text(TextSnapshotContents::new(body, TextSnapshotKind::File))
        }
        SnapshotKind::Binary { .. } => SnapshotContents::Binary(None),
    }
}
