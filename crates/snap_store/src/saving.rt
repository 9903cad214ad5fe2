//! Writing the files of a snapshot.
ghost use Rattle.std.specs.Prelude.{◌≡◌, ◌++◌, Some, IfOk, OnOk, IfErr, encode_utf8_all};
ghost use Rattle.snap_io.specs.Changes.{all_changed};
ghost use Rattle.snap_io.specs.Files.{Files};
ghost use Rattle.snap_io.specs.StandsAfter.{StandsAfter};
ghost use Rattle.snap_io.specs.Causes.{Counted};
ghost use Rattle.snap_store.specs.Causes.{is_file_fault, named_by, SaveEnd};
ghost use Rattle.snap_store.specs.Image.{image, body_in, pending_path};
ghost use Rattle.snap_store.specs.Meta.{Meta, header_tree, without_line};
ghost use Rattle.snap_store.specs.Saving.{saving};
ghost use Rattle.snap_store.specs.Views.{meta_in, meta_of, contents_in};
ghost use Rattle.snap_print.specs.Blocks.{off};
ghost use Rattle.snap_print.specs.Lines.{document_of};

use crate::contents::SnapshotContents;
use crate::header::header_content;
use crate::metadata::MetaData;
use crate::named;
use crate::sidecar::sidecar_text;
use crate::snapshot::Snapshot;
use snap_content::{Error, OutOfMemory, Text};
use snap_emit::yaml;
use snap_io::Store;
use std::alloc::Global;

impl Snapshot {
    /// Writes the snapshot, without the line of its assertion, to the file at the path: its header, and a text behind it. A payload
    /// is then written to the file beside it, at the path, a dot and the extension; one that is absent is not, nor one whose metadata
    /// have the kind of a text, and what stands there stays. An error leaves these files alone in doubt: the one in work, of which a
    /// fault names the path, may hold anything, and a file before it is written.
    pub fn save<S: Store>(&self, alloc: Global, store: &mut S, path: &Text) -> Result<(), Error>
        ensures written { OnOk result ((m : Files) → S.files store.old ≡ Some m
            → S.files store.new ≡ Some (all_changed
            (saving path.now (without_line (meta_in self.now)) (contents_in self.now)) m)) }
        ensures stopped { IfErr result (λ error. StandsAfter
            (saving path.now (without_line (meta_in self.now)) (contents_in self.now))
            (named_by error) (S.files store.old) (S.files store.new)) }
        ensures error { SaveEnd result }
        ensures cause { Counted is_file_fault (S.faults store.old) (S.faults store.new) result }
    {
        let text = file_text(alloc, self, None)?;
        write_files(alloc, store, path, self, &text)
    }

    /// Writes the snapshot, with the line of its assertion, to the file of the pending snapshot, as `save` writes it, and returns that
    /// file's path: the path with `.new` after it. The payload stands beside that file, with the extension after its path.
    pub fn save_new<S: Store>(
        &self,
        alloc: Global,
        store: &mut S,
        path: &Text,
    ) -> Result<Text, Error>
        ensures written { OnOk result ((m : Files) → S.files store.old ≡ Some m
            → S.files store.new ≡ Some (all_changed
            (saving (pending_path path.now) (meta_in self.now) (contents_in self.now)) m)) }
        ensures path { IfOk result (λ pending. pending ≡ pending_path path.now) }
        ensures stopped { IfErr result (λ error. StandsAfter
            (saving (pending_path path.now) (meta_in self.now) (contents_in self.now))
            (named_by error) (S.files store.old) (S.files store.new)) }
        ensures error { SaveEnd result }
        ensures cause { Counted is_file_fault (S.faults store.old) (S.faults store.new) result }
    {
        let pending = pending_text(alloc, path)?;
        let text = file_text(alloc, self, self.metadata().assertion_line())?;
        write_files(alloc, store, &pending, self, &text)?;
        Ok(pending)
    }
}

/// Writes this text as the file at the path, and then the payload beside it. What needs memory is made before.
fn write_files<S: Store>(
    alloc: Global,
    store: &mut S,
    path: &Text,
    snapshot: &Snapshot,
    text: &Text,
) -> Result<(), Error>
    ensures written { OnOk result ((meta : Meta) → meta.kind ≡ (meta_in snapshot.now).kind
        → text.now ≡ image meta (contents_in snapshot.now)
        → (m : Files) → S.files store.old ≡ Some m
        → S.files store.new ≡ Some (all_changed (saving path.now meta (contents_in snapshot.now)) m)) }
    ensures stopped { (meta : Meta) → meta.kind ≡ (meta_in snapshot.now).kind
        → text.now ≡ image meta (contents_in snapshot.now)
        → IfErr result (λ error. StandsAfter (saving path.now meta (contents_in snapshot.now))
        (named_by error) (S.files store.old) (S.files store.new)) }
    ensures error { SaveEnd result }
    ensures cause { Counted is_file_fault (S.faults store.old) (S.faults store.new) result }
{
    let own = path.try_clone(alloc)?;
    let bytes = text.as_str().as_bytes();
    match snapshot.payload() {
        None => named::write(store, own, bytes),
        Some(payload) => {
            let beside = sidecar_text(alloc, path, payload.extension)?;
            named::write(store, own, bytes)?;
            named::write(store, beside, payload.bytes.as_slice())
        }
    }
}

/// The path of the pending snapshot of this path.
fn pending_text(alloc: Global, path: &Text) -> Result<Text, OutOfMemory>
    ensures { IfOk result (λ pending. pending ≡ pending_path path.now) }
{
    let mut pending = path.try_clone(alloc)?;
    pending.push_ascii(alloc, ".new")?;
    Ok(pending)
}

/// The text of the header of these metadata, which has no literal blocks. The line of the assertion is the one given.
fn header_text(alloc: Global, metadata: &MetaData, line: Option<u32>) -> Result<Text, OutOfMemory>
    ensures { IfOk result (λ text. text ≡ document_of off
        (header_tree (record (meta_of metadata.now) { assertion_line = line }))) }
{
    let header = header_content(alloc, metadata, line)?;
    let text = yaml::to_string(alloc, &header, false);
    drop(header);
    text
}

/// Adds the normal form of a text and a line's end, and nothing of a payload.
fn push_body(alloc: Global, text: &mut Text, contents: &SnapshotContents) -> Result<(), OutOfMemory>
    ensures { OnOk result (text.new ≡ text.old ++ body_in contents.now) }
{
    if let SnapshotContents::Text(held) = contents {
        text.push_text(alloc, &held.normal(alloc)?)?;
        text.push_ascii(alloc, "\n")?;
    }
    Ok(())
}

/// The text of the file. The line of the assertion is the one given.
fn file_text(alloc: Global, snapshot: &Snapshot, line: Option<u32>) -> Result<Text, OutOfMemory>
    ensures { IfOk result (λ made. made
        ≡ image (record (meta_in snapshot.now) { assertion_line = line }) (contents_in snapshot.now)) }
{
    let mut text = header_text(alloc, snapshot.metadata(), line)?;
    text.push_ascii(alloc, "---\n")?;
    push_body(alloc, &mut text, snapshot.contents())?;
    Ok(text)
}
