//! A snapshot.
ghost use Rattle.std.specs.Prelude.{◌≡◌, false, true, None, Some, IfOk, MatchOption, option_map};
ghost use Rattle.std.specs.Str.{chars};

use crate::contents::SnapshotContents;
use crate::metadata::{MetaData, SnapshotKind, clone_text};
use snap_content::{Blob, OutOfMemory, Text};
use snap_text::TextSnapshotContents;
use std::alloc::Global;

/// A snapshot: its names, its metadata and its contents.
#[derive(Debug, Drop)]
pub struct Snapshot {
    module_name: Text,
    snapshot_name: Option<Text>,
    metadata: MetaData,
    contents: SnapshotContents,
    was_legacy: bool,
    number_as_text: bool,
}

/// A payload that is saved beside the file of its snapshot.
#[derive(Clone, Copy)]
pub(crate) struct Payload<'a> {
    pub extension: &'a Text,
    pub bytes: &'a Blob,
}

impl Snapshot {
    ghost use Rattle.snap_store.specs.Views.{meta_of, module_in, name_in, meta_in, contents_in, legacy_in, number_text_in, text_in, with_payload};
    ghost use Rattle.snap_store.specs.Saving.{payload_of};

    pub fn from_components(
        module_name: Text,
        snapshot_name: Option<Text>,
        metadata: MetaData,
        contents: SnapshotContents,
    ) -> Snapshot
        ensures module { module_in result ≡ module_name }
        ensures name { name_in result ≡ snapshot_name }
        ensures metadata { meta_in result ≡ meta_of metadata }
        ensures contents { contents_in result ≡ contents }
        ensures legacy { legacy_in result ≡ false }
        ensures number { number_text_in result ≡ false }
    {
        Snapshot {
            module_name,
            snapshot_name,
            metadata,
            contents,
            was_legacy: false,
            number_as_text: false,
        }
    }

    /// The same snapshot, as it is read from a file without a header.
    pub(crate) fn without_header(self) -> Snapshot
        ensures module { module_in result ≡ module_in self }
        ensures name { name_in result ≡ name_in self }
        ensures metadata { meta_in result ≡ meta_in self }
        ensures contents { contents_in result ≡ contents_in self }
        ensures legacy { legacy_in result ≡ true }
        ensures number { number_text_in result ≡ number_text_in self }
    {
        Snapshot {
            was_legacy: true,
            ..self
        }
    }

    /// The same snapshot, as it is read under a header that kept a number as a text, or that kept none.
    pub(crate) fn with_number_text(self, kept: bool) -> Snapshot
        ensures module { module_in result ≡ module_in self }
        ensures name { name_in result ≡ name_in self }
        ensures metadata { meta_in result ≡ meta_in self }
        ensures contents { contents_in result ≡ contents_in self }
        ensures legacy { legacy_in result ≡ legacy_in self }
        ensures number { number_text_in result ≡ kept }
    {
        Snapshot {
            number_as_text: kept,
            ..self
        }
    }

    /// The same snapshot with this payload, where its contents are one.
    pub(crate) fn with_payload(self, payload: Option<Blob>) -> Snapshot
        ensures module { module_in result ≡ module_in self }
        ensures name { name_in result ≡ name_in self }
        ensures metadata { meta_in result ≡ meta_in self }
        ensures contents { contents_in result ≡ with_payload payload (contents_in self) }
        ensures legacy { legacy_in result ≡ legacy_in self }
        ensures number { number_text_in result ≡ number_text_in self }
    {
        Snapshot {
            contents: self.contents.with_payload(payload),
            ..self
        }
    }

    /// The payload that is saved, lent: one that is there, under metadata that say binary.
    pub(crate) fn payload(&self) -> Option<Payload<'_>>
        ensures { MatchOption result (payload_of (meta_in self.now) (contents_in self.now) ≡ None)
            (λ payload. payload_of (meta_in self.now) (contents_in self.now)
            ≡ Some (payload.extension.now, payload.bytes.now)) }
    {
        match (self.metadata.kind(), &self.contents) {
            (SnapshotKind::Binary { extension }, SnapshotContents::Binary(Some(bytes))) => {
                Some(Payload { extension, bytes })
            }
            _ => None,
        }
    }

    /// The module of the assertion.
    pub fn module_name(&self) -> &str
        ensures { chars result.now ≡ module_in self.now }
    {
        self.module_name.as_str()
    }

    pub fn snapshot_name(&self) -> Option<&str>
        ensures { option_map (λ text. chars text.now) result ≡ name_in self.now }
    {
        self.snapshot_name.as_ref().map(|text| text.as_str())
    }

    pub fn metadata(&self) -> &MetaData
        ensures { meta_of result.now ≡ meta_in self.now }
    {
        &self.metadata
    }

    pub fn contents(&self) -> &SnapshotContents
        ensures { result.now ≡ contents_in self.now }
    {
        &self.contents
    }

    /// The text, where the contents are one.
    pub fn as_text(&self) -> Option<&TextSnapshotContents>
        ensures { MatchOption result (text_in (contents_in self.now) ≡ None)
            (λ text. contents_in self.now ≡ SnapshotContents.Text text.now) }
    {
        self.contents.as_text()
    }

    /// Whether the snapshot was read from a file without a header.
    pub fn was_legacy(&self) -> bool
        ensures { result ≡ legacy_in self.now }
    {
        self.was_legacy
    }

    /// Whether a number of the header was kept as a text.
    pub fn has_number_text(&self) -> bool
        ensures { result ≡ number_text_in self.now }
    {
        self.number_as_text
    }

    /// An equal snapshot.
    pub fn try_clone(&self, alloc: Global) -> Result<Snapshot, OutOfMemory>
        ensures module { IfOk result (λ copy. module_in copy ≡ module_in self.now) }
        ensures name { IfOk result (λ copy. name_in copy ≡ name_in self.now) }
        ensures metadata { IfOk result (λ copy. meta_in copy ≡ meta_in self.now) }
        ensures contents { IfOk result (λ copy. contents_in copy ≡ contents_in self.now) }
        ensures legacy { IfOk result (λ copy. legacy_in copy ≡ legacy_in self.now) }
        ensures number { IfOk result (λ copy. number_text_in copy ≡ number_text_in self.now) }
    {
        Ok(Snapshot {
            module_name: self.module_name.try_clone(alloc)?,
            snapshot_name: clone_text(alloc, &self.snapshot_name)?,
            contents: self.contents.try_clone(alloc)?,
            metadata: self.metadata.try_clone(alloc)?,
            was_legacy: self.was_legacy,
            number_as_text: self.number_as_text,
        })
    }
}
