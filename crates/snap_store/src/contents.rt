//! The contents of a snapshot.
ghost use Rattle.std.specs.Prelude.{◌≡◌, ◌↔◌, IsTrue, IfOk, MatchOption};

use snap_content::{Blob, OutOfMemory};
use snap_text::TextSnapshotContents;
use std::alloc::Global;

/// The contents of a snapshot: a text, or a payload that may be absent.
#[derive(Debug, Drop)]
pub enum SnapshotContents {
    Text(TextSnapshotContents),
    Binary(Option<Blob>),
}

impl SnapshotContents {
    ghost use Rattle.snap_store.specs.Views.{text_in, with_payload};
    ghost use Rattle.snap_store.specs.Agreement.{Agree};

    pub fn from_text(value: TextSnapshotContents) -> SnapshotContents
        ensures { result ≡ SnapshotContents.Text value }
    {
        SnapshotContents::Text(value)
    }

    /// Whether the contents are a payload, which may be absent.
    pub fn is_binary(&self) -> bool
        ensures { IsTrue result ↔ (text_in self.now ≡ None) }
    {
        matches!(self, SnapshotContents::Binary(_))
    }

    /// The text, where the contents are one.
    pub fn as_text(&self) -> Option<&TextSnapshotContents>
        ensures { MatchOption result (text_in self.now ≡ None)
            (λ text. self.now ≡ SnapshotContents.Text text.now) }
    {
        match self {
            SnapshotContents::Text(text) => Some(text),
            SnapshotContents::Binary(_) => None,
        }
    }

    /// The same contents, with this payload in place of another. A text stays as it is.
    pub(crate) fn with_payload(self, payload: Option<Blob>) -> SnapshotContents
        ensures { result ≡ with_payload payload self }
    {
        match self {
            SnapshotContents::Text(text) => SnapshotContents::Text(text),
            SnapshotContents::Binary(_) => SnapshotContents::Binary(payload),
        }
    }

    /// Equal contents.
    pub fn try_clone(&self, alloc: Global) -> Result<SnapshotContents, OutOfMemory>
        ensures { IfOk result (λ copy. copy ≡ self.now) }
    {
        match self {
            SnapshotContents::Text(text) => Ok(SnapshotContents::Text(text.try_clone(alloc)?)),
            SnapshotContents::Binary(None) => Ok(SnapshotContents::Binary(None)),
            SnapshotContents::Binary(Some(payload)) => {
                Ok(SnapshotContents::Binary(Some(payload.try_clone(alloc)?)))
            }
        }
    }

    /// Whether both agree: two texts where they have one normal form or one older form, each by its kind; two payloads where they are equal or both absent. A text and a payload never do.
    pub fn agrees(&self, alloc: Global, other: &SnapshotContents) -> Result<bool, OutOfMemory>
        ensures { IfOk result (λ same. IsTrue same ↔ Agree self.now other.now) }
    {
        match (self, other) {
            (SnapshotContents::Text(left), SnapshotContents::Text(right)) => {
                left.agrees(alloc, right)
            }
            (SnapshotContents::Binary(left), SnapshotContents::Binary(right)) => Ok(left == right),
            _ => Ok(false),
        }
    }
}
