//! The comparator that programs use.
ghost use Rattle.std.specs.Prelude.{◌≡◌, ◌↔◌, IfOk, IsTrue};
ghost use Rattle.snap_assert.specs.Default.{SnapshotsAgree, SnapshotsAgreeFully, MetaCounts};
ghost use Rattle.snap_store.specs.Views.{snapshot_of, meta_of};
ghost use Rattle.snap_text.specs.Contents.{MatchLatest, kind_of};

use crate::comparator::Comparator;
use crate::same_metadata::{is_same_kind, is_same_metadata};
use snap_content::OutOfMemory;
use snap_store::{MetaData, Snapshot};
use snap_text::{TextSnapshotContents, TextSnapshotKind};
use std::alloc::Global;

/// Two snapshots match where their contents agree and are of one kind.
///
/// Two texts match fully where they have one normal form, each by its kind, and, where the old one is that of a file, the metadata
/// are the same but for the line: an info by its plain form, and one of which that is null as if it were not there. Others match
/// fully where they match.
#[derive(Clone, Copy, Debug)]
pub struct DefaultComparator;

impl Comparator for DefaultComparator {
    ghost use Rattle.snap_assert.specs.Default.{SnapshotsAgree, SnapshotsAgreeFully};

    ghost agrees = { λ _ old new. SnapshotsAgree old new };

    ghost agrees_fully = { λ _ old new. SnapshotsAgreeFully old new };

    fn matches(
        &self,
        alloc: Global,
        reference: &Snapshot,
        test: &Snapshot,
    ) -> Result<bool, OutOfMemory> {
        agree(alloc, reference, test)
    }

    fn matches_fully(
        &self,
        alloc: Global,
        reference: &Snapshot,
        test: &Snapshot,
    ) -> Result<bool, OutOfMemory> {
        match (reference.as_text(), test.as_text()) {
            (Some(old), Some(new)) => {
                match_fully(alloc, old, new, reference.metadata(), test.metadata())
            }
            _ => agree(alloc, reference, test),
        }
    }
}

/// Whether both contents agree, and are of one kind.
fn agree(alloc: Global, old: &Snapshot, new: &Snapshot) -> Result<bool, OutOfMemory>
    ensures { IfOk result (λ same. IsTrue same
        ↔ SnapshotsAgree (snapshot_of old.now) (snapshot_of new.now)) }
{
    if !is_same_kind(old.metadata().kind(), new.metadata().kind()) {
        return Ok(false);
    }
    old.contents().agrees(alloc, new.contents())
}

/// Whether the metadata are the same, where the old text is that of a file.
fn do_metadata_count(
    alloc: Global,
    kind: TextSnapshotKind,
    old: &MetaData,
    new: &MetaData,
) -> Result<bool, OutOfMemory>
    ensures { IfOk result (λ same. IsTrue same
        ↔ MetaCounts kind (meta_of old.now) (meta_of new.now)) }
{
    match kind {
        TextSnapshotKind::Inline => Ok(true),
        TextSnapshotKind::File => is_same_metadata(alloc, old, new),
    }
}

/// Whether both texts have one normal form, and the metadata are the same where they count.
fn match_fully(
    alloc: Global,
    old: &TextSnapshotContents,
    new: &TextSnapshotContents,
    old_metadata: &MetaData,
    new_metadata: &MetaData,
) -> Result<bool, OutOfMemory>
    ensures { IfOk result (λ same. IsTrue same ↔ (MatchLatest old.now new.now
        × MetaCounts (kind_of old.now) (meta_of old_metadata.now) (meta_of new_metadata.now))) }
{
    if !old.matches_latest(alloc, new)? {
        return Ok(false);
    }
    do_metadata_count(alloc, old.kind(), old_metadata, new_metadata)
}
