//! Whether a new snapshot matches an old one.
ghost use Rattle.std.specs.Prelude.{◌↔◌, IfOk, IsTrue};
ghost use Rattle.snap_store.specs.Views.{snapshot_of};

use snap_content::OutOfMemory;
use snap_store::Snapshot;
use std::alloc::Global;

/// Whether a new snapshot, `test`, matches an old one, `reference`, and whether it does so fully. The one error of both is out of memory.
///
/// `matches_fully` is asked where the configuration requires a full match. It has no default body: a comparator of one relation gives
/// the second member as the first, and answers it by `matches`.
pub trait Comparator {
    ghost use Rattle.snap_store.specs.Views.{SnapshotView};

    /// What `matches` tells of an old and a new snapshot.
    ghost agrees: { Self → SnapshotView → SnapshotView → Type 0 };

    /// What `matches_fully` tells of them.
    ghost agrees_fully: { Self → SnapshotView → SnapshotView → Type 0 };

    fn matches(
        &self,
        alloc: Global,
        reference: &Snapshot,
        test: &Snapshot,
    ) -> Result<bool, OutOfMemory>
        ensures { IfOk result (λ same. IsTrue same
            ↔ agrees self.now (snapshot_of reference.now) (snapshot_of test.now)) };

    fn matches_fully(
        &self,
        alloc: Global,
        reference: &Snapshot,
        test: &Snapshot,
    ) -> Result<bool, OutOfMemory>
        ensures { IfOk result (λ same. IsTrue same
            ↔ agrees_fully self.now (snapshot_of reference.now) (snapshot_of test.now)) };
}
