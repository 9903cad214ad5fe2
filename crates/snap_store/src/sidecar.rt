//! Where the payload of a snapshot stands: beside its file, in one with the payload's extension.
ghost use Rattle.std.specs.Prelude.{◌≡◌, IfOk};
ghost use Rattle.snap_store.specs.Saving.{sidecar_path, binary_path};
ghost use Rattle.snap_store.specs.Views.{meta_of, meta_in};

use crate::metadata::{MetaData, SnapshotKind};
use crate::snapshot::Snapshot;
use snap_content::{OutOfMemory, Text};
use std::alloc::Global;

impl MetaData {
    /// The path of the payload beside the file at this path: the path, a dot and the extension. None where the kind is text.
    /// The one error is out of memory.
    pub fn build_binary_path(&self, alloc: Global, path: &Text) -> Result<Option<Text>, OutOfMemory>
        ensures { IfOk result (λ made. made ≡ binary_path path.now (meta_of self.now).kind) }
    {
        match self.kind() {
            SnapshotKind::Text => Ok(None),
            SnapshotKind::Binary { extension } => Ok(Some(sidecar_text(alloc, path, extension)?)),
        }
    }
}

impl Snapshot {
    /// The path of the payload beside the file at this path, by the metadata, whatever the contents are: the path, a dot and the
    /// extension. None where the kind is text. The one error is out of memory.
    pub fn build_binary_path(&self, alloc: Global, path: &Text) -> Result<Option<Text>, OutOfMemory>
        ensures { IfOk result (λ made. made ≡ binary_path path.now (meta_in self.now).kind) }
    {
        self.metadata().build_binary_path(alloc, path)
    }
}

/// The path, a dot and the extension.
pub(crate) fn sidecar_text(
    alloc: Global,
    path: &Text,
    extension: &Text,
) -> Result<Text, OutOfMemory>
    ensures { IfOk result (λ made. made ≡ sidecar_path path.now extension.now) }
{
    let mut beside = path.try_clone(alloc)?;
    beside.push_ascii(alloc, ".")?;
    beside.push_text(alloc, extension)?;
    Ok(beside)
}
