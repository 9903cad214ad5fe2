//! The folder of a path, the helper beside the file, and the snapshot of a pending file.
ghost use Rattle.std.specs.Prelude.{◌≡◌, ◌++◌, List, ℕ, IfOk, MatchOption, string_bytes};
ghost use Rattle.snap_io.specs.Beside.{folder_of, helper_name, helper_of, WaitsFor};

use std::alloc::{AllocError, Allocator};

/// What stands before the last slash of the path; else the working folder.
pub(crate) fn folder_of(path: &str) -> &str
    ensures { result.now ≡ folder_of path.now }
{
    match path.rsplit_once('/') {
        Some((folder, _)) => { if folder.is_empty() { "/" } else { folder } }
        None => ".",
    }
}

/// A hidden file in the folder of the path, whose name says nothing of the path: so no name of the product begins as
/// it does, and it is short enough where the path's own name is as long as the system lets it be.
pub(crate) fn helper_of<A: Allocator>(
    alloc: A,
    path: &str,
    number: u32,
) -> Result<String<A>, AllocError>
    ensures { IfOk result (λ helper. string_bytes helper ≡ helper_of path.now number) }
{
    match path.rsplit_once('/') {
        Some((folder, _)) => hidden(alloc, folder, "/", number),
        None => hidden(alloc, "", "", number),
    }
}

fn hidden<A: Allocator>(
    alloc: A,
    folder: &str,
    mark: &str,
    number: u32,
) -> Result<String<A>, AllocError>
    ensures { IfOk result (λ helper. string_bytes helper
        ≡ folder.now ++ mark.now ++ helper_name number) }
{
    format!(in alloc; "{folder}{mark}.snap-writing-{number}")
}

/// The path of the snapshot, where this is that of a pending one.
pub(crate) fn waits_for(path: &str) -> Option<&str>
    ensures { MatchOption result ((snapshot : List ℕ) → WaitsFor path.now snapshot → ⊥)
        (λ snapshot. WaitsFor path.now snapshot.now) }
{
    path.strip_suffix(".new")
}
