//! The records that wait and the source, read from a store.
ghost use Rattle.std.specs.Prelude.{◌≡◌, List, ℕ, MatchResult};
ghost use Rattle.snap_io.specs.Causes.{Counted};
ghost use Rattle.snap_review.specs.Ends.{says_file_fault};
ghost use Rattle.snap_review.specs.Planned.{Asks};
ghost use Rattle.snap_review.specs.Read.{IsFoundAt, IsUnasked, SourceEnd};

use crate::chosen::chosen;
use crate::patching::NewLiteral;
use crate::status::{ReviewStatus, status_of};
use snap_content::{Blob, Text};
use snap_io::Store;
use snap_pending::PendingInlineSnapshot;
use snap_store::named;
use std::alloc::Global;
use std::str;

/// What the records in the file at the path ask for. The store is not changed.
pub fn read_chosen<S: Store>(
    alloc: Global,
    store: &mut S,
    path: &Text,
) -> Result<Vec<NewLiteral>, ReviewStatus>
    ensures end { IsFoundAt path.now (S.files store.old)
        (λ file. MatchResult result (λ changes. Asks file changes.items)
        (λ status. IsUnasked path.now file status)) }
    ensures same { S.files store.new ≡ S.files store.old }
    ensures cause { Counted says_file_fault (S.faults store.old) (S.faults store.new) result }
{
    match PendingInlineSnapshot::load_batch(alloc, store, path) {
        Ok(batch) => {
            let made = chosen(alloc, batch.as_slice());
            drop(batch);
            match made {
                Ok(changes) => Ok(changes),
                Err(_) => Err(ReviewStatus::OutOfMemory),
            }
        }
        Err(error) => Err(status_of(error)),
    }
}

/// The text of a file, or why it is no source.
fn text_of(alloc: Global, file: Option<Blob>) -> Result<Text, ReviewStatus>
    ensures end { (path : List ℕ) → SourceEnd path file result }
    ensures no_fault { (count : ℕ) → Counted says_file_fault count count result }
{
    let Some(bytes) = file else {
        return Err(ReviewStatus::NoSource);
    };
    match str::from_utf8(bytes.as_slice()) {
        Ok(text) => match Text::from_str(alloc, text) {
            Ok(text) => Ok(text),
            Err(_) => Err(ReviewStatus::OutOfMemory),
        },
        Err(_) => Err(ReviewStatus::NoSource),
    }
}

/// The text of the source file at the path. The store is not changed.
pub fn read_source<S: Store>(
    alloc: Global,
    store: &mut S,
    path: &Text,
) -> Result<Text, ReviewStatus>
    ensures end { IsFoundAt path.now (S.files store.old)
        (λ file. SourceEnd path.now file result) }
    ensures same { S.files store.new ≡ S.files store.old }
    ensures cause { Counted says_file_fault (S.faults store.old) (S.faults store.new) result }
{
    match named::read(alloc, store, path) {
        Ok(file) => text_of(alloc, file),
        Err(error) => Err(status_of(error)),
    }
}
