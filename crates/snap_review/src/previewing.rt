//! What a review would come to, before it changes anything.
ghost use Rattle.std.specs.Prelude.{◌≡◌};
ghost use Rattle.snap_io.specs.Causes.{CountedIf};
ghost use Rattle.snap_review.specs.Ends.{says_file_fault};
ghost use Rattle.snap_review.specs.Previews.{PreviewBy, PreviewOf};
ghost use Rattle.snap_review.specs.Wanted.{wanted_by};

use crate::request_plan::plan_of;
use crate::status::ReviewStatus;
use crate::words::{Request, request_of};
use snap_content::Text;
use snap_io::Store;
use std::alloc::Global;

/// What a request would come to. The store is not changed.
fn preview<S: Store>(alloc: Global, request: &Request, store: &mut S) -> ReviewStatus
    ensures end { PreviewBy request.now result (S.files store.old) }
    ensures same { S.files store.new ≡ S.files store.old }
    ensures file { CountedIf (says_file_fault result) (S.faults store.old) (S.faults store.new) }
{
    match plan_of(alloc, store, request) {
        Err(status) => status,
        Ok(plan) => {
            drop(plan);
            ReviewStatus::Done
        }
    }
}

/// What `review` with these words would come to before it changes anything: `Done` where there is a plan to carry out, and else the
/// status by which it would be refused, or that of a fault met on the way to a plan. Files are read alone.
pub fn preview_review<S: Store>(alloc: Global, words: &[Text], store: &mut S) -> ReviewStatus
    ensures end { PreviewOf (wanted_by words.now) result (S.files store.old) }
    // Whatever is returned, the files are as they were.
    ensures same { S.files store.new ≡ S.files store.old }
    ensures file { CountedIf (says_file_fault result) (S.faults store.old) (S.faults store.new) }
{
    match request_of(alloc, words) {
        Ok(Some(request)) => preview(alloc, &request, store),
        Ok(None) => ReviewStatus::BadWords,
        Err(_) => ReviewStatus::OutOfMemory,
    }
}
