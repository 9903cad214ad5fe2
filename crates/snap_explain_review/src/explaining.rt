//! The run that tells why a review would be refused.
ghost use Rattle.std.specs.Prelude.{◌≡◌, Some};
ghost use Rattle.snap_io.specs.Causes.{CountedIf};
ghost use Rattle.snap_review.specs.Wanted.{wanted_by};
ghost use Rattle.snap_explain_review.specs.Ends.{IsExplained, ReviewExplained, says_file_fault, says_write_fault};

use crate::status::ReasonStatus;
use crate::telling::tell;
use snap_content::Text;
use snap_io::{Sink, Store};
use snap_review::preview_review;
use snap_review::words::{Request, request_of};
use std::alloc::Global;

/// Tells why the review that these words ask for would be refused; the request is theirs.
fn explain_request<K: Sink, S: Store>(
    alloc: Global,
    words: &[Text],
    request: &Request,
    sink: &mut K,
    store: &mut S,
) -> ReasonStatus
    ensures end { Some request.now ≡ wanted_by words.now
        → IsExplained request.now result (S.files store.old) (K.written sink.old)
        (K.written sink.new) }
    ensures same { S.files store.new ≡ S.files store.old }
    ensures file { CountedIf (says_file_fault result) (S.faults store.old) (S.faults store.new) }
    ensures write { CountedIf (says_write_fault result) (K.faults sink.old) (K.faults sink.new) }
{
    let foreseen = preview_review(alloc, words, store);
    let status = tell(alloc, request, &foreseen, sink);
    drop(foreseen);
    status
}

/// Tells why a review with these words would be refused, those of `review`: `accept SOURCE`, `reject SOURCE`, `accept-file PATH` or
/// `reject-file PATH`.
///
/// The files are read as by such a review. Where it would be refused the reason is written in a line, behind the path that it speaks of,
/// as a scalar is spelled, and the number of the line where it speaks of one. No file is touched.
pub fn explain_review<K: Sink, S: Store>(
    alloc: Global,
    words: &[Text],
    sink: &mut K,
    store: &mut S,
) -> ReasonStatus
    ensures end { ReviewExplained words.now result (S.files store.old) (K.written sink.old)
        (K.written sink.new) }
    // Whatever is returned, the files are as they were.
    ensures same { S.files store.new ≡ S.files store.old }
    ensures file { CountedIf (says_file_fault result) (S.faults store.old) (S.faults store.new) }
    ensures write { CountedIf (says_write_fault result) (K.faults sink.old) (K.faults sink.new) }
{
    match request_of(alloc, words) {
        Ok(Some(request)) => explain_request(alloc, words, &request, sink, store),
        Ok(None) => ReasonStatus::BadWords,
        Err(_) => ReasonStatus::OutOfMemory,
    }
}
