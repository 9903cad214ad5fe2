//! One run of a review.
ghost use Rattle.snap_io.specs.Causes.{CountedIf};
ghost use Rattle.snap_review.specs.Ends.{IsRunOf, ReviewOf, says_file_fault, says_write_fault};
ghost use Rattle.snap_review.specs.Wanted.{wanted_by};

use crate::carrying::carry_out;
use crate::request_plan::plan_of;
use crate::status::ReviewStatus;
use crate::words::{Request, request_of};
use snap_content::Text;
use snap_io::{Sink, Store};
use std::alloc::Global;

/// The run of a request.
fn run<K: Sink, S: Store>(
    alloc: Global,
    request: &Request,
    sink: &mut K,
    store: &mut S,
) -> ReviewStatus
    ensures end { IsRunOf request.now result (S.files store.old) (S.files store.new)
        (K.written sink.old) (K.written sink.new) }
    ensures file { CountedIf (says_file_fault result) (S.faults store.old) (S.faults store.new) }
    ensures write { CountedIf (says_write_fault result) (K.faults sink.old) (K.faults sink.new) }
{
    match plan_of(alloc, store, request) {
        Err(status) => status,
        Ok(plan) => {
            let status = carry_out(alloc, request, &plan, sink, store);
            drop(plan);
            status
        }
    }
}

/// Does what the words ask for, `accept SOURCE`, `reject SOURCE`, `accept-file PATH` or `reject-file PATH`, and writes a line for each
/// record that was accepted or rejected, or for the file.
///
/// `accept` puts each new text that waits in place of the first literal behind an `@` from its line on, all lines being those of the
/// source before, and then takes the file of the records away; `reject` does that alone. Where there is nothing to put, the source is
/// not written.
///
/// `accept-file` saves the snapshot that waits at PATH with `.new`, and its payload, at PATH, without the line of its assertion. Then
/// it takes away what payloads left there, PATH with `.new.` and more, and at last the file that waited; `reject-file` does that alone.
pub fn review<K: Sink, S: Store>(
    alloc: Global,
    words: &[Text],
    sink: &mut K,
    store: &mut S,
) -> ReviewStatus
    ensures end { ReviewOf (wanted_by words.now) result (S.files store.old) (S.files store.new)
        (K.written sink.old) (K.written sink.new) }
    ensures file { CountedIf (says_file_fault result) (S.faults store.old) (S.faults store.new) }
    ensures write { CountedIf (says_write_fault result) (K.faults sink.old) (K.faults sink.new) }
{
    match request_of(alloc, words) {
        Ok(Some(request)) => run(alloc, &request, sink, store),
        Ok(None) => ReviewStatus::BadWords,
        Err(_) => ReviewStatus::OutOfMemory,
    }
}
