//! The reason, written.
ghost use Rattle.std.specs.Prelude.{◌≡◌};
ghost use Rattle.snap_io.specs.Causes.{CountedIf};
ghost use Rattle.snap_review.specs.Ends.{says_file_fault as is_fault};
ghost use Rattle.snap_explain_review.specs.Ends.{IsSaid, SaysOf, says_file_fault, says_write_fault, silent_end};
ghost use Rattle.snap_explain_review.specs.Reasons.{reason_text};

use crate::reason::reason_line;
use crate::status::ReasonStatus;
use snap_content::Text;
use snap_io::Sink;
use snap_io_streams::streams::write_all;
use snap_review::ReviewStatus;
use snap_review::words::Request;
use std::alloc::Global;

/// How a run ends that says nothing, by what the review would come to; none where there is a reason to be said.
fn silent_end(foreseen: &ReviewStatus) -> Option<ReasonStatus>
    ensures { result ≡ silent_end foreseen.now }
{
    match foreseen {
        ReviewStatus::Done => Some(ReasonStatus::Nothing),
        ReviewStatus::BadWords => Some(ReasonStatus::BadWords),
        ReviewStatus::FileIo { .. } => Some(ReasonStatus::FileFault),
        ReviewStatus::OutOfMemory => Some(ReasonStatus::OutOfMemory),
        ReviewStatus::WriteFault
        | ReviewStatus::NoPending
        | ReviewStatus::Unreadable(_)
        | ReviewStatus::NoSource
        | ReviewStatus::NotStable { .. }
        | ReviewStatus::NoLiteral { .. }
        | ReviewStatus::Stale { .. }
        | ReviewStatus::SameLiteral { .. } => None,
    }
}

/// Writes the reason.
fn say<K: Sink>(reason: &Text, sink: &mut K) -> ReasonStatus
    ensures said { IsSaid reason.now result (K.written sink.old) (K.written sink.new) }
    ensures cause { CountedIf (says_write_fault result) (K.faults sink.old) (K.faults sink.new) }
{
    match write_all(sink, reason.as_str().as_bytes()) {
        Ok(()) => ReasonStatus::Found,
        Err(_) => ReasonStatus::WriteFault,
    }
}

/// Writes why the review of a request is refused that would end so.
fn say_reason<K: Sink>(
    alloc: Global,
    request: &Request,
    foreseen: &ReviewStatus,
    sink: &mut K,
) -> ReasonStatus
    ensures said { IsSaid (reason_text request.now foreseen.now) result (K.written sink.old)
        (K.written sink.new) }
    ensures cause { CountedIf (says_write_fault result) (K.faults sink.old) (K.faults sink.new) }
{
    match reason_line(alloc, request, foreseen) {
        Ok(reason) => say(&reason, sink),
        Err(_) => ReasonStatus::OutOfMemory,
    }
}

/// Writes what is to be said of a review that would end so.
pub(crate) fn tell<K: Sink>(
    alloc: Global,
    request: &Request,
    foreseen: &ReviewStatus,
    sink: &mut K,
) -> ReasonStatus
    ensures said { SaysOf request.now foreseen.now result (K.written sink.old)
        (K.written sink.new) }
    ensures fault { says_file_fault result ≡ is_fault foreseen.now }
    ensures cause { CountedIf (says_write_fault result) (K.faults sink.old) (K.faults sink.new) }
{
    match silent_end(foreseen) {
        Some(status) => status,
        None => say_reason(alloc, request, foreseen, sink),
    }
}
