//! Why a command on a page has no answer.
ghost use Rattle.std.specs.Prelude.{◌≡◌, false, List, ℕ, None, Some, IfOk, MatchOption};
ghost use Rattle.snap_io.specs.Causes.{CountedIf};
ghost use Rattle.snap_front.specs.Program.{IsFailure};
ghost use Rattle.snap_explain.specs.Findings.{says_read_fault, says_write_fault, says_file_fault};
ghost use Rattle.snap_explain.specs.Pages.{FrontRun, HasAnswer, IsUnanswered, PageLeaves, said_status};
ghost use Rattle.snap_explain.specs.Streams.{StreamLength};

use crate::failing::say_failing;
use crate::saying::SayError;
use crate::status::ExplainStatus;
use snap_content::{OutOfMemory, Text};
use snap_front::usage::{USAGE, VERSION};
use snap_front::{FrontError, FrontStatus, front};
use snap_io::{Sink, Source};
use snap_io_streams::streams::{ReadError, read_all};
use snap_io_words::text_in;
use std::alloc::Global;

/// Why the program on pages gives no answer to the words, of a page; none where it gives one.
fn refused(
    alloc: Global,
    words: &[Text],
    document: &[u8],
) -> Result<Option<FrontError>, OutOfMemory>
    ensures { IfOk result (λ found. MatchOption found (HasAnswer words.now document.now)
        (λ error. IsFailure words.now document.now error)) }
{
    match front(alloc, words, document) {
        Ok(answer) => {
            drop(answer);
            Ok(None)
        }
        Err(FrontError::OutOfMemory) => Err(OutOfMemory),
        Err(error) => Ok(Some(error)),
    }
}

/// How a run ended whose finding was said so.
fn said_status(said: Result<(), SayError>) -> ExplainStatus
    ensures { result ≡ said_status said }
{
    match said {
        Ok(()) => ExplainStatus::Found,
        Err(SayError::WriteFault) => ExplainStatus::WriteFault,
        Err(SayError::OutOfMemory) => ExplainStatus::OutOfMemory,
    }
}

/// Says why there is no answer, which is the only finding.
fn say_unanswered<K: Sink>(
    alloc: Global,
    words: &[Text],
    document: &[u8],
    error: FrontError,
    sink: &mut K,
) -> ExplainStatus
    ensures leaves { IsFailure words.now document.now error → (w : List ℕ)
        → K.written sink.old ≡ Some w
        → PageLeaves words.now result document.now w (K.written sink.new) }
    ensures found { IsUnanswered result }
    ensures write { CountedIf (says_write_fault result) (K.faults sink.old) (K.faults sink.new) }
{
    let status = FrontStatus::Failed(error);
    let said = say_failing(alloc, words, document, &status, sink);
    drop(status);
    said_status(said)
}

/// Says of a page why the words have no answer, where they have none.
fn explain_page<K: Sink>(
    alloc: Global,
    words: &[Text],
    document: &[u8],
    sink: &mut K,
) -> ExplainStatus
    ensures leaves { (w : List ℕ) → K.written sink.old ≡ Some w
        → PageLeaves words.now result document.now w (K.written sink.new) }
    ensures found { IsUnanswered result }
    ensures write { CountedIf (says_write_fault result) (K.faults sink.old) (K.faults sink.new) }
{
    match refused(alloc, words, document) {
        Err(_) => ExplainStatus::OutOfMemory,
        Ok(None) => ExplainStatus::Nothing,
        Ok(Some(error)) => say_unanswered(alloc, words, document, error, sink),
    }
}

/// The same of the page that the source gives.
fn explain_source<S: Source, K: Sink>(
    alloc: Global,
    words: &[Text],
    source: &mut S,
    sink: &mut K,
) -> ExplainStatus
    ensures words { result ≡ ExplainStatus.BadWords → ⊥ }
    ensures leaves { (input w : List ℕ) → S.left source.old ≡ Some input
        → K.written sink.old ≡ Some w
        → PageLeaves words.now result input w (K.written sink.new) }
    ensures length { StreamLength result (S.left source.old) (S.left source.new) }
    ensures read { CountedIf (says_read_fault result) (S.faults source.old) (S.faults source.new) }
    ensures write { CountedIf (says_write_fault result) (K.faults sink.old) (K.faults sink.new) }
    ensures file { says_file_fault result ≡ false }
{
    match read_all(alloc, source) {
        Err(ReadError::Fault) => ExplainStatus::ReadFault,
        Err(ReadError::TooLong) => ExplainStatus::StreamTooLong,
        Err(ReadError::OutOfMemory) => ExplainStatus::OutOfMemory,
        Ok(document) => explain_page(alloc, words, &document, sink),
    }
}

/// Reads a page as the program on pages does, and says why it gives no answer to these words. It gives one without a page where they
/// ask for its usage or its version.
pub(crate) fn explain_front<S: Source, K: Sink>(
    alloc: Global,
    words: &[Text],
    source: &mut S,
    sink: &mut K,
) -> ExplainStatus
    ensures words { result ≡ ExplainStatus.BadWords → ⊥ }
    ensures run { FrontRun words.now result (S.left source.old) (S.left source.new)
        (K.written sink.old) (K.written sink.new) }
    ensures read { CountedIf (says_read_fault result) (S.faults source.old) (S.faults source.new) }
    ensures write { CountedIf (says_write_fault result) (K.faults sink.old) (K.faults sink.new) }
    ensures file { says_file_fault result ≡ false }
{
    match text_in(words, USAGE, VERSION) {
        Some(_) => ExplainStatus::Nothing,
        None => explain_source(alloc, words, source, sink),
    }
}
