//! A whole stream of requests, document by document.
ghost use Rattle.std.specs.Prelude.{◌≡◌, ◌<◌, ◌^◌, List, ℕ, Some, length};
ghost use Rattle.snap_io.specs.Causes.{Counted, CountedIf};
ghost use Rattle.snap_assert.specs.Session.{session_of, empty_session};
ghost use Rattle.snap_run.specs.Runner.{words_of};
ghost use Rattle.snap_explain.specs.Findings.{says_read_fault, says_write_fault, says_file_fault};
ghost use Rattle.snap_explain.specs.Streams.{StreamTold, StreamLeaves, StreamLength, in_form, stream_at, stream_status};
ghost use Rattle.snap_explain.specs.Troubles.{is_tell_file, is_tell_write};

use crate::earlier::Earlier;
use crate::form::Form;
use crate::position::line_ends;
use crate::status::ExplainStatus;
use crate::telling::{TellError, tell_document};
use snap_assert::session::Session;
use snap_assert_settings::config::{Flags, Update};
use snap_content::Text;
use snap_io::{Sink, Source, Store};
use snap_io_streams::streams::{ReadError, read_all};
use snap_run::Runner;
use snap_run_requests::cut::first_document_end;
use std::alloc::Global;

/// What is asked of a stream: where its requests are made, whether texts of several lines are printed as literal blocks, and how findings
/// are written.
#[derive(Clone, Copy, Debug)]
pub struct Asked<'a> {
    pub workspace: &'a Text,
    pub literal: bool,
    pub form: Form,
}

/// Says of each document, one by one, why it is no request or would not pass. Whether something was said.
fn tell_documents<K: Sink, F: Store>(
    alloc: Global,
    form: Form,
    runner: &Runner,
    session: &mut Session,
    input: &[u8],
    sink: &mut K,
    store: &mut F,
) -> Result<bool, TellError>
    requires short { length input.now < 2 ^ 63 }
    requires fresh { session_of session.now ≡ empty_session }
    ensures told { (w : List ℕ) → K.written sink.old ≡ Some w
        → StreamTold (in_form form (words_of runner.now)) (F.files store.old) input.now w (K.written sink.new)
        result }
    ensures same { F.files store.new ≡ F.files store.old }
    ensures write { Counted is_tell_write (K.faults sink.old) (K.faults sink.new) result }
    ensures file { Counted is_tell_file (F.faults store.old) (F.faults store.new) result }
{
    let mut rest = input;
    let mut number: u64 = 0;
    let mut line: u64 = 1;
    let mut found = false;
    let mut earlier = Earlier::new(alloc);
    while !rest.is_empty() {
        let (document, later) = rest.split_at(first_document_end(rest));
        number += 1;
        let said = tell_document(
            alloc,
            form,
            runner,
            session,
            store,
            &mut earlier,
            number,
            line,
            document,
            sink,
        )?;
        found |= said;
        line = line.saturating_add(line_ends(document));
        rest = later;
    }
    Ok(found)
}

/// The same of a run that begins.
fn tell_input<K: Sink, F: Store>(
    alloc: Global,
    asked: Asked<'_>,
    input: &[u8],
    sink: &mut K,
    store: &mut F,
) -> Result<bool, TellError>
    requires short { length input.now < 2 ^ 63 }
    ensures told { (w : List ℕ) → K.written sink.old ≡ Some w
        → StreamTold (stream_at asked.entry.form asked.entry.workspace.now asked.entry.literal)
        (F.files store.old) input.now w
        (K.written sink.new) result }
    ensures same { F.files store.new ≡ F.files store.old }
    ensures write { Counted is_tell_write (K.faults sink.old) (K.faults sink.new) result }
    ensures file { Counted is_tell_file (F.faults store.old) (F.faults store.new) result }
{
    let flags = Flags {
        force_update: false,
        force_pass: false,
        full: false,
        literal: asked.literal,
    };
    let runner = Runner::new(alloc, asked.workspace, Update::NoUpdate, flags)?;
    let mut session = Session::new(alloc);
    tell_documents(alloc, asked.form, &runner, &mut session, input, sink, store)
}

/// How a run ended whose documents were told so.
fn stream_status(told: Result<bool, TellError>) -> ExplainStatus
    ensures { result ≡ stream_status told }
{
    match told {
        Ok(false) => ExplainStatus::Nothing,
        Ok(true) => ExplainStatus::Found,
        Err(TellError::WriteFault) => ExplainStatus::WriteFault,
        Err(TellError::FileFault) => ExplainStatus::FileFault,
        Err(TellError::OutOfMemory) => ExplainStatus::OutOfMemory,
    }
}

/// Reads a stream of requests as a run does, and says of each document that is no request or would not pass why. No file is touched.
pub(crate) fn explain_stream<S: Source, K: Sink, F: Store>(
    alloc: Global,
    asked: Asked<'_>,
    source: &mut S,
    sink: &mut K,
    store: &mut F,
) -> ExplainStatus
    ensures words { result ≡ ExplainStatus.BadWords → ⊥ }
    ensures leaves { (input w : List ℕ) → S.left source.old ≡ Some input
        → K.written sink.old ≡ Some w
        → StreamLeaves (stream_at asked.entry.form asked.entry.workspace.now asked.entry.literal)
        (F.files store.old) result input w (K.written sink.new) }
    ensures same { F.files store.new ≡ F.files store.old }
    ensures length { StreamLength result (S.left source.old) (S.left source.new) }
    ensures read { CountedIf (says_read_fault result) (S.faults source.old) (S.faults source.new) }
    ensures write { CountedIf (says_write_fault result) (K.faults sink.old) (K.faults sink.new) }
    ensures file { CountedIf (says_file_fault result) (F.faults store.old) (F.faults store.new) }
{
    match read_all(alloc, source) {
        Err(ReadError::Fault) => ExplainStatus::ReadFault,
        Err(ReadError::TooLong) => ExplainStatus::StreamTooLong,
        Err(ReadError::OutOfMemory) => ExplainStatus::OutOfMemory,
        Ok(input) => stream_status(tell_input(alloc, asked, &input, sink, store)),
    }
}
