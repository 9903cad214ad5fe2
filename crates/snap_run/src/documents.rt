//! One document, and many in turn.
ghost use Rattle.std.specs.Prelude.{◌≡◌, ◌<◌, ◌≤◌, ◌^◌, [], List, ℕ, Option, IfOk, IfErr, OnOk, length, option_copied, true, false};
ghost use Rattle.snap_io.specs.Causes.{Counted};
ghost use Rattle.snap_io.specs.Files.{Files};
ghost use Rattle.snap_io.specs.Outside.{outside};
ghost use Rattle.snap_run_requests.specs.Cut.{documents};
ghost use Rattle.snap_assert_place.specs.Place.{names_file, place_of};
ghost use Rattle.snap_assert.specs.Session.{session_of, opened, closed, is_open};
ghost use Rattle.snap_assert.specs.Listed.{IsKnown, StaysCovered};
ghost use Rattle.snap_run.specs.Runner.{words_of};
ghost use Rattle.snap_run.specs.Answers.{line_text, no_tally, place_at};
ghost use Rattle.snap_run.specs.Status.{Ended, says_file_fault, says_write_fault};
ghost use Rattle.snap_run.specs.Runs.{RanOne, StopsAt, Stopped, IsMade, AssertionStops, IsSeenFrom, is_store_fault, is_sink_fault};
ghost use Rattle.snap_run_requests.specs.Requests.{ReadsAs, asserts};
ghost use Rattle.snap_run_requests.specs.RequestOf.{assertion_of};

use crate::document_error::DocumentError;
use crate::runner::Runner;
use crate::status::Status;
use crate::tally::Tally;
use snap_assert::engine::assert_listed;
use snap_assert::listed::Listed;
use snap_assert::outcome::{Outcome, Verdict};
use snap_assert::session::Session;
use snap_assert_place::place::Place;
use snap_assert_settings::settings::Settings;
use snap_content::{OutOfMemory, Text};
use snap_emit::push_spelled_text;
use snap_io::{Sink, Store};
use snap_io_streams::streams::write_all;
use snap_run_requests::cut::first_document_end;
use snap_run_requests::request::{Assertion, Request, read_request};
use std::alloc::Global;

/// The line that tells of an answer.
fn line(alloc: Global, verdict: Verdict, path: &Text) -> Result<Text, OutOfMemory>
    ensures { IfOk result (λ line. line ≡ line_text verdict path.now) }
{
    let mut line = match verdict {
        Verdict::Passed => Text::from_ascii(alloc, "passed ")?,
        Verdict::Updated => Text::from_ascii(alloc, "updated ")?,
        Verdict::Pending => Text::from_ascii(alloc, "pending ")?,
        Verdict::Rejected => Text::from_ascii(alloc, "rejected ")?,
    };
    push_spelled_text(&mut line, alloc, path)?;
    line.push(alloc, '\n')?;
    Ok(line)
}

/// Where the request of a document stands, of its texts.
pub(crate) fn place_of_request(
    alloc: Global,
    runner: &Runner,
    function: Text,
    module_name: Text,
    file: Text,
    line: u32,
    expr: Text,
) -> Result<Place, OutOfMemory>
    requires { names_file file ≡ true }
    ensures { IfOk result (λ place. place_of place
        ≡ place_at runner.now.workspace function module_name file line expr) }
{
    let workspace = runner.workspace.try_clone(alloc)?;
    Ok(Place::of_file(workspace, function, module_name, file, line, expr))
}

/// The name, where one is given.
pub(crate) fn given_name(name: &Option<Text>) -> Option<&Text>
    ensures { option_copied result ≡ name.now }
{
    match name {
        None => None,
        Some(name) => Some(name),
    }
}

/// Makes the assertion that a document asks for.
fn make_assertion<F: Store>(
    alloc: Global,
    runner: &Runner,
    session: &mut Session,
    listed: &mut Listed,
    assertion: Assertion,
    store: &mut F,
) -> Result<Outcome, DocumentError>
    requires { names_file assertion.file ≡ true }
    ensures ok { IfOk result (λ outcome. (known : Option Files)
        → IsKnown known (F.files store.old) listed.old
        → IsMade (words_of runner.now) (assertion_of assertion) outcome
        (session_of session.old) (session_of session.new) known (F.files store.new)) }
    ensures err { IfErr result (λ error. (known : Option Files)
        → IsKnown known (F.files store.old) listed.old
        → IsSeenFrom (F.files store.old) known (λ files. AssertionStops (words_of runner.now) error
        (assertion_of assertion) (session_of session.old) files (F.files store.new))) }
    ensures covered { OnOk result (StaysCovered (F.files store.old) (F.files store.new) listed.old
        listed.new) }
    ensures store_count { Counted is_store_fault (F.faults store.old) (F.faults store.new) result }
{
    let Assertion {
        module_name,
        file,
        line,
        name,
        function,
        suffix,
        expr,
        value,
        redactions,
        sort,
    } = assertion;
    let Ok(mut settings) = Settings::from_replacements(alloc, sort, redactions) else {
        drop(value);
        return Err(DocumentError::OutOfMemory);
    };
    settings.set_snapshot_suffix(suffix);
    let Ok(place) = place_of_request(alloc, runner, function, module_name, file, line, expr) else {
        drop(settings);
        drop(value);
        return Err(DocumentError::OutOfMemory);
    };
    let outcome = assert_listed(
        alloc,
        session,
        listed,
        store,
        &runner.config,
        &settings,
        &place,
        given_name(&name),
        value,
    );
    drop(settings);
    drop(place);
    drop(name);
    Ok(outcome?)
}

/// Makes the assertion that a document asks for and writes its line. What is counted of the answer.
fn run_assertion<K: Sink, F: Store>(
    alloc: Global,
    runner: &Runner,
    session: &mut Session,
    listed: &mut Listed,
    assertion: Assertion,
    sink: &mut K,
    store: &mut F,
) -> Result<Tally, DocumentError>
    requires { names_file assertion.file ≡ true }
    ensures ok { IfOk result (λ tally. (document : List ℕ) (known : Option Files)
        → ReadsAs document (asserts (assertion_of assertion))
        → IsKnown known (F.files store.old) listed.old
        → RanOne (words_of runner.now) document tally (session_of session.old)
        (session_of session.new) (outside known (K.written sink.old))
        (outside (F.files store.new) (K.written sink.new))) }
    ensures err { IfErr result (λ error. (document : List ℕ) (known : Option Files)
        → ReadsAs document (asserts (assertion_of assertion))
        → IsKnown known (F.files store.old) listed.old
        → IsSeenFrom (F.files store.old) known
        (λ files. StopsAt (words_of runner.now) error document (session_of session.old)
        (outside files (K.written sink.old))
        (outside (F.files store.new) (K.written sink.new)))) }
    ensures covered { OnOk result (StaysCovered (F.files store.old) (F.files store.new) listed.old
        listed.new) }
    ensures one { IfOk result (λ tally. tally.passed ≤ 1) }
    ensures store_count { Counted is_store_fault (F.faults store.old) (F.faults store.new) result }
    ensures sink_count { Counted is_sink_fault (K.faults sink.old) (K.faults sink.new) result }
{
    let outcome = make_assertion(alloc, runner, session, listed, assertion, store)?;
    let line = line(alloc, outcome.verdict, &outcome.path)?;
    write_all(sink, line.as_str().as_bytes())?;
    Ok(Tally::of_outcome(&outcome))
}

/// Opens a block of duplicates. No answer is counted for that.
fn begin_block(session: &mut Session) -> Result<Tally, DocumentError>
    ensures ok { IfOk result (λ tally. (tally ≡ no_tally)
        × (session_of session.new ≡ opened (session_of session.old))) }
    ensures err { IfErr result (λ error. error ≡ DocumentError.OutOfMemory) }
{
    session.begin_duplicates()?;
    Ok(Tally::none())
}

/// Closes a block of duplicates, where one is open.
fn end_block(session: &mut Session) -> Result<Tally, DocumentError>
    ensures ok { IfOk result (λ tally. (tally ≡ no_tally) × (is_open (session_of session.old) ≡ true)
        × (session_of session.new ≡ closed (session_of session.old))) }
    ensures err { IfErr result (λ error. (error ≡ DocumentError.NoRequest)
        × (is_open (session_of session.old) ≡ false)) }
{
    if session.end_duplicates() {
        Ok(Tally::none())
    } else {
        Err(DocumentError::NoRequest)
    }
}

/// Reads one document and runs its request: an assertion is made and its line written; a block begins or ends without one.
/// What is counted of the answer.
fn run_document<K: Sink, F: Store>(
    alloc: Global,
    runner: &Runner,
    session: &mut Session,
    listed: &mut Listed,
    document: &[u8],
    sink: &mut K,
    store: &mut F,
) -> Result<Tally, DocumentError>
    ensures ok { IfOk result (λ tally. (known : Option Files)
        → IsKnown known (F.files store.old) listed.old
        → RanOne (words_of runner.now) document.now tally
        (session_of session.old) (session_of session.new)
        (outside known (K.written sink.old))
        (outside (F.files store.new) (K.written sink.new))) }
    ensures err { IfErr result (λ error. (known : Option Files)
        → IsKnown known (F.files store.old) listed.old
        → IsSeenFrom (F.files store.old) known
        (λ files. StopsAt (words_of runner.now) error document.now
        (session_of session.old) (outside files (K.written sink.old))
        (outside (F.files store.new) (K.written sink.new)))) }
    ensures covered { OnOk result (StaysCovered (F.files store.old) (F.files store.new) listed.old
        listed.new) }
    ensures one { IfOk result (λ tally. tally.passed ≤ 1) }
    ensures store_count { Counted is_store_fault (F.faults store.old) (F.faults store.new) result }
    ensures sink_count { Counted is_sink_fault (K.faults sink.old) (K.faults sink.new) result }
{
    match read_request(alloc, document)? {
        Request::Assertion(assertion) => {
            run_assertion(alloc, runner, session, listed, assertion, sink, store)
        }
        Request::Begin => begin_block(session),
        Request::End => end_block(session),
    }
}

/// Runs the documents of an input in turn, up to the first that stops the run, with the status that tells of it. Each folder is listed
/// once. What is counted of the answers.
pub fn run_documents<K: Sink, F: Store>(
    alloc: Global,
    runner: &Runner,
    session: &mut Session,
    input: &[u8],
    sink: &mut K,
    store: &mut F,
) -> Result<Tally, Status>
    requires { length input.now < 2 ^ 63 }
    ensures finished { IfOk result (λ tally. Ended tally (words_of runner.now) (documents input.now)
        (session_of session.old) (outside (F.files store.old) (K.written sink.old))
        (outside (F.files store.new) (K.written sink.new))) }
    ensures stopped { IfErr result (λ status. Stopped status (words_of runner.now)
        (documents input.now) (session_of session.old)
        (outside (F.files store.old) (K.written sink.old))
        (outside (F.files store.new) (K.written sink.new))) }
    ensures store_count { Counted says_file_fault (F.faults store.old) (F.faults store.new) result }
    ensures sink_count { Counted says_write_fault (K.faults sink.old) (K.faults sink.new) result }
    ensures untouched { input.now ≡ [] → store.new ≡ store.old }
{
    let mut listed = Listed::new(alloc);
    let mut rest = input;
    let mut document = 0u64;
    let mut tally = Tally::none();
    while !rest.is_empty() {
        let (first, later) = rest.split_at(first_document_end(rest));
        document += 1;
        match run_document(alloc, runner, session, &mut listed, first, sink, store) {
            Ok(answered) => tally = tally.with(answered),
            Err(error) => return Err(error.status_at(document)),
        }
        rest = later;
    }
    Ok(tally)
}
