//! What the requests of a stream ask for.
ghost use Rattle.std.specs.Prelude.{◌≡◌, [], ◌∷◌, true, false, IfErr, OnOk};
ghost use Rattle.snap_io.specs.Causes.{Counted};
ghost use Rattle.snap_assert.specs.Session.{session_of, empty_session, closed, is_open};
ghost use Rattle.snap_assert_place.specs.Place.{names_file};
ghost use Rattle.snap_run.specs.Runner.{words_of};
ghost use Rattle.snap_run_requests.specs.RequestOf.{assertion_of, request_of};
ghost use Rattle.snap_run_requests.specs.Requests.{asserts};
ghost use Rattle.snap_explain_unused.specs.Stops.{AsksAll, AsksOne, AsksBy, StopsAll, StopsOne, StopsBy, Grows, is_file_fault, stop_of, IsOfFile};

use crate::path_set::add;
use snap_assert::error::AssertError;
use snap_assert::preview::Preview;
use snap_assert::session::Session;
use snap_content::{OutOfMemory, Text};
use snap_io::{Store, StoreError};
use snap_run::{Runner, preview_assertion};
use snap_run_requests::cut::first_document_end;
use snap_run_requests::request::{Assertion, Request};
use snap_run_requests::{RequestError, read_request};
use std::alloc::Global;
use std::collections::BTreeSet;

/// Why nothing is named.
#[derive(Clone, Copy, Debug, PartialEq, Eq)]
pub enum Stop {
    /// A document is no request, or a run refuses it.
    Refused,
    /// The store failed.
    FileFault,
    OutOfMemory,
}

impl From<OutOfMemory> for Stop {
    ghost use Rattle.std.specs.Prelude.{◌≡◌};
    ghost use Rattle.snap_explain_unused.specs.declared.asking.Stop.TheVariants.{OutOfMemory};

    ghost from_gives = { λ _ e. e ≡ OutOfMemory };

    fn from(_: OutOfMemory) -> Self {
        Stop::OutOfMemory
    }
}

impl From<StoreError> for Stop {
    ghost use Rattle.std.specs.Prelude.{◌≡◌};
    ghost use Rattle.snap_explain_unused.specs.Stops.{store_stop};

    ghost from_gives = { λ error e. e ≡ store_stop error };

    fn from(error: StoreError) -> Self {
        match error {
            StoreError::Failed => Stop::FileFault,
            StoreError::OutOfMemory => Stop::OutOfMemory,
        }
    }
}

/// Why an assertion that comes to no answer ends the work: what is remembered refuses it, where it is neither a fault nor memory.
fn stop_of(error: &AssertError) -> Stop
    ensures { result ≡ stop_of error.now }
{
    match error {
        AssertError::FileIo(_) => Stop::FileFault,
        AssertError::OutOfMemory => Stop::OutOfMemory,
        _ => Stop::Refused,
    }
}

/// Keeps the path that a request asks for.
fn keep_path(
    alloc: Global,
    asked: &mut BTreeSet<Text>,
    preview: &Preview,
) -> Result<(), OutOfMemory>
    ensures { OnOk result (Grows (preview.now.path ∷ []) asked.old.keys asked.new.keys) }
{
    let path = preview.path.try_clone(alloc)?;
    add(asked, path)?;
    Ok(())
}

/// Keeps the path that an assertion asks for, and remembers what a run would. No file is touched.
fn ask_assertion<F: Store>(
    alloc: Global,
    runner: &Runner,
    session: &mut Session,
    asked: &mut BTreeSet<Text>,
    assertion: Assertion,
    store: &mut F,
) -> Result<(), Stop>
    requires { names_file assertion.file ≡ true }
    ensures asked { OnOk result (AsksBy (words_of runner.now) (asserts (assertion_of assertion))
        (session_of session.old) (session_of session.new) asked.old.keys asked.new.keys) }
    ensures stopped { IfErr result (λ stop. StopsBy stop (words_of runner.now)
        (asserts (assertion_of assertion)) (session_of session.old)) }
    ensures same { F.files store.new ≡ F.files store.old }
    ensures cause { Counted is_file_fault (F.faults store.old) (F.faults store.new) result }
{
    match preview_assertion(alloc, runner, session, assertion, store) {
        Ok(preview) => {
            let kept = keep_path(alloc, asked, &preview);
            drop(preview);
            Ok(kept?)
        }
        Err(error) => {
            let stop = stop_of(&error);
            drop(error);
            Err(stop)
        }
    }
}

/// Closes a block, where one is open.
fn ask_end(session: &mut Session) -> Result<(), Stop>
    ensures closed { OnOk result ((is_open (session_of session.old) ≡ true)
        × (session_of session.new ≡ closed (session_of session.old))) }
    ensures stray { IfErr result (λ stop. (stop ≡ Stop.Refused)
        × (is_open (session_of session.old) ≡ false)) }
{
    if session.end_duplicates() {
        Ok(())
    } else {
        Err(Stop::Refused)
    }
}

/// Keeps the path that a request asks for, where it asks for one.
fn ask_request<F: Store>(
    alloc: Global,
    runner: &Runner,
    session: &mut Session,
    asked: &mut BTreeSet<Text>,
    request: Request,
    store: &mut F,
) -> Result<(), Stop>
    requires { IsOfFile (request_of request) }
    ensures asked { OnOk result (AsksBy (words_of runner.now) (request_of request)
        (session_of session.old) (session_of session.new) asked.old.keys asked.new.keys) }
    ensures stopped { IfErr result (λ stop. StopsBy stop (words_of runner.now)
        (request_of request) (session_of session.old)) }
    ensures same { F.files store.new ≡ F.files store.old }
    ensures cause { Counted is_file_fault (F.faults store.old) (F.faults store.new) result }
{
    match request {
        Request::Assertion(assertion) => {
            ask_assertion(alloc, runner, session, asked, assertion, store)
        }
        Request::Begin => {
            session.begin_duplicates()?;
            Ok(())
        }
        Request::End => ask_end(session),
    }
}

/// Reads a document, and keeps the path that it asks for.
fn ask_document<F: Store>(
    alloc: Global,
    runner: &Runner,
    session: &mut Session,
    asked: &mut BTreeSet<Text>,
    document: &[u8],
    store: &mut F,
) -> Result<(), Stop>
    ensures asked { OnOk result (AsksOne (words_of runner.now) document.now
        (session_of session.old) (session_of session.new) asked.old.keys asked.new.keys) }
    ensures stopped { IfErr result (λ stop. StopsOne stop (words_of runner.now) document.now
        (session_of session.old)) }
    ensures same { F.files store.new ≡ F.files store.old }
    ensures cause { Counted is_file_fault (F.faults store.old) (F.faults store.new) result }
{
    match read_request(alloc, document) {
        Ok(request) => ask_request(alloc, runner, session, asked, request, store),
        Err(RequestError::NoRequest(_)) => Err(Stop::Refused),
        Err(RequestError::OutOfMemory) => Err(Stop::OutOfMemory),
    }
}

/// Keeps the paths that the requests of an input ask for, in a run that begins.
pub(crate) fn ask_documents<F: Store>(
    alloc: Global,
    runner: &Runner,
    session: &mut Session,
    asked: &mut BTreeSet<Text>,
    input: &[u8],
    store: &mut F,
) -> Result<(), Stop>
    requires fresh { session_of session.now ≡ empty_session }
    requires none { asked.now.keys ≡ [] }
    ensures asked { OnOk result (AsksAll (words_of runner.now) input.now asked.new.keys) }
    ensures stopped { IfErr result (λ stop. StopsAll stop (words_of runner.now) input.now) }
    ensures same { F.files store.new ≡ F.files store.old }
    ensures cause { Counted is_file_fault (F.faults store.old) (F.faults store.new) result }
{
    let mut rest = input;
    while !rest.is_empty() {
        let (document, later) = rest.split_at(first_document_end(rest));
        ask_document(alloc, runner, session, asked, document, store)?;
        rest = later;
    }
    Ok(())
}
