//! What would become of a request: nothing is to be said where it would pass, and else why it would not.
ghost use Rattle.std.specs.Prelude.{◌≡◌, ℕ, Bool, IfOk, IfErr, OnOk, MatchOption, None, true, false};
ghost use Rattle.snap_io.specs.Causes.{Counted};
ghost use Rattle.snap_assert.specs.Outcomes.{ErrorCause};
ghost use Rattle.snap_assert.specs.Previews.{IsForeseen};
ghost use Rattle.snap_assert.specs.Session.{session_of, opened, closed, is_open};
ghost use Rattle.snap_assert.specs.Steps.{Asked};
ghost use Rattle.snap_assert_place.specs.Place.{names_file};
ghost use Rattle.snap_run.specs.Runner.{words_of};
ghost use Rattle.snap_run_requests.specs.RequestOf.{assertion_of, request_of};
ghost use Rattle.snap_run_requests.specs.Requests.{asserts};
ghost use Rattle.snap_explain.specs.Asked.{asked_before, deeper, known_by, seen_of, shallower, with_asker};
ghost use Rattle.snap_explain.specs.Troubles.{IsOfFile, Passes, IsSaidFor, IsClear, HasTrouble, RefusesFor, unforeseen, is_tell_file, is_tell_write};

use crate::against::against;
use crate::earlier::{Earlier, Taking};
use crate::misfit::unpassed;
use crate::noting::note;
use crate::telling::TellError;
use crate::trouble::Trouble;
use snap_assert::error::AssertError;
use snap_assert::preview::Preview;
use snap_assert::session::Session;
use snap_content::Text;
use snap_io::Store;
use snap_run::{RefusalKind, Runner, preview_assertion};
use snap_run_requests::request::{Assertion, Request};
use std::alloc::Global;

/// Why what is remembered refuses an assertion that comes to no answer.
fn unforeseen(error: &AssertError) -> Result<RefusalKind, TellError>
    ensures is { result ≡ unforeseen error.now }
    ensures unsaid { IfErr result (λ error. is_tell_write error ≡ false) }
{
    match error {
        AssertError::FileIo(_) => Err(TellError::FileFault),
        AssertError::NameClash => Ok(RefusalKind::NameClash),
        AssertError::DoctestNeedsName => Ok(RefusalKind::DoctestNeedsName),
        AssertError::DuplicateDiffers { .. } => Ok(RefusalKind::DuplicateDiffers),
        AssertError::NamesExhausted => Ok(RefusalKind::NamesExhausted),
        _ => Err(TellError::OutOfMemory),
    }
}

/// Why what is foreseen is no pass, where it is none, and else what is to be said of it. The document with this number asks for it.
fn trouble_in<F: Store>(
    alloc: Global,
    workspace: &Text,
    store: &mut F,
    earlier: &mut Earlier,
    number: u64,
    taking: Taking,
    preview: &Preview,
) -> Result<Option<Trouble>, TellError>
    ensures found { IfOk result (λ found. (fully : Bool) (asked : Asked)
        → IsForeseen fully asked preview.now (F.files store.old)
        → MatchOption found
        (Passes workspace.now (asked_before asked.path (seen_of earlier.old)) fully asked
        (F.files store.old))
        (λ what. IsSaidFor workspace.now (asked_before asked.path (seen_of earlier.old)) fully
        asked (F.files store.old) what)) }
    ensures seen { OnOk result (seen_of earlier.new
        ≡ with_asker number preview.now.path (seen_of earlier.old)) }
    ensures unsaid { IfErr result (λ error. is_tell_write error ≡ false) }
    ensures same { F.files store.new ≡ F.files store.old }
    ensures cause { Counted is_tell_file (F.faults store.old) (F.faults store.new) result }
{
    let asker = earlier.go_on(number, taking, preview)?;
    if preview.judged.passed {
        return note(alloc, workspace, store, earlier.told(asker), preview);
    }
    let what = unpassed(alloc, store, &preview.path, &preview.snapshot, asker)?;
    Ok(Some(what))
}

/// What is said of an assertion that comes to no answer.
fn refused(
    alloc: Global,
    earlier: &mut Earlier,
    number: u64,
    taking: Taking,
    error: AssertError,
) -> Result<Option<Trouble>, TellError>
    ensures is { IfOk result (λ found. RefusesFor (unforeseen error) found) }
    ensures seen { seen_of earlier.new ≡ seen_of earlier.old }
    ensures cause { (before now : ℕ) → ErrorCause before now error
        → Counted is_tell_file before now result }
    ensures unsaid { IfErr result (λ error. is_tell_write error ≡ false) }
{
    let kind = unforeseen(&error);
    let detail = against(alloc, earlier, number, taking, error);
    let kind = kind?;
    Ok(Some(Trouble::Refused {
        kind,
        detail: detail?,
    }))
}

/// Why an assertion would not pass, where it would not.
fn trouble_by<F: Store>(
    alloc: Global,
    runner: &Runner,
    session: &mut Session,
    store: &mut F,
    earlier: &mut Earlier,
    number: u64,
    taking: Taking,
    assertion: Assertion,
) -> Result<Option<Trouble>, TellError>
    requires { names_file assertion.file ≡ true }
    ensures found { IfOk result (λ found. MatchOption found
        (IsClear (words_of runner.now) (F.files store.old) number
        (known_by (session_of session.old) earlier.old)
        (known_by (session_of session.new) earlier.new) (asserts (assertion_of assertion)))
        (λ what. HasTrouble (words_of runner.now) (F.files store.old) number
        (known_by (session_of session.old) earlier.old)
        (known_by (session_of session.new) earlier.new) (asserts (assertion_of assertion)) what)) }
    ensures unsaid { IfErr result (λ error. is_tell_write error ≡ false) }
    ensures same { F.files store.new ≡ F.files store.old }
    ensures cause { Counted is_tell_file (F.faults store.old) (F.faults store.new) result }
{
    match preview_assertion(alloc, runner, session, assertion, store) {
        Ok(preview) => {
            let found = trouble_in(
                alloc,
                &runner.workspace,
                store,
                earlier,
                number,
                taking,
                &preview,
            );
            drop(preview);
            found
        }
        Err(error) => refused(alloc, earlier, number, taking, error),
    }
}

/// The same, of an assertion of which it is to be seen what it takes.
fn trouble_of_assertion<F: Store>(
    alloc: Global,
    runner: &Runner,
    session: &mut Session,
    store: &mut F,
    earlier: &mut Earlier,
    number: u64,
    assertion: Assertion,
) -> Result<Option<Trouble>, TellError>
    requires { names_file assertion.file ≡ true }
    ensures found { IfOk result (λ found. MatchOption found
        (IsClear (words_of runner.now) (F.files store.old) number
        (known_by (session_of session.old) earlier.old)
        (known_by (session_of session.new) earlier.new) (asserts (assertion_of assertion)))
        (λ what. HasTrouble (words_of runner.now) (F.files store.old) number
        (known_by (session_of session.old) earlier.old)
        (known_by (session_of session.new) earlier.new) (asserts (assertion_of assertion)) what)) }
    ensures unsaid { IfErr result (λ error. is_tell_write error ≡ false) }
    ensures same { F.files store.new ≡ F.files store.old }
    ensures cause { Counted is_tell_file (F.faults store.old) (F.faults store.new) result }
{
    match Taking::of(alloc, &assertion) {
        Ok(taking) => trouble_by(
            alloc, runner, session, store, earlier, number, taking, assertion,
        ),
        Err(_) => {
            drop(assertion);
            Err(TellError::OutOfMemory)
        }
    }
}

/// Opens a block, of which nothing is to be said.
fn begin_block(session: &mut Session, earlier: &mut Earlier) -> Result<Option<Trouble>, TellError>
    ensures ok { IfOk result (λ found. (found ≡ None)
        × (session_of session.new ≡ opened (session_of session.old))) }
    ensures seen { OnOk result (seen_of earlier.new ≡ deeper (seen_of earlier.old)) }
    ensures err { IfErr result (λ error. error ≡ TellError.OutOfMemory) }
{
    session.begin_duplicates()?;
    earlier.begin()?;
    Ok(None)
}

/// Closes a block, where one is open.
fn end_block(session: &mut Session, earlier: &mut Earlier) -> Option<Trouble>
    ensures { MatchOption result
        ((is_open (session_of session.old) ≡ true)
        × ((session_of session.new ≡ closed (session_of session.old))
        × (seen_of earlier.new ≡ shallower (seen_of earlier.old))))
        (λ what. (what ≡ Trouble.StrayEnd) × ((is_open (session_of session.old) ≡ false)
        × ((session_of session.new ≡ session_of session.old)
        × (seen_of earlier.new ≡ seen_of earlier.old)))) }
{
    if session.end_duplicates() {
        earlier.end();
        None
    } else {
        Some(Trouble::StrayEnd)
    }
}

/// Why a request, which is the document with this number, would not pass or would end a run, where one of both is so. What the run would
/// remember then is remembered. No file is touched.
pub(crate) fn trouble_of<F: Store>(
    alloc: Global,
    runner: &Runner,
    session: &mut Session,
    store: &mut F,
    earlier: &mut Earlier,
    number: u64,
    request: Request,
) -> Result<Option<Trouble>, TellError>
    requires { IsOfFile (request_of request) }
    ensures found { IfOk result (λ found. MatchOption found
        (IsClear (words_of runner.now) (F.files store.old) number
        (known_by (session_of session.old) earlier.old)
        (known_by (session_of session.new) earlier.new) (request_of request))
        (λ what. HasTrouble (words_of runner.now) (F.files store.old) number
        (known_by (session_of session.old) earlier.old)
        (known_by (session_of session.new) earlier.new) (request_of request) what)) }
    ensures unsaid { IfErr result (λ error. is_tell_write error ≡ false) }
    ensures same { F.files store.new ≡ F.files store.old }
    ensures cause { Counted is_tell_file (F.faults store.old) (F.faults store.new) result }
{
    match request {
        Request::Assertion(assertion) => {
            trouble_of_assertion(alloc, runner, session, store, earlier, number, assertion)
        }
        Request::Begin => begin_block(session, earlier),
        Request::End => Ok(end_block(session, earlier)),
    }
}
