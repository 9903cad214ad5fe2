//! The finding of a document, written.
ghost use Rattle.std.specs.Prelude.{◌≡◌, List, ℕ, None, Some, IfOk, IfErr, MatchResult, false, string_bytes};
ghost use Rattle.snap_io.specs.Causes.{Counted};
ghost use Rattle.snap_assert.specs.Session.{session_of};
ghost use Rattle.snap_run.specs.Runner.{words_of};
ghost use Rattle.snap_run_requests.specs.RequestOf.{request_of};
ghost use Rattle.snap_run_requests.specs.Requests.{ReadsAs};
ghost use Rattle.snap_explain.specs.Findings.{Writes, is_write_fault};
ghost use Rattle.snap_explain.specs.Asked.{known_by};
ghost use Rattle.snap_explain.specs.Json.{refusal_in};
ghost use Rattle.snap_explain.specs.Refusals.{refusal_text};
ghost use Rattle.snap_explain.specs.Remarks.{AreSeen, lines_on};
ghost use Rattle.snap_explain.specs.Streams.{DocumentEnds, FoundEnds, IsNoRequest, IsRefusal, LinesEnd, Said, in_form, told_as, whether_said};
ghost use Rattle.snap_explain.specs.Troubles.{IsOfFile, is_tell_file, is_tell_write};

use crate::earlier::Earlier;
use crate::foreseeing::trouble_of;
use crate::form::Form;
use crate::hint::hint;
use crate::json_findings::json_refusal;
use crate::outline::{Node, Outline, outline_of};
use crate::pointing::node_of;
use crate::position::{Place, place_behind};
use crate::refusal::ReasonWords;
use crate::remark_lines::lines_on;
use crate::remarks::{Remarks, remarks_on};
use crate::saying::SayError;
use crate::seen::seen_at;
use crate::trouble::Trouble;
use snap_assert::session::Session;
use snap_content::{OutOfMemory, Text};
use snap_emit::Refusal;
use snap_io::{Sink, Store};
use snap_io_streams::streams::write_all;
use snap_run::Runner;
use snap_run_requests::{KeyFault, Reason, Request, RequestError, read_request};
use snap_scan_tokens::ScanError;
use std::alloc::Global;

/// Why a document isn't told of to its end.
#[derive(Clone, Copy, Debug, PartialEq, Eq)]
pub enum TellError {
    WriteFault,
    /// The store failed.
    FileFault,
    OutOfMemory,
}

impl From<OutOfMemory> for TellError {
    ghost use Rattle.std.specs.Prelude.{◌≡◌};
    ghost use Rattle.snap_explain.specs.declared.telling.TellError.TheVariants.{OutOfMemory};

    ghost from_gives = { λ _ e. e ≡ OutOfMemory };

    fn from(_: OutOfMemory) -> Self {
        TellError::OutOfMemory
    }
}

impl From<SayError> for TellError {
    ghost use Rattle.std.specs.Prelude.{◌≡◌};
    ghost use Rattle.snap_explain.specs.Streams.{told_error};

    ghost from_gives = { λ error e. e ≡ told_error error };

    fn from(error: SayError) -> Self {
        match error {
            SayError::WriteFault => TellError::WriteFault,
            SayError::OutOfMemory => TellError::OutOfMemory,
        }
    }
}

/// Where a finding points, the key or the selector that was seen there, where one is told, and what helps to mend the document.
#[derive(Debug, Drop)]
pub struct Told {
    pub place: Place,
    pub seen: Option<Text>,
    pub detail: Text,
}

/// How many characters stand before a node. A map in blocks is marked behind its first key, with which it begins.
fn begin_of(nodes: &[Node], index: usize) -> Option<usize> {
    let node = nodes.get(index)?;
    match nodes.get(index.saturating_add(1)) {
        Some(child) if child.depth > node.depth => Some(node.before.min(child.before)),
        _ => Some(node.before),
    }
}

/// How many characters stand before the place that a reason speaks of; none where it speaks of the whole document.
fn before_of(outline: &Outline, node: Option<usize>, why: &Reason) -> Option<usize> {
    match why {
        Reason::NoTree(Refusal::NoYaml(ScanError::Syntax(mark, _))) => Some(mark.index()),
        Reason::NoTree(Refusal::NotOneDocument) if outline.documents > 1 => Some(outline.second),
        _ => begin_of(outline.nodes.as_slice(), node?),
    }
}

/// A reason that speaks of a whole map or document is told with its first line alone.
fn without_column(place: Place, why: &Reason) -> Place {
    match why {
        Reason::NoMap | Reason::Key(KeyFault::Missing(_)) => Place {
            line: place.line,
            column: None,
        },
        _ => place,
    }
}

fn place_of(first: u64, text: &str, before: Option<usize>, why: &Reason) -> Place {
    match before {
        None => Place {
            line: first,
            column: None,
        },
        Some(before) => without_column(place_behind(text, first, before), why),
    }
}

/// The same of a document whose nodes are these.
fn told_by(
    alloc: Global,
    number: u64,
    first: u64,
    text: &str,
    outline: &Outline,
    why: &Reason,
) -> Result<Told, OutOfMemory> {
    let node = node_of(alloc, outline.nodes.as_slice(), why)?;
    let seen = seen_at(alloc, outline.nodes.as_slice(), node, why)?;
    let detail = hint(alloc, number, text, outline, node, why)?;
    let before = before_of(outline, node, why);
    Ok(Told {
        place: place_of(first, text, before, why),
        seen,
        detail,
    })
}

fn told_of_text(
    alloc: Global,
    number: u64,
    first: u64,
    text: &str,
    why: &Reason,
) -> Result<Told, OutOfMemory> {
    let outline = outline_of(alloc, text)?;
    let told = told_by(alloc, number, first, text, &outline, why);
    drop(outline);
    told
}

/// What is told of bytes that are no UTF-8, so many of which are.
fn told_of_bytes(first: u64, document: &[u8], place: usize) -> Told {
    let (front, _) = document.split_at(place.min(document.len()));
    let place = match str::from_utf8(front) {
        Ok(text) => place_behind(text, first, usize::MAX),
        Err(_) => Place {
            line: first,
            column: None,
        },
    };
    Told {
        place,
        seen: None,
        detail: Text::empty(),
    }
}

/// What is told of a document besides the reason why it is no request. Its first line is the one with this number.
fn told_of(
    alloc: Global,
    number: u64,
    first: u64,
    document: &[u8],
    why: &Reason,
) -> Result<Told, OutOfMemory> {
    match str::from_utf8(document) {
        Ok(text) => told_of_text(alloc, number, first, text, why),
        Err(error) => Ok(told_of_bytes(first, document, error.valid_up_to())),
    }
}

/// What is said of a document with this number in words, as a line.
fn plain_refusal(
    alloc: Global,
    number: u64,
    told: &Told,
    why: &Reason,
) -> Result<String, OutOfMemory>
    ensures { IfOk result (λ text. string_bytes text
        ≡ refusal_text number told.now.place why.now told.now.detail) }
{
    let words = ReasonWords { why };
    Ok(format!(in alloc;
        "document {number}, {}: {words}{}\n",
        told.place, told.detail
    )?)
}

/// What is said of a document with this number, as a line.
fn refusal(
    alloc: Global,
    form: Form,
    number: u64,
    told: &Told,
    why: &Reason,
) -> Result<String, OutOfMemory>
    ensures { IfOk result (λ text. string_bytes text
        ≡ refusal_in form number told.now.place why.now told.now.seen told.now.detail) }
{
    match form {
        Form::Plain => plain_refusal(alloc, number, told, why),
        Form::Json => json_refusal(alloc, number, told, why),
    }
}

/// Writes what is said of a document with this number.
fn say_told<K: Sink>(
    alloc: Global,
    form: Form,
    number: u64,
    told: &Told,
    why: &Reason,
    sink: &mut K,
) -> Result<(), SayError>
    ensures said { (w : List ℕ) → K.written sink.old ≡ Some w
        → Writes (refusal_in form number told.now.place why.now told.now.seen told.now.detail) w
        (K.written sink.new) result }
    ensures cause { Counted is_write_fault (K.faults sink.old) (K.faults sink.new) result }
{
    let text = refusal(alloc, form, number, told, why)?;
    write_all(sink, text.as_bytes())?;
    Ok(())
}

/// Says of a document why it is no request.
fn say_refusal<K: Sink>(
    alloc: Global,
    form: Form,
    number: u64,
    first: u64,
    document: &[u8],
    why: &Reason,
    sink: &mut K,
) -> Result<(), SayError>
    ensures said { (w : List ℕ) → K.written sink.old ≡ Some w → IsNoRequest document.now why.now
        → Said (IsRefusal form number document.now) w (K.written sink.new) result }
    ensures cause { Counted is_write_fault (K.faults sink.old) (K.faults sink.new) result }
{
    let told = told_of(alloc, number, first, document, why)?;
    let said = say_told(alloc, form, number, &told, why, sink);
    drop(told);
    said
}

/// Writes all that is said of a request. Whether that is something.
fn write_lines<K: Sink>(
    alloc: Global,
    form: Form,
    number: u64,
    place: Place,
    found: &Option<Trouble>,
    remarks: &Remarks,
    sink: &mut K,
) -> Result<bool, SayError>
    ensures said { (w : List ℕ) → K.written sink.old ≡ Some w
        → LinesEnd (lines_on form number place found.now remarks.now) w (K.written sink.new) result }
    ensures cause { Counted is_write_fault (K.faults sink.old) (K.faults sink.new) result }
{
    let text = lines_on(alloc, form, number, place, found, remarks)?;
    write_all(sink, text.as_bytes())?;
    Ok(!text.is_empty())
}

/// How the telling of a request ends whose lines were written so.
fn told_as(said: Result<bool, SayError>) -> Result<bool, TellError>
    ensures { result ≡ told_as said }
{
    match said {
        Ok(found) => Ok(found),
        Err(SayError::WriteFault) => Err(TellError::WriteFault),
        Err(SayError::OutOfMemory) => Err(TellError::OutOfMemory),
    }
}

/// Says of a request whose first line is this one what it comes to, where something is to be said of that, and what is seen in it. Whether
/// something was said.
fn tell_found<K: Sink>(
    alloc: Global,
    form: Form,
    number: u64,
    first: u64,
    found: Result<Option<Trouble>, TellError>,
    remarks: &Remarks,
    sink: &mut K,
) -> Result<bool, TellError>
    ensures said { (w : List ℕ) → K.written sink.old ≡ Some w
        → FoundEnds form number (record { line = first; column = None }) found remarks.now w
        (K.written sink.new) result }
    ensures cause { IfErr found (λ error. is_tell_write error ≡ false)
        → Counted is_tell_write (K.faults sink.old) (K.faults sink.new) result }
    ensures file { (before now : ℕ) → Counted is_tell_file before now found
        → Counted is_tell_file before now result }
{
    match found {
        Err(error) => Err(error),
        Ok(found) => {
            let place = Place {
                line: first,
                column: None,
            };
            let said = write_lines(alloc, form, number, place, &found, remarks, sink);
            drop(found);
            told_as(said)
        }
    }
}

/// That something was said, or why not.
fn whether_said(said: Result<(), SayError>) -> Result<bool, TellError>
    ensures { result ≡ whether_said said }
{
    match said {
        Ok(()) => Ok(true),
        Err(SayError::WriteFault) => Err(TellError::WriteFault),
        Err(SayError::OutOfMemory) => Err(TellError::OutOfMemory),
    }
}

/// The request of a document, or why the run's own reader refuses it.
fn read(alloc: Global, document: &[u8]) -> Result<Result<Request, Reason>, OutOfMemory>
    ensures { IfOk result (λ found. MatchResult found
        (λ request. ReadsAs document.now (request_of request))
        (λ why. IsNoRequest document.now why)) }
{
    match read_request(alloc, document) {
        Ok(request) => Ok(Ok(request)),
        Err(RequestError::NoRequest(why)) => Ok(Err(why)),
        Err(RequestError::OutOfMemory) => Err(OutOfMemory),
    }
}

/// Says of the request of a document what it comes to, where something is to be said of that, and what was seen in it. Whether something
/// was said.
fn tell_seen<K: Sink, F: Store>(
    alloc: Global,
    form: Form,
    runner: &Runner,
    session: &mut Session,
    store: &mut F,
    earlier: &mut Earlier,
    number: u64,
    first: u64,
    request: Request,
    remarks: &Remarks,
    sink: &mut K,
) -> Result<bool, TellError>
    requires { IsOfFile (request_of request) }
    ensures said { (document w : List ℕ) → ReadsAs document (request_of request)
        → AreSeen (request_of request) remarks.now → K.written sink.old ≡ Some w
        → DocumentEnds (in_form form (words_of runner.now)) (F.files store.old) number document
        (known_by (session_of session.old) earlier.old)
        (known_by (session_of session.new) earlier.new) w (K.written sink.new) result }
    ensures same { F.files store.new ≡ F.files store.old }
    ensures write { Counted is_tell_write (K.faults sink.old) (K.faults sink.new) result }
    ensures file { Counted is_tell_file (F.faults store.old) (F.faults store.new) result }
{
    let found = trouble_of(alloc, runner, session, store, earlier, number, request);
    tell_found(alloc, form, number, first, found, remarks, sink)
}

/// The same, of which it is to be seen what is in it.
fn tell_request<K: Sink, F: Store>(
    alloc: Global,
    form: Form,
    runner: &Runner,
    session: &mut Session,
    store: &mut F,
    earlier: &mut Earlier,
    number: u64,
    first: u64,
    document: &[u8],
    request: Request,
    sink: &mut K,
) -> Result<bool, TellError>
    requires { IsOfFile (request_of request) }
    ensures said { (w : List ℕ) → ReadsAs document.now (request_of request)
        → K.written sink.old ≡ Some w
        → DocumentEnds (in_form form (words_of runner.now)) (F.files store.old) number document.now
        (known_by (session_of session.old) earlier.old)
        (known_by (session_of session.new) earlier.new) w (K.written sink.new) result }
    ensures same { F.files store.new ≡ F.files store.old }
    ensures write { Counted is_tell_write (K.faults sink.old) (K.faults sink.new) result }
    ensures file { Counted is_tell_file (F.faults store.old) (F.faults store.new) result }
{
    match remarks_on(alloc, document, first, &request) {
        Err(_) => {
            drop(request);
            Err(TellError::OutOfMemory)
        }
        Ok(remarks) => {
            let told = tell_seen(
                alloc, form, runner, session, store, earlier, number, first, request, &remarks,
                sink,
            );
            drop(remarks);
            told
        }
    }
}

/// Says of the document with this number, whose first line is this one of the stream, why it is no request, where the run's own
/// reader refuses it, and else why it would not pass, or what is to be said of it. Whether something was said. No file is touched.
pub(crate) fn tell_document<K: Sink, F: Store>(
    alloc: Global,
    form: Form,
    runner: &Runner,
    session: &mut Session,
    store: &mut F,
    earlier: &mut Earlier,
    number: u64,
    first: u64,
    document: &[u8],
    sink: &mut K,
) -> Result<bool, TellError>
    ensures said { (w : List ℕ) → K.written sink.old ≡ Some w
        → DocumentEnds (in_form form (words_of runner.now)) (F.files store.old) number document.now
        (known_by (session_of session.old) earlier.old)
        (known_by (session_of session.new) earlier.new) w (K.written sink.new) result }
    ensures same { F.files store.new ≡ F.files store.old }
    ensures write { Counted is_tell_write (K.faults sink.old) (K.faults sink.new) result }
    ensures file { Counted is_tell_file (F.faults store.old) (F.faults store.new) result }
{
    match read(alloc, document)? {
        Ok(request) => tell_request(
            alloc, form, runner, session, store, earlier, number, first, document, request, sink,
        ),
        Err(why) => whether_said(say_refusal(alloc, form, number, first, document, &why, sink)),
    }
}
