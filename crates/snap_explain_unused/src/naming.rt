//! The run that names unused files.
ghost use Rattle.std.specs.Prelude.{◌≡◌, List, [], ℕ, false, IfOk, IfErr, OnOk, Some};
ghost use Rattle.snap_io.specs.Causes.{Counted, CountedIf};
ghost use Rattle.snap_explain_unused.specs.Asked.{run_in};
ghost use Rattle.snap_explain_unused.specs.Ends.{FindsLines, FindsText, IsAfterReading, IsSaying, SaysOf, stopped};
ghost use Rattle.snap_explain_unused.specs.Runs.{UnusedLeaves, UnusedRun, says_file_fault, says_read_fault, says_write_fault};
ghost use Rattle.snap_explain_unused.specs.Stops.{AsksAll, StopsAll, is_file_fault, is_refused};

use crate::asking::{Stop, ask_documents};
use crate::looking::find_unused;
use crate::path_lines::lines_of;
use crate::status::UnusedStatus;
use snap_assert::session::Session;
use snap_assert_settings::config::{Flags, Update};
use snap_content::Text;
use snap_io::{Sink, Source, Store};
use snap_io_streams::streams::{ReadError, read_all, write_all};
use snap_run::Runner;
use std::alloc::Global;
use std::collections::BTreeSet;

/// What is to be written, and whether a file is unused.
#[derive(Debug, Drop)]
struct Findings {
    text: Text,
    is_filled: bool,
}

/// What is to be written of the files beside these paths.
fn findings_beside<F: Store>(
    alloc: Global,
    asked: &BTreeSet<Text>,
    store: &mut F,
) -> Result<Findings, Stop>
    ensures found { IfOk result (λ findings. FindsLines asked.now.keys (F.files store.old) findings) }
    ensures taken { IfErr result (λ stop. is_refused stop ≡ false) }
    ensures same { F.files store.new ≡ F.files store.old }
    ensures cause { Counted is_file_fault (F.faults store.old) (F.faults store.new) result }
{
    let mut unused = BTreeSet::new(alloc);
    find_unused(alloc, asked, store, &mut unused)?;
    let text = lines_of(alloc, &unused)?;
    Ok(Findings {
        text,
        is_filled: !unused.is_empty(),
    })
}

/// Keeps the paths that the requests of an input ask for in this workspace.
fn ask_in<F: Store>(
    alloc: Global,
    workspace: &Text,
    asked: &mut BTreeSet<Text>,
    input: &[u8],
    store: &mut F,
) -> Result<(), Stop>
    requires { asked.now.keys ≡ [] }
    ensures asked { OnOk result (AsksAll (run_in workspace.now) input.now asked.new.keys) }
    ensures stopped { IfErr result (λ stop. StopsAll stop (run_in workspace.now) input.now) }
    ensures same { F.files store.new ≡ F.files store.old }
    ensures cause { Counted is_file_fault (F.faults store.old) (F.faults store.new) result }
{
    let flags = Flags {
        force_update: false,
        force_pass: false,
        full: false,
        literal: false,
    };
    let runner = Runner::new(alloc, workspace, Update::NoUpdate, flags)?;
    let mut session = Session::new(alloc);
    ask_documents(alloc, &runner, &mut session, asked, input, store)
}

/// What is to be written of the files for which the requests of an input don't ask.
fn findings_of<F: Store>(
    alloc: Global,
    workspace: &Text,
    input: &[u8],
    store: &mut F,
) -> Result<Findings, Stop>
    ensures found { IfOk result (λ findings. FindsText (run_in workspace.now) (F.files store.old)
        input.now findings) }
    ensures stopped { IfErr result (λ stop. StopsAll stop (run_in workspace.now) input.now) }
    ensures same { F.files store.new ≡ F.files store.old }
    ensures cause { Counted is_file_fault (F.faults store.old) (F.faults store.new) result }
{
    let mut asked = BTreeSet::new(alloc);
    ask_in(alloc, workspace, &mut asked, input, store)?;
    findings_beside(alloc, &asked, store)
}

/// Writes what was found.
fn say<K: Sink>(findings: &Findings, sink: &mut K) -> UnusedStatus
    ensures said { (w : List ℕ) → K.written sink.old ≡ Some w
        → SaysOf findings.now result w (K.written sink.new) }
    ensures kind { IsSaying result }
    ensures write { CountedIf (says_write_fault result) (K.faults sink.old) (K.faults sink.new) }
{
    if !findings.is_filled {
        return UnusedStatus::Nothing;
    }
    match write_all(sink, findings.text.as_str().as_bytes()) {
        Ok(()) => UnusedStatus::Found,
        Err(_) => UnusedStatus::WriteFault,
    }
}

/// How a run ends whose work stopped so.
fn stopped(stop: Stop) -> UnusedStatus
    ensures { result ≡ stopped stop }
{
    match stop {
        Stop::Refused => UnusedStatus::Refused,
        Stop::FileFault => UnusedStatus::FileFault,
        Stop::OutOfMemory => UnusedStatus::OutOfMemory,
    }
}

/// The same of an input that was read.
fn name_unused_of<K: Sink, F: Store>(
    alloc: Global,
    workspace: &Text,
    input: &[u8],
    sink: &mut K,
    store: &mut F,
) -> UnusedStatus
    ensures leaves { (w : List ℕ) → K.written sink.old ≡ Some w
        → UnusedLeaves workspace.now (F.files store.old) result input.now w (K.written sink.new) }
    ensures read { IsAfterReading result }
    ensures same { F.files store.new ≡ F.files store.old }
    ensures write { CountedIf (says_write_fault result) (K.faults sink.old) (K.faults sink.new) }
    ensures file { CountedIf (says_file_fault result) (F.faults store.old) (F.faults store.new) }
{
    match findings_of(alloc, workspace, input, store) {
        Ok(findings) => {
            let status = say(&findings, sink);
            drop(findings);
            status
        }
        Err(stop) => stopped(stop),
    }
}

/// Names the files for which no request of a stream asks.
///
/// The source is read as a run over requests in this workspace does. Where such a run takes all of them, the folders of the snapshots that
/// they ask for are listed, and each file there whose name ends with `.snap` or `.snap.new` is unused if no request asks for its snapshot.
/// The paths of these are written in the order of their bytes, a line each, with a backslash before each blank, quote and backslash, as
/// `xargs` reads them. A path that holds the end of a line has no line. No file is touched.
///
/// A document that is no request, or that a run refuses, might have asked for any file: then nothing is named.
pub fn name_unused<S: Source, K: Sink, F: Store>(
    alloc: Global,
    workspace: &Text,
    source: &mut S,
    sink: &mut K,
    store: &mut F,
) -> UnusedStatus
    ensures run { UnusedRun workspace.now (F.files store.old) result (S.left source.old)
        (S.left source.new) (K.written sink.old) (K.written sink.new) }
    // Whatever is returned, the files are as they were.
    ensures same { F.files store.new ≡ F.files store.old }
    ensures read { CountedIf (says_read_fault result) (S.faults source.old) (S.faults source.new) }
    ensures write { CountedIf (says_write_fault result) (K.faults sink.old) (K.faults sink.new) }
    ensures file { CountedIf (says_file_fault result) (F.faults store.old) (F.faults store.new) }
{
    match read_all(alloc, source) {
        Err(ReadError::Fault) => UnusedStatus::ReadFault,
        Err(ReadError::TooLong) => UnusedStatus::StreamTooLong,
        Err(ReadError::OutOfMemory) => UnusedStatus::OutOfMemory,
        Ok(input) => name_unused_of(alloc, workspace, &input, sink, store),
    }
}
