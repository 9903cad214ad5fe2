//! What a request for a snapshot file is to change, and what is to be answered.
ghost use Rattle.std.specs.Prelude.{◌≡◌, ℕ, IfOk, IsSome};
ghost use Rattle.std.specs.Str.{chars};
ghost use Rattle.snap_io.specs.Causes.{Counted};
ghost use Rattle.snap_path.specs.Paths.{parent_of};
ghost use Rattle.snap_review.specs.Ends.{says_file_fault};
ghost use Rattle.snap_review.specs.FilePlanned.{FilePlanEnd, FoundEnd, IsLeaving, IsSnapshotFrom, LeavingEnd, ThereEnd, file_line};
ghost use Rattle.snap_review.specs.Read.{IsFoundAt};
ghost use Rattle.snap_review.specs.declared.words.Command.TheVariants.{Accept, Reject};

use crate::plan::{Plan, Put};
use crate::status::{ReviewStatus, status_of};
use crate::strays::left_in;
use crate::words::{Command, Request, name_in};
use snap_content::{Blob, OutOfMemory, Text};
use snap_io::Store;
use snap_path::path_parent;
use snap_store::{Snapshot, named};
use std::alloc::Global;

/// What goes, and what is answered then.
#[derive(Debug, Drop)]
pub struct Leaving {
    pub removals: Vec<Text>,
    pub lines: Text,
}

/// The line of an answer.
fn line_of(alloc: Global, word: &str, path: &Text) -> Result<Text, OutOfMemory>
    ensures { IfOk result (λ made. made ≡ file_line (chars word.now) path.now) }
{
    let mut made = Text::from_str(alloc, word)?;
    made.push_ascii(alloc, " ")?;
    made.push_text(alloc, path)?;
    made.push_ascii(alloc, "\n")?;
    Ok(made)
}

/// What goes of these names in the folder of the file, and then the file that waits.
fn leaving_of(
    alloc: Global,
    request: &Request,
    folder: &Text,
    names: &[Text],
    word: &str,
) -> Result<Leaving, OutOfMemory>
    ensures { IfOk result (λ leaving. IsLeaving request.now folder.now names.now (chars word.now) leaving) }
{
    let lines = line_of(alloc, word, &request.path)?;
    let own = request.waiting.try_clone(alloc)?;
    let mut removals = left_in(alloc, folder, name_in(&request.path), names)?;
    removals.push(own)?;
    Ok(Leaving { removals, lines })
}

/// What goes from the folder, once a file there is accepted or rejected. The store is not changed.
fn leave_in<S: Store>(
    alloc: Global,
    store: &mut S,
    request: &Request,
    folder: &Text,
    word: &str,
) -> Result<Leaving, ReviewStatus>
    ensures end { folder.now ≡ parent_of request.now.path
        → LeavingEnd request.now (chars word.now) (S.files store.old) result }
    ensures same { S.files store.new ≡ S.files store.old }
    ensures cause { Counted says_file_fault (S.faults store.old) (S.faults store.new) result }
{
    match named::list(alloc, store, folder) {
        Err(error) => Err(status_of(error)),
        Ok(names) => match leaving_of(alloc, request, folder, names.as_slice(), word) {
            Ok(leaving) => Ok(leaving),
            Err(_) => Err(ReviewStatus::OutOfMemory),
        },
    }
}

/// What goes once a file is accepted or rejected. The store is not changed.
fn make_leaving<S: Store>(
    alloc: Global,
    store: &mut S,
    request: &Request,
    word: &str,
) -> Result<Leaving, ReviewStatus>
    ensures end { LeavingEnd request.now (chars word.now) (S.files store.old) result }
    ensures same { S.files store.new ≡ S.files store.old }
    ensures cause { Counted says_file_fault (S.faults store.old) (S.faults store.new) result }
{
    match path_parent(alloc, &request.path) {
        Err(_) => Err(ReviewStatus::OutOfMemory),
        Ok(folder) => leave_in(alloc, store, request, &folder, word),
    }
}

/// The plan to put this, to remove what goes, and to answer so.
fn plan_from(put: Put, leaving: Leaving) -> Plan
    ensures { result ≡ record { put = put; removals = leaving.removals; lines = leaving.lines } }
{
    Plan {
        put,
        removals: leaving.removals,
        lines: leaving.lines,
    }
}

/// The plan by which this snapshot takes its place. It is moved there. The store is not changed.
fn accept_snapshot<S: Store>(
    alloc: Global,
    store: &mut S,
    request: &Request,
    snapshot: Snapshot,
) -> Result<Plan, ReviewStatus>
    ensures end { IsSnapshotFrom request.now (S.files store.old) snapshot
        → FilePlanEnd Accept request.now (S.files store.old) result }
    ensures same { S.files store.new ≡ S.files store.old }
    ensures cause { Counted says_file_fault (S.faults store.old) (S.faults store.new) result }
{
    match make_leaving(alloc, store, request, "accepted") {
        Err(status) => {
            drop(snapshot);
            Err(status)
        }
        Ok(made) => Ok(plan_from(Put::Snapshot(snapshot), made)),
    }
}

/// The plan by which the snapshot that waits is accepted. The store is not changed.
fn accept_file<S: Store>(
    alloc: Global,
    store: &mut S,
    request: &Request,
) -> Result<Plan, ReviewStatus>
    ensures end { FilePlanEnd Accept request.now (S.files store.old) result }
    ensures same { S.files store.new ≡ S.files store.old }
    ensures cause { Counted says_file_fault (S.faults store.old) (S.faults store.new) result }
{
    match Snapshot::from_file(alloc, store, &request.waiting) {
        Err(error) => Err(status_of(error)),
        Ok(snapshot) => accept_snapshot(alloc, store, request, snapshot),
    }
}

/// That the file is there.
fn be_there(file: Option<Blob>) -> Result<(), ReviewStatus>
    ensures end { ThereEnd file result }
    ensures no_fault { (count : ℕ) → Counted says_file_fault count count result }
{
    match file {
        Some(_) => Ok(()),
        None => Err(ReviewStatus::NoPending),
    }
}

/// That a file is there at the path. The store is not changed.
fn find<S: Store>(alloc: Global, store: &mut S, path: &Text) -> Result<(), ReviewStatus>
    ensures end { FoundEnd path.now (S.files store.old) result }
    ensures same { S.files store.new ≡ S.files store.old }
    ensures cause { Counted says_file_fault (S.faults store.old) (S.faults store.new) result }
{
    match named::read(alloc, store, path) {
        Err(error) => Err(status_of(error)),
        Ok(file) => be_there(file),
    }
}

/// The plan by which a snapshot that is there is rejected. The store is not changed.
fn reject_found<S: Store>(
    alloc: Global,
    store: &mut S,
    request: &Request,
) -> Result<Plan, ReviewStatus>
    ensures end { IsFoundAt request.now.waiting (S.files store.old) (λ file. IsSome file)
        → FilePlanEnd Reject request.now (S.files store.old) result }
    ensures same { S.files store.new ≡ S.files store.old }
    ensures cause { Counted says_file_fault (S.faults store.old) (S.faults store.new) result }
{
    match make_leaving(alloc, store, request, "rejected") {
        Err(status) => Err(status),
        Ok(made) => Ok(plan_from(Put::Nothing, made)),
    }
}

/// The plan by which the snapshot that waits is rejected. The store is not changed.
fn reject_file<S: Store>(
    alloc: Global,
    store: &mut S,
    request: &Request,
) -> Result<Plan, ReviewStatus>
    ensures end { FilePlanEnd Reject request.now (S.files store.old) result }
    ensures same { S.files store.new ≡ S.files store.old }
    ensures cause { Counted says_file_fault (S.faults store.old) (S.faults store.new) result }
{
    match find(alloc, store, &request.waiting) {
        Err(status) => Err(status),
        Ok(()) => reject_found(alloc, store, request),
    }
}

/// The plan of a request for a snapshot file. The store is not changed.
pub fn plan_file<S: Store>(
    alloc: Global,
    store: &mut S,
    request: &Request,
) -> Result<Plan, ReviewStatus>
    ensures end { FilePlanEnd request.now.command request.now (S.files store.old) result }
    ensures same { S.files store.new ≡ S.files store.old }
    ensures cause { Counted says_file_fault (S.faults store.old) (S.faults store.new) result }
{
    match request.command {
        Command::Accept => accept_file(alloc, store, request),
        Command::Reject => reject_file(alloc, store, request),
    }
}
