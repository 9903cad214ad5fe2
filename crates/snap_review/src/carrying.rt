//! A plan carried out.
ghost use Rattle.std.specs.Prelude.{[], ◌∷◌, OnOk, IfErr, encode_utf8_all, map};
ghost use Rattle.snap_io.specs.Causes.{Counted, CountedIf};
ghost use Rattle.snap_io.specs.Changes.{all_changed, removes, writes};
ghost use Rattle.snap_io.specs.Outside.{Becomes};
ghost use Rattle.snap_store.specs.Causes.{is_file_fault};
ghost use Rattle.snap_store.specs.Meta.{without_line};
ghost use Rattle.snap_store.specs.Saving.{saving};
ghost use Rattle.snap_store.specs.Views.{contents_in, meta_in};
ghost use Rattle.snap_review.specs.Carried.{StopsIn};
ghost use Rattle.snap_review.specs.Ends.{IsSaid, WorkEnd, says_file_fault, says_write_fault};
ghost use Rattle.snap_review.specs.Planned.{changes_of, written};

use crate::plan::{Plan, Put};
use crate::status::{ReviewStatus, status_of};
use crate::words::Request;
use snap_content::{Error, Text};
use snap_io::{Sink, Store};
use snap_io_streams::streams::write_all;
use snap_store::{Snapshot, named};
use std::alloc::Global;

/// Removes the files, one after the other.
fn remove_each<S: Store>(alloc: Global, store: &mut S, paths: &[Text]) -> Result<(), Error>
    ensures ok { OnOk result (Becomes (S.files store.old) (S.files store.new)
        (all_changed (map removes paths.now))) }
    ensures stopped { IfErr result (λ error. StopsIn (map removes paths.now) error
        (S.files store.old) (S.files store.new)) }
    ensures cause { Counted is_file_fault (S.faults store.old) (S.faults store.new) result }
{
    for path in paths {
        match named::remove(alloc, store, path) {
            Ok(()) => {}
            Err(error) => return Err(error),
        }
    }
    Ok(())
}

/// Writes the source.
fn put_source<S: Store>(alloc: Global, store: &mut S, path: &Text, made: &Text) -> Result<(), Error>
    ensures ok { OnOk result (Becomes (S.files store.old) (S.files store.new)
        (all_changed (writes path.now (encode_utf8_all made.now) ∷ []))) }
    ensures stopped { IfErr result (λ error. StopsIn
        (writes path.now (encode_utf8_all made.now) ∷ []) error
        (S.files store.old) (S.files store.new)) }
    ensures cause { Counted is_file_fault (S.faults store.old) (S.faults store.new) result }
{
    match path.try_clone(alloc) {
        Err(_) => Err(Error::OutOfMemory),
        Ok(path) => named::write(store, path, made.as_str().as_bytes()),
    }
}

/// Writes the snapshot and its payload, without the line of its assertion.
fn put_snapshot<S: Store>(
    alloc: Global,
    store: &mut S,
    path: &Text,
    snapshot: &Snapshot,
) -> Result<(), Error>
    ensures ok { OnOk result (Becomes (S.files store.old) (S.files store.new) (all_changed
        (saving path.now (without_line (meta_in snapshot.now)) (contents_in snapshot.now)))) }
    ensures stopped { IfErr result (λ error. StopsIn
        (saving path.now (without_line (meta_in snapshot.now)) (contents_in snapshot.now)) error
        (S.files store.old) (S.files store.new)) }
    ensures cause { Counted is_file_fault (S.faults store.old) (S.faults store.new) result }
{
    match snapshot.save(alloc, store, path) {
        Ok(()) => Ok(()),
        Err(error) => Err(error),
    }
}

/// Writes what is to be put.
fn put<S: Store>(alloc: Global, store: &mut S, request: &Request, put: &Put) -> Result<(), Error>
    ensures ok { OnOk result (Becomes (S.files store.old) (S.files store.new)
        (all_changed (written request.now put.now))) }
    ensures stopped { IfErr result (λ error. StopsIn (written request.now put.now) error
        (S.files store.old) (S.files store.new)) }
    ensures cause { Counted is_file_fault (S.faults store.old) (S.faults store.new) result }
{
    match put {
        Put::Nothing => Ok(()),
        Put::Source(made) => put_source(alloc, store, &request.path, made),
        Put::Snapshot(snapshot) => put_snapshot(alloc, store, &request.path, snapshot),
    }
}

/// Makes the changes of the plan.
fn change<S: Store>(
    alloc: Global,
    store: &mut S,
    request: &Request,
    plan: &Plan,
) -> Result<(), Error>
    ensures ok { OnOk result (Becomes (S.files store.old) (S.files store.new)
        (all_changed (changes_of request.now plan.now))) }
    ensures stopped { IfErr result (λ error. StopsIn (changes_of request.now plan.now) error
        (S.files store.old) (S.files store.new)) }
    ensures cause { Counted is_file_fault (S.faults store.old) (S.faults store.new) result }
{
    match put(alloc, store, request, &plan.put) {
        Err(error) => Err(error),
        Ok(()) => remove_each(alloc, store, plan.removals.as_slice()),
    }
}

/// Writes the lines.
fn say<K: Sink>(sink: &mut K, lines: &Text) -> ReviewStatus
    ensures said { IsSaid lines.now result (K.written sink.old) (K.written sink.new) }
    ensures cause { CountedIf (says_write_fault result) (K.faults sink.old) (K.faults sink.new) }
{
    match write_all(sink, lines.as_str().as_bytes()) {
        Ok(()) => ReviewStatus::Done,
        Err(_) => ReviewStatus::WriteFault,
    }
}

/// Makes the changes of the plan, and then writes its lines.
pub fn carry_out<K: Sink, S: Store>(
    alloc: Global,
    request: &Request,
    plan: &Plan,
    sink: &mut K,
    store: &mut S,
) -> ReviewStatus
    ensures end { WorkEnd (changes_of request.now plan.now) plan.now.lines result
        (S.files store.old) (S.files store.new) (K.written sink.old) (K.written sink.new) }
    ensures file { CountedIf (says_file_fault result) (S.faults store.old) (S.faults store.new) }
    ensures write { CountedIf (says_write_fault result) (K.faults sink.old) (K.faults sink.new) }
{
    match change(alloc, store, request, plan) {
        Ok(()) => say(sink, &plan.lines),
        Err(error) => status_of(error),
    }
}
