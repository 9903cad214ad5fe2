//! The calls of a store, with errors that name the path. Out of memory is told as such.
ghost use Rattle.std.specs.Prelude.{◌≡◌, ◌∷◌, [], Some, IfOk, OnOk, OnErr, IfErr, encode_utf8_all};
ghost use Rattle.std.specs.FinMap.{get, remove};
ghost use Rattle.snap_io.specs.Causes.{Counted, is_failed};
ghost use Rattle.snap_io.specs.Changes.{changed, Change.writes};
ghost use Rattle.snap_io.specs.StandsAfter.{StandsAfter};
ghost use Rattle.snap_io.specs.Files.{Files, SameBut, MayBeGone, appended};
ghost use Rattle.snap_io.specs.Listed.{AreNames};
ghost use Rattle.snap_store.specs.Causes.{is_file_fault, named_by, CallEnd, IsCallError};

use snap_content::{Blob, Error, Text};
use snap_io::{Names, Store, StoreError};
use std::alloc::Global;

/// What a failed call on this path is told as.
fn named(path: Text, error: StoreError) -> Error
    ensures path { IsCallError path result }
    ensures fault { is_file_fault result ≡ is_failed error }
{
    match error {
        StoreError::Failed => Error::FileIo(path),
        StoreError::OutOfMemory => Error::OutOfMemory,
    }
}

/// The bytes of the file, and none where there is no file. The store is not changed.
pub fn read<S: Store>(alloc: Global, store: &mut S, path: &Text) -> Result<Option<Blob>, Error>
    ensures found { IfOk result (λ found. (m : Files) → S.files store.old ≡ Some m
        → found ≡ get m path.now) }
    ensures same { S.files store.new ≡ S.files store.old }
    ensures error { CallEnd path.now result }
    ensures cause { Counted is_file_fault (S.faults store.old) (S.faults store.new) result }
{
    let own = path.try_clone(alloc)?;
    match store.read(alloc, path) {
        Ok(found) => Ok(found),
        Err(error) => Err(named(own, error)),
    }
}

/// Makes these bytes the file. The path is taken, since a fault names it, so that no memory is asked for between two writes.
/// After an error only that file is unknown.
pub fn write<S: Store>(store: &mut S, path: Text, bytes: &[u8]) -> Result<(), Error>
    ensures written { OnOk result ((m : Files) → S.files store.old ≡ Some m
        → S.files store.new ≡ Some (changed (writes path bytes.now) m)) }
    ensures stopped { IfErr result (λ error. StandsAfter (writes path bytes.now ∷ []) (named_by error)
        (S.files store.old) (S.files store.new)) }
    ensures error { CallEnd path result }
    ensures cause { Counted is_file_fault (S.faults store.old) (S.faults store.new) result }
{
    match store.write(&path, bytes) {
        Ok(()) => Ok(()),
        Err(error) => Err(named(path, error)),
    }
}

/// Adds this text after what the file holds, or makes it the file where there is none. After an error only that file is unknown.
pub fn append<S: Store>(alloc: Global, store: &mut S, path: &Text, text: &Text) -> Result<(), Error>
    ensures added { OnOk result ((m : Files) → S.files store.old ≡ Some m
        → S.files store.new ≡ Some (appended m path.now (encode_utf8_all text.now))) }
    ensures unknown { OnErr result ((m : Files) → S.files store.old ≡ Some m
        → SameBut path.now m (S.files store.new)) }
    ensures error { CallEnd path.now result }
    ensures cause { Counted is_file_fault (S.faults store.old) (S.faults store.new) result }
{
    let own = path.try_clone(alloc)?;
    match store.append(path, text.as_str().as_bytes()) {
        Ok(()) => Ok(()),
        Err(error) => Err(named(own, error)),
    }
}

/// Takes the file away, where there is one. After an error it is gone or as it was.
pub fn remove<S: Store>(alloc: Global, store: &mut S, path: &Text) -> Result<(), Error>
    ensures removed { OnOk result ((m : Files) → S.files store.old ≡ Some m
        → S.files store.new ≡ Some (remove m path.now)) }
    ensures stopped { OnErr result ((m : Files) → S.files store.old ≡ Some m
        → MayBeGone path.now m (S.files store.new)) }
    ensures error { CallEnd path.now result }
    ensures cause { Counted is_file_fault (S.faults store.old) (S.faults store.new) result }
{
    let own = path.try_clone(alloc)?;
    match store.remove(path) {
        Ok(_) => Ok(()),
        Err(error) => Err(named(own, error)),
    }
}

/// The names of the files in a folder; none for a missing folder. The store is not changed.
pub fn list<S: Store>(alloc: Global, store: &mut S, folder: &Text) -> Result<Names, Error>
    ensures names { IfOk result (λ names. (m : Files) → S.files store.old ≡ Some m
        → AreNames m folder.now names) }
    ensures same { S.files store.new ≡ S.files store.old }
    ensures error { CallEnd folder.now result }
    ensures cause { Counted is_file_fault (S.faults store.old) (S.faults store.new) result }
{
    let own = folder.try_clone(alloc)?;
    match store.list(alloc, folder) {
        Ok(names) => Ok(names),
        Err(error) => Err(named(own, error)),
    }
}
