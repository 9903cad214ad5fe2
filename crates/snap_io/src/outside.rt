//! The traits of the outside. What an object tells of its contents is an `Option` for proofs alone:
//! a clause on contents holds where they are told, and an object that tells nothing owes none of them.
ghost use Rattle.std.specs.Prelude.{◌≡◌, ◌<◌, ◌↔◌, ◌++◌, [], List, ℕ, Option, Some, length, take, IfOk, OnOk, OnErr, IsTrue, IsSome};
ghost use Rattle.std.specs.FinMap.{get, insert, remove};
ghost use Rattle.std.specs.Io.{ReadsAtMost, WritesAtMost};
ghost use Rattle.snap_io.specs.Causes.{Counted, is_failed, is_fault};
ghost use Rattle.snap_io.specs.Files.{Files, SameBut, MayBeGone, appended};
ghost use Rattle.snap_io.specs.Listed.{AreNames};
ghost use Rattle.snap_io.specs.Streams.{GivesFront};

use crate::names::Names;
use snap_content::{Blob, OutOfMemory, Text};
use std::alloc::{AllocError, AllocFailed, Global};
use thiserror::Error;

/// A source or a sink failed.
#[derive(Clone, Copy, Debug, PartialEq, Eq, Error)]
#[error("Fault")]
pub struct Fault;

/// Why a store did not do what it was asked.
#[derive(Clone, Copy, Debug, PartialEq, Eq, Error)]
pub enum StoreError {
    /// The store failed, and its count of faults rose.
    #[error("Failed")]
    Failed,
    #[error("OutOfMemory")]
    OutOfMemory,
}

impl From<Fault> for StoreError {
    ghost use Rattle.std.specs.Prelude.{◌≡◌};
    ghost use Rattle.snap_io.specs.declared.outside.StoreError.TheVariants.{Failed};

    ghost from_gives = { λ _ e. e ≡ Failed };

    fn from(_: Fault) -> Self {
        StoreError::Failed
    }
}

impl From<OutOfMemory> for StoreError {
    ghost use Rattle.std.specs.Prelude.{◌≡◌};
    ghost use Rattle.snap_io.specs.declared.outside.StoreError.TheVariants.{OutOfMemory};

    ghost from_gives = { λ _ e. e ≡ OutOfMemory };

    fn from(_: OutOfMemory) -> Self {
        StoreError::OutOfMemory
    }
}

impl From<AllocError> for StoreError {
    ghost use Rattle.std.specs.Prelude.{◌≡◌};
    ghost use Rattle.snap_io.specs.declared.outside.StoreError.TheVariants.{OutOfMemory};

    ghost from_gives = { λ _ e. e ≡ OutOfMemory };

    fn from(_: AllocError) -> Self {
        StoreError::OutOfMemory
    }
}

impl<T: Drop> From<AllocFailed<T>> for StoreError {
    ghost use Rattle.std.specs.Prelude.{◌≡◌};
    ghost use Rattle.snap_io.specs.declared.outside.StoreError.TheVariants.{OutOfMemory};

    ghost from_gives = { λ _ e. e ≡ OutOfMemory };

    fn from(_: AllocFailed<T>) -> Self {
        StoreError::OutOfMemory
    }
}

/// Where bytes come from. The caller reads until it is given none for a buffer that has room.
/// After a fault nothing was taken, and the caller may read again.
pub trait Source {
    /// The bytes that are left, where it tells them.
    ghost left: { Self → Option (List ℕ) };

    /// How many faults there were so far.
    ghost faults: { Self → ℕ };

    /// How many bytes it put at the front of the buffer. None for a buffer that has room is the end.
    fn read(&mut self, buffer: &mut [u8]) -> Result<usize, Fault>
        ensures bound { ReadsAtMost result buffer.new }
        ensures bytes { IfOk result (λ count. (xs : List ℕ) → left self.old ≡ Some xs
            → GivesFront xs (take count buffer.new) (left self.new)) }
        ensures end { IfOk result (λ count. count ≡ 0 → 0 < length buffer.new → (xs : List ℕ)
            → left self.old ≡ Some xs → xs ≡ []) }
        ensures kept { OnErr result (left self.new ≡ left self.old) }
        ensures cause { Counted is_fault (faults self.old) (faults self.new) result };
}

/// Where bytes go. The caller writes what is left of its bytes until all were taken.
/// After a fault nothing was taken.
pub trait Sink {
    /// The bytes written, where it tells them.
    ghost written: { Self → Option (List ℕ) };

    /// How many faults there were so far.
    ghost faults: { Self → ℕ };

    /// How many bytes of the front it took: at least one where there is one.
    fn write(&mut self, bytes: &[u8]) -> Result<usize, Fault>
        ensures bound { WritesAtMost result bytes.now }
        ensures some { IfOk result (λ count. 0 < length bytes.now → 0 < count) }
        ensures bytes { IfOk result (λ count. (w : List ℕ) → written self.old ≡ Some w
            → written self.new ≡ Some (w ++ take count bytes.now)) }
        ensures kept { OnErr result (written self.new ≡ written self.old) }
        ensures cause { Counted is_fault (faults self.old) (faults self.new) result };
}

/// Files by their paths. Paths are texts, and two texts name two files.
/// After a `write` or an `append` that failed or found no memory the file at that path is unknown, and all others
/// are as they were; after such a `remove` the file is as it was or gone; `read` and `list` change nothing.
pub trait Store {
    /// The files, where it tells them.
    ghost files: { Self → Option Files };

    /// How many faults there were so far.
    ghost faults: { Self → ℕ };

    /// The bytes of the file, and none where there is no file.
    fn read(&mut self, alloc: Global, path: &Text) -> Result<Option<Blob>, StoreError>
        ensures found { IfOk result (λ found. (m : Files) → files self.old ≡ Some m
            → found ≡ get m path.now) }
        ensures same { files self.new ≡ files self.old }
        ensures cause { Counted is_failed (faults self.old) (faults self.new) result };

    /// Makes these the bytes of the file; missing folders are made.
    fn write(&mut self, path: &Text, bytes: &[u8]) -> Result<(), StoreError>
        ensures written { OnOk result ((m : Files) → files self.old ≡ Some m
            → files self.new ≡ Some (insert m path.now bytes.now)) }
        ensures unknown { OnErr result ((m : Files) → files self.old ≡ Some m
            → SameBut path.now m (files self.new)) }
        ensures cause { Counted is_failed (faults self.old) (faults self.new) result };

    /// Adds these bytes after those of the file, or makes them a file where there is none; missing folders are made.
    fn append(&mut self, path: &Text, bytes: &[u8]) -> Result<(), StoreError>
        ensures appended { OnOk result ((m : Files) → files self.old ≡ Some m
            → files self.new ≡ Some (appended m path.now bytes.now)) }
        ensures unknown { OnErr result ((m : Files) → files self.old ≡ Some m
            → SameBut path.now m (files self.new)) }
        ensures cause { Counted is_failed (faults self.old) (faults self.new) result };

    /// Takes the file away. Whether it was there.
    fn remove(&mut self, path: &Text) -> Result<bool, StoreError>
        ensures found { IfOk result (λ found. (m : Files) → files self.old ≡ Some m
            → IsTrue found ↔ IsSome (get m path.now)) }
        ensures removed { OnOk result ((m : Files) → files self.old ≡ Some m
            → files self.new ≡ Some (remove m path.now)) }
        ensures stopped { OnErr result ((m : Files) → files self.old ≡ Some m
            → MayBeGone path.now m (files self.new)) }
        ensures cause { Counted is_failed (faults self.old) (faults self.new) result };

    /// The names of the files in a folder; none for a missing folder.
    fn list(&mut self, alloc: Global, folder: &Text) -> Result<Names, StoreError>
        ensures names { IfOk result (λ names. (m : Files) → files self.old ≡ Some m
            → AreNames m folder.now names) }
        ensures same { files self.new ≡ files self.old }
        ensures cause { Counted is_failed (faults self.old) (faults self.new) result };
}
