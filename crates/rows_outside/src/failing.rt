//! A store in memory, of which one call goes wrong.
ghost use Rattle.std.specs.Prelude.{◌≡◌, None};
ghost use Rattle.snap_io.specs.Causes.{CountedIf, is_failed};

use snap_content::{Blob, OutOfMemory, Text};
use snap_io::{Names, SteadyStore, Store, StoreError};
use std::alloc::Global;

/// What a call that goes wrong does, and tells.
#[derive(Clone, Copy, Debug, PartialEq, Eq)]
pub enum Wrong {
    /// Nothing, and it tells that it failed.
    Failed,
    /// What it was asked, and it tells that it failed.
    Done,
    /// Nothing, and it tells that it is out of memory.
    OutOfMemory,
}

/// What this word says; another one says that it fails.
pub fn wrong_named(word: &str) -> Wrong {
    match word {
        "done" => Wrong::Done,
        "memory" => Wrong::OutOfMemory,
        _ => Wrong::Failed,
    }
}

/// Files in memory, over which the call of a number goes wrong. It tells nothing of them.
#[derive(Drop)]
pub struct FailingStore {
    files: SteadyStore,
    how: Wrong,
    /// The number of the call that goes wrong. None goes wrong where it is 0.
    at: u64,
    calls: u64,
    faults: u64,
}

impl FailingStore {
    /// Files over which no call goes wrong.
    pub fn new(alloc: Global) -> FailingStore {
        FailingStore {
            files: SteadyStore::new(alloc),
            how: Wrong::Failed,
            at: 0,
            calls: 0,
            faults: 0,
        }
    }

    /// The call of this number goes wrong in this way: from 1 on, counted from the making of the store. With 0 none does.
    pub fn go_wrong_at(&mut self, how: Wrong, call: u64) {
        self.how = how;
        self.at = call;
    }

    /// Whether that call was made.
    pub const fn went_wrong(&self) -> bool {
        self.at != 0 && self.calls >= self.at
    }

    /// Makes these the bytes of the file; it is no call of the store.
    pub fn put(&mut self, path: &Text, bytes: &[u8]) -> Result<(), OutOfMemory> {
        self.files.put(path, bytes)
    }

    /// The bytes of the file, where there is one; it is no call of the store.
    pub fn get(&self, path: &Text) -> Option<&[u8]> {
        self.files.get(path)
    }

    /// How many files there are.
    pub fn len(&self) -> usize {
        self.files.len()
    }

    /// How many calls told that they failed, up to the largest number.
    pub const fn faults(&self) -> u64 {
        self.faults
    }

    /// Counts a call. Whether it goes wrong.
    fn goes_wrong(&mut self) -> bool
        ensures { self.new.faults ≡ self.old.faults }
    {
        self.calls = self.calls.saturating_add(1);
        self.calls == self.at
    }

    /// What a call that goes wrong tells. A fault is counted.
    fn told(&mut self) -> StoreError
        ensures { CountedIf (is_failed result) self.old.faults self.new.faults }
    {
        if self.how == Wrong::OutOfMemory {
            return StoreError::OutOfMemory;
        }
        self.faults = self.faults.saturating_add(1);
        StoreError::Failed
    }
}

impl Store for FailingStore {
    ghost files = { λ _. None };

    ghost faults = { λ store. store.faults };

    fn read(&mut self, alloc: Global, path: &Text) -> Result<Option<Blob>, StoreError> {
        if self.goes_wrong() {
            return Err(self.told());
        }
        self.files.read(alloc, path)
    }

    fn write(&mut self, path: &Text, bytes: &[u8]) -> Result<(), StoreError> {
        if !self.goes_wrong() {
            return self.files.write(path, bytes);
        }
        if self.how == Wrong::Done {
            self.files.write(path, bytes)?;
        }
        Err(self.told())
    }

    fn append(&mut self, path: &Text, bytes: &[u8]) -> Result<(), StoreError> {
        if !self.goes_wrong() {
            return self.files.append(path, bytes);
        }
        if self.how == Wrong::Done {
            self.files.append(path, bytes)?;
        }
        Err(self.told())
    }

    fn remove(&mut self, path: &Text) -> Result<bool, StoreError> {
        if !self.goes_wrong() {
            return self.files.remove(path);
        }
        if self.how == Wrong::Done {
            self.files.remove(path)?;
        }
        Err(self.told())
    }

    fn list(&mut self, alloc: Global, folder: &Text) -> Result<Names, StoreError> {
        if self.goes_wrong() {
            return Err(self.told());
        }
        self.files.list(alloc, folder)
    }
}
