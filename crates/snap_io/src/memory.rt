//! A store, a source and a sink in memory, of which the listed calls fail.
ghost use Rattle.std.specs.Prelude.{◌≡◌, ◌<◌, ◌↔◌, ◌++◌, [], List, ℕ, Some, false, length, take, IfOk, OnOk, OnErr, IsTrue, IsSome, is_err, option_map};
ghost use Rattle.std.specs.FinMap.{empty, insert, remove, get, len};
ghost use Rattle.std.specs.Io.{ReadsAtMost, WritesAtMost};
ghost use Rattle.snap_io.specs.Causes.{Counted, CountedOnce, is_failed, is_fault};
ghost use Rattle.snap_io.specs.Files.{Files, SameBut, MayBeGone, appended};
ghost use Rattle.snap_io.specs.Held.{files_in, left_in, piece_of, count_given, written_in, store_calls, source_calls, sink_calls};
ghost use Rattle.snap_io.specs.Listed.{AreNames};
ghost use Rattle.snap_io.specs.Schedules.{faults_so_far, fails_next, Counts, IsFresh, ListsCalls, FailsAsListed};

use crate::files::MemoryFiles;
use crate::names::Names;
use crate::outside::{Fault, Sink, Source, Store, StoreError};
use crate::pieces::Pieces;
use crate::schedule::Schedule;
use snap_content::{Blob, OutOfMemory, Text};
use std::alloc::Global;

/// Files in memory.
#[derive(Drop)]
pub struct MemoryStore {
    files: MemoryFiles,
    schedule: Schedule,
}

impl MemoryStore {
    /// No file, and no call fails.
    pub fn new(alloc: Global) -> MemoryStore
        ensures empty { files_in result ≡ empty }
        ensures fresh { IsFresh (store_calls result) }
    {
        MemoryStore {
            files: MemoryFiles::new(alloc),
            schedule: Schedule::new(),
        }
    }

    /// The calls with these numbers fail: from 1 on, counted from the making of the store.
    pub fn fail_at(&mut self, calls: Vec<u64>)
        ensures same { files_in self.new ≡ files_in self.old }
        ensures listed { ListsCalls calls.items (store_calls self.old) (store_calls self.new) }
    {
        self.schedule.fail_at(calls);
    }

    /// Makes these the bytes of the file; it is no call of the store. After out of memory nothing has changed.
    pub fn put(&mut self, path: &Text, bytes: &[u8]) -> Result<(), OutOfMemory>
        ensures ok { OnOk result (files_in self.new
            ≡ insert (files_in self.old) path.now bytes.now) }
        ensures err { OnErr result (files_in self.new ≡ files_in self.old) }
        ensures same { store_calls self.new ≡ store_calls self.old }
    {
        self.files.put(path, bytes)
    }

    /// The bytes of the file, where there is one; it is no call of the store.
    pub fn get(&self, path: &Text) -> Option<&[u8]>
        ensures { option_map (λ bytes. bytes.now) result ≡ get (files_in self.now) path.now }
    {
        match self.files.get(path) {
            Some(bytes) => Some(bytes.as_slice()),
            None => None,
        }
    }

    /// How many files there are.
    pub fn len(&self) -> usize
        ensures { result ≡ len (files_in self.now) }
    {
        self.files.len()
    }

    /// How many calls failed so far, up to the largest number.
    pub fn faults(&self) -> u64
        ensures { result ≡ faults_so_far (store_calls self.now) }
    {
        self.schedule.faults()
    }
}

impl Store for MemoryStore {
    ghost files = { λ store. Some store.files };

    ghost faults = { λ store. store.schedule.faults };

    fn read(&mut self, alloc: Global, path: &Text) -> Result<Option<Blob>, StoreError>
        ensures found { IfOk result (λ found. found ≡ get (files_in self.old) path.now) }
        ensures same { files_in self.new ≡ files_in self.old }
        ensures cause { Counted is_failed (faults_so_far (store_calls self.old))
            (faults_so_far (store_calls self.new)) result }
        ensures once { CountedOnce is_failed (faults_so_far (store_calls self.old))
            (faults_so_far (store_calls self.new)) result }
        ensures listed { FailsAsListed (fails_next (store_calls self.old)) result }
        ensures counts { Counts (store_calls self.old) (store_calls self.new) }
    {
        if self.schedule.call_fails() {
            return Err(StoreError::Failed);
        }
        match self.files.get(path) {
            Some(bytes) => Ok(Some(bytes.try_clone(alloc)?)),
            None => Ok(None),
        }
    }

    fn write(&mut self, path: &Text, bytes: &[u8]) -> Result<(), StoreError>
        ensures written { OnOk result (files_in self.new
            ≡ insert (files_in self.old) path.now bytes.now) }
        ensures kept { OnErr result (files_in self.new ≡ files_in self.old) }
        ensures unknown { OnErr result ((m : Files) → Some (files_in self.old) ≡ Some m
            → SameBut path.now m (Some (files_in self.new))) }
        ensures cause { Counted is_failed (faults_so_far (store_calls self.old))
            (faults_so_far (store_calls self.new)) result }
        ensures once { CountedOnce is_failed (faults_so_far (store_calls self.old))
            (faults_so_far (store_calls self.new)) result }
        ensures listed { FailsAsListed (fails_next (store_calls self.old)) result }
        ensures counts { Counts (store_calls self.old) (store_calls self.new) }
    {
        if self.schedule.call_fails() {
            return Err(StoreError::Failed);
        }
        match self.files.put(path, bytes) {
            Ok(()) => Ok(()),
            Err(_) => Err(StoreError::OutOfMemory),
        }
    }

    fn append(&mut self, path: &Text, bytes: &[u8]) -> Result<(), StoreError>
        ensures appended { OnOk result (files_in self.new
            ≡ appended (files_in self.old) path.now bytes.now) }
        ensures kept { OnErr result (files_in self.new ≡ files_in self.old) }
        ensures unknown { OnErr result ((m : Files) → Some (files_in self.old) ≡ Some m
            → SameBut path.now m (Some (files_in self.new))) }
        ensures cause { Counted is_failed (faults_so_far (store_calls self.old))
            (faults_so_far (store_calls self.new)) result }
        ensures once { CountedOnce is_failed (faults_so_far (store_calls self.old))
            (faults_so_far (store_calls self.new)) result }
        ensures listed { FailsAsListed (fails_next (store_calls self.old)) result }
        ensures counts { Counts (store_calls self.old) (store_calls self.new) }
    {
        if self.schedule.call_fails() {
            return Err(StoreError::Failed);
        }
        match self.files.append(path, bytes) {
            Ok(()) => Ok(()),
            Err(_) => Err(StoreError::OutOfMemory),
        }
    }

    fn remove(&mut self, path: &Text) -> Result<bool, StoreError>
        ensures found { IfOk result (λ found.
            IsTrue found ↔ IsSome (get (files_in self.old) path.now)) }
        ensures removed { OnOk result (files_in self.new ≡ remove (files_in self.old) path.now) }
        ensures kept { OnErr result (files_in self.new ≡ files_in self.old) }
        ensures stopped { OnErr result ((m : Files) → Some (files_in self.old) ≡ Some m
            → MayBeGone path.now m (Some (files_in self.new))) }
        ensures cause { Counted is_failed (faults_so_far (store_calls self.old))
            (faults_so_far (store_calls self.new)) result }
        ensures once { CountedOnce is_failed (faults_so_far (store_calls self.old))
            (faults_so_far (store_calls self.new)) result }
        ensures listed { FailsAsListed (fails_next (store_calls self.old)) result }
        ensures counts { Counts (store_calls self.old) (store_calls self.new) }
    {
        if self.schedule.call_fails() {
            return Err(StoreError::Failed);
        }
        let found = self.files.get(path).is_some();
        self.files.remove(path);
        Ok(found)
    }

    fn list(&mut self, alloc: Global, folder: &Text) -> Result<Names, StoreError>
        ensures names { IfOk result (λ names. AreNames (files_in self.old) folder.now names) }
        ensures same { files_in self.new ≡ files_in self.old }
        ensures cause { Counted is_failed (faults_so_far (store_calls self.old))
            (faults_so_far (store_calls self.new)) result }
        ensures once { CountedOnce is_failed (faults_so_far (store_calls self.old))
            (faults_so_far (store_calls self.new)) result }
        ensures listed { FailsAsListed (fails_next (store_calls self.old)) result }
        ensures counts { Counts (store_calls self.old) (store_calls self.new) }
    {
        if self.schedule.call_fails() {
            return Err(StoreError::Failed);
        }
        Ok(self.files.names_in(alloc, folder)?)
    }
}

/// Gives its bytes in pieces.
#[derive(Drop)]
pub struct MemorySource {
    pieces: Pieces,
    piece: usize,
    schedule: Schedule,
}

impl MemorySource {
    /// Gives these bytes in pieces of this length, and no call fails. A piece of 0 counts as 1.
    pub fn new(bytes: Blob, piece: usize) -> MemorySource
        ensures bytes { left_in result ≡ bytes }
        ensures piece { piece_of result ≡ piece }
        ensures fresh { IsFresh (source_calls result) }
    {
        MemorySource {
            pieces: Pieces::new(bytes),
            piece,
            schedule: Schedule::new(),
        }
    }

    /// The calls with these numbers fail: from 1 on, counted from the making of the source.
    pub fn fail_at(&mut self, calls: Vec<u64>)
        ensures same { left_in self.new ≡ left_in self.old }
        ensures piece { piece_of self.new ≡ piece_of self.old }
        ensures listed { ListsCalls calls.items (source_calls self.old) (source_calls self.new) }
    {
        self.schedule.fail_at(calls);
    }
}

impl Source for MemorySource {
    ghost left = { λ source. Some source.pieces };

    ghost faults = { λ source. source.schedule.faults };

    fn read(&mut self, buffer: &mut [u8]) -> Result<usize, Fault>
        ensures bound { ReadsAtMost result buffer.new }
        ensures bytes { IfOk result (λ count. left_in self.old
            ≡ take count buffer.new ++ left_in self.new) }
        ensures count { IfOk result (λ count. count
            ≡ count_given (piece_of self.old) buffer.new (left_in self.old)) }
        ensures piece { piece_of self.new ≡ piece_of self.old }
        ensures end { IfOk result (λ count. count ≡ 0 → 0 < length buffer.new → (xs : List ℕ)
            → Some (left_in self.old) ≡ Some xs → xs ≡ []) }
        ensures kept { OnErr result (left_in self.new ≡ left_in self.old) }
        ensures cause { Counted is_fault (faults_so_far (source_calls self.old))
            (faults_so_far (source_calls self.new)) result }
        ensures once { CountedOnce is_fault (faults_so_far (source_calls self.old))
            (faults_so_far (source_calls self.new)) result }
        ensures listed { IsTrue (is_err result) ↔ IsTrue (fails_next (source_calls self.old)) }
        ensures counts { Counts (source_calls self.old) (source_calls self.new) }
    {
        if self.schedule.call_fails() {
            return Err(Fault);
        }
        Ok(self.pieces.take(self.piece.max(1), buffer))
    }
}

/// Keeps what is written.
#[derive(Drop)]
pub struct MemorySink {
    bytes: Vec<u8>,
    schedule: Schedule,
}

impl MemorySink {
    /// Nothing is written, and no call fails.
    pub fn new(alloc: Global) -> MemorySink
        ensures empty { written_in result ≡ [] }
        ensures fresh { IsFresh (sink_calls result) }
    {
        MemorySink {
            bytes: Vec::new(alloc),
            schedule: Schedule::new(),
        }
    }

    /// The calls with these numbers fail: from 1 on, counted from the making of the sink.
    pub fn fail_at(&mut self, calls: Vec<u64>)
        ensures same { written_in self.new ≡ written_in self.old }
        ensures listed { ListsCalls calls.items (sink_calls self.old) (sink_calls self.new) }
    {
        self.schedule.fail_at(calls);
    }

    pub fn written(&self) -> &[u8]
        ensures { result.now ≡ written_in self.now }
    {
        self.bytes.as_slice()
    }
}

impl Sink for MemorySink {
    ghost written = { λ sink. Some sink.bytes.items };

    ghost faults = { λ sink. sink.schedule.faults };

    /// A growth that is refused is a fault too.
    fn write(&mut self, bytes: &[u8]) -> Result<usize, Fault>
        ensures bound { WritesAtMost result bytes.now }
        ensures some { IfOk result (λ count. 0 < length bytes.now → 0 < count) }
        ensures bytes { IfOk result (λ count. written_in self.new
            ≡ written_in self.old ++ take count bytes.now) }
        ensures kept { OnErr result (written_in self.new ≡ written_in self.old) }
        ensures cause { Counted is_fault (faults_so_far (sink_calls self.old))
            (faults_so_far (sink_calls self.new)) result }
        ensures once { CountedOnce is_fault (faults_so_far (sink_calls self.old))
            (faults_so_far (sink_calls self.new)) result }
        ensures listed { IfOk result (λ _. fails_next (sink_calls self.old) ≡ false) }
        ensures counts { Counts (sink_calls self.old) (sink_calls self.new) }
    {
        if self.schedule.call_fails() {
            return Err(Fault);
        }
        if self.bytes.extend_from_slice(bytes).is_err() {
            self.schedule.fault();
            return Err(Fault);
        }
        Ok(bytes.len())
    }
}
