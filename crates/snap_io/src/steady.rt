//! A store, a source and a sink in memory that do not fail.
ghost use Rattle.std.specs.Prelude.{◌≡◌, ◌<◌, ◌++◌, [], List, ℕ, Some, length, take, IfOk, OnOk, OnErr, option_map};
ghost use Rattle.std.specs.FinMap.{empty, insert, get, len};
ghost use Rattle.std.specs.Io.{ReadsAtMost, WritesAtMost};
ghost use Rattle.snap_io.specs.Causes.{Counted, CountedOnce, is_fault};
ghost use Rattle.snap_io.specs.Held.{steady_files, steady_left, steady_piece, count_given, steady_written, steady_faults};

use crate::files::MemoryFiles;
use crate::names::Names;
use crate::outside::{Fault, Sink, Source, Store, StoreError};
use crate::pieces::Pieces;
use snap_content::{Blob, OutOfMemory, Text};
use std::alloc::Global;

/// Files in memory. It has no faults.
#[derive(Drop)]
pub struct SteadyStore {
    files: MemoryFiles,
}

impl SteadyStore {
    pub fn new(alloc: Global) -> SteadyStore
        ensures { steady_files result ≡ empty }
    {
        SteadyStore {
            files: MemoryFiles::new(alloc),
        }
    }

    /// Makes these the bytes of the file. After out of memory nothing has changed.
    pub fn put(&mut self, path: &Text, bytes: &[u8]) -> Result<(), OutOfMemory>
        ensures ok { OnOk result (steady_files self.new
            ≡ insert (steady_files self.old) path.now bytes.now) }
        ensures err { OnErr result (steady_files self.new ≡ steady_files self.old) }
    {
        self.files.put(path, bytes)
    }

    /// The bytes of the file, where there is one.
    pub fn get(&self, path: &Text) -> Option<&[u8]>
        ensures { option_map (λ bytes. bytes.now) result ≡ get (steady_files self.now) path.now }
    {
        match self.files.get(path) {
            Some(bytes) => Some(bytes.as_slice()),
            None => None,
        }
    }

    /// How many files there are.
    pub fn len(&self) -> usize
        ensures { result ≡ len (steady_files self.now) }
    {
        self.files.len()
    }
}

impl Store for SteadyStore {
    ghost files = { λ store. Some store.files };

    ghost faults = { λ _. 0 };

    fn read(&mut self, alloc: Global, path: &Text) -> Result<Option<Blob>, StoreError> {
        match self.files.get(path) {
            Some(bytes) => Ok(Some(bytes.try_clone(alloc)?)),
            None => Ok(None),
        }
    }

    fn write(&mut self, path: &Text, bytes: &[u8]) -> Result<(), StoreError> {
        match self.files.put(path, bytes) {
            Ok(()) => Ok(()),
            Err(_) => Err(StoreError::OutOfMemory),
        }
    }

    fn append(&mut self, path: &Text, bytes: &[u8]) -> Result<(), StoreError> {
        match self.files.append(path, bytes) {
            Ok(()) => Ok(()),
            Err(_) => Err(StoreError::OutOfMemory),
        }
    }

    fn remove(&mut self, path: &Text) -> Result<bool, StoreError> {
        let found = self.files.get(path).is_some();
        self.files.remove(path);
        Ok(found)
    }

    fn list(&mut self, alloc: Global, folder: &Text) -> Result<Names, StoreError> {
        Ok(self.files.names_in(alloc, folder)?)
    }
}

/// Gives its bytes in pieces. It has no faults.
#[derive(Drop)]
pub struct SteadySource {
    pieces: Pieces,
    piece: usize,
}

impl SteadySource {
    /// Gives these bytes in pieces of this length. A piece of 0 counts as 1.
    pub fn new(bytes: Blob, piece: usize) -> SteadySource
        ensures bytes { steady_left result ≡ bytes }
        ensures piece { steady_piece result ≡ piece }
    {
        SteadySource {
            pieces: Pieces::new(bytes),
            piece,
        }
    }
}

impl Source for SteadySource {
    ghost left = { λ source. Some source.pieces };

    ghost faults = { λ _. 0 };

    fn read(&mut self, buffer: &mut [u8]) -> Result<usize, Fault>
        ensures bound { ReadsAtMost result buffer.new }
        ensures bytes { IfOk result (λ count. steady_left self.old
            ≡ take count buffer.new ++ steady_left self.new) }
        ensures count { IfOk result (λ count. count
            ≡ count_given (steady_piece self.old) buffer.new (steady_left self.old)) }
        ensures piece { steady_piece self.new ≡ steady_piece self.old }
        ensures end { IfOk result (λ count. count ≡ 0 → 0 < length buffer.new → (xs : List ℕ)
            → Some (steady_left self.old) ≡ Some xs → xs ≡ []) }
        ensures kept { OnErr result (steady_left self.new ≡ steady_left self.old) }
        ensures cause { Counted is_fault 0 0 result }
    {
        Ok(self.pieces.take(self.piece.max(1), buffer))
    }
}

/// Keeps what is written. Its faults are the writes for which there was no memory.
#[derive(Drop)]
pub struct SteadySink {
    bytes: Vec<u8>,
    faults: u64,
}

impl SteadySink {
    pub fn new(alloc: Global) -> SteadySink
        ensures { steady_written result ≡ [] }
    {
        SteadySink {
            bytes: Vec::new(alloc),
            faults: 0,
        }
    }

    pub fn written(&self) -> &[u8]
        ensures { result.now ≡ steady_written self.now }
    {
        self.bytes.as_slice()
    }
}

impl Sink for SteadySink {
    ghost written = { λ sink. Some sink.bytes.items };

    ghost faults = { λ sink. sink.faults };

    fn write(&mut self, bytes: &[u8]) -> Result<usize, Fault>
        ensures count { IfOk result (λ count. count ≡ length bytes.now) }
        ensures bound { WritesAtMost result bytes.now }
        ensures some { IfOk result (λ count. 0 < length bytes.now → 0 < count) }
        ensures bytes { IfOk result (λ count. steady_written self.new
            ≡ steady_written self.old ++ take count bytes.now) }
        ensures kept { OnErr result (steady_written self.new ≡ steady_written self.old) }
        ensures cause { Counted is_fault (steady_faults self.old) (steady_faults self.new) result }
        ensures once { CountedOnce is_fault (steady_faults self.old) (steady_faults self.new) result }
    {
        if self.bytes.extend_from_slice(bytes).is_err() {
            self.faults = self.faults.saturating_add(1);
            return Err(Fault);
        }
        Ok(bytes.len())
    }
}
