//! Real files in folders. The store tells nothing of what they hold; its clauses say what it asks of the file system,
//! and how what it answers follows from what was answered there.
ghost use Rattle.std.specs.Prelude.{◌≡◌, [], None, encode_utf8_all};
ghost use Rattle.snap_io.specs.Adapters.{store_asked, store_faults};
ghost use Rattle.snap_io.specs.Causes.{Counted, CountedOnce, is_failed};
ghost use Rattle.snap_io.specs.Disks.{asked_of};
ghost use Rattle.snap_io.specs.Listing.{FolderListed};
ghost use Rattle.snap_io.specs.Operations.{FileRead, FileAppended, FileRemoved};
ghost use Rattle.snap_io.specs.Writing.{FileWritten};

use crate::answers::was_there;
use crate::disk::Disk;
use crate::folder_names::list_folder;
use crate::names::Names;
use crate::outside::{Store, StoreError};
use crate::reading::{append_file, read_file};
use crate::replacing::write_file;
use snap_content::{Blob, Text};
use std::alloc::Global;
use std::fs::Files;

/// More names in a folder are a fault.
const MAX_NAMES: usize = 1_000_000;

/// Files of the system by their paths; a path that does not begin with a slash is one of the working folder.
#[derive(Drop)]
pub struct FolderStore<R: Files + Alloc + Clone + Drop> {
    disk: Disk<R>,
    faults: u64,
}

impl<R: Files + Alloc + Clone + Drop> FolderStore<R> {
    pub fn new(rt: R) -> FolderStore<R>
        ensures faults { store_faults result ≡ 0 }
        ensures asked { store_asked result ≡ [] }
    {
        FolderStore {
            disk: Disk::new(rt),
            faults: 0,
        }
    }

    /// The answer, which is counted where it is a fault.
    fn counted<T>(&mut self, answer: Result<T, StoreError>) -> Result<T, StoreError>
        ensures same { result ≡ answer }
        ensures asked { store_asked self.new ≡ store_asked self.old }
        ensures cause { Counted is_failed (store_faults self.old) (store_faults self.new) result }
        ensures once { CountedOnce is_failed (store_faults self.old) (store_faults self.new) result }
    {
        if let Err(StoreError::Failed) = &answer {
            self.faults = self.faults.saturating_add(1);
        }
        answer
    }
}

impl<R: Files + Alloc + Clone + Drop> Store for FolderStore<R> {
    ghost files = { λ _. None };

    ghost faults = { λ store. store.faults };

    fn read(&mut self, alloc: Global, path: &Text) -> Result<Option<Blob>, StoreError>
        ensures asked { FileRead (encode_utf8_all path.now) result (store_asked self.old)
            (store_asked self.new) }
        ensures cause { Counted is_failed (store_faults self.old) (store_faults self.new) result }
        ensures once { CountedOnce is_failed (store_faults self.old) (store_faults self.new) result }
    {
        let answer = read_file(&mut self.disk, alloc, path.as_str());
        self.counted(answer)
    }

    fn write(&mut self, path: &Text, bytes: &[u8]) -> Result<(), StoreError>
        ensures asked { FileWritten (encode_utf8_all path.now) bytes.now result
            (store_asked self.old) (store_asked self.new) }
        ensures cause { Counted is_failed (store_faults self.old) (store_faults self.new) result }
        ensures once { CountedOnce is_failed (store_faults self.old) (store_faults self.new) result }
    {
        let answer = write_file(&mut self.disk, path.as_str(), bytes);
        self.counted(answer)
    }

    fn append(&mut self, path: &Text, bytes: &[u8]) -> Result<(), StoreError>
        ensures asked { FileAppended (encode_utf8_all path.now) bytes.now result
            (store_asked self.old) (store_asked self.new) }
        ensures cause { Counted is_failed (store_faults self.old) (store_faults self.new) result }
        ensures once { CountedOnce is_failed (store_faults self.old) (store_faults self.new) result }
    {
        let answer = append_file(&mut self.disk, path.as_str(), bytes);
        self.counted(answer)
    }

    fn remove(&mut self, path: &Text) -> Result<bool, StoreError>
        ensures asked { FileRemoved (encode_utf8_all path.now) result (store_asked self.old)
            (store_asked self.new) }
        ensures cause { Counted is_failed (store_faults self.old) (store_faults self.new) result }
        ensures once { CountedOnce is_failed (store_faults self.old) (store_faults self.new) result }
    {
        let answer = remove_file(&mut self.disk, path.as_str());
        self.counted(answer)
    }

    fn list(&mut self, alloc: Global, folder: &Text) -> Result<Names, StoreError>
        ensures asked { FolderListed (encode_utf8_all folder.now) result (store_asked self.old)
            (store_asked self.new) }
        ensures cause { Counted is_failed (store_faults self.old) (store_faults self.new) result }
        ensures once { CountedOnce is_failed (store_faults self.old) (store_faults self.new) result }
    {
        let answer = list_folder(&mut self.disk, alloc, folder.as_str(), MAX_NAMES);
        self.counted(answer)
    }
}

fn remove_file<R: Files + Alloc + Clone + Drop>(
    disk: &mut Disk<R>,
    path: &str,
) -> Result<bool, StoreError>
    ensures { FileRemoved path.now result (asked_of disk.old) (asked_of disk.new) }
{
    was_there(disk.remove(path))
}
