//! What is known of a store: the folders that were listed, and what payloads may have left in them.
ghost use Rattle.std.specs.Prelude.{◌≡◌, ℕ, List, IfOk, OnOk, true, false};
ghost use Rattle.std.specs.List.{filter};
ghost use Rattle.std.specs.List.Sorted.{IsStrictlySortedBy};
ghost use Rattle.snap_io.specs.Causes.{Counted};
ghost use Rattle.snap_io.specs.Files.{Files};
ghost use Rattle.snap_io.specs.Listed.{AreNames};
ghost use Rattle.snap_io.specs.Outside.{Given};
ghost use Rattle.snap_path.specs.Paths.{joined, parent_of};
ghost use Rattle.snap_assert.specs.Steps.{is_stray};
ghost use Rattle.snap_assert.specs.Removed.{is_among};
ghost use Rattle.snap_assert.specs.Session.{text_cmp};
ghost use Rattle.snap_assert.specs.Listed.{IsCovered};
ghost use Rattle.snap_assert.specs.Strays.{AreStrays, AllStray};
ghost use Rattle.snap_assert_place.specs.SnapshotPath.{IsFilePath};
ghost use Rattle.snap_store.specs.Causes.{CallEnd, is_file_fault};

use crate::strays::{is_stray, may_be_left, may_be_left_at};
use snap_content::{Error, OutOfMemory, Text};
use snap_io::Store;
use snap_path::path_join;
use snap_store::named;
use std::alloc::Global;
use std::collections::BTreeSet;

/// The folders that were listed, and the paths in them that payloads may have left.
///
/// It is of one store, and of what stands there after each assertion that knew of it: between two of them nothing else may change the
/// store's files.
#[derive(Drop)]
pub struct Listed {
    alloc: Global,
    folders: BTreeSet<Text>,
    waiting: BTreeSet<Text>,
}

impl Listed {
    ghost use Rattle.snap_assert.specs.Listed.{MayWait, WaitsStill};

    /// Before any folder is listed.
    pub fn new(alloc: Global) -> Listed
        ensures { (m : Files) → IsCovered m result }
    {
        Listed {
            alloc,
            folders: BTreeSet::new(alloc),
            waiting: BTreeSet::new(alloc),
        }
    }

    /// Whether the folder was listed.
    fn knows(&self, folder: &Text) -> bool
        ensures { result ≡ is_among self.now.folders.keys folder.now }
    {
        self.folders.contains(folder)
    }

    /// Keeps the path of a name in the folder, where a payload may have left it.
    fn keep_name(&mut self, folder: &Text, name: &Text) -> Result<(), OutOfMemory>
        ensures folders { OnOk result (self.new.folders.keys ≡ self.old.folders.keys) }
        ensures still { OnOk result (WaitsStill self.old.waiting.keys self.new.waiting.keys) }
        ensures waits { OnOk result ((file : List ℕ) → is_stray file name.now ≡ true
            → is_among self.new.waiting.keys (joined folder.now name.now) ≡ true) }
    {
        if !may_be_left(name.as_str()) {
            return Ok(());
        }
        let path = path_join(self.alloc, folder, name)?;
        self.waiting.insert(path)?;
        Ok(())
    }

    /// Keeps what payloads may have left of the files of these names in the folder.
    fn keep_names(&mut self, folder: &Text, names: &[Text]) -> Result<(), OutOfMemory>
        ensures folders { OnOk result (self.new.folders.keys ≡ self.old.folders.keys) }
        ensures still { OnOk result (WaitsStill self.old.waiting.keys self.new.waiting.keys) }
        ensures waits { OnOk result ((file name : List ℕ) → is_among names.now name ≡ true
            → is_stray file name ≡ true
            → is_among self.new.waiting.keys (joined folder.now name) ≡ true) }
    {
        for name in names {
            self.keep_name(folder, name)?;
        }
        Ok(())
    }

    /// Has the folder of these names count as listed.
    fn keep_folder(&mut self, folder: &Text, names: &[Text]) -> Result<(), OutOfMemory>
        ensures covers { OnOk result ((m : Files) → AreNames m folder.now names.now
            → IsCovered m self.old → IsCovered m self.new) }
        ensures known { OnOk result (is_among self.new.folders.keys folder.now ≡ true) }
    {
        self.keep_names(folder, names)?;
        let own = folder.try_clone(self.alloc)?;
        self.folders.insert(own)?;
        Ok(())
    }

    /// The paths beside this one that payloads may have left, in the order of their bytes.
    fn beside(&self, path: &Text) -> Result<Vec<Text>, OutOfMemory>
        ensures strays { IfOk result (λ strays. strays.items
            ≡ filter (is_stray path.now) self.now.waiting.keys) }
        ensures ordered { OnOk result (IsStrictlySortedBy text_cmp self.now.waiting.keys) }
    {
        let mut strays = Vec::new(self.alloc);
        for kept in self.waiting.iter() {
            if is_stray(path.as_str(), kept.as_str()) {
                strays.push(kept.try_clone(self.alloc)?)?;
            }
        }
        Ok(strays)
    }

    /// Lists the folder, where that was not done before. The store is not changed.
    fn list<S: Store>(&mut self, store: &mut S, folder: &Text) -> Result<(), Error>
        ensures covered { OnOk result (Given (S.files store.old)
            (λ m. IsCovered m self.old → IsCovered m self.new)) }
        ensures known { OnOk result (is_among self.new.folders.keys folder.now ≡ true) }
        ensures same { S.files store.new ≡ S.files store.old }
        ensures error { CallEnd folder.now result }
        ensures cause { Counted is_file_fault (S.faults store.old) (S.faults store.new) result }
    {
        if self.knows(folder) {
            return Ok(());
        }
        let names = named::list(self.alloc, store, folder)?;
        self.keep_folder(folder, names.as_slice())?;
        Ok(())
    }

    /// The stray paths beside this one, in the order of their bytes. Its folder is listed, where that was not done before.
    pub(crate) fn stray_paths<S: Store>(
        &mut self,
        store: &mut S,
        folder: &Text,
        path: &Text,
    ) -> Result<Vec<Text>, Error>
        ensures strays { IfOk result (λ strays. IsFilePath path.now
            → folder.now ≡ parent_of path.now
            → Given (S.files store.old)
            (λ m. IsCovered m self.old → AreStrays path.now m strays.items)) }
        ensures all { IfOk result (λ strays. AllStray path.now strays.items) }
        ensures covered { OnOk result (Given (S.files store.old)
            (λ m. IsCovered m self.old → IsCovered m self.new)) }
        ensures same { S.files store.new ≡ S.files store.old }
        ensures error { CallEnd folder.now result }
        ensures cause { Counted is_file_fault (S.faults store.old) (S.faults store.new) result }
    {
        self.list(store, folder)?;
        Ok(self.beside(path)?)
    }

    /// Forgets paths that are gone.
    pub(crate) fn forget(&mut self, gone: &[Text])
        ensures folders { self.new.folders.keys ≡ self.old.folders.keys }
        ensures still { (q : List ℕ) → is_among self.old.waiting.keys q ≡ true
            → is_among gone.now q ≡ false → is_among self.new.waiting.keys q ≡ true }
    {
        for path in gone {
            let _ = self.waiting.remove(path);
        }
    }

    /// Keeps a path that may be written, where it may be taken for what a payload left.
    pub(crate) fn keep_path(&mut self, path: &Text) -> Result<(), OutOfMemory>
        ensures folders { OnOk result (self.new.folders.keys ≡ self.old.folders.keys) }
        ensures still { OnOk result (WaitsStill self.old.waiting.keys self.new.waiting.keys) }
        ensures waits { OnOk result (MayWait self.new.waiting.keys path.now) }
    {
        if !may_be_left_at(path) {
            return Ok(());
        }
        let own = path.try_clone(self.alloc)?;
        self.waiting.insert(own)?;
        Ok(())
    }
}
