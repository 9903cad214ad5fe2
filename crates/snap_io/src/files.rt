//! Files in memory.
ghost use Rattle.std.specs.Prelude.{◌≡◌, ◌++◌, [], IfOk, OnOk, OnErr, option_copied, unwrap_or};
ghost use Rattle.std.specs.FinMap.{empty, insert, remove, get, len};
ghost use Rattle.snap_io.specs.Files.{appended};
ghost use Rattle.snap_io.specs.Listed.{AreNames};

use crate::listing::name_behind;
use crate::names::Names;
use snap_content::{Blob, OutOfMemory, Text};
use snap_path::path_front;
use std::alloc::Global;
use std::collections::BTreeMap;
use std::marker::Model;

/// Files in memory by their paths, seen as the finite map that they are.
#[derive(Drop)]
pub struct MemoryFiles {
    alloc: Global,
    tree: BTreeMap<Text, Blob>,
}

impl Model for MemoryFiles {
    ghost use Rattle.std.specs.FinMap.{from_entries, code};
    ghost use Rattle.std.specs.Coded.{coded_ℕ, coded_list};
    ghost use Rattle.snap_io.specs.Files.{Files};

    ghost Value = { Files };

    ghost coded = { code (coded_list coded_ℕ) (coded_list coded_ℕ) };

    ghost view = { λ files. from_entries files.tree.entries };
}

impl MemoryFiles {
    pub fn new(alloc: Global) -> MemoryFiles
        ensures { result ≡ empty }
    {
        MemoryFiles {
            alloc,
            tree: BTreeMap::new(alloc),
        }
    }

    pub fn get(&self, path: &Text) -> Option<&Blob>
        ensures { option_copied result ≡ get self.now path.now }
    {
        self.tree.get(path)
    }

    /// How many files there are.
    pub fn len(&self) -> usize
        ensures { result ≡ len self.now }
    {
        self.tree.len()
    }

    /// Makes these the bytes of the file. After out of memory nothing has changed.
    pub fn put(&mut self, path: &Text, bytes: &[u8]) -> Result<(), OutOfMemory>
        ensures ok { OnOk result (self.new ≡ insert self.old path.now bytes.now) }
        ensures err { OnErr result (self.new ≡ self.old) }
    {
        let path = path.try_clone(self.alloc)?;
        let bytes = Blob::from_slice(self.alloc, bytes)?;
        self.tree.insert(path, bytes)?;
        Ok(())
    }

    /// Adds these bytes after those of the file, or makes them a file where there is none.
    /// After out of memory nothing has changed.
    pub fn append(&mut self, path: &Text, bytes: &[u8]) -> Result<(), OutOfMemory>
        ensures ok { OnOk result (self.new ≡ appended self.old path.now bytes.now) }
        ensures err { OnErr result (self.new ≡ self.old) }
    {
        let all = self.held_before(path, bytes)?;
        self.put(path, all.as_slice())
    }

    /// What the file holds, nothing where there is none, and these bytes after it.
    fn held_before(&self, path: &Text, bytes: &[u8]) -> Result<Vec<u8>, OutOfMemory>
        ensures { IfOk result (λ all. all.items
            ≡ unwrap_or (get self.now path.now) [] ++ bytes.now) }
    {
        let mut all = Vec::new(self.alloc);
        if let Some(held) = self.get(path) {
            all.extend_from_slice(held.as_slice())?;
        }
        all.extend_from_slice(bytes)?;
        Ok(all)
    }

    /// Takes the file away, where there is one.
    pub fn remove(&mut self, path: &Text)
        ensures { self.new ≡ remove self.old path.now }
    {
        let _ = self.tree.remove(path);
    }

    /// The names of the files in a folder.
    pub fn names_in(&self, alloc: Global, folder: &Text) -> Result<Names, OutOfMemory>
        ensures { IfOk result (λ names. AreNames self.now folder.now names) }
    {
        let front = path_front(alloc, folder)?;
        let mut names = Names::new(alloc);
        for (path, _) in &self.tree {
            if let Some(name) = name_behind(path.as_str(), front.as_str()) {
                names.push(Text::from_str(alloc, name)?)?;
            }
        }
        Ok(names)
    }
}
