//! The store over a folder whose names no real folder has here, or so many.
use crate::folder::add_listed_count;
use crate::stores::add_listed;
use rows::first_column;
use snap_content::{OutOfMemory, Text};
use snap_io::{FolderStore, Names, Store, StoreError};
use std::alloc::{Allocator, Global};
use std::fs::{Files, Metadata, OpenOptions};
use std::io::{ErrorKind, Read};
use std::{fs, io};

/// The open folder: gives all its names in one piece, so many times. Each name is ended by a NUL.
#[derive(Clone, Copy)]
struct Told<'a> {
    names: &'a [u8],
    times: u64,
}

impl Read for Told<'_> {
    fn read(&mut self, buffer: &mut [u8]) -> io::Result<usize> {
        if self.times == 0 {
            return Ok(0);
        }
        self.times -= 1;
        let mut piece = self.names;
        piece.read(buffer)
    }
}

/// A file system with this folder alone, and no files.
#[derive(Clone, Copy)]
struct OneFolder<'a> {
    alloc: Global,
    told: Told<'a>,
}

impl Alloc for OneFolder<'_> {
    type A = Global;

    fn alloc(&self) -> Global {
        self.alloc
    }
}

fn unsupported<T>() -> io::Result<T> {
    Err(io::Error::from(ErrorKind::Unsupported))
}

impl<'a> Files for OneFolder<'a> {
    type File = fs::File;

    type Dir = Told<'a>;

    fn open_file(&self, _how: &OpenOptions, _path: &str) -> io::Result<fs::File> {
        unsupported()
    }

    fn open_dir(&self, _path: &str) -> io::Result<Told<'a>> {
        Ok(self.told)
    }

    fn metadata(&self, _path: &str) -> io::Result<Metadata> {
        unsupported()
    }

    fn symlink_metadata(&self, _path: &str) -> io::Result<Metadata> {
        unsupported()
    }

    fn copy(&self, _from: &str, _to: &str) -> io::Result<u64> {
        unsupported()
    }

    fn rename(&self, _from: &str, _to: &str) -> io::Result<()> {
        unsupported()
    }

    fn remove_file(&self, _path: &str) -> io::Result<()> {
        unsupported()
    }

    fn create_dir(&self, _path: &str) -> io::Result<()> {
        unsupported()
    }

    fn remove_dir(&self, _path: &str) -> io::Result<()> {
        unsupported()
    }

    fn remove_dir_all<B: Allocator>(&self, _alloc: B, _path: &str) -> io::Result<()> {
        unsupported()
    }
}

/// The bytes of a column: `;` stands for a NUL, and `?` for a byte that begins no text.
fn names_of(alloc: Global, column: &str) -> Result<Vec<u8>, OutOfMemory> {
    let mut names = Vec::new(alloc);
    for byte in column.as_bytes() {
        names.push(match *byte {
            b';' => 0,
            b'?' => 255,
            other => other,
        })?;
    }
    Ok(names)
}

/// What a store lists of a folder that tells these names so many times.
fn listed(alloc: Global, names: &[u8], times: u64) -> Result<Names, StoreError> {
    let told = Told { names, times };
    let mut store = FolderStore::new(OneFolder { alloc, told });
    store.list(alloc, &Text::empty())
}

/// The names that are listed of a folder that tells those of the column.
pub(crate) fn told_line(alloc: Global, column: &str) -> Result<Text, OutOfMemory> {
    let names = names_of(alloc, column)?;
    let mut line = Text::empty();
    add_listed(alloc, &mut line, listed(alloc, names.as_slice(), 1))?;
    Ok(line)
}

/// How many names are listed of a folder that tells those of the first column as often as the second one says.
pub(crate) fn told_often_line(alloc: Global, columns: &str) -> Result<Text, OutOfMemory> {
    let (names, digits) = first_column(columns);
    let names = names_of(alloc, names)?;
    let times = digits.parse::<u64>().unwrap_or(0);
    let mut line = Text::empty();
    add_listed_count(alloc, &mut line, listed(alloc, names.as_slice(), times))?;
    Ok(line)
}
