//! Reading the records of a file.
ghost use Rattle.std.specs.Prelude.{◌≡◌, ℕ, List, Option};
ghost use Rattle.std.specs.Str.{chars};
ghost use Rattle.snap_io.specs.Causes.{Counted};
ghost use Rattle.snap_store.specs.Causes.{is_file_fault};
ghost use Rattle.snap_store.specs.Reading.{IsTextFile};
ghost use Rattle.snap_str.specs.Lines.{lines};
ghost use Rattle.snap_pending.specs.Loaded.{LoadEnd, LinesEnd, IsLoadedFrom};

use crate::batch::Batch;
use crate::lines::read_line;
use crate::pending::PendingInlineSnapshot;
use snap_content::{Blob, Error, Text};
use snap_io::Store;
use snap_store::named;
use snap_str::lines::next_line;
use std::alloc::Global;
use std::str;

impl PendingInlineSnapshot {
    /// The records of the file's last run, in order; none where the file is empty. The first line that tells no record refuses
    /// the file. The store is not changed.
    pub fn load_batch<S: Store>(alloc: Global, store: &mut S, path: &Text) -> Result<Batch, Error>
        ensures end { IsLoadedFrom path.now (S.files store.old) result }
        ensures same { S.files store.new ≡ S.files store.old }
        ensures cause { Counted is_file_fault (S.faults store.old) (S.faults store.new) result }
    {
        let found = named::read(alloc, store, path)?;
        batch_of_file(alloc, found, path)
    }
}

/// The records that the bytes of a file are, or why there are none.
fn batch_of_file(alloc: Global, file: Option<Blob>, path: &Text) -> Result<Batch, Error>
    ensures end { LoadEnd path.now file result }
    ensures no_fault { (count : ℕ) → Counted is_file_fault count count result }
{
    let Some(bytes) = file else {
        return Err(Error::NoFile(path.try_clone(alloc)?));
    };
    match str::from_utf8(bytes.as_slice()) {
        Ok(text) => batch_of_text(alloc, text, path),
        Err(_) => Err(Error::NotText(path.try_clone(alloc)?)),
    }
}

fn batch_of_text(alloc: Global, text: &str, path: &Text) -> Result<Batch, Error>
    ensures end { (file : Option (List ℕ)) → IsTextFile file (chars text.now)
        → LoadEnd path.now file result }
    ensures no_fault { (count : ℕ) → Counted is_file_fault count count result }
{
    let mut records = read_lines(alloc, text, path)?;
    records.keep_last_run(alloc)?;
    Ok(records)
}

/// The record of each line.
fn read_lines(alloc: Global, text: &str, path: &Text) -> Result<Batch, Error>
    ensures { LinesEnd path.now (lines (chars text.now)) result }
{
    let mut records = Batch::new(alloc);
    let mut rest = text;
    while let Some((line, more)) = next_line(rest) {
        let record = read_line(alloc, line, path)?;
        records.push(record)?;
        rest = more;
    }
    Ok(records)
}
