//! Writing records to a file.
ghost use Rattle.std.specs.Prelude.{◌≡◌, ◌++◌, ◌∷◌, [], IfOk, OnOk, OnErr, IfErr, IsErrOf, encode_utf8_all, map};
ghost use Rattle.std.specs.FinMap.{remove};
ghost use Rattle.std.specs.List.{list_any};
ghost use Rattle.snap_content.specs.declared.error.Error.TheVariants.{JsonKey};
ghost use Rattle.snap_io.specs.Files.{SameBut, appended};
ghost use Rattle.snap_io.specs.Outside.{Becomes, Given};
ghost use Rattle.snap_io.specs.Causes.{Counted};
ghost use Rattle.snap_io.specs.StandsAfter.{StandsAfter};
ghost use Rattle.snap_store.specs.Causes.{is_file_fault, named_by, CallEnd};
ghost use Rattle.snap_pending.specs.Pending.{pending_of};
ghost use Rattle.snap_pending.specs.Record.{is_refused, record_line};
ghost use Rattle.snap_pending.specs.Saved.{with_lines, adds, rewrites, SavingEnd, PrintEnd};

use crate::pending::PendingInlineSnapshot;
use snap_content::{Error, OutOfMemory, Text};
use snap_io::Store;
use snap_store::named;
use std::alloc::Global;

impl PendingInlineSnapshot {
    /// Adds the line of the record after what the file at the path holds. `JsonKey`, where a key of the record is one that
    /// JSON refuses, changes nothing; after any other error only that file is unknown.
    pub fn save<S: Store>(&self, alloc: Global, store: &mut S, path: &Text) -> Result<(), Error>
        ensures added { OnOk result (Becomes (S.files store.old) (S.files store.new)
            (λ m. appended m path.now (encode_utf8_all (record_line (pending_of self.now))))) }
        ensures end { SavingEnd path.now (is_refused (pending_of self.now)) result }
        ensures same { IsErrOf result JsonKey → S.files store.new ≡ S.files store.old }
        ensures unknown { OnErr result (Given (S.files store.old)
            (λ m. SameBut path.now m (S.files store.new))) }
        ensures stopped { IfErr result (λ error. StandsAfter
            (adds path.now (record_line (pending_of self.now)) ∷ []) (named_by error)
            (S.files store.old) (S.files store.new)) }
        ensures cause { Counted is_file_fault (S.faults store.old) (S.faults store.new) result }
    {
        let line = self.record_line(alloc)?;
        PendingInlineSnapshot::append_line(alloc, store, path, &line)
    }

    /// Adds the line of a record, which was printed before, after what the file at the path holds. After an error only that
    /// file is unknown.
    pub fn append_line<S: Store>(
        alloc: Global,
        store: &mut S,
        path: &Text,
        line: &Text,
    ) -> Result<(), Error>
        ensures added { OnOk result (Becomes (S.files store.old) (S.files store.new)
            (λ m. appended m path.now (encode_utf8_all line.now))) }
        ensures unknown { OnErr result (Given (S.files store.old)
            (λ m. SameBut path.now m (S.files store.new))) }
        ensures stopped { IfErr result (λ error. StandsAfter (adds path.now line.now ∷ [])
            (named_by error) (S.files store.old) (S.files store.new)) }
        ensures error { CallEnd path.now result }
        ensures cause { Counted is_file_fault (S.faults store.old) (S.faults store.new) result }
    {
        named::append(alloc, store, path, line)
    }

    /// Makes the file at the path the lines of these records, and takes it away where there are none. `JsonKey`, where a key
    /// of a record is one that JSON refuses, changes nothing; after any other error only that file is unknown: it is as it was, or the
    /// lines before the one in work stand in it.
    pub fn save_batch<S: Store>(
        alloc: Global,
        store: &mut S,
        path: &Text,
        batch: &[PendingInlineSnapshot],
    ) -> Result<(), Error>
        ensures written { OnOk result (Becomes (S.files store.old) (S.files store.new)
            (λ m. with_lines m path.now
            (map (λ pending. record_line (pending_of pending)) batch.now))) }
        ensures end { SavingEnd path.now
            (list_any (λ pending. is_refused (pending_of pending)) batch.now) result }
        ensures same { IsErrOf result JsonKey → S.files store.new ≡ S.files store.old }
        ensures unknown { OnErr result (Given (S.files store.old)
            (λ m. SameBut path.now m (S.files store.new))) }
        ensures stopped { IfErr result (λ error. StandsAfter (rewrites path.now
            (map (λ pending. record_line (pending_of pending)) batch.now)) (named_by error)
            (S.files store.old) (S.files store.new)) }
        ensures cause { Counted is_file_fault (S.faults store.old) (S.faults store.new) result }
    {
        let lines = line_texts(alloc, batch)?;
        write_lines(alloc, store, path, lines.as_slice())
    }
}

/// The lines of the records.
fn line_texts(alloc: Global, batch: &[PendingInlineSnapshot]) -> Result<Vec<Text>, Error>
    ensures printed { IfOk result (λ lines. lines.items
        ≡ map (λ pending. record_line (pending_of pending)) batch.now) }
    ensures end { PrintEnd
        (list_any (λ pending. is_refused (pending_of pending)) batch.now) result }
{
    let mut lines = Vec::new(alloc);
    for pending in batch {
        let line = pending.record_line(alloc)?;
        push_line(&mut lines, line)?;
    }
    Ok(lines)
}

fn push_line(lines: &mut Vec<Text>, line: Text) -> Result<(), OutOfMemory>
    ensures { OnOk result (lines.new.items ≡ lines.old.items ++ line ∷ []) }
{
    lines.push(line)?;
    Ok(())
}

/// Makes the file these lines, and takes it away where there are none. After an error only that file is unknown.
fn write_lines<S: Store>(
    alloc: Global,
    store: &mut S,
    path: &Text,
    lines: &[Text],
) -> Result<(), Error>
    ensures written { OnOk result (Becomes (S.files store.old) (S.files store.new)
        (λ m. with_lines m path.now lines.now)) }
    ensures unknown { OnErr result (Given (S.files store.old)
        (λ m. SameBut path.now m (S.files store.new))) }
    ensures stopped { IfErr result (λ error. StandsAfter (rewrites path.now lines.now) (named_by error)
        (S.files store.old) (S.files store.new)) }
    ensures error { CallEnd path.now result }
    ensures cause { Counted is_file_fault (S.faults store.old) (S.faults store.new) result }
{
    named::remove(alloc, store, path)?;
    for line in lines {
        PendingInlineSnapshot::append_line(alloc, store, path, line)?;
    }
    Ok(())
}
