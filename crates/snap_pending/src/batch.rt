//! A list of records.
ghost use Rattle.std.specs.Prelude.{◌≡◌, [], ◌∷◌, ◌++◌, length, slice_get, option_copied, OnOk, OnErr};

use crate::pending::PendingInlineSnapshot;
use snap_content::{OutOfMemory, Text};
use std::alloc::Global;

/// Records of changed literals, in order.
#[derive(Debug, Drop)]
pub struct Batch {
    records: Vec<PendingInlineSnapshot>,
}

impl Batch {
    ghost use Rattle.snap_pending.specs.Batches.{items_in, records_of, batch_of};

    pub fn new(alloc: Global) -> Batch
        ensures { items_in result ≡ [] }
    {
        Batch {
            records: Vec::new(alloc),
        }
    }

    /// Adds a record at the end. After out of memory the list is as it was.
    pub fn push(&mut self, item: PendingInlineSnapshot) -> Result<(), OutOfMemory>
        ensures ok { OnOk result (items_in self.new ≡ items_in self.old ++ item ∷ []) }
        ensures err { OnErr result (items_in self.new ≡ items_in self.old) }
    {
        self.records.push(item)?;
        Ok(())
    }

    pub fn len(&self) -> usize
        ensures { result ≡ length (items_in self.now) }
    {
        self.records.len()
    }

    pub fn get(&self, index: usize) -> Option<&PendingInlineSnapshot>
        ensures { option_copied result ≡ slice_get (items_in self.now) index }
    {
        self.records.get(index)
    }

    pub fn as_slice(&self) -> &[PendingInlineSnapshot]
        ensures { result.now ≡ items_in self.now }
    {
        self.records.as_slice()
    }

    pub fn from_vec(items: Vec<PendingInlineSnapshot>) -> Batch
        ensures { items_in result ≡ items.items }
    {
        Batch { records: items }
    }

    pub fn into_vec(self) -> Vec<PendingInlineSnapshot>
        ensures { result.items ≡ items_in self }
    {
        self.records
    }

    /// Keeps the records of the run of the last one, also those before others.
    pub(crate) fn keep_last_run(&mut self, alloc: Global) -> Result<(), OutOfMemory>
        ensures { OnOk result (records_of self.new ≡ batch_of (records_of self.old)) }
    {
        let Some(last) = self.records.last() else {
            return Ok(());
        };
        let run_id = Text::from_str(alloc, last.run_id())?;
        self.records.retain(|pending| pending.is_of_run(&run_id));
        Ok(())
    }
}
