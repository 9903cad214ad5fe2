//! What records ask for.
ghost use Rattle.std.specs.Prelude.{◌≡◌, [], IfOk, map, option_map};
ghost use Rattle.std.specs.Str.{chars};
ghost use Rattle.snap_pending.specs.Pending.{pending_of};
ghost use Rattle.snap_store.specs.Views.{snapshot_of};
ghost use Rattle.snap_review.specs.Chosen.{chosen, latest_after, raw_in, seen, wanted};

use crate::patching::NewLiteral;
use snap_content::{OutOfMemory, Text};
use snap_pending::PendingInlineSnapshot;
use snap_store::Snapshot;
use std::alloc::Global;
use std::collections::BTreeMap;

/// The text of the snapshot, where there is one and it is a text.
fn text_of(snapshot: Option<&Snapshot>) -> Option<&str>
    ensures { option_map (λ text. chars text.now) result
        ≡ raw_in (option_map (λ held. snapshot_of held.now) snapshot.entry) }
{
    match snapshot {
        None => None,
        Some(held) => match held.as_text() {
            None => None,
            Some(contents) => Some(contents.as_raw()),
        },
    }
}

/// A copy of the text, where there is one.
fn copy_of(alloc: Global, text: Option<&str>) -> Result<Option<Text>, OutOfMemory>
    ensures { IfOk result (λ copy. copy ≡ option_map (λ text. chars text.now) text.entry) }
{
    match text {
        None => Ok(None),
        Some(text) => Ok(Some(Text::from_str(alloc, text)?)),
    }
}

/// What the record asks for; none where it has no new text.
fn wanted(alloc: Global, pending: &PendingInlineSnapshot) -> Result<Option<NewLiteral>, OutOfMemory>
    ensures { IfOk result (λ found. found ≡ wanted (pending_of pending.now)) }
{
    let Some(new) = text_of(pending.new_snapshot()) else {
        return Ok(None);
    };
    let text = Text::from_str(alloc, new)?;
    let old = copy_of(alloc, text_of(pending.old_snapshot()))?;
    Ok(Some(NewLiteral {
        line: pending.line(),
        text,
        old,
    }))
}

/// The last record of each line.
fn latest<'a>(
    alloc: Global,
    records: &'a [PendingInlineSnapshot],
) -> Result<BTreeMap<u32, &'a PendingInlineSnapshot>, OutOfMemory>
    ensures { IfOk result (λ made. seen made.entries
        ≡ latest_after [] (map pending_of records.now)) }
{
    let mut made = BTreeMap::new(alloc);
    for record in records {
        made.insert(record.line(), record)?;
    }
    Ok(made)
}

/// What the records ask for: of each line the last one, in the order of lines, where it has a new text.
pub fn chosen(
    alloc: Global,
    records: &[PendingInlineSnapshot],
) -> Result<Vec<NewLiteral>, OutOfMemory>
    ensures { IfOk result (λ changes. changes.items ≡ chosen (map pending_of records.now)) }
{
    let last = latest(alloc, records)?;
    let mut changes = Vec::new(alloc);
    for record in last.values() {
        if let Some(change) = wanted(alloc, record)? {
            changes.push(change)?;
        }
    }
    Ok(changes)
}
