//! The record that a line tells.
ghost use Rattle.std.specs.Prelude.{◌≡◌, codes, IsTrue};
ghost use Rattle.std.specs.Char.{is_ascii};
ghost use Rattle.std.specs.List.{list_all};
ghost use Rattle.std.specs.Str.{chars};
ghost use Rattle.snap_content.specs.Plain.{Plain, Entries, dict, content_of, pairs_made};
ghost use Rattle.snap_content.specs.View.{tree, pair_trees};
ghost use Rattle.snap_fields.specs.Made.{last_filled};
ghost use Rattle.snap_pending.specs.Parts.{MayBeHeldEnd};
ghost use Rattle.snap_pending.specs.Told.{RecordEnd, LineEnd, parsing_refusal};

use crate::pending::PendingInlineSnapshot;
use crate::snapshots::read_snapshot;
use snap_content::{Content, Error, Text};
use snap_emit::yaml::parse_str;
use snap_fields::fields::{filled_named, line_named, text_named};
use snap_store::Snapshot;
use std::alloc::Global;

/// The record of a line. `FailedParsingYaml` where it is no YAML, as an empty one, or holds a number that is no whole number.
pub(crate) fn read_line(
    alloc: Global,
    line: &str,
    path: &Text,
) -> Result<PendingInlineSnapshot, Error>
    ensures { LineEnd path.now (chars line.now) result }
{
    if line.is_empty() {
        return Err(Error::FailedParsingYaml(path.try_clone(alloc)?));
    }
    match parse_str(alloc, line, path) {
        Ok(content) => read_record(alloc, &content),
        Err(error) => Err(parsing_error(error)),
    }
}

fn parsing_error(error: Error) -> Error
    ensures { result ≡ parsing_refusal error }
{
    match error {
        Error::FloatText(path) => Error::FailedParsingYaml(path),
        other => other,
    }
}

/// `UnexpectedDataType` where the tree is no map, or a snapshot in it is of another type; else `MissingField` where it has no
/// run or no line.
fn read_record(alloc: Global, content: &Content) -> Result<PendingInlineSnapshot, Error>
    ensures { (plain : Plain) → tree content.now ≡ content_of plain → RecordEnd plain result }
{
    match content {
        Content::Map(pairs) => record_of_pairs(alloc, pairs.as_slice()),
        _ => Err(Error::UnexpectedDataType),
    }
}

fn record_of_pairs(
    alloc: Global,
    pairs: &[(Content, Content)],
) -> Result<PendingInlineSnapshot, Error>
    ensures { (entries : Entries) → pair_trees pairs.now ≡ pairs_made entries
        → RecordEnd (dict entries) result }
{
    let new = read_held(alloc, pairs, "new")?;
    let old = read_held(alloc, pairs, "old")?;
    let Some(run_id) = text_named(pairs, "run_id") else {
        return Err(Error::MissingField);
    };
    let Some(line) = line_named(pairs, "line") else {
        return Err(Error::MissingField);
    };
    let run_id = Text::from_str(alloc, run_id)?;
    Ok(PendingInlineSnapshot::new(run_id, new, old, line))
}

/// The snapshot of this name; none where it does not stand, or is nil.
fn read_held(
    alloc: Global,
    pairs: &[(Content, Content)],
    name: &str,
) -> Result<Option<Snapshot>, Error>
    requires { IsTrue (list_all is_ascii name.now) }
    ensures { (entries : Entries) → pair_trees pairs.now ≡ pairs_made entries
        → MayBeHeldEnd (last_filled name.now entries) result }
{
    match filled_named(pairs, name) {
        None => Ok(None),
        Some(value) => Ok(Some(read_snapshot(alloc, value)?)),
    }
}
