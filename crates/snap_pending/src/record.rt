//! The tree of a record, and its line.
ghost use Rattle.std.specs.Prelude.{◌≡◌, IfOk, OnOk, IsTrue, codes, option_map};
ghost use Rattle.std.specs.Char.{is_ascii};
ghost use Rattle.std.specs.List.{list_all};
ghost use Rattle.std.specs.Str.{chars};
ghost use Rattle.snap_content.specs.Tree.{TreePairs, string, pair};
ghost use Rattle.snap_content.specs.View.{tree, pair_list};
ghost use Rattle.snap_json.specs.JsonText.{json_text, json_refuses};
ghost use Rattle.snap_json.specs.declared.format.Format.TheVariants.{Condensed};
ghost use Rattle.snap_store.specs.Header.{in_front};
ghost use Rattle.snap_store.specs.MetaTree.{text_pair};
ghost use Rattle.snap_store.specs.Views.{text_in, snapshot_of};
ghost use Rattle.snap_text.specs.Normal.{normal};
ghost use Rattle.snap_pending.specs.Pending.{pending_of};
ghost use Rattle.snap_pending.specs.Record.{held_tree, tree_or_none, record_of, is_refused, record_line};
ghost use Rattle.snap_pending.specs.Saved.{PrintEnd};

use crate::pending::PendingInlineSnapshot;
use snap_content::{Content, Error, OutOfMemory, Pairs, Text};
use snap_json::{JsonError, to_string};
use snap_store::header::push_field;
use snap_store::{Snapshot, SnapshotContents};
use std::alloc::Global;

impl PendingInlineSnapshot {
    /// The line of the record, with its end. `JsonKey` exactly where a key of the record is one that JSON refuses.
    pub fn record_line(&self, alloc: Global) -> Result<Text, Error>
        ensures printed { IfOk result (λ line. line ≡ record_line (pending_of self.now)) }
        ensures end { PrintEnd (is_refused (pending_of self.now)) result }
    {
        let content = record_content(alloc, self)?;
        let mut text = json_line(alloc, &content)?;
        text.push_ascii(alloc, "\n")?;
        Ok(text)
    }
}

fn json_line(alloc: Global, content: &Content) -> Result<Text, Error>
    ensures printed { IfOk result (λ text. text ≡ json_text Condensed (tree content.now)) }
    ensures end { PrintEnd (json_refuses (tree content.now)) result }
{
    match to_string(alloc, content) {
        Ok(text) => Ok(text),
        Err(JsonError::JsonKey) => Err(Error::JsonKey),
        Err(JsonError::OutOfMemory) => Err(Error::OutOfMemory),
    }
}

fn record_content(alloc: Global, pending: &PendingInlineSnapshot) -> Result<Content, OutOfMemory>
    ensures { IfOk result (λ made. tree made ≡ record_of (pending_of pending.now)) }
{
    let mut pairs = Pairs::new(alloc);
    push_text(alloc, &mut pairs, "run_id", pending.run_id())?;
    push_field(alloc, &mut pairs, "line", Content::U32(pending.line()))?;
    push_snapshot(alloc, &mut pairs, "new", pending.new_snapshot())?;
    push_snapshot(alloc, &mut pairs, "old", pending.old_snapshot())?;
    Ok(Content::Map(pairs))
}

fn push_snapshot(
    alloc: Global,
    pairs: &mut Pairs,
    name: &str,
    snapshot: Option<&Snapshot>,
) -> Result<(), OutOfMemory>
    requires { IsTrue (list_all is_ascii name.now) }
    ensures { OnOk result ((rest : TreePairs)
        → in_front (pair_list pairs.new) rest ≡ in_front (pair_list pairs.old)
        (pair (string name.now)
        (tree_or_none (option_map (λ held. snapshot_of held.now) snapshot.entry)) rest)) }
{
    match snapshot {
        None => {
            push_field(alloc, pairs, name, Content::None)?;
            Ok(())
        }
        Some(snapshot) => {
            push_field(alloc, pairs, name, snapshot_content(alloc, snapshot)?)?;
            Ok(())
        }
    }
}

fn snapshot_content(alloc: Global, snapshot: &Snapshot) -> Result<Content, OutOfMemory>
    ensures { IfOk result (λ made. tree made ≡ held_tree (snapshot_of snapshot.now)) }
{
    let mut pairs = Pairs::new(alloc);
    push_text(alloc, &mut pairs, "module_name", snapshot.module_name())?;
    push_name(alloc, &mut pairs, snapshot.snapshot_name())?;
    push_field(
        alloc,
        &mut pairs,
        "metadata",
        snapshot.metadata().to_content(alloc)?,
    )?;
    push_contents(alloc, &mut pairs, snapshot.contents())?;
    Ok(Content::Map(pairs))
}

fn push_text(alloc: Global, pairs: &mut Pairs, name: &str, value: &str) -> Result<(), OutOfMemory>
    requires { IsTrue (list_all is_ascii name.now) }
    ensures { OnOk result ((rest : TreePairs)
        → in_front (pair_list pairs.new) rest ≡ in_front (pair_list pairs.old)
        (pair (string name.now) (string (chars value.now)) rest)) }
{
    let text = Text::from_str(alloc, value)?;
    push_field(alloc, pairs, name, Content::String(text))?;
    Ok(())
}

fn push_name(alloc: Global, pairs: &mut Pairs, name: Option<&str>) -> Result<(), OutOfMemory>
    ensures { OnOk result ((rest : TreePairs)
        → in_front (pair_list pairs.new) rest ≡ in_front (pair_list pairs.old)
        (text_pair (codes "snapshot_name") (option_map (λ text. chars text.now) name.entry) rest)) }
{
    match name {
        None => Ok(()),
        Some(name) => {
            push_text(alloc, pairs, "snapshot_name", name)?;
            Ok(())
        }
    }
}

/// The normal text; a payload has none.
fn push_contents(
    alloc: Global,
    pairs: &mut Pairs,
    contents: &SnapshotContents,
) -> Result<(), OutOfMemory>
    ensures { OnOk result ((rest : TreePairs)
        → in_front (pair_list pairs.new) rest ≡ in_front (pair_list pairs.old)
        (text_pair (codes "snapshot") (option_map normal (text_in contents.now)) rest)) }
{
    match contents {
        SnapshotContents::Binary(_) => Ok(()),
        SnapshotContents::Text(text) => {
            push_field(
                alloc,
                pairs,
                "snapshot",
                Content::String(text.normal(alloc)?),
            )?;
            Ok(())
        }
    }
}
