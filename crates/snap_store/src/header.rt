//! The tree that metadata are written as.
ghost use Rattle.std.specs.Prelude.{◌≡◌, IfOk, OnOk, IsTrue, option_map};
ghost use Rattle.std.specs.Char.{is_ascii};
ghost use Rattle.std.specs.List.{list_all};
ghost use Rattle.snap_content.specs.Plain.{plain};
ghost use Rattle.snap_content.specs.Tree.{string, TreePairs, no_pairs, pair};
ghost use Rattle.snap_content.specs.View.{tree, pair_list};
ghost use Rattle.snap_store.specs.Meta.{header_tree};
ghost use Rattle.snap_store.specs.MetaTree.{text_pair, line_pair, info_pair, kind_pairs, meta_tree};
ghost use Rattle.snap_store.specs.Views.{meta_of};
ghost use Rattle.snap_store.specs.Header.{in_front};

use crate::metadata::{MetaData, SnapshotKind};
use snap_content::{Content, OutOfMemory, Pairs, Text};
use std::alloc::Global;

/// A map of the fields that stand, in their order. The line of the assertion is the one given.
pub(crate) fn header_content(
    alloc: Global,
    metadata: &MetaData,
    line: Option<u32>,
) -> Result<Content, OutOfMemory>
    ensures tree { IfOk result (λ made. tree made
        ≡ meta_tree (record (meta_of metadata.now) { assertion_line = line })) }
    ensures plain { IfOk result (λ made. plain (tree made)
        ≡ header_tree (record (meta_of metadata.now) { assertion_line = line })) }
{
    let mut pairs = Pairs::new(alloc);
    push_text(alloc, &mut pairs, "source", &metadata.source)?;
    push_line(alloc, &mut pairs, line)?;
    push_text(alloc, &mut pairs, "description", &metadata.description)?;
    push_text(alloc, &mut pairs, "expression", &metadata.expression)?;
    push_info(alloc, &mut pairs, &metadata.info)?;
    push_text(alloc, &mut pairs, "input_file", &metadata.input_file)?;
    push_kind(alloc, &mut pairs, &metadata.kind)?;
    Ok(Content::Map(pairs))
}

/// Adds a pair of this name at the end.
pub fn push_field(
    alloc: Global,
    pairs: &mut Pairs,
    name: &str,
    value: Content,
) -> Result<(), OutOfMemory>
    requires { IsTrue (list_all is_ascii name.now) }
    ensures { OnOk result ((rest : TreePairs)
        → in_front (pair_list pairs.new) rest
        ≡ in_front (pair_list pairs.old) (pair (string name.now) (tree value) rest)) }
{
    match Text::from_ascii(alloc, name) {
        Ok(key) => Ok(pairs.push((Content::String(key), value))?),
        Err(error) => {
            drop(value);
            Err(error)
        }
    }
}

fn push_text(
    alloc: Global,
    pairs: &mut Pairs,
    name: &str,
    value: &Option<Text>,
) -> Result<(), OutOfMemory>
    requires { IsTrue (list_all is_ascii name.now) }
    ensures { OnOk result ((rest : TreePairs)
        → in_front (pair_list pairs.new) rest
        ≡ in_front (pair_list pairs.old) (text_pair name.now value.now rest)) }
{
    if let Some(value) = value {
        push_field(alloc, pairs, name, Content::String(value.try_clone(alloc)?))?;
    }
    Ok(())
}

fn push_line(alloc: Global, pairs: &mut Pairs, line: Option<u32>) -> Result<(), OutOfMemory>
    ensures { OnOk result ((rest : TreePairs)
        → in_front (pair_list pairs.new) rest
        ≡ in_front (pair_list pairs.old) (line_pair line rest)) }
{
    if let Some(line) = line {
        push_field(alloc, pairs, "assertion_line", Content::U32(line))?;
    }
    Ok(())
}

fn push_info(alloc: Global, pairs: &mut Pairs, info: &Option<Content>) -> Result<(), OutOfMemory>
    ensures { OnOk result ((rest : TreePairs)
        → in_front (pair_list pairs.new) rest
        ≡ in_front (pair_list pairs.old) (info_pair (option_map tree info.now) rest)) }
{
    if let Some(info) = info {
        push_field(alloc, pairs, "info", info.try_clone(alloc)?)?;
    }
    Ok(())
}

fn push_kind(alloc: Global, pairs: &mut Pairs, kind: &SnapshotKind) -> Result<(), OutOfMemory>
    ensures { OnOk result (in_front (pair_list pairs.new) no_pairs
        ≡ in_front (pair_list pairs.old) (kind_pairs kind.now)) }
{
    if let SnapshotKind::Binary { extension } = kind {
        let extension = Content::String(extension.try_clone(alloc)?);
        push_field(alloc, pairs, "extension", extension)?;
        let binary = Content::String(Text::from_ascii(alloc, "binary")?);
        push_field(alloc, pairs, "snapshot_kind", binary)?;
    }
    Ok(())
}
