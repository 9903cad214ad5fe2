//! Walks over a tree.
ghost use Rattle.std.specs.Prelude.{◌≤◌};
ghost use Rattle.snap_content.specs.Count.{count};
ghost use Rattle.snap_content.specs.View.{tree};

use crate::columns::{add_tree_column, add_word};
use snap_content::{Content, Text};
use std::alloc::Global;
use std::mem;

/// Puts `None` in place of a text, and tells whether a walk goes on inside: of a tuple it doesn't.
fn without_text(node: &mut Content) -> bool
    ensures { count (tree node.new) ≤ count (tree node.old) }
{
    if matches!(node, Content::String(_)) {
        drop(mem::replace(node, Content::None));
        return false;
    }
    !matches!(node, Content::Tuple(_))
}

/// The tree without its texts, but for those in tuples, and how many nodes were visited.
pub(crate) fn walk_line(alloc: Global, whole: &mut Content) -> Result<Text, anyhow::Error> {
    let mut visited = 0u64;
    whole.walk(
        &mut |node: &mut Content| -> bool
            ensures { count (tree node.new) ≤ count (tree node.old) }
        {
            visited = visited.saturating_add(1);
            without_text(node)
        },
    );
    let mut line = Text::empty();
    add_tree_column(alloc, &mut line, whole)?;
    let word = format!(in alloc; "{visited} visited")?;
    add_word(alloc, &mut line, word.as_str())?;
    Ok(line)
}
