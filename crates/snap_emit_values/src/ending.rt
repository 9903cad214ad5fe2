//! Whether what is printed of a value ends in a literal block.
ghost use Rattle.std.specs.Prelude.{◌≡◌};
ghost use Rattle.snap_emit_values.specs.Document.{ends_child, ends_in_block};
ghost use Rattle.snap_emit_values.specs.Places.{place};
ghost use Rattle.snap_emit_values.specs.Shape.{block_in, shape_of};

use crate::block::is_block;
use crate::blocks::Blocks;
use snap_yaml::Yaml;

/// Whether the last line of the value is that of a block: down the last items and values, as far as they go.
#[cycle(ending)]
pub fn ends_in_block(tree: &Yaml, blocks: Blocks) -> bool
    ensures { result ≡ ends_in_block (place blocks) (shape_of tree.now) }
{
    match tree {
        Yaml::Array(items) => match items.as_slice().split_last() {
            None => false,
            Some((item, _)) => child_ends_in_block(item, blocks),
        },
        Yaml::Hash(pairs) => match pairs.as_slice().split_last() {
            None => false,
            Some(((_, value), _)) => child_ends_in_block(value, blocks),
        },
        _ => false,
    }
}

/// The same of an item or a value, which may be a block itself.
#[cycle(ending)]
fn child_ends_in_block(child: &Yaml, blocks: Blocks) -> bool
    ensures { result ≡ ends_child (block_in (place blocks) (shape_of child.now))
        (ends_in_block (place blocks) (shape_of child.now)) }
{
    match child {
        Yaml::String(text) => is_block(text.as_str(), blocks),
        _ => ends_in_block(child, blocks),
    }
}
