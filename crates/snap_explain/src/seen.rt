//! What a reason speaks of, as it stands in the document.
use crate::number_path::number_path;
use crate::outline::Node;
use snap_content::{OutOfMemory, Text};
use snap_emit::Refusal;
use snap_run_requests::{KeyFault, Reason, RedactionFault};
use std::alloc::Global;

/// The text of a scalar. One that stands nowhere has none.
fn text_at(alloc: Global, nodes: &[Node], index: usize) -> Result<Option<Text>, OutOfMemory> {
    match nodes.get(index) {
        None => Ok(None),
        Some(node) => Ok(Some(node.text.try_clone(alloc)?)),
    }
}

/// The selector of a number's place; a number that is the whole document has none.
fn number_at(alloc: Global, nodes: &[Node], index: usize) -> Result<Option<Text>, OutOfMemory> {
    if index == 0 {
        return Ok(None);
    }
    Ok(Some(number_path(alloc, nodes, index)?))
}

/// Of the node that a reason speaks of: a key that isn't known, a selector that is none, or the selector of a number.
pub(crate) fn seen_at(
    alloc: Global,
    nodes: &[Node],
    node: Option<usize>,
    why: &Reason,
) -> Result<Option<Text>, OutOfMemory> {
    let Some(index) = node else {
        return Ok(None);
    };
    match why {
        Reason::NoTree(Refusal::Number) => number_at(alloc, nodes, index),
        Reason::Key(KeyFault::Unknown { .. }) => text_at(alloc, nodes, index),
        Reason::NoRedaction { fault, .. } => match fault {
            RedactionFault::Key(KeyFault::Unknown { .. }) | RedactionFault::NoSelector(_) => {
                text_at(alloc, nodes, index)
            }
            _ => Ok(None),
        },
        _ => Ok(None),
    }
}
