//! The node that a reason speaks of.
use crate::outline::{Kind, Node};
use crate::place::kind_of;
use snap_content::OutOfMemory;
use snap_content::characters::is_same;
use snap_emit::Refusal;
use snap_parse::Yaml;
use snap_run_requests::{Key, KeyFault, Reason, RedactionFault};
use std::alloc::Global;

/// The child of a node that has so many others before it, keys and values of a map alike.
fn child_at(nodes: &[Node], parent: usize, ordinal: usize) -> Option<usize> {
    let depth = nodes.get(parent)?.depth.saturating_add(1);
    let mut others = 0usize;
    for (index, node) in nodes.iter().enumerate() {
        if index > parent {
            if node.depth < depth {
                return None;
            }
            if node.depth == depth {
                if others == ordinal {
                    return Some(index);
                }
                others = others.saturating_add(1);
            }
        }
    }
    None
}

/// Whether a node is written as a key is.
fn is_key(node: &Node, key: Key) -> bool {
    is_same(node.text.as_str(), key.name())
}

/// Where in a map, counted as a child, a key stands behind so many others of its name.
fn key_ordinal(nodes: &[Node], map: usize, key: Key, before: usize) -> Option<usize> {
    let depth = nodes.get(map)?.depth.saturating_add(1);
    let mut ordinal = 0usize;
    let mut same = 0usize;
    for (index, node) in nodes.iter().enumerate() {
        if index > map {
            if node.depth < depth {
                return None;
            }
            if node.depth == depth {
                if ordinal % 2 == 0 && is_key(node, key) {
                    if same == before {
                        return Some(ordinal);
                    }
                    same = same.saturating_add(1);
                }
                ordinal = ordinal.saturating_add(1);
            }
        }
    }
    None
}

/// The value at a key of a map.
fn value_at(nodes: &[Node], map: usize, key: Key) -> Option<usize> {
    let ordinal = key_ordinal(nodes, map, key, 0)?;
    child_at(nodes, map, ordinal.saturating_add(1))
}

/// What is wrong with a key of a map is said of the second key of its name, of an unknown key, of the value at a key, or of
/// the map itself.
fn key_node(nodes: &[Node], map: usize, fault: &KeyFault) -> Option<usize> {
    match fault {
        KeyFault::Missing(_) => Some(map),
        KeyFault::Twice(key) => {
            let ordinal = key_ordinal(nodes, map, *key, 1)?;
            child_at(nodes, map, ordinal)
        }
        KeyFault::Unknown { place } => child_at(nodes, map, place.saturating_mul(2)),
        KeyFault::WrongKind(key) => value_at(nodes, map, *key),
    }
}

fn redaction_node(nodes: &[Node], item: usize, fault: &RedactionFault) -> Option<usize> {
    match fault {
        RedactionFault::Key(fault) => key_node(nodes, item, fault),
        RedactionFault::NoSelector(_) => value_at(nodes, item, Key::At),
        _ => Some(item),
    }
}

/// The same in the item of the redactions at this place.
fn item_node(nodes: &[Node], place: usize, fault: &RedactionFault) -> Option<usize> {
    let list = value_at(nodes, 0, Key::Redactions)?;
    let item = child_at(nodes, list, place)?;
    redaction_node(nodes, item, fault)
}

fn first_alias(nodes: &[Node]) -> Option<usize> {
    nodes.iter().position(|node| node.kind == Kind::Alias)
}

/// Whether a plain scalar is read as a number that is no whole number of 64 bits.
fn is_real(alloc: Global, text: &str) -> Result<bool, OutOfMemory> {
    let value = Yaml::from_str(alloc, text)?;
    let real = matches!(&value, Yaml::Real(_));
    drop(value);
    Ok(real)
}

/// Whether the node is a number that is no whole number of 128 bits.
fn is_bad_number(alloc: Global, node: &Node) -> Result<bool, OutOfMemory> {
    if node.kind != Kind::Plain || kind_of(node.text.as_str()).is_none() {
        return Ok(false);
    }
    is_real(alloc, node.text.as_str())
}

/// The first number that is no whole number of 128 bits.
fn first_number(alloc: Global, nodes: &[Node]) -> Result<Option<usize>, OutOfMemory> {
    for (index, node) in nodes.iter().enumerate() {
        if is_bad_number(alloc, node)? {
            return Ok(Some(index));
        }
    }
    Ok(None)
}

/// The node that a reason speaks of, where it speaks of one.
pub(crate) fn node_of(
    alloc: Global,
    nodes: &[Node],
    why: &Reason,
) -> Result<Option<usize>, OutOfMemory> {
    match why {
        Reason::NotUtf8 { .. } => Ok(None),
        Reason::NoTree(Refusal::Alias) => Ok(first_alias(nodes)),
        Reason::NoTree(Refusal::Number) => first_number(alloc, nodes),
        Reason::NoTree(_) => Ok(None),
        Reason::NoMap => Ok(Some(0)),
        Reason::Key(fault) => Ok(key_node(nodes, 0, fault)),
        Reason::NoFile => Ok(value_at(nodes, 0, Key::File)),
        Reason::NoRedaction { place, fault } => Ok(item_node(nodes, *place, fault)),
    }
}

/// Whether the first node is a map with this key.
pub(crate) fn has_key(nodes: &[Node], key: Key) -> bool {
    key_ordinal(nodes, 0, key, 0).is_some()
}
