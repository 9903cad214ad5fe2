//! The selector of a node.
use crate::outline::{Kind, Node};
use crate::place::{has_control, named_step};
use snap_content::{OutOfMemory, Text};
use snap_parse::Yaml;
use std::alloc::Global;

/// A map or a list that a node is in: which node it is, how many keys, values and items of it began, and its last key.
#[derive(Clone, Copy, Debug)]
struct Around {
    node: usize,
    begun: usize,
    key: usize,
}

/// Notes that a child begins in the innermost one.
fn note_child(around: &mut Vec<Around>, child: usize) {
    if let Some(innermost) = around.last_mut() {
        if innermost.begun % 2 == 0 {
            innermost.key = child;
        }
        innermost.begun = innermost.begun.saturating_add(1);
    }
}

/// What the node is in, the outermost first.
fn around_node(alloc: Global, nodes: &[Node], place: usize) -> Result<Vec<Around>, OutOfMemory> {
    let mut around = Vec::new(alloc);
    for (index, node) in nodes.iter().enumerate() {
        around.truncate(node.depth);
        note_child(&mut around, index);
        if index >= place {
            break;
        }
        around.push(Around {
            node: index,
            begun: 0,
            key: 0,
        })?;
    }
    Ok(around)
}

fn is_text_value(value: &Yaml) -> bool {
    matches!(value, Yaml::String(_))
}

/// Whether a key is a text that stands on a line.
fn is_line_key(alloc: Global, key: &Node) -> Result<bool, OutOfMemory> {
    if has_control(key.text.as_str()) {
        return Ok(false);
    }
    match key.kind {
        Kind::Quoted => Ok(true),
        Kind::Plain => {
            let value = Yaml::from_str(alloc, key.text.as_str())?;
            let is_text = is_text_value(&value);
            drop(value);
            Ok(is_text)
        }
        _ => Ok(false),
    }
}

/// The step to what is under a key: any key, where it is no text that stands on a line.
fn key_step(alloc: Global, key: &Node) -> Result<Text, OutOfMemory> {
    if is_line_key(alloc, key)? {
        named_step(alloc, key.text.as_str())
    } else {
        Text::from_ascii(alloc, ".*")
    }
}

fn item_step(alloc: Global, begun: usize) -> Result<Text, OutOfMemory> {
    let index = begun.saturating_sub(1);
    let step = format!(in alloc; "[{index}]")?;
    Text::from_str(alloc, step.as_str())
}

/// The step into a map or a list.
fn step_of(alloc: Global, nodes: &[Node], around: Around) -> Result<Text, OutOfMemory> {
    match nodes.get(around.node) {
        Some(node) if node.kind == Kind::Mapping => {
            if around.begun % 2 == 1 {
                return Text::from_ascii(alloc, ".$key");
            }
            match nodes.get(around.key) {
                Some(key) => key_step(alloc, key),
                None => Text::from_ascii(alloc, ".*"),
            }
        }
        _ => item_step(alloc, around.begun),
    }
}

/// The selector of the node at this place of the outline, or `the top` where it is the whole value.
pub(crate) fn number_path(
    alloc: Global,
    nodes: &[Node],
    place: usize,
) -> Result<Text, OutOfMemory> {
    if place == 0 {
        return Text::from_ascii(alloc, "the top");
    }
    let around = around_node(alloc, nodes, place)?;
    let mut path = Text::empty();
    for each in &around {
        let step = step_of(alloc, nodes, *each)?;
        path.push_text(alloc, &step)?;
    }
    Ok(path)
}
