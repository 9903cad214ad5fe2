//! What helps to mend a document that is no request.
use crate::nearest::nearest_key;
use crate::number_path::number_path;
use crate::outline::{Kind, Node, Outline};
use crate::pointing::has_key;
use snap_content::characters::begins_with;
use snap_content::{OutOfMemory, Text};
use snap_emit::{Refusal, push_spelled_text};
use snap_parse::Yaml;
use snap_run_requests::{Key, KeyFault, Reason, RedactionFault};
use snap_scan_tokens::{ScanError, ScanInfo};
use std::alloc::Global;

/// The keys that a request may have, an assertion or one for a block.
const OF_REQUEST: [Key; 11] = [
    Key::Module,
    Key::File,
    Key::Line,
    Key::Name,
    Key::Function,
    Key::Suffix,
    Key::Expr,
    Key::Value,
    Key::Redactions,
    Key::Sort,
    Key::Duplicates,
];

fn value_words(value: &Yaml) -> &'static str {
    match value {
        Yaml::Null => "nothing",
        Yaml::Boolean(_) => "a truth value",
        Yaml::Integer(_) | Yaml::Real(_) => "a number",
        _ => "a text",
    }
}

/// What a plain scalar is read as.
fn plain_words(alloc: Global, text: &str) -> Result<&'static str, OutOfMemory> {
    let value = Yaml::from_str(alloc, text)?;
    let words = value_words(&value);
    drop(value);
    Ok(words)
}

fn node_words(alloc: Global, node: &Node) -> Result<&'static str, OutOfMemory> {
    match node.kind {
        Kind::Mapping => Ok("a map"),
        Kind::Sequence => Ok("a list"),
        Kind::Quoted => Ok("a text"),
        Kind::Alias => Ok("an alias"),
        Kind::Plain => plain_words(alloc, node.text.as_str()),
    }
}

/// What stands where another kind of value is taken.
fn kind_hint(alloc: Global, node: Option<&Node>) -> Result<Text, OutOfMemory> {
    let Some(node) = node else {
        return Ok(Text::empty());
    };
    let words = node_words(alloc, node)?;
    let mut hint = Text::from_ascii(alloc, ", and ")?;
    hint.push_str(alloc, words)?;
    hint.push_ascii(alloc, " stands there")?;
    Ok(hint)
}

/// The key that isn't known, and the one that is nearest to it.
fn unknown_hint(alloc: Global, node: Option<&Node>, keys: &[Key]) -> Result<Text, OutOfMemory> {
    let Some(node) = node else {
        return Ok(Text::empty());
    };
    let mut hint = Text::from_ascii(alloc, ", ")?;
    push_spelled_text(&mut hint, alloc, &node.text)?;
    if let Some(key) = nearest_key(alloc, node.text.as_str(), keys)? {
        hint.push_ascii(alloc, "; the nearest is ")?;
        hint.push_str(alloc, key.name())?;
    }
    Ok(hint)
}

fn missing_hint(alloc: Global, key: &Key) -> Result<Text, OutOfMemory> {
    match key {
        Key::Function => Text::from_ascii(alloc, ", and a name as well"),
        _ => Ok(Text::empty()),
    }
}

/// What helps where a key is wrong, by the keys that stand there.
fn key_hint(
    alloc: Global,
    node: Option<&Node>,
    fault: &KeyFault,
    keys: &[Key],
) -> Result<Text, OutOfMemory> {
    match fault {
        KeyFault::Missing(key) => missing_hint(alloc, key),
        KeyFault::Twice(_) => Ok(Text::empty()),
        KeyFault::Unknown { .. } => unknown_hint(alloc, node, keys),
        KeyFault::WrongKind(_) => kind_hint(alloc, node),
    }
}

fn request_hint(
    alloc: Global,
    nodes: &[Node],
    node: Option<&Node>,
    fault: &KeyFault,
) -> Result<Text, OutOfMemory> {
    if has_key(nodes, Key::Duplicates) {
        key_hint(alloc, node, fault, &Key::OF_BLOCK)
    } else {
        key_hint(alloc, node, fault, &OF_REQUEST)
    }
}

fn redaction_hint(
    alloc: Global,
    node: Option<&Node>,
    fault: &RedactionFault,
) -> Result<Text, OutOfMemory> {
    match fault {
        RedactionFault::Key(fault) => key_hint(alloc, node, fault, &Key::OF_REDACTION),
        RedactionFault::NoMap => kind_hint(alloc, node),
        _ => Ok(Text::empty()),
    }
}

/// Where the number stands.
fn number_hint(alloc: Global, nodes: &[Node], node: Option<usize>) -> Result<Text, OutOfMemory> {
    let Some(node) = node else {
        return Ok(Text::empty());
    };
    let path = number_path(alloc, nodes, node)?;
    let mut hint = Text::from_ascii(alloc, " at ")?;
    hint.push_text(alloc, &path)?;
    hint.push_ascii(alloc, "; hand it over as a text")?;
    Ok(hint)
}

fn syntax_hint(alloc: Global, error: &ScanError) -> Result<Text, OutOfMemory> {
    match error {
        ScanError::Syntax(_, ScanInfo::S33) => {
            Text::from_ascii(alloc, "; write the character itself")
        }
        _ => Ok(Text::empty()),
    }
}

fn tree_hint(
    alloc: Global,
    outline: &Outline,
    node: Option<usize>,
    refusal: &Refusal,
) -> Result<Text, OutOfMemory> {
    match refusal {
        Refusal::NoYaml(error) => syntax_hint(alloc, error),
        Refusal::NotOneDocument => {
            if outline.documents > 1 {
                Text::from_ascii(alloc, "; another one begins here")
            } else {
                Text::from_ascii(alloc, "; nothing stands in it")
            }
        }
        Refusal::Alias => Text::from_ascii(alloc, "; write the value itself"),
        Refusal::NoTree => Ok(Text::empty()),
        Refusal::Number => number_hint(alloc, outline.nodes.as_slice(), node),
    }
}

/// What helps, by the reason and by the node that it speaks of.
fn reason_hint(
    alloc: Global,
    outline: &Outline,
    place: Option<usize>,
    why: &Reason,
) -> Result<Text, OutOfMemory> {
    let nodes = outline.nodes.as_slice();
    let node = match place {
        Some(index) => nodes.get(index),
        None => None,
    };
    match why {
        Reason::NoTree(refusal) => tree_hint(alloc, outline, place, refusal),
        Reason::NoMap => kind_hint(alloc, node),
        Reason::Key(fault) => request_hint(alloc, nodes, node, fault),
        Reason::NoRedaction { fault, .. } => redaction_hint(alloc, node, fault),
        _ => Ok(Text::empty()),
    }
}

/// What stands before the first `---` of an input, in words, where that is no document.
fn front_words(text: &str, why: &Reason) -> &'static str {
    if begins_with(text, '\u{feff}') {
        return "; a byte order mark stands before the first ---";
    }
    let Reason::NoTree(_) = why else {
        return "";
    };
    if begins_with(text, '#') {
        "; a comment stands before the first ---"
    } else if begins_with(text, '%') {
        "; a directive stands before the first ---"
    } else if begins_with(text, '{') {
        "; of lines of JSON each is headed by ---"
    } else {
        ""
    }
}

/// What helps to mend the document with this number.
pub(crate) fn hint(
    alloc: Global,
    number: u64,
    text: &str,
    outline: &Outline,
    place: Option<usize>,
    why: &Reason,
) -> Result<Text, OutOfMemory> {
    let mut hint = reason_hint(alloc, outline, place, why)?;
    if number == 1 {
        hint.push_str(alloc, front_words(text, why))?;
    }
    Ok(hint)
}
