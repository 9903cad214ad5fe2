//! The walk that writes a value: each piece goes straight into the text, further lines after the blanks of their column.
ghost use Rattle.std.specs.Prelude.{◌≡◌, ◌+◌, ◌^◌, ◌≤◌, ◌++◌, ◌∷◌, [], OnOk, OnErr, IfOk, IfErr, IsTrue};
ghost use Rattle.std.specs.Char.{is_ascii};
ghost use Rattle.std.specs.List.{All, list_all};
ghost use Rattle.std.specs.Str.{chars};
ghost use Rattle.snap_print.specs.Begun.{IsBegun};
ghost use Rattle.snap_emit_values.specs.Columns.{break_at, gap, text_at};
ghost use Rattle.snap_emit_values.specs.Emitted.{child_of, text_of_child, item_of, list_text, pair_of, dict_text, key_of};
ghost use Rattle.snap_emit_values.specs.Places.{place};
ghost use Rattle.snap_emit_values.specs.FromContent.{IsPairWithin, IsShapeWithin};
ghost use Rattle.snap_emit_values.specs.Nodes.{item_shapes, entry_shapes, node_pair, node_shape};
ghost use Rattle.snap_emit_values.specs.Shape.{is_flat};

use crate::blanks::break_line;
use crate::block::{is_block, push_block};
use crate::blocks::Blocks;
use crate::node::{Entries, Items, Node};
use crate::scalars::{char_text, push_spelled, push_spelled_str, push_word};
use crate::written::is_simple_key;
use snap_content::{OutOfMemory, Text};
use std::alloc::Global;

/// Two columns further in. Where no number is left for the column, no memory would hold the blanks of its lines.
fn deeper(column: usize) -> Result<usize, OutOfMemory>
    ensures ok { IfOk result (λ inner. inner ≡ column + 2) }
    ensures err { IfErr result (λ _. 2 ^ 64 ≤ column + 2) }
{
    match column.checked_add(2) {
        Some(inner) => Ok(inner),
        None => Err(OutOfMemory),
    }
}

/// Adds a mark and a blank.
fn push_mark(out: &mut Text, alloc: Global, mark: &str) -> Result<(), OutOfMemory>
    requires { IsTrue (list_all is_ascii mark.now) }
    ensures ok { OnOk result (out.new ≡ out.old ++ mark.now) }
    ensures err { OnErr result (IsBegun out.old out.new mark.now) }
{
    out.push_ascii(alloc, mark)
}

/// Begins a line at the column with a mark and a blank.
fn push_marked_line(
    out: &mut Text,
    alloc: Global,
    column: usize,
    mark: &str,
) -> Result<(), OutOfMemory>
    requires { IsTrue (list_all is_ascii mark.now) }
    ensures ok { OnOk result (out.new ≡ out.old ++ (break_at column ++ mark.now)) }
    ensures err { OnErr result (IsBegun out.old out.new (break_at column ++ mark.now)) }
{
    break_line(out, alloc, column)?;
    push_mark(out, alloc, mark)
}

/// Ends a simple key, up to its value at the column.
fn push_colon(
    out: &mut Text,
    alloc: Global,
    column: usize,
    is_one_line: bool,
) -> Result<(), OutOfMemory>
    ensures ok { OnOk result (out.new ≡ out.old ++ 58 ∷ gap column is_one_line) }
    ensures err { OnErr result (IsBegun out.old out.new (58 ∷ gap column is_one_line)) }
{
    if is_one_line {
        return push_word(out, alloc, ": ");
    }
    push_word(out, alloc, ":")?;
    break_line(out, alloc, column)
}

/// Whether the value is written on one line: a scalar or an empty collection.
fn is_one_line(node: Node<'_>) -> bool
    ensures { result ≡ is_flat (node_shape node.entry) }
{
    match node {
        Node::List(items) => items.len() == 0,
        Node::Dict(entries) => entries.len() == 0,
        _ => true,
    }
}

/// Adds a text that is an item or a value: a literal block, or the text as it is spelled.
fn push_text(
    out: &mut Text,
    alloc: Global,
    value: &str,
    column: usize,
    blocks: Blocks,
) -> Result<(), OutOfMemory>
    ensures ok { OnOk result (out.new ≡ out.old ++ text_of_child column (place blocks) (chars value.now)) }
    ensures err { OnErr result (IsBegun out.old out.new
        (text_of_child column (place blocks) (chars value.now))) }
{
    if is_block(value, blocks) {
        return push_block(out, alloc, column, value, blocks);
    }
    push_spelled_str(out, alloc, value)
}

/// The same of a text of one character.
fn push_char(
    out: &mut Text,
    alloc: Global,
    value: char,
    column: usize,
    blocks: Blocks,
) -> Result<(), OutOfMemory>
    ensures ok { OnOk result (out.new ≡ out.old ++ text_of_child column (place blocks) (value ∷ [])) }
    ensures err { OnErr result (IsBegun out.old out.new
        (text_of_child column (place blocks) (value ∷ []))) }
{
    let mut buffer = [0u8; 4];
    push_text(out, alloc, char_text(value, &mut buffer), column, blocks)
}

/// Adds the value, whose first line begins where the text ends. Further lines begin at the column.
/// When out of memory, the text has a beginning of that.
#[cycle(emit)]
pub fn emit(
    out: &mut Text,
    alloc: Global,
    node: Node<'_>,
    column: usize,
    blocks: Blocks,
) -> Result<(), OutOfMemory>
    ensures ok { OnOk result (out.new ≡ out.old ++ text_at column (place blocks) (node_shape node.entry)) }
    ensures within { OnOk result (IsShapeWithin (node_shape node.entry)) }
    ensures err { OnErr result (IsBegun out.old out.new
        (text_at column (place blocks) (node_shape node.entry))) }
{
    match node {
        Node::List(items) => emit_items(out, alloc, items, column, blocks),
        Node::Dict(entries) => emit_entries(out, alloc, entries, column, blocks),
        _ => push_spelled(out, alloc, node),
    }
}

/// Adds an item or a value: a literal block, or what is added of the value by itself.
#[cycle(emit)]
fn emit_child(
    out: &mut Text,
    alloc: Global,
    child: Node<'_>,
    column: usize,
    blocks: Blocks,
) -> Result<(), OutOfMemory>
    ensures ok { OnOk result (out.new ≡ out.old ++ child_of column (place blocks) (node_shape child.entry)) }
    ensures within { OnOk result (IsShapeWithin (node_shape child.entry)) }
    ensures err { OnErr result (IsBegun out.old out.new
        (child_of column (place blocks) (node_shape child.entry))) }
{
    match child {
        Node::Text(text) => push_text(out, alloc, text, column, blocks),
        Node::Char(value) => push_char(out, alloc, value, column, blocks),
        _ => emit(out, alloc, child, column, blocks),
    }
}

/// Adds a list: something follows each item but the last.
#[cycle(emit)]
fn emit_items(
    out: &mut Text,
    alloc: Global,
    items: Items<'_>,
    column: usize,
    blocks: Blocks,
) -> Result<(), OutOfMemory>
    ensures ok { OnOk result (out.new ≡ out.old ++ list_text column (place blocks) (item_shapes items.entry)) }
    ensures within { OnOk result (All IsShapeWithin (item_shapes items.entry)) }
    ensures err { OnErr result (IsBegun out.old out.new
        (list_text column (place blocks) (item_shapes items.entry))) }
{
    let count = items.len();
    if count == 0 {
        return push_word(out, alloc, "[]");
    }
    let last = count - 1;
    let inside = blocks.before_more();
    for index in 0..last {
        emit_item(out, alloc, items.at(index), column, inside)?;
        break_line(out, alloc, column)?;
    }
    emit_item(out, alloc, items.at(last), column, blocks)
}

/// Adds an item after its mark.
#[cycle(emit)]
fn emit_item(
    out: &mut Text,
    alloc: Global,
    item: Node<'_>,
    column: usize,
    blocks: Blocks,
) -> Result<(), OutOfMemory>
    ensures ok { OnOk result (out.new ≡ out.old ++ item_of column (place blocks) (node_shape item.entry)) }
    ensures within { OnOk result (IsShapeWithin (node_shape item.entry)) }
    ensures err { OnErr result (IsBegun out.old out.new
        (item_of column (place blocks) (node_shape item.entry))) }
{
    let inner = deeper(column)?;
    push_mark(out, alloc, "- ")?;
    emit_child(out, alloc, item, inner, blocks)
}

/// Adds a dict: something follows each pair but the last.
#[cycle(emit)]
fn emit_entries(
    out: &mut Text,
    alloc: Global,
    entries: Entries<'_>,
    column: usize,
    blocks: Blocks,
) -> Result<(), OutOfMemory>
    ensures ok { OnOk result (out.new ≡ out.old ++ dict_text column (place blocks) (entry_shapes entries.entry)) }
    ensures within { OnOk result (All IsPairWithin (entry_shapes entries.entry)) }
    ensures err { OnErr result (IsBegun out.old out.new
        (dict_text column (place blocks) (entry_shapes entries.entry))) }
{
    let count = entries.len();
    if count == 0 {
        return push_word(out, alloc, "{}");
    }
    let last = count - 1;
    let inside = blocks.before_more();
    for index in 0..last {
        emit_pair(out, alloc, entries.at(index), column, inside)?;
        break_line(out, alloc, column)?;
    }
    emit_pair(out, alloc, entries.at(last), column, blocks)
}

/// Adds a key and its value.
#[cycle(emit)]
fn emit_pair(
    out: &mut Text,
    alloc: Global,
    pair: (Node<'_>, Node<'_>),
    column: usize,
    blocks: Blocks,
) -> Result<(), OutOfMemory>
    ensures ok { OnOk result (out.new ≡ out.old ++ pair_of column (place blocks) (node_pair pair.entry)) }
    ensures within { OnOk result (IsPairWithin (node_pair pair.entry)) }
    ensures err { OnErr result (IsBegun out.old out.new
        (pair_of column (place blocks) (node_pair pair.entry))) }
{
    let (key, value) = pair;
    let inner = deeper(column)?;
    emit_key(
        out,
        alloc,
        key,
        column,
        is_one_line(value),
        blocks.before_more(),
    )?;
    emit_child(out, alloc, value, inner, blocks)
}

/// Adds a key up to its value. A key is never a block.
#[cycle(emit)]
fn emit_key(
    out: &mut Text,
    alloc: Global,
    key: Node<'_>,
    column: usize,
    is_one_line: bool,
    blocks: Blocks,
) -> Result<(), OutOfMemory>
    ensures ok { OnOk result (out.new
        ≡ out.old ++ key_of column (place blocks) (node_shape key.entry) is_one_line) }
    ensures within { OnOk result (IsShapeWithin (node_shape key.entry)) }
    ensures err { OnErr result (IsBegun out.old out.new
        (key_of column (place blocks) (node_shape key.entry) is_one_line)) }
{
    let inner = deeper(column)?;
    if is_simple_key(key) {
        push_spelled(out, alloc, key)?;
        return push_colon(out, alloc, inner, is_one_line);
    }
    push_mark(out, alloc, "? ")?;
    emit(out, alloc, key, inner, blocks)?;
    push_marked_line(out, alloc, column, ": ")
}
