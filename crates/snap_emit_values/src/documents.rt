//! Whole documents, added to a text that is lent.
ghost use Rattle.std.specs.Prelude.{◌≡◌, ◌++◌, OnOk, OnErr, IfOk};
ghost use Rattle.snap_print.specs.Begun.{IsBegun};
ghost use Rattle.snap_emit_values.specs.Document.{body, document, dumped};
ghost use Rattle.snap_emit_values.specs.FromContent.{IsShapeWithin};
ghost use Rattle.snap_emit_values.specs.Nodes.{node_shape};
ghost use Rattle.snap_emit_values.specs.Places.{place};
ghost use Rattle.snap_emit_values.specs.Shape.{shape_of};

use crate::blocks::Blocks;
use crate::emit::emit;
use crate::ending::ends_in_block;
use crate::node::Node;
use snap_content::{OutOfMemory, Text};
use snap_yaml::Yaml;
use std::alloc::Global;

/// Adds `---` and the lines of the value, without the end of the last unless that is a block's. When out of memory, a beginning of that
/// was added.
pub fn push_dump(
    out: &mut Text,
    alloc: Global,
    doc: &Yaml,
    blocks: Blocks,
) -> Result<(), OutOfMemory>
    ensures ok { OnOk result (out.new ≡ out.old ++ dumped (place blocks) (shape_of doc.now)) }
    ensures err { OnErr result (IsBegun out.old out.new (dumped (place blocks) (shape_of doc.now))) }
{
    out.push_ascii(alloc, "---\n")?;
    emit(out, alloc, Node::of_value(doc), 0, blocks)?;
    if ends_in_block(doc, blocks) {
        return out.push(alloc, '\n');
    }
    Ok(())
}

/// Adds the lines of the value, each with its end. When out of memory, a beginning of that was added.
pub fn push_body(
    out: &mut Text,
    alloc: Global,
    node: Node<'_>,
    blocks: Blocks,
) -> Result<(), OutOfMemory>
    ensures ok { OnOk result (out.new ≡ out.old ++ body (place blocks) (node_shape node.entry)) }
    ensures within { OnOk result (IsShapeWithin (node_shape node.entry)) }
    ensures err { OnErr result (IsBegun out.old out.new (body (place blocks) (node_shape node.entry))) }
{
    emit(out, alloc, node, 0, blocks)?;
    out.push(alloc, '\n')
}

/// Adds `---` and the lines of the value, each with its end. When out of memory, a beginning of that was added.
pub fn push_node(
    out: &mut Text,
    alloc: Global,
    node: Node<'_>,
    blocks: Blocks,
) -> Result<(), OutOfMemory>
    ensures ok { OnOk result (out.new ≡ out.old ++ document (place blocks) (node_shape node.entry)) }
    ensures within { OnOk result (IsShapeWithin (node_shape node.entry)) }
    ensures err { OnErr result (IsBegun out.old out.new (document (place blocks) (node_shape node.entry))) }
{
    out.push_ascii(alloc, "---\n")?;
    push_body(out, alloc, node, blocks)
}

/// Adds `---` and the lines of the value, each with its end. When out of memory, a beginning of that was added.
pub fn push_document(
    out: &mut Text,
    alloc: Global,
    doc: &Yaml,
    blocks: Blocks,
) -> Result<(), OutOfMemory>
    ensures ok { OnOk result (out.new ≡ out.old ++ document (place blocks) (shape_of doc.now)) }
    ensures err { OnErr result (IsBegun out.old out.new (document (place blocks) (shape_of doc.now))) }
{
    push_node(out, alloc, Node::of_value(doc), blocks)
}

/// The text of a document of this value.
pub fn document_text(alloc: Global, doc: &Yaml, blocks: Blocks) -> Result<Text, OutOfMemory>
    ensures { IfOk result (λ text. text ≡ document (place blocks) (shape_of doc.now)) }
{
    let mut text = Text::empty();
    push_document(&mut text, alloc, doc, blocks)?;
    Ok(text)
}
