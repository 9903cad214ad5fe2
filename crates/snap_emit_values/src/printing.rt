//! Trees, printed as they are.
ghost use Rattle.std.specs.Prelude.{◌≡◌, ◌++◌, OnOk, OnErr, IfOk};
ghost use Rattle.snap_content.specs.Plain.{plain};
ghost use Rattle.snap_content.specs.View.{tree};
ghost use Rattle.snap_print.specs.Begun.{IsBegun};
ghost use Rattle.snap_print.specs.Blocks.{blocks_if};
ghost use Rattle.snap_print.specs.Lines.{document_of, text_of};
ghost use Rattle.snap_emit_values.specs.FromContent.{IsContentWithin};

use crate::blocks::Blocks;
use crate::documents::{push_body, push_node};
use crate::node::Node;
use snap_content::{Content, OutOfMemory, Text};
use std::alloc::Global;

/// Adds `---` and the text of the plain form. When out of memory, a beginning of that was added.
pub fn print_document(
    out: &mut Text,
    alloc: Global,
    content: &Content,
    literal: bool,
) -> Result<(), OutOfMemory>
    ensures ok { OnOk result (out.new ≡ out.old ++ document_of (blocks_if literal) (plain (tree content.now))) }
    ensures within { OnOk result (IsContentWithin content.now) }
    ensures err { OnErr result (IsBegun out.old out.new (document_of (blocks_if literal) (plain (tree content.now)))) }
{
    push_node(out, alloc, Node::of_tree(content), Blocks::of_text(literal))
}

/// Adds the text of the plain form. When out of memory, a beginning of that was added.
pub fn print_body(
    out: &mut Text,
    alloc: Global,
    content: &Content,
    literal: bool,
) -> Result<(), OutOfMemory>
    ensures ok { OnOk result (out.new ≡ out.old ++ text_of (blocks_if literal) (plain (tree content.now))) }
    ensures within { OnOk result (IsContentWithin content.now) }
    ensures err { OnErr result (IsBegun out.old out.new (text_of (blocks_if literal) (plain (tree content.now)))) }
{
    push_body(out, alloc, Node::of_tree(content), Blocks::of_text(literal))
}

/// `---` and the text of the plain form.
pub fn printed_document(
    alloc: Global,
    content: &Content,
    literal: bool,
) -> Result<Text, OutOfMemory>
    ensures value { IfOk result (λ text. text ≡ document_of (blocks_if literal) (plain (tree content.now))) }
    ensures within { IfOk result (λ _. IsContentWithin content.now) }
{
    let mut text = Text::empty();
    print_document(&mut text, alloc, content, literal)?;
    Ok(text)
}
