//! One request, and its document.
ghost use Rattle.std.specs.Prelude.{◌≡◌, ◌++◌, ◌-◌, ◌<◌, ◌^◌, IfOk, OnOk, codes};
ghost use Rattle.snap_content.specs.Plain.{plain};
ghost use Rattle.snap_content.specs.Tree.{string};
ghost use Rattle.snap_content.specs.View.{tree};
ghost use Rattle.snap_demo.specs.Requests.{demo_tree};
ghost use Rattle.snap_demo.specs.Stream.{demo_text};

use crate::texts::{request_name, source_file};
use crate::values::value;
use snap_content::{Content, OutOfMemory, Pairs, Text};
use snap_emit_values::printing::print_document;
use snap_store::header::push_field;
use std::alloc::Global;

/// The tree of a request, by its place in the stream and its number.
fn request(alloc: Global, index: u32, number: u64) -> Result<Content, OutOfMemory>
    requires { index < 2 ^ 32 - 1 }
    ensures { IfOk result (λ made. plain (tree made) ≡ demo_tree index number) }
{
    let mut pairs = Pairs::new(alloc);
    push_field(alloc, &mut pairs, "module", word(alloc)?)?;
    push_field(
        alloc,
        &mut pairs,
        "file",
        Content::String(source_file(alloc, index)?),
    )?;
    push_field(alloc, &mut pairs, "line", Content::U32(index + 1))?;
    push_field(
        alloc,
        &mut pairs,
        "name",
        Content::String(request_name(alloc, index)?),
    )?;
    push_field(alloc, &mut pairs, "expr", word(alloc)?)?;
    push_field(alloc, &mut pairs, "value", value(alloc, index, number)?)?;
    Ok(Content::Map(pairs))
}

/// The module and the expression of each request.
fn word(alloc: Global) -> Result<Content, OutOfMemory>
    ensures { IfOk result (λ made. tree made ≡ string (codes "demo")) }
{
    Ok(Content::String(Text::from_ascii(alloc, "demo")?))
}

/// Adds the document of a request at the end.
pub(crate) fn push_request(
    text: &mut Text,
    alloc: Global,
    index: u32,
    number: u64,
) -> Result<(), OutOfMemory>
    requires { index < 2 ^ 32 - 1 }
    ensures { OnOk result (text.new ≡ text.old ++ demo_text index number) }
{
    let content = request(alloc, index, number)?;
    let printed = print_document(text, alloc, &content, false);
    drop(content);
    printed
}
