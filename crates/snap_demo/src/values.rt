//! The value of a request.
ghost use Rattle.std.specs.Prelude.{◌≡◌, ◌%◌, IfOk};
ghost use Rattle.snap_content.specs.Plain.{plain, plains};
ghost use Rattle.snap_content.specs.View.{tree, item_list, item_trees};
ghost use Rattle.snap_demo.specs.Requests.{demo_value, tag_of, tags_from};

use crate::texts::{note, push_number};
use snap_content::{Content, Items, OutOfMemory, Pairs, Text};
use snap_store::header::push_field;
use std::alloc::Global;

/// The text `t` and the number.
fn tag(alloc: Global, number: u64) -> Result<Content, OutOfMemory>
    ensures { IfOk result (λ made. plain (tree made) ≡ tag_of number) }
{
    let mut text = Text::from_ascii(alloc, "t")?;
    push_number(&mut text, alloc, u128::from(number))?;
    Ok(Content::String(text))
}

/// So many tags, from `t0` on.
fn tags(alloc: Global, count: u64) -> Result<Items, OutOfMemory>
    ensures { IfOk result (λ items. plains (item_trees (item_list items)) ≡ tags_from 0 count) }
{
    let mut items = Items::new(alloc);
    for number in 0..count {
        items.push(tag(alloc, number)?)?;
    }
    Ok(items)
}

/// The value of a request: the request's place in the stream, its number, and tags and a note by that number.
pub(crate) fn value(alloc: Global, index: u32, number: u64) -> Result<Content, OutOfMemory>
    ensures { IfOk result (λ made. plain (tree made) ≡ demo_value index number) }
{
    let mut pairs = Pairs::new(alloc);
    push_field(alloc, &mut pairs, "id", Content::U32(index))?;
    push_field(alloc, &mut pairs, "seed", Content::U64(number))?;
    push_field(
        alloc,
        &mut pairs,
        "tags",
        Content::Seq(tags(alloc, number % 4)?),
    )?;
    push_field(
        alloc,
        &mut pairs,
        "note",
        Content::String(note(alloc, number)?),
    )?;
    Ok(Content::Map(pairs))
}
