//! What is told of a page besides the status: where it is no text, which fence of its header is missing, and why its header is read as
//! no map.
ghost use Rattle.std.specs.Prelude.{◌≡◌, None, IfOk, IfSome};
ghost use Rattle.std.specs.Str.{chars};
ghost use Rattle.snap_emit.specs.Readings.{IsReasonIn};
ghost use Rattle.snap_explain.specs.Pages.{IsOfHeader, IsWhy};

use crate::failing::{PageTold, Pointed};
use crate::hint::hint;
use crate::no_tree::{Part, no_tree_told};
use crate::outline::{Kind, Outline, outline_of};
use crate::page_path::path_told;
use crate::page_words::value_text;
use crate::position::{Place, place_behind};
use snap_content::characters::begins_with;
use snap_content::{OutOfMemory, Text};
use snap_front::{FrontError, Reply, front_read};
use snap_run_requests::Reason;
use snap_str::lines::next_ended_line;
use snap_text_literals::normal::is_fence;
use std::alloc::Global;
use std::str;

/// What is told of bytes that are no UTF-8, so many of which are.
fn bytes_told(alloc: Global, document: &[u8], before: usize) -> Result<PageTold, OutOfMemory>
    ensures { IfOk result (λ told. told.why ≡ None) }
{
    let (front, _) = document.split_at(before.min(document.len()));
    let pointed = match str::from_utf8(front) {
        Ok(text) => Pointed::Page(place_behind(text, 1, usize::MAX)),
        Err(_) => Pointed::Nothing,
    };
    let detail = Text::from_ascii(alloc, ": not UTF-8")?;
    Ok(PageTold::of_detail(pointed, detail))
}

/// What a page begins with that has no header.
fn beginning_words(text: &str) -> &'static str {
    if text.is_empty() {
        ": the page is empty"
    } else if begins_with(text, '\u{feff}') {
        ": a byte order mark stands before the first ---"
    } else {
        ": the first line is no ---"
    }
}

/// Which fence of the header is missing.
fn fence_words(text: &str) -> &'static str {
    match next_ended_line(text) {
        Some((first, _)) if is_fence(first) => ": no second line --- ends the header",
        _ => beginning_words(text),
    }
}

/// What is told of a page without a header.
fn no_header_told(alloc: Global, text: &str) -> Result<PageTold, OutOfMemory>
    ensures { IfOk result (λ told. told.why ≡ None) }
{
    let detail = Text::from_str(alloc, fence_words(text))?;
    let first = Place {
        line: 1,
        column: None,
    };
    Ok(PageTold::of_detail(Pointed::Page(first), detail))
}

/// How many characters stand before the first node of a text.
fn first_before(outline: &Outline) -> usize {
    match outline.nodes.as_slice() {
        [first, ..] => first.before,
        [] => 0,
    }
}

/// What is told of a text whose nodes are these, and which is read as no map.
fn told_by(
    alloc: Global,
    text: &str,
    part: Part,
    outline: &Outline,
) -> Result<PageTold, OutOfMemory>
    ensures { IfOk result (λ told. told.why ≡ None) }
{
    let detail = hint(alloc, 2, text, outline, Some(0), &Reason::NoMap)?;
    let pointed = part.behind(text, first_before(outline));
    Ok(PageTold::of_detail(pointed, detail))
}

/// Whether the text is read as a map, by its nodes.
fn is_map(outline: &Outline) -> bool {
    match outline.nodes.as_slice() {
        [first, ..] => first.kind == Kind::Mapping,
        [] => false,
    }
}

/// What is told of a text that is read as no map; none where it is read as one.
fn no_map_in(alloc: Global, text: &str, part: Part) -> Result<Option<PageTold>, OutOfMemory>
    ensures { IfOk result (λ found. IfSome found (λ told. told.why ≡ None)) }
{
    let outline = outline_of(alloc, text)?;
    if is_map(&outline) {
        drop(outline);
        return Ok(None);
    }
    let told = told_by(alloc, text, part, &outline);
    drop(outline);
    Ok(Some(told?))
}

/// The same of the value that the words put in place of the whole header.
fn no_map_value(alloc: Global, words: &[Text]) -> Result<PageTold, OutOfMemory>
    ensures { IfOk result (λ told. told.why ≡ None) }
{
    let [_, _, value] = words else {
        return Ok(PageTold::nothing());
    };
    let text = value_text(alloc, value)?;
    match no_map_in(alloc, text.as_str(), Part::Value)? {
        Some(told) => Ok(told),
        None => Ok(PageTold::nothing()),
    }
}

/// What is told where a header is to be a map and is none.
fn no_map_told(alloc: Global, words: &[Text], header: &str) -> Result<PageTold, OutOfMemory>
    ensures { IfOk result (λ told. told.why ≡ None) }
{
    match no_map_in(alloc, header, Part::Header)? {
        Some(told) => Ok(told),
        None => no_map_value(alloc, words),
    }
}

/// What is told of a page with this header.
fn header_told(
    alloc: Global,
    words: &[Text],
    header: &str,
    reply: &Reply,
) -> Result<PageTold, OutOfMemory>
    ensures { IfOk result (λ told. IfSome told.why (λ why. IsReasonIn (chars header.now) why)) }
{
    match reply {
        Reply::BadHeader => no_tree_told(alloc, header, Part::Header),
        Reply::NotMap => no_map_told(alloc, words, header),
        Reply::Absent | Reply::NoParent => path_told(alloc, words, header),
        _ => Ok(PageTold::nothing()),
    }
}

/// What is told of a page that is a text.
fn text_told(
    alloc: Global,
    words: &[Text],
    text: &str,
    reply: &Reply,
) -> Result<PageTold, OutOfMemory>
    ensures { IfOk result (λ told. IfSome told.why (λ why. IsOfHeader (chars text.now) why)) }
{
    match front_read(text) {
        None => no_header_told(alloc, text),
        Some((header, _)) => header_told(alloc, words, header, reply),
    }
}

/// What is told of a page besides the status of a run that ended with this error.
pub(crate) fn page_told(
    alloc: Global,
    words: &[Text],
    document: &[u8],
    error: &FrontError,
) -> Result<PageTold, OutOfMemory>
    ensures { IfOk result (λ told. IsWhy words.now document.now told.why) }
{
    match str::from_utf8(document) {
        Err(error) => bytes_told(alloc, document, error.valid_up_to()),
        Ok(text) => match error {
            FrontError::Refused(reply) => text_told(alloc, words, text, reply),
            _ => Ok(PageTold::nothing()),
        },
    }
}
