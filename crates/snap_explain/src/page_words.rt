//! What is told of words that ask for nothing of a page.
ghost use Rattle.std.specs.Prelude.{◌≡◌, None, IfOk, IfSome};
ghost use Rattle.snap_emit.specs.Readings.{IsReasonIn};
ghost use Rattle.snap_front.specs.Wanted.{value_text};
ghost use Rattle.snap_explain.specs.Pages.{IsOfWords};

use crate::failing::{PageTold, Pointed};
use crate::no_tree::{Part, no_tree_told};
use crate::refusal::select_text;
use snap_content::characters::is_same;
use snap_content::{OutOfMemory, Text};
use snap_front::{Path, PathError};
use snap_select::{Segment, Selector, SelectorParseError};
use std::alloc::Global;

/// The value as a document, as the program on pages reads it.
pub(crate) fn value_text(alloc: Global, value: &Text) -> Result<Text, OutOfMemory>
    ensures { IfOk result (λ text. text ≡ value_text value.now) }
{
    let mut text = Text::from_ascii(alloc, "---\n")?;
    text.push_text(alloc, value)?;
    text.push(alloc, '\n')?;
    Ok(text)
}

/// What is told of a word that is no selector.
fn fault_told(alloc: Global, fault: SelectorParseError) -> Result<PageTold, OutOfMemory>
    ensures { IfOk result (λ told. told.why ≡ None) }
{
    let mut detail = Text::from_ascii(alloc, ": ")?;
    detail.push_ascii(alloc, select_text(fault.kind()))?;
    let pointed = Pointed::Path {
        column: fault.column(),
    };
    Ok(PageTold::of_detail(pointed, detail))
}

/// How many steps of a path stand before the first segment that is none.
fn steps_before(segments: &[Segment<'_>]) -> usize {
    let mut count = 0usize;
    for segment in segments {
        match segment {
            Segment::Key(_) | Segment::Index(_) => count = count.saturating_add(1),
            _ => break,
        }
    }
    count
}

/// Why a selector is no path.
fn selector_words(alloc: Global, selector: &Selector<'_>) -> Result<Text, OutOfMemory> {
    if selector.parts() != 1 {
        return Text::from_ascii(alloc, ": PATH is several selectors");
    }
    let Some(segments) = selector.segments(0) else {
        return Ok(Text::empty());
    };
    let step = steps_before(segments).saturating_add(1);
    let detail = format!(in alloc; ": step {step} of PATH is no key and no place")?;
    Text::from_str(alloc, detail.as_str())
}

/// What is told of a word that is a selector and no path.
fn selector_told(alloc: Global, path: &str) -> Result<PageTold, OutOfMemory>
    ensures { IfOk result (λ told. told.why ≡ None) }
{
    match Selector::parse(alloc, path) {
        Ok(selector) => {
            let detail = selector_words(alloc, &selector)?;
            Ok(PageTold::of_detail(Pointed::Nothing, detail))
        }
        Err(_) => Ok(PageTold::nothing()),
    }
}

/// What is told of a word that is no path.
fn no_path_told(alloc: Global, path: &str, error: PathError) -> Result<PageTold, OutOfMemory>
    ensures { IfOk result (λ told. told.why ≡ None) }
{
    match error {
        PathError::Parse(fault) => fault_told(alloc, fault),
        PathError::NotAPath => selector_told(alloc, path),
        PathError::OutOfMemory => Err(OutOfMemory),
    }
}

/// What is told of the word PATH of `get` and `remove`.
fn path_word_told(alloc: Global, path: &str) -> Result<PageTold, OutOfMemory>
    ensures { IfOk result (λ told. told.why ≡ None) }
{
    match Path::parse(alloc, path) {
        Ok(steps) => {
            drop(steps);
            Ok(PageTold::nothing())
        }
        Err(error) => no_path_told(alloc, path, error),
    }
}

/// What is told of the word VALUE.
fn value_told(alloc: Global, value: &Text) -> Result<PageTold, OutOfMemory>
    ensures { IfOk result (λ told. IfSome told.why (λ why. IsReasonIn (value_text value.now) why)) }
{
    let text = value_text(alloc, value)?;
    no_tree_told(alloc, text.as_str(), Part::Value)
}

/// What is told of both words of `set`.
fn set_told(alloc: Global, path: &str, value: &Text) -> Result<PageTold, OutOfMemory>
    ensures { IfOk result (λ told. IfSome told.why (λ why. IsReasonIn (value_text value.now) why)) }
{
    match Path::parse(alloc, path) {
        Ok(steps) => {
            drop(steps);
            value_told(alloc, value)
        }
        Err(error) => no_path_told(alloc, path, error),
    }
}

/// What a command takes.
fn verb_words(verb: &str) -> &'static str {
    if is_same(verb, "get") {
        ": get takes PATH"
    } else if is_same(verb, "set") {
        ": set takes PATH and VALUE"
    } else if is_same(verb, "remove") {
        ": remove takes PATH"
    } else if is_same(verb, "format") {
        ": format takes no more words"
    } else {
        ": the commands are get, set, remove and format"
    }
}

/// What is told of a command with too few words, or too many.
fn verb_told(alloc: Global, verb: &str) -> Result<PageTold, OutOfMemory>
    ensures { IfOk result (λ told. told.why ≡ None) }
{
    let detail = Text::from_str(alloc, verb_words(verb))?;
    Ok(PageTold::of_detail(Pointed::Nothing, detail))
}

/// Whether the command takes a path alone.
fn takes_path(verb: &str) -> bool {
    is_same(verb, "get") || is_same(verb, "remove")
}

/// What is told of words that ask for nothing.
pub(crate) fn words_told(alloc: Global, words: &[Text]) -> Result<PageTold, OutOfMemory>
    ensures { IfOk result (λ told. IfSome told.why (λ why. IsOfWords words.now why)) }
{
    match words {
        [verb, path] if takes_path(verb.as_str()) => path_word_told(alloc, path.as_str()),
        [verb, path, value] if is_same(verb.as_str(), "set") => {
            set_told(alloc, path.as_str(), value)
        }
        [verb, ..] => verb_told(alloc, verb.as_str()),
        [] => verb_told(alloc, ""),
    }
}
