//! Which step of a path leads to nothing in a header.
ghost use Rattle.std.specs.Prelude.{◌≡◌, None, IfOk};

use crate::failing::{PageTold, Pointed};
use crate::place::{has_control, named_step};
use snap_content::{Content, OutOfMemory, Text};
use snap_emit::read_text;
use snap_front::{Path, Step};
use snap_select::is_same_text;
use std::alloc::Global;
use strsim::levenshtein;

/// The value of the first entry with that key.
fn value_in<'a>(pairs: &'a [(Content, Content)], name: &str) -> Option<&'a Content> {
    for pair in pairs {
        if let Content::String(key) = &pair.0 {
            if is_same_text(key.as_str(), name) {
                return Some(&pair.1);
            }
        }
    }
    None
}

/// What a step leads to.
fn part_at<'a>(content: &'a Content, step: &Step) -> Option<&'a Content> {
    match (content, step) {
        (Content::Map(pairs), Step::Key(name)) => value_in(pairs.as_slice(), name.as_str()),
        (Content::Seq(items), Step::Index(place)) => items.get(*place as usize),
        _ => None,
    }
}

/// What stands before the first step that leads to nothing, and how many steps come before that.
fn lost_at<'a>(head: &'a Content, steps: &[Step]) -> (&'a Content, usize) {
    let mut here = head;
    let mut done = 0usize;
    for step in steps {
        match part_at(here, step) {
            Some(part) => here = part,
            None => break,
        }
        done = done.saturating_add(1);
    }
    (here, done)
}

/// The step to what is under a key: any key, where it does not stand on a line.
fn key_text(alloc: Global, name: &str) -> Result<Text, OutOfMemory> {
    if has_control(name) {
        Text::from_ascii(alloc, ".*")
    } else {
        named_step(alloc, name)
    }
}

fn step_text(alloc: Global, step: &Step) -> Result<Text, OutOfMemory> {
    match step {
        Step::Key(name) => key_text(alloc, name.as_str()),
        Step::Index(place) => place_text(alloc, *place),
    }
}

fn place_text(alloc: Global, place: u64) -> Result<Text, OutOfMemory> {
    let text = format!(in alloc; "[{place}]")?;
    Text::from_str(alloc, text.as_str())
}

/// The first of the keys that takes the fewest edits, of those that are texts.
fn nearest_key<'a>(
    alloc: Global,
    pairs: &'a [(Content, Content)],
    name: &str,
) -> Result<Option<&'a str>, OutOfMemory> {
    let mut nearest = None;
    let mut fewest = usize::MAX;
    for pair in pairs {
        if let Content::String(key) = &pair.0 {
            let edits = levenshtein(alloc, name, key.as_str())?;
            if edits < fewest {
                fewest = edits;
                nearest = Some(key.as_str());
            }
        }
    }
    Ok(nearest)
}

fn map_words(alloc: Global, pairs: &[(Content, Content)], name: &str) -> Result<Text, OutOfMemory> {
    match nearest_key(alloc, pairs, name)? {
        None => Text::from_ascii(alloc, "; the map there has no key"),
        Some(key) => {
            let mut words = Text::from_ascii(alloc, "; the nearest is ")?;
            let step = key_text(alloc, key)?;
            words.push_text(alloc, &step)?;
            Ok(words)
        }
    }
}

fn list_words(alloc: Global, count: usize) -> Result<Text, OutOfMemory> {
    if count == 0 {
        return Text::from_ascii(alloc, "; the list there has no item");
    }
    let mut words = Text::from_ascii(alloc, "; the last is ")?;
    let place = place_text(alloc, (count - 1) as u64)?;
    words.push_text(alloc, &place)?;
    Ok(words)
}

fn kind_words(content: &Content) -> &'static str {
    match content {
        Content::Map(_) => "; a map stands there",
        Content::Seq(_) => "; a list stands there",
        Content::String(_) => "; a text stands there",
        Content::Bool(_) => "; a truth value stands there",
        Content::Unit | Content::None => "; nothing stands there",
        _ => "; a number stands there",
    }
}

/// What stands where a step leads to nothing.
fn there_words(alloc: Global, content: &Content, step: &Step) -> Result<Text, OutOfMemory> {
    match (content, step) {
        (Content::Map(pairs), Step::Key(name)) => {
            map_words(alloc, pairs.as_slice(), name.as_str())
        }
        (Content::Seq(items), Step::Index(_)) => list_words(alloc, items.len()),
        _ => Text::from_str(alloc, kind_words(content)),
    }
}

/// That the step with this number leads to nothing.
fn lost_words(
    alloc: Global,
    number: usize,
    step: &Step,
    there: &Content,
) -> Result<Text, OutOfMemory> {
    let spelled = step_text(alloc, step)?;
    let words = format!(in alloc; ": step {number}, {spelled}, leads to nothing")?;
    let mut words = Text::from_str(alloc, words.as_str())?;
    let there = there_words(alloc, there, step)?;
    words.push_text(alloc, &there)?;
    Ok(words)
}

/// Which step leads to nothing from this head.
fn steps_words(alloc: Global, head: &Content, steps: &[Step]) -> Result<Text, OutOfMemory> {
    let (there, done) = lost_at(head, steps);
    match steps.get(done) {
        Some(step) => lost_words(alloc, done.saturating_add(1), step, there),
        None => Ok(Text::empty()),
    }
}

/// The same of the head of this header.
fn header_words(alloc: Global, header: &str, steps: &[Step]) -> Result<Text, OutOfMemory> {
    match read_text(alloc, header)? {
        Err(_) => Ok(Text::empty()),
        Ok(head) => {
            let words = steps_words(alloc, &head, steps);
            drop(head);
            words
        }
    }
}

/// The same of the path that the word spells.
fn word_words(alloc: Global, header: &str, word: &str) -> Result<Text, OutOfMemory> {
    match Path::parse(alloc, word) {
        Err(_) => Ok(Text::empty()),
        Ok(path) => header_words(alloc, header, path.steps()),
    }
}

/// What is told where the path of the words leads to nothing in this header.
pub(crate) fn path_told(
    alloc: Global,
    words: &[Text],
    header: &str,
) -> Result<PageTold, OutOfMemory>
    ensures { IfOk result (λ told. told.why ≡ None) }
{
    match words {
        [_, path, ..] => {
            let detail = word_words(alloc, header, path.as_str())?;
            Ok(PageTold::of_detail(Pointed::Nothing, detail))
        }
        _ => Ok(PageTold::nothing()),
    }
}
