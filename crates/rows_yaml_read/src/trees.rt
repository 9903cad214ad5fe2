//! The tree of a text as words.
use rows::add_escaped;
use snap_content::{Content, Error, Items, OutOfMemory, Pairs, Text};
use snap_emit::parse_str;
use std::alloc::Global;
use std::fmt::Display;

/// The words of the tree that a text is read as, a tab after each and a collection after what it holds; or `!` and why there is
/// none.
///
/// `n` is null, `t` and `f` are truths, a number stands after the name of its kind, a text after `s`; `a` and how many of the
/// trees before it are the items; `h` and how many pairs of the trees before it are the entries.
pub(crate) fn tree_line(alloc: Global, text: &str) -> Result<Text, OutOfMemory> {
    match parse_str(alloc, text, &Text::empty()) {
        Ok(content) => words_of(alloc, &content),
        Err(error) => refusal_line(alloc, &error),
    }
}

fn words_of(alloc: Global, content: &Content) -> Result<Text, OutOfMemory> {
    let mut line = Text::empty();
    add_tree(alloc, &mut line, content)?;
    Ok(line)
}

/// After out of memory there is no line.
fn refusal_line(alloc: Global, error: &Error) -> Result<Text, OutOfMemory> {
    match error {
        Error::OutOfMemory => Err(OutOfMemory),
        Error::FloatText(_) => Text::from_ascii(alloc, "! FloatText"),
        _ => Text::from_ascii(alloc, "! FailedParsingYaml"),
    }
}

#[cycle(trees)]
fn add_tree(alloc: Global, line: &mut Text, content: &Content) -> Result<(), OutOfMemory> {
    match content {
        Content::None => line.push_ascii(alloc, "n\t"),
        Content::Bool(true) => line.push_ascii(alloc, "t\t"),
        Content::Bool(false) => line.push_ascii(alloc, "f\t"),
        Content::String(text) => add_text(alloc, line, text.as_str()),
        Content::Seq(items) => add_items(alloc, line, items),
        Content::Map(pairs) => add_pairs(alloc, line, pairs),
        number => add_number(alloc, line, number),
    }
}

#[cycle(trees)]
fn add_items(alloc: Global, line: &mut Text, items: &Items) -> Result<(), OutOfMemory> {
    for item in items.as_slice() {
        add_tree(alloc, line, item)?;
    }
    add_counted(alloc, line, "a", &items.len())
}

#[cycle(trees)]
fn add_pairs(alloc: Global, line: &mut Text, pairs: &Pairs) -> Result<(), OutOfMemory> {
    for (key, value) in pairs.as_slice() {
        add_tree(alloc, line, key)?;
        add_tree(alloc, line, value)?;
    }
    add_counted(alloc, line, "h", &pairs.len())
}

fn add_counted(
    alloc: Global,
    line: &mut Text,
    word: &str,
    number: &impl Display,
) -> Result<(), OutOfMemory> {
    let counted = format!(in alloc; "{word}{number}\t")?;
    line.push_str(alloc, counted.as_str())
}

fn add_text(alloc: Global, line: &mut Text, text: &str) -> Result<(), OutOfMemory> {
    line.push_ascii(alloc, "s")?;
    add_escaped(alloc, line, text)?;
    line.push_ascii(alloc, "\t")
}

/// A reader makes numbers of these kinds alone.
fn add_number(alloc: Global, line: &mut Text, number: &Content) -> Result<(), OutOfMemory> {
    match number {
        Content::I64(number) => add_counted(alloc, line, "I64 ", number),
        Content::U64(number) => add_counted(alloc, line, "U64 ", number),
        Content::I128(number) => add_counted(alloc, line, "I128 ", number),
        Content::U128(number) => add_counted(alloc, line, "U128 ", number),
        _ => line.push_ascii(alloc, "?\t"),
    }
}
