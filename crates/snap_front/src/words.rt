//! What the words of a command line ask for.
ghost use Rattle.std.specs.Prelude.{◌≡◌, ◌∷◌, Some, IfOk, option_map};
ghost use Rattle.std.specs.Str.{chars};
ghost use Rattle.snap_front.specs.Paths.{steps_of};
ghost use Rattle.snap_front.specs.Reading.{IsReadOf};
ghost use Rattle.snap_front.specs.Wanted.{IsRequest, path_read, path_then, set_then, format_then, to_get, to_remove, to_set, value_text, wanted_in};

use crate::path::Path;
use crate::path_error::PathError;
use crate::reading::read_tree;
use snap_content::characters::is_same;
use snap_content::{Content, OutOfMemory, Text};
use std::alloc::Global;

/// What is asked of the program's document.
#[derive(Drop)]
pub(crate) enum Request {
    Get(Path),
    Set(Path, Content),
    Remove(Path),
    Format,
}

/// The path that the word spells, if it spells one.
fn path_at(alloc: Global, word: &Text) -> Result<Option<Path>, OutOfMemory>
    ensures { IfOk result (λ found. option_map steps_of found ≡ path_read word.now) }
{
    match Path::parse(alloc, word.as_str()) {
        Ok(path) => Ok(Some(path)),
        Err(PathError::Parse(_)) => Ok(None),
        Err(PathError::NotAPath) => Ok(None),
        Err(PathError::OutOfMemory) => Err(OutOfMemory),
    }
}

/// The tree that the word reads as, if it reads as one.
fn value_at(alloc: Global, word: &Text) -> Result<Option<Content>, OutOfMemory>
    ensures { IfOk result (λ found. IsReadOf (value_text word.now) found) }
{
    let mut text = Text::from_ascii(alloc, "---\n")?;
    text.push_text(alloc, word)?;
    text.push(alloc, '\n')?;
    read_tree(alloc, text.as_str())
}

/// After `get`.
fn get_of(alloc: Global, words: &[Text]) -> Result<Option<Request>, OutOfMemory>
    ensures { IfOk result (λ found. IsRequest (path_then to_get words.now) found) }
{
    match words {
        [path] => match path_at(alloc, path)? {
            Some(path) => Ok(Some(Request::Get(path))),
            None => Ok(None),
        },
        _ => Ok(None),
    }
}

/// After `remove`.
fn remove_of(alloc: Global, words: &[Text]) -> Result<Option<Request>, OutOfMemory>
    ensures { IfOk result (λ found. IsRequest (path_then to_remove words.now) found) }
{
    match words {
        [path] => match path_at(alloc, path)? {
            Some(path) => Ok(Some(Request::Remove(path))),
            None => Ok(None),
        },
        _ => Ok(None),
    }
}

/// After `set`.
fn set_of(alloc: Global, words: &[Text]) -> Result<Option<Request>, OutOfMemory>
    ensures { IfOk result (λ found. IsRequest (set_then words.now) found) }
{
    match words {
        [path, value] => match path_at(alloc, path)? {
            Some(path) => set_at(alloc, path, value),
            None => Ok(None),
        },
        _ => Ok(None),
    }
}

/// With what the word reads as at that path.
fn set_at(alloc: Global, path: Path, word: &Text) -> Result<Option<Request>, OutOfMemory>
    ensures { IfOk result (λ found.
        IsRequest (Some (to_set (steps_of path) word.now)) found) }
{
    match value_at(alloc, word)? {
        Some(value) => Ok(Some(Request::Set(path, value))),
        None => Ok(None),
    }
}

/// After `format`.
fn format_of(words: &[Text]) -> Option<Request>
    ensures { IsRequest (format_then words.now) result }
{
    match words {
        [] => Some(Request::Format),
        _ => None,
    }
}

/// After the first word.
fn request_for(alloc: Global, verb: &str, words: &[Text]) -> Result<Option<Request>, OutOfMemory>
    ensures { IfOk result (λ found. IsRequest (wanted_in (chars verb.now ∷ words.now)) found) }
{
    if is_same(verb, "get") {
        get_of(alloc, words)
    } else if is_same(verb, "set") {
        set_of(alloc, words)
    } else if is_same(verb, "remove") {
        remove_of(alloc, words)
    } else if is_same(verb, "format") {
        Ok(format_of(words))
    } else {
        Ok(None)
    }
}

/// What the words ask for; none where they are of no such form, or their value reads as no tree.
pub(crate) fn request_of(alloc: Global, words: &[Text]) -> Result<Option<Request>, OutOfMemory>
    ensures { IfOk result (λ found. IsRequest (wanted_in words.now) found) }
{
    match words {
        [verb, rest @ ..] => request_for(alloc, verb.as_str(), rest),
        [] => Ok(None),
    }
}
