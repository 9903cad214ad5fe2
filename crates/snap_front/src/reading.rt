//! Texts of YAML, read as trees.
ghost use Rattle.std.specs.Prelude.{◌≡◌, MatchBool, IfOk};
ghost use Rattle.std.specs.Str.{chars};
ghost use Rattle.snap_content.specs.Plain.{plain, content_of};
ghost use Rattle.snap_content.specs.View.{tree};
ghost use Rattle.snap_str.specs.Cut.{Lacks};
ghost use Rattle.snap_front.specs.Reading.{IsReadOf};

use snap_content::{Content, Error, OutOfMemory, Text};
use snap_emit::yaml::{parse_str, to_string};
use snap_str::cut::split_at_byte;
use std::alloc::Global;

/// Whether NUL stands in the text. A reader of YAML would take it for the end, and lose what follows without a word.
fn holds_nul(text: &str) -> bool
    ensures { MatchBool result (Lacks 0 (chars text.now) → ⊥) (Lacks 0 (chars text.now)) }
{
    match split_at_byte(text, 0) {
        Some(_) => true,
        None => false,
    }
}

/// The tree that the text reads as; none where it reads as none.
pub(crate) fn read_tree(alloc: Global, text: &str) -> Result<Option<Content>, OutOfMemory>
    ensures { IfOk result (λ found. IsReadOf (chars text.now) found) }
{
    if holds_nul(text) {
        return Ok(None);
    }
    match parse_str(alloc, text, &Text::empty()) {
        Ok(made) => Ok(Some(made)),
        Err(Error::OutOfMemory) => Err(OutOfMemory),
        Err(_) => Ok(None),
    }
}

/// The plain form of the value: what is read of its text.
pub(crate) fn plain_copy(alloc: Global, value: &Content) -> Result<Content, OutOfMemory>
    ensures { IfOk result (λ copy. tree copy ≡ content_of (plain (tree value.now))) }
{
    let text = to_string(alloc, value, false)?;
    match parse_str(alloc, text.as_str(), &Text::empty()) {
        Ok(copy) => Ok(copy),
        Err(_) => Err(OutOfMemory),
    }
}
