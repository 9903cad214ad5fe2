//! What is asserted: a text for a file, one of a literal in the source, or a payload.
ghost use Rattle.std.specs.Prelude.{◌≡◌, ℕ, List, Option, None, Some, IfOk, codes, is_some};
ghost use Rattle.snap_path.specs.Names.{past_mark};
ghost use Rattle.std.specs.Str.{chars};
ghost use Rattle.snap_store.specs.Meta.{shown_text};
ghost use Rattle.snap_assert.specs.Payloads.{TellsBoth, GoodExtension, is_refused_extension};
ghost use Rattle.snap_assert.specs.declared.value.SnapshotValue.TheVariants.{FileText, InlineText, Binary};

use snap_assert_place::file_path::holds_slash;
use snap_assert_place::front::behind_ascii;
use snap_content::characters::is_same;
use snap_content::{Blob, OutOfMemory, Text};
use snap_str::cut::split_once;
use std::alloc::Global;

/// A name that comes from the function in which the assertion stands.
#[derive(Clone, Copy, Debug)]
pub struct AutoName;

/// What a literal in the source reads as, for a text that it stands for.
#[derive(Debug, Drop)]
pub struct InlineValue(pub Text);

/// A payload, with its name and its extension as one text tells both: cut at its first dot. An empty name is none, and without a dot there
/// is no extension.
#[derive(Debug, Drop)]
pub struct BinarySnapshotValue {
    pub name_and_extension: Text,
    pub content: Blob,
}

/// What is asserted.
#[derive(Debug, Drop)]
pub enum SnapshotValue {
    /// A text for a file of its own, under a given name or that of the function.
    FileText {
        name: Option<Text>,
        content: Text,
    },
    /// A text that a literal in the source stands for, which reads as the reference.
    InlineText {
        reference_content: Text,
        content: Text,
    },
    /// A payload, which stands beside its file with the extension. Without one it is refused.
    Binary {
        name: Option<Text>,
        content: Blob,
        extension: Option<Text>,
    },
}

/// The text, where it is not empty.
fn filled(text: Text) -> Option<Text>
    ensures { result ≡ shown_text (Some text) }
{
    if text.len() > 0 { Some(text) } else { None }
}

/// The name of a payload: none where it is empty.
fn payload_name(alloc: Global, name: &str) -> Result<Option<Text>, OutOfMemory>
    ensures { IfOk result (λ made. made ≡ shown_text (Some (chars name.now))) }
{
    Ok(filled(Text::from_str(alloc, name)?))
}

/// The name and the extension of a payload, as one text tells both.
fn name_and_extension(
    alloc: Global,
    text: &str,
) -> Result<(Option<Text>, Option<Text>), OutOfMemory>
    ensures { IfOk result (λ told. TellsBoth (chars text.now) told.0 told.1) }
{
    match split_once(text, '.') {
        None => Ok((payload_name(alloc, text)?, None)),
        Some((front, behind)) => {
            let name = payload_name(alloc, front)?;
            let extension = Text::from_str(alloc, behind)?;
            Ok((name, Some(extension)))
        }
    }
}

/// Whether it begins with `new.`.
fn begins_with_new(extension: &str) -> bool
    ensures { result ≡ is_some (past_mark (codes "new.") (chars extension.now)) }
{
    behind_ascii(extension, "new.").is_some()
}

/// Whether no payload is kept with this extension.
fn is_refused_extension(extension: &str) -> bool
    ensures { result ≡ is_refused_extension (chars extension.now) }
{
    is_same(extension, "new") || begins_with_new(extension) || holds_slash(extension)
}

/// The extension, unless a payload with it is refused: one that is not there, `new`, what begins with `new.`, and what holds a slash.
pub(crate) fn good_extension(extension: Option<Text>) -> Option<Text>
    ensures { GoodExtension extension result }
{
    match extension {
        Some(extension) if !is_refused_extension(extension.as_str()) => Some(extension),
        _ => None,
    }
}

impl SnapshotValue {
    /// A text for a file, under the name of the function.
    pub fn auto(value: AutoName, content: Text) -> SnapshotValue
        ensures { result ≡ FileText None content }
    {
        let _ = value;
        SnapshotValue::FileText {
            name: None,
            content,
        }
    }

    /// A text for a file, under this name, or that of the function where none is given.
    pub fn named(name: Option<Text>, content: Text) -> SnapshotValue
        ensures { result ≡ FileText name content }
    {
        SnapshotValue::FileText { name, content }
    }

    /// A text that a literal in the source stands for.
    pub fn inline(value: InlineValue, content: Text) -> SnapshotValue
        ensures { result ≡ InlineText value.0 content }
    {
        let InlineValue(reference_content) = value;
        SnapshotValue::InlineText {
            reference_content,
            content,
        }
    }

    /// A payload, under the name before the first dot of the text that comes with it, and with the extension behind that.
    pub fn binary(alloc: Global, value: BinarySnapshotValue) -> Result<SnapshotValue, OutOfMemory>
        ensures { IfOk result (λ made. (name : Option (List ℕ)) × ((extension : Option (List ℕ))
            × (TellsBoth value.name_and_extension name extension
            × (made ≡ Binary name value.content extension)))) }
    {
        let BinarySnapshotValue {
            name_and_extension: told,
            content,
        } = value;
        let (name, extension) = name_and_extension(alloc, told.as_str())?;
        Ok(SnapshotValue::Binary {
            name,
            content,
            extension,
        })
    }
}
