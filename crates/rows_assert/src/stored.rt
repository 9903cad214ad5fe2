//! Redactions by stored functions and by an object of one's own.
use crate::asserted::add_saved;
use crate::columns::add_taken;
use rows::first_column;
use snap_assert::Settings;
use snap_content::{Content, OutOfMemory, Text};
use snap_select::{ContentPath, FnRedactor, PathItem, Redactor, SelectError};
use std::alloc::Global;

/// Puts its number in place of each value.
#[derive(Drop)]
struct Numbered(u8);

impl Redactor for Numbered {
    ghost use Rattle.std.specs.Prelude.{◌≡◌};
    ghost use Rattle.snap_content.specs.Tree as t;

    ghost allows = { λ s _ _ out. out ≡ t.u8 s.0 };

    fn redact(
        &self,
        _alloc: Global,
        value: Content,
        _path: ContentPath<'_>,
    ) -> Result<Content, OutOfMemory> {
        drop(value);
        Ok(Content::U8(self.0))
    }
}

/// A stored function that puts a text in place of each value.
pub(crate) fn function_line(alloc: Global, selector: &str) -> Result<Text, anyhow::Error> {
    let mut settings = Settings::new(alloc)?;
    let function = FnRedactor::new(Box::new(
        alloc,
        |alloc: Global, value: Content, _path: &[PathItem]| -> Result<Content, OutOfMemory> {
            drop(value);
            Content::from_str(alloc, "[id]")
        },
    )?);
    let taken = settings.add_fn_redaction(selector, function);
    taken_line(alloc, &settings, taken)
}

/// A stored function that puts the count of the steps to a value in its place.
pub(crate) fn depth_line(alloc: Global, selector: &str) -> Result<Text, anyhow::Error> {
    let mut settings = Settings::new(alloc)?;
    let function = FnRedactor::new(Box::new(
        alloc,
        |_alloc: Global, value: Content, path: &[PathItem]| -> Result<Content, OutOfMemory> {
            drop(value);
            Ok(Content::U64(path.len() as u64))
        },
    )?);
    let taken = settings.add_fn_redaction(selector, function);
    taken_line(alloc, &settings, taken)
}

/// An object that puts its number in place of each value.
pub(crate) fn object_line(alloc: Global, columns: &str) -> Result<Text, anyhow::Error> {
    let (selector, digits) = first_column(columns);
    let number = digits.parse::<u8>().unwrap_or(0);
    let mut settings = Settings::new(alloc)?;
    let object = Box::new(alloc, Numbered(number))?;
    let taken = settings.add_dynamic_redaction(selector, object);
    taken_line(alloc, &settings, taken)
}

/// What became of a selector, and the file that is saved with these settings.
fn taken_line(
    alloc: Global,
    settings: &Settings,
    taken: Result<(), SelectError>,
) -> Result<Text, anyhow::Error> {
    let mut line = Text::empty();
    add_taken(alloc, &mut line, taken)?;
    add_saved(alloc, &mut line, settings)?;
    Ok(line)
}
