//! What new settings say.
use rows::add_text_column;
use snap_assert::Settings;
use snap_content::{OutOfMemory, Text};
use std::alloc::Global;

/// Adds a column with a truth after its name.
fn add_truth(alloc: Global, line: &mut Text, name: &str, holds: bool) -> Result<(), OutOfMemory> {
    let told = format!(in alloc; "{name} {holds}")?;
    add_text_column(alloc, line, told.as_str())
}

/// Adds a column with a text, if there is one, after its name.
fn add_text(
    alloc: Global,
    line: &mut Text,
    name: &str,
    text: Option<&str>,
) -> Result<(), OutOfMemory> {
    let text = text.unwrap_or("none");
    let told = format!(in alloc; "{name} {text}")?;
    add_text_column(alloc, line, told.as_str())
}

/// Adds what settings say of maps, modules, expressions and infos.
fn add_truths(alloc: Global, line: &mut Text, settings: &Settings) -> Result<(), OutOfMemory> {
    add_truth(alloc, line, "sort_maps", settings.sort_maps())?;
    let prepend = settings.prepend_module_to_snapshot();
    add_truth(alloc, line, "prepend_module_to_snapshot", prepend)?;
    add_truth(alloc, line, "omit_expression", settings.omit_expression())?;
    add_truth(alloc, line, "has_info", settings.has_info())
}

/// Adds the texts of settings.
fn add_texts(alloc: Global, line: &mut Text, settings: &Settings) -> Result<(), OutOfMemory> {
    add_text(alloc, line, "snapshot_suffix", settings.snapshot_suffix())?;
    add_text(alloc, line, "input_file", settings.input_file())?;
    add_text(alloc, line, "description", settings.description())?;
    add_text(alloc, line, "snapshot_path", Some(settings.snapshot_path()))
}

/// What new settings say, a column each.
pub(crate) fn new_settings_line(alloc: Global) -> Result<Text, anyhow::Error> {
    let settings = Settings::new(alloc)?;
    told_line(alloc, &settings)
}

/// What settings say, a column each.
pub(crate) fn told_line(alloc: Global, settings: &Settings) -> Result<Text, anyhow::Error> {
    let mut line = Text::empty();
    add_truths(alloc, &mut line, settings)?;
    add_texts(alloc, &mut line, settings)?;
    Ok(line)
}
