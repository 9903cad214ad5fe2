//! What a stored file is taken for where a full match is required.
use crate::asserted::{Value, place_in};
use crate::judged::{judged_by, store_of};
use rows::{first_column, text_of, tree_of_column};
use snap_assert::{Config, Settings, Update};
use snap_content::{Content, OutOfMemory, Text};
use snap_io::SteadyStore;
use std::alloc::Global;

/// A column in which nothing is set.
const NONE: &str = "-";

/// The description that a column says.
fn description_in(alloc: Global, column: &str) -> Result<Option<Text>, OutOfMemory> {
    if column == NONE {
        return Ok(None);
    }
    Ok(Some(text_of(alloc, column)?))
}

/// The info that a column says.
fn info_in(alloc: Global, column: &str) -> Result<Option<Content>, anyhow::Error> {
    if column == NONE {
        return Ok(None);
    }
    Ok(Some(tree_of_column(alloc, column)?))
}

/// The answer of an assertion that requires a full match, with these settings.
fn judged_fully(
    alloc: Global,
    store: &mut SteadyStore,
    settings: &Settings,
) -> Result<Text, anyhow::Error> {
    let place = place_in(alloc, "", "src/a.rs")??;
    let config = Config {
        update: Update::NoUpdate,
        force_update: false,
        require_full_match: true,
        force_pass: false,
        literal: false,
        run_id: Text::empty(),
    };
    judged_by(alloc, store, &config, settings, &place, Value::Number(1))
}

/// The answer of an assertion of the tree `a: 1` that requires a full match, with this description and this info, over a store that
/// holds this file.
pub(crate) fn full_line(alloc: Global, columns: &str) -> Result<Text, anyhow::Error> {
    let (description, rest) = first_column(columns);
    let (info, file) = first_column(rest);
    let description = description_in(alloc, description)?;
    let info = info_in(alloc, info)?;
    let mut store = store_of(alloc, file)?;
    // No function is lent the settings to change them: it might hide what the objects of redactions are.
    let mut settings = Settings::new(alloc)?;
    if let Some(description) = description {
        settings.set_description(description);
    }
    if let Some(info) = &info {
        settings.set_raw_info(info)?;
    }
    judged_fully(alloc, &mut store, &settings)
}
