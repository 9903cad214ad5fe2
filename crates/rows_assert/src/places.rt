//! Where an assertion stands.
use crate::asserted::{Value, config_of, outcome_of, place_in};
use rows::{add_text_column, text_of};
use snap_assert::{Place, Settings, Update};
use snap_content::Text;
use snap_io::SteadyStore;
use std::alloc::Global;

/// Whether an assertion may stand in this file.
pub(crate) fn place_line(alloc: Global, column: &str) -> Result<Text, anyhow::Error> {
    let file = text_of(alloc, column)?;
    let told = match place_in(alloc, "m::test", file.as_str())? {
        Ok(_) => format!(in alloc; "taken")?,
        Err(error) => format!(in alloc; "! {error}")?,
    };
    Ok(Text::from_str(alloc, told.as_str())?)
}

/// The path of the snapshot of an assertion in this function of the file `src/a.b.rs`.
pub(crate) fn path_line(alloc: Global, column: &str) -> Result<Text, anyhow::Error> {
    let function = text_of(alloc, column)?;
    let place = place_in(alloc, function.as_str(), "src/a.b.rs")??;
    let settings = Settings::new(alloc)?;
    path_at(alloc, &settings, &place)
}

fn path_at(alloc: Global, settings: &Settings, place: &Place) -> Result<Text, anyhow::Error> {
    let mut store = SteadyStore::new(alloc);
    path_in(alloc, &mut store, settings, place)
}

fn path_in(
    alloc: Global,
    store: &mut SteadyStore,
    settings: &Settings,
    place: &Place,
) -> Result<Text, anyhow::Error> {
    let config = config_of(Update::InPlace, false);
    let outcome = outcome_of(
        alloc,
        store,
        &config,
        settings,
        place,
        ("a", Value::Number(1)),
    )?;
    column_of(alloc, &outcome.path)
}

fn column_of(alloc: Global, path: &Text) -> Result<Text, anyhow::Error> {
    let mut line = Text::empty();
    add_text_column(alloc, &mut line, path.as_str())?;
    Ok(line)
}
