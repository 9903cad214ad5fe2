//! Assertions under the name `one`.
use rows::add_text_column;
use snap_assert::{
    AssertError, BadPlace, Config, Outcome, Place, Session, Settings, Update, assert_content,
};
use snap_content::{Content, OutOfMemory, Pairs, Text};
use snap_io::SteadyStore;
use std::alloc::Global;
use std::str;

/// A place in this function and this file, below the workspace `w`.
pub(crate) fn place_in(
    alloc: Global,
    function: &str,
    file: &str,
) -> Result<Result<Place, BadPlace>, OutOfMemory> {
    let workspace = Text::from_str(alloc, "w")?;
    let function = Text::from_str(alloc, function)?;
    let module = Text::from_str(alloc, "m")?;
    let file = Text::from_str(alloc, file)?;
    let expression = Text::from_str(alloc, "x")?;
    Ok(Place::new(workspace, function, module, file, 7, expression))
}

/// What is asserted of a key.
#[derive(Clone, Copy, Debug)]
pub(crate) enum Value<'a> {
    Number(u8),
    Text(&'a str),
}

/// The tree of one pair.
fn pair_tree(alloc: Global, key: &str, value: Value<'_>) -> Result<Content, OutOfMemory> {
    let key = Content::from_str(alloc, key)?;
    let value = match value {
        Value::Number(number) => Content::U8(number),
        Value::Text(text) => Content::from_str(alloc, text)?,
    };
    let mut pairs = Pairs::new(alloc);
    pairs.push((key, value))?;
    Ok(Content::Map(pairs))
}

/// A configuration without full matches, forced writing and forced passes.
pub(crate) fn config_of(update: Update, literal: bool) -> Config {
    Config {
        update,
        force_update: false,
        require_full_match: false,
        force_pass: false,
        literal,
        run_id: Text::empty(),
    }
}

/// What an assertion of the tree of one pair answers.
pub(crate) fn outcome_of(
    alloc: Global,
    store: &mut SteadyStore,
    config: &Config,
    settings: &Settings,
    place: &Place,
    (key, value): (&str, Value<'_>),
) -> Result<Outcome, AssertError> {
    let name = Text::from_str(alloc, "one")?;
    let content = pair_tree(alloc, key, value)?;
    let mut session = Session::new(alloc);
    assert_content(
        alloc,
        &mut session,
        store,
        config,
        settings,
        place,
        Some(&name),
        content,
    )
}

/// Adds a column with the text of a file.
fn add_file(
    alloc: Global,
    line: &mut Text,
    store: &SteadyStore,
    path: &Text,
) -> Result<(), anyhow::Error> {
    let told = match store.get(path) {
        None => "! no file",
        Some(bytes) => str::from_utf8(bytes).unwrap_or("! no text"),
    };
    Ok(add_text_column(alloc, line, told)?)
}

/// Adds a column with the file that is saved of the tree `id: 42` with these settings.
pub(crate) fn add_saved(
    alloc: Global,
    line: &mut Text,
    settings: &Settings,
) -> Result<(), anyhow::Error> {
    let place = place_in(alloc, "m::test", "src/a.rs")??;
    add_saved_at(alloc, line, settings, &place)
}

fn add_saved_at(
    alloc: Global,
    line: &mut Text,
    settings: &Settings,
    place: &Place,
) -> Result<(), anyhow::Error> {
    let mut store = SteadyStore::new(alloc);
    add_saved_in(alloc, line, &mut store, settings, place)
}

fn add_saved_in(
    alloc: Global,
    line: &mut Text,
    store: &mut SteadyStore,
    settings: &Settings,
    place: &Place,
) -> Result<(), anyhow::Error> {
    let config = config_of(Update::InPlace, false);
    let pair = ("id", Value::Number(42));
    let outcome = outcome_of(alloc, store, &config, settings, place, pair)?;
    add_file(alloc, line, store, &outcome.path)
}
