//! Texts that are asserted for files, in the function `m::test_foo` of the file `src/a.rs`.
use crate::asserted::place_in;
use crate::judged::outcome_line;
use rows::{add_file, add_text_column, first_column, text_of};
use snap_assert::{
    AssertError, AutoName, Config, DefaultComparator, Outcome, Place, Session, Settings,
    SnapshotValue, Update, assert_snapshot,
};
use snap_content::{OutOfMemory, Text};
use snap_io::SteadyStore;
use std::alloc::Global;

/// A column that is left out.
const NONE: &str = "-";

/// The configuration that words say: a mode, and the flags `force` and `full`.
fn config_in(words: &str) -> Config {
    let (mode, flags) = words.split_once(' ').unwrap_or((words, ""));
    Config {
        update: match mode {
            "inplace" => Update::InPlace,
            "new" => Update::NewFile,
            _ => Update::NoUpdate,
        },
        force_update: flags.contains("force"),
        require_full_match: flags.contains("full"),
        force_pass: false,
        literal: false,
        run_id: Text::empty(),
    }
}

/// The text, under the name that a column says, or under that of the function.
fn value_of(alloc: Global, name: &str, text: &str) -> Result<SnapshotValue, OutOfMemory> {
    let content = text_of(alloc, text)?;
    if name == NONE {
        return Ok(SnapshotValue::auto(AutoName, content));
    }
    let name = Text::from_str(alloc, name)?;
    Ok(SnapshotValue::named(Some(name), content))
}

/// A store that holds the file of a column at the path of the snapshot `one`, or none.
fn store_in(alloc: Global, column: &str) -> Result<SteadyStore, OutOfMemory> {
    if column == NONE {
        return Ok(SteadyStore::new(alloc));
    }
    crate::judged::store_of(alloc, column)
}

/// Adds the path, the file there and the pending one beside it.
fn add_files(
    alloc: Global,
    line: &mut Text,
    store: &SteadyStore,
    path: &Text,
) -> Result<(), OutOfMemory> {
    add_text_column(alloc, line, path.as_str())?;
    line.push_ascii(alloc, "\t")?;
    add_file(alloc, line, store.get(path))?;
    let mut pending = path.try_clone(alloc)?;
    pending.push_ascii(alloc, ".new")?;
    line.push_ascii(alloc, "\t")?;
    add_file(alloc, line, store.get(&pending))
}

fn asserted(
    alloc: Global,
    store: &mut SteadyStore,
    config: &Config,
    settings: &Settings,
    place: &Place,
    value: SnapshotValue,
) -> Result<Outcome, AssertError> {
    let mut session = Session::new(alloc);
    assert_snapshot(
        alloc,
        &mut session,
        store,
        config,
        settings,
        &DefaultComparator,
        place,
        value,
    )
}

/// The answer and the files of an assertion of the value at the place.
fn line_at(
    alloc: Global,
    store: &mut SteadyStore,
    config: &Config,
    settings: &Settings,
    place: &Place,
    value: SnapshotValue,
) -> Result<Text, anyhow::Error> {
    let outcome = asserted(alloc, store, config, settings, place, value)?;
    let mut line = outcome_line(alloc, &outcome)?;
    add_files(alloc, &mut line, store, &outcome.path)?;
    Ok(line)
}

fn line_over(
    alloc: Global,
    store: &mut SteadyStore,
    config: &Config,
    value: SnapshotValue,
) -> Result<Text, anyhow::Error> {
    let place = place_in(alloc, "m::test_foo", "src/a.rs")??;
    let settings = Settings::new(alloc)?;
    line_at(alloc, store, config, &settings, &place, value)
}

/// The answer of an assertion of a text over a store that holds one file or none, the path of its snapshot, the file there, and the
/// pending one.
pub(crate) fn text_line(alloc: Global, columns: &str) -> Result<Text, anyhow::Error> {
    let (words, rest) = first_column(columns);
    let (file, rest) = first_column(rest);
    let (name, text) = first_column(rest);
    let config = config_in(words);
    let mut store = store_in(alloc, file)?;
    let value = value_of(alloc, name, text)?;
    line_over(alloc, &mut store, &config, value)
}
