//! What a stored file is taken for.
use crate::asserted::{Value, config_of, outcome_of, place_in};
use rows::{add_text_column, first_column, text_of};
use rows_outside::input_of;
use snap_assert::{Config, Outcome, Place, Settings, Update, Verdict, Warning};
use snap_content::{Error, OutOfMemory, Text};
use snap_io::SteadyStore;
use std::alloc::Global;

/// The path of the snapshot `one` of the module `m`.
const PATH: &str = "w/src/snapshots/m__one.snap";

fn verdict_name(verdict: Verdict) -> &'static str {
    match verdict {
        Verdict::Passed => "Passed",
        Verdict::Updated => "Updated",
        Verdict::Pending => "Pending",
        Verdict::Rejected => "Rejected",
    }
}

/// Why a file is no snapshot.
fn refusal_name(error: &Error) -> &'static str {
    match error {
        Error::NotText(_) => "Unreadable NotText",
        Error::FailedParsingYaml(_) => "Unreadable FailedParsingYaml",
        Error::UnexpectedDataType => "Unreadable UnexpectedDataType",
        Error::MissingField => "Unreadable MissingField",
        _ => "Unreadable",
    }
}

fn warning_name(warning: &Warning) -> &'static str {
    match warning {
        Warning::LegacyFile => "LegacyFile",
        Warning::NumberAsText => "NumberAsText",
        Warning::Unreadable(error) => refusal_name(error),
        Warning::LegacyContents => "LegacyContents",
        Warning::OpenLiteral => "OpenLiteral",
        Warning::InlineInDoctest => "InlineInDoctest",
    }
}

/// The verdict, and the warnings in their order.
pub(crate) fn outcome_line(alloc: Global, outcome: &Outcome) -> Result<Text, anyhow::Error> {
    let mut line = Text::from_str(alloc, verdict_name(outcome.verdict))?;
    for index in 0..outcome.warnings.len() {
        if let Some(warning) = outcome.warnings.get(index) {
            add_text_column(alloc, &mut line, warning_name(warning))?;
        }
    }
    Ok(line)
}

/// A store that holds this file at the path of the snapshot.
pub(crate) fn store_of(alloc: Global, column: &str) -> Result<SteadyStore, OutOfMemory> {
    let file = input_of(alloc, column)?;
    let mut store = SteadyStore::new(alloc);
    store.put(&Text::from_str(alloc, PATH)?, file.as_slice())?;
    Ok(store)
}

/// The answer of an assertion of the tree `a: 1` that writes nothing, over a store that holds this file.
pub(crate) fn judged_line(alloc: Global, column: &str) -> Result<Text, anyhow::Error> {
    judged_over(alloc, column, false, Value::Number(1))
}

/// The same of the tree `a` to a text: `blocks` prints it with literal blocks, and another word without.
pub(crate) fn judged_text_line(alloc: Global, columns: &str) -> Result<Text, anyhow::Error> {
    let (how, rest) = first_column(columns);
    let (text, file) = first_column(rest);
    let text = text_of(alloc, text)?;
    judged_over(alloc, file, how == "blocks", Value::Text(text.as_str()))
}

fn judged_over(
    alloc: Global,
    column: &str,
    literal: bool,
    value: Value<'_>,
) -> Result<Text, anyhow::Error> {
    let mut store = store_of(alloc, column)?;
    let config = config_of(Update::NoUpdate, literal);
    judged_in(alloc, &mut store, &config, value)
}

fn judged_in(
    alloc: Global,
    store: &mut SteadyStore,
    config: &Config,
    value: Value<'_>,
) -> Result<Text, anyhow::Error> {
    let place = place_in(alloc, "", "src/a.rs")??;
    judged_at(alloc, store, config, &place, value)
}

fn judged_at(
    alloc: Global,
    store: &mut SteadyStore,
    config: &Config,
    place: &Place,
    value: Value<'_>,
) -> Result<Text, anyhow::Error> {
    let settings = Settings::new(alloc)?;
    judged_by(alloc, store, config, &settings, place, value)
}

pub(crate) fn judged_by(
    alloc: Global,
    store: &mut SteadyStore,
    config: &Config,
    settings: &Settings,
    place: &Place,
    value: Value<'_>,
) -> Result<Text, anyhow::Error> {
    let outcome = outcome_of(alloc, store, config, settings, place, ("a", value))?;
    outcome_line(alloc, &outcome)
}
