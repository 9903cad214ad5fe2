//! Several assertions in one session, in the module `m` of the file `src/a.rs`, each over the same store.
//!
//! A column says what is done: `begin` and `end` open a block of duplicates and close one; `FUNCTION NUMBER` asserts the number in
//! this function, and `FUNCTION NUMBER NAME` under this name.
use crate::asserted::place_in;
use crate::columns::word;
use rows::add_text_column;
use snap_assert::{AssertError, Config, Outcome, Place, Session, Settings, Update, assert_content};
use snap_content::{Content, OutOfMemory, Text};
use snap_io::SteadyStore;
use snap_store::SnapshotContents;
use std::alloc::Global;

/// Asserts the number at the place, under the name where that is not empty.
fn assert_at(
    alloc: Global,
    session: &mut Session,
    store: &mut SteadyStore,
    settings: &Settings,
    place: &Place,
    (number, name): (u8, &Text),
) -> Result<Outcome, AssertError> {
    let config = Config {
        update: Update::InPlace,
        force_update: false,
        require_full_match: false,
        force_pass: false,
        literal: false,
        run_id: Text::empty(),
    };
    let given = if name.as_str().is_empty() {
        None
    } else {
        Some(name)
    };
    assert_content(
        alloc,
        session,
        store,
        &config,
        settings,
        place,
        given,
        Content::U8(number),
    )
}

/// The text of the contents.
fn shown(contents: &SnapshotContents) -> &str {
    match contents.as_text() {
        Some(text) => text.as_raw(),
        None => "! no text",
    }
}

/// Adds the texts of two contents that differ.
fn add_differing(
    alloc: Global,
    line: &mut Text,
    kept: &SnapshotContents,
    new: &SnapshotContents,
) -> Result<(), OutOfMemory> {
    add_text_column(alloc, line, "! DuplicateDiffers")?;
    add_text_column(alloc, line, shown(kept))?;
    add_text_column(alloc, line, shown(new))
}

/// Adds why an assertion came to no answer.
fn add_refusal(alloc: Global, line: &mut Text, error: &AssertError) -> Result<(), OutOfMemory> {
    if let AssertError::DuplicateDiffers { kept, new, .. } = error {
        return add_differing(alloc, line, kept, new);
    }
    let told = format!(in alloc; "! {error}")?;
    add_text_column(alloc, line, told.as_str())
}

/// Adds the path of the snapshot, or why there is none.
fn add_answer(
    alloc: Global,
    line: &mut Text,
    answer: Result<Outcome, AssertError>,
) -> Result<(), OutOfMemory> {
    match answer {
        Ok(outcome) => add_text_column(alloc, line, outcome.path.as_str()),
        Err(error) => add_refusal(alloc, line, &error),
    }
}

/// Asserts what a column says, and adds what it came to.
fn add_assertion(
    alloc: Global,
    line: &mut Text,
    session: &mut Session,
    store: &mut SteadyStore,
    settings: &Settings,
    said: &str,
) -> Result<(), anyhow::Error> {
    let (function, rest) = word(said);
    let (digits, name) = word(rest);
    let number = digits.parse::<u8>().unwrap_or(0);
    let name = Text::from_str(alloc, name)?;
    let place = place_in(alloc, function, "src/a.rs")??;
    let answer = assert_at(alloc, session, store, settings, &place, (number, &name));
    Ok(add_answer(alloc, line, answer)?)
}

/// Opens a block, and adds that.
fn add_opened(alloc: Global, line: &mut Text, session: &mut Session) -> Result<(), OutOfMemory> {
    session.begin_duplicates()?;
    add_text_column(alloc, line, "opened")
}

/// Closes a block, and adds whether one was open.
fn add_closed(alloc: Global, line: &mut Text, session: &mut Session) -> Result<(), OutOfMemory> {
    let told = if session.end_duplicates() {
        "closed"
    } else {
        "none open"
    };
    add_text_column(alloc, line, told)
}

/// What each column came to in this session.
fn session_line_in(
    alloc: Global,
    session: &mut Session,
    store: &mut SteadyStore,
    settings: &Settings,
    columns: &str,
) -> Result<Text, anyhow::Error> {
    let mut line = Text::empty();
    for said in columns.split('\t') {
        match said {
            "begin" => add_opened(alloc, &mut line, session)?,
            "end" => add_closed(alloc, &mut line, session)?,
            _ => add_assertion(alloc, &mut line, session, store, settings, said)?,
        }
    }
    Ok(line)
}

fn line_from(alloc: Global, session: &mut Session, columns: &str) -> Result<Text, anyhow::Error> {
    let settings = Settings::new(alloc)?;
    let mut store = SteadyStore::new(alloc);
    session_line_in(alloc, session, &mut store, &settings, columns)
}

/// What each column came to in a new session.
pub(crate) fn session_line(alloc: Global, columns: &str) -> Result<Text, anyhow::Error> {
    let mut session = Session::new(alloc);
    line_from(alloc, &mut session, columns)
}

/// The counter that a column says: `MODULE NAME NUMBER`.
fn counter(alloc: Global, said: &str) -> Result<(Text, Text, u64), OutOfMemory> {
    let (module, rest) = word(said);
    let (name, digits) = word(rest);
    let module = Text::from_str(alloc, module)?;
    let name = Text::from_str(alloc, name)?;
    Ok((module, name, digits.parse::<u64>().unwrap_or(0)))
}

/// A session with the counter that a column says.
fn counted_session(alloc: Global, said: &str) -> Result<Session, OutOfMemory> {
    let counter = counter(alloc, said)?;
    Session::with_counters(alloc, &[counter])
}

/// What each column but the first came to in a session with the counter that the first one says.
pub(crate) fn counted_line(alloc: Global, columns: &str) -> Result<Text, anyhow::Error> {
    let (said, columns) = rows::first_column(columns);
    let mut session = counted_session(alloc, said)?;
    line_from(alloc, &mut session, columns)
}
