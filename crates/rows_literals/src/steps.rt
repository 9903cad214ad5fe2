//! Assertions of literals one after the other, in the module `m` of the file `src/a.rs` below the workspace `w`.
//!
//! A column says what is done: `begin` and `end` open a block of duplicates and close one, after `info` the settings have an info whose key is a
//! list, `fail CALL` lets that call of the store fail, `done CALL` has it do what it is asked and tell that it failed, after `memory CALL` it tells that
//! it is out of memory, and `FUNCTION LINE|REFERENCE|TEXT` asserts at this line of the function that the literal which
//! reads as the reference stands for the text. Of files: `text NAME|TEXT` asserts the text for a file under this name, or under that of the function
//! `m::test_foo` where there is none; `binary NAME.EXTENSION|NUMBERS` asserts the payload of these bytes, a blank between each two; `put PATH|TEXT`
//! has a file stand at the path; `show PATH` adds the text of the file there, and `bytes PATH` its bytes.
use crate::answers::add_answer;
use crate::files::add_file_step;
use rows::{add_file, add_text_column, text_of};
use rows_outside::{FailingStore, Wrong};
use snap_assert::{
    AssertError, Config, DefaultComparator, InlineValue, Outcome, Place, Session, Settings,
    SnapshotValue, assert_snapshot,
};
use snap_content::{Content, List, OutOfMemory, Pairs, Text};
use std::alloc::Global;

/// A place at this line of the function.
pub(crate) fn place_in(
    alloc: Global,
    function: &str,
    digits: &str,
) -> Result<Place, anyhow::Error> {
    let workspace = Text::from_ascii(alloc, "w")?;
    let function = Text::from_str(alloc, function)?;
    let module = Text::from_ascii(alloc, "m")?;
    let file = Text::from_ascii(alloc, "src/a.rs")?;
    let expression = Text::from_ascii(alloc, "x")?;
    let line = digits.parse::<u32>().unwrap_or(0);
    Ok(Place::new(workspace, function, module, file, line, expression)?)
}

/// What an assertion that a column says comes to.
fn asserted(
    alloc: Global,
    session: &mut Session,
    store: &mut FailingStore,
    config: &Config,
    settings: &Settings,
    column: &str,
) -> Result<Result<Outcome, AssertError>, anyhow::Error> {
    let (stands, texts) = column.split_once('|').unwrap_or((column, ""));
    let (function, line) = stands.split_once(' ').unwrap_or((stands, ""));
    let (reference, content) = texts.split_once('|').unwrap_or((texts, ""));
    let reference = text_of(alloc, reference)?;
    let content = text_of(alloc, content)?;
    let place = place_in(alloc, function, line)?;
    let value = SnapshotValue::inline(InlineValue(reference), content);
    Ok(assert_snapshot(
        alloc,
        session,
        store,
        config,
        settings,
        &DefaultComparator,
        &place,
        value,
    ))
}

fn add_assertion(
    alloc: Global,
    line: &mut Text,
    session: &mut Session,
    store: &mut FailingStore,
    config: &Config,
    settings: &Settings,
    column: &str,
) -> Result<(), anyhow::Error> {
    let answer = asserted(alloc, session, store, config, settings, column)?;
    let added = add_answer(alloc, line, &answer);
    drop(answer);
    Ok(added?)
}

/// A map of one pair, whose key is a list.
fn listed(alloc: Global) -> Result<Content, OutOfMemory> {
    let key = Content::Seq(List::new(alloc));
    let mut pairs = Pairs::new(alloc);
    pairs.push((key, Content::None))?;
    Ok(Content::Map(pairs))
}

/// What a call that goes wrong does, after this word.
fn wrong_after(word: &str) -> Option<Wrong> {
    match word {
        "fail" => Some(Wrong::Failed),
        "done" => Some(Wrong::Done),
        "memory" => Some(Wrong::OutOfMemory),
        _ => None,
    }
}

fn add_closed(alloc: Global, line: &mut Text, session: &mut Session) -> Result<(), OutOfMemory> {
    let told = if session.end_duplicates() {
        "closed"
    } else {
        "none open"
    };
    add_text_column(alloc, line, told)
}

/// Does what a column says, and adds what it came to.
fn add_step(
    alloc: Global,
    line: &mut Text,
    session: &mut Session,
    store: &mut FailingStore,
    config: &Config,
    settings: &Settings,
    column: &str,
) -> Result<(), anyhow::Error> {
    let step = column.split_once(' ').unwrap_or((column, ""));
    if let Some(how) = wrong_after(step.0) {
        store.go_wrong_at(how, step.1.parse().unwrap_or(0));
        return Ok(());
    }
    if add_file_step(alloc, line, session, store, config, settings, step)? {
        return Ok(());
    }
    match column {
        "begin" => Ok(session.begin_duplicates()?),
        "end" => Ok(add_closed(alloc, line, session)?),
        _ => add_assertion(alloc, line, session, store, config, settings, column),
    }
}

fn add_steps(
    alloc: Global,
    line: &mut Text,
    session: &mut Session,
    store: &mut FailingStore,
    config: &Config,
    (plain, informed): (&Settings, &Settings),
    steps: &str,
) -> Result<(), anyhow::Error> {
    let mut settings = plain;
    for column in steps.split('\t') {
        if column == "info" {
            settings = informed;
        } else {
            add_step(alloc, line, session, store, config, settings, column)?;
        }
    }
    Ok(())
}

/// Adds the text of the file of records.
fn add_records(alloc: Global, line: &mut Text, store: &FailingStore) -> Result<(), OutOfMemory> {
    let path = Text::from_ascii(alloc, "w/src/.a.rs.pending-snap")?;
    line.push_ascii(alloc, "\t")?;
    add_file(alloc, line, store.get(&path))
}

/// The line of a new session over a new store.
fn line_of_steps(
    alloc: Global,
    config: &Config,
    settings: (&Settings, &Settings),
    steps: &str,
) -> Result<Text, anyhow::Error> {
    let mut line = Text::empty();
    let mut session = Session::new(alloc);
    let mut store = FailingStore::new(alloc);
    add_steps(
        alloc,
        &mut line,
        &mut session,
        &mut store,
        config,
        settings,
        steps,
    )?;
    add_records(alloc, &mut line, &store)?;
    Ok(line)
}

/// The same with these settings after `info`.
fn line_with_settings(
    alloc: Global,
    config: &Config,
    informed: &Settings,
    steps: &str,
) -> Result<Text, anyhow::Error> {
    let plain = Settings::new(alloc)?;
    line_of_steps(alloc, config, (&plain, informed), steps)
}

/// The same with this info after `info`.
fn line_with_info(
    alloc: Global,
    config: &Config,
    info: &Content,
    steps: &str,
) -> Result<Text, anyhow::Error> {
    let mut informed = Settings::new(alloc)?;
    informed.set_raw_info(info)?;
    line_with_settings(alloc, config, &informed, steps)
}

/// What each column comes to, and the text of the file of records after them.
pub(crate) fn steps_line(
    alloc: Global,
    config: &Config,
    steps: &str,
) -> Result<Text, anyhow::Error> {
    let info = listed(alloc)?;
    let line = line_with_info(alloc, config, &info, steps);
    drop(info);
    line
}
