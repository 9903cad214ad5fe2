//! Steps on files: texts and payloads that are asserted in the function `m::test_foo` at line 7, and what stands at a path.
use crate::answers::add_answer;
use crate::steps::place_in;
use rows::{add_file, add_text_column, text_of};
use rows_outside::FailingStore;
use snap_assert::{
    AssertError, AutoName, BinarySnapshotValue, Config, DefaultComparator, Outcome, Session,
    Settings, SnapshotValue, assert_snapshot,
};
use snap_content::{Blob, OutOfMemory, Text};
use std::alloc::Global;

/// The bytes of numbers, a blank between each two.
fn bytes_of(alloc: Global, numbers: &str) -> Result<Blob, OutOfMemory> {
    let mut bytes: Vec<u8> = Vec::new(alloc);
    for digits in numbers.split(' ') {
        if let Ok(byte) = digits.parse::<u8>() {
            bytes.push(byte)?;
        }
    }
    Blob::from_slice(alloc, &bytes)
}

/// The text under the name, or under that of the function where there is none.
fn text_value(alloc: Global, said: &str) -> Result<SnapshotValue, OutOfMemory> {
    let (name, text) = said.split_once('|').unwrap_or((said, ""));
    let content = text_of(alloc, text)?;
    if name.is_empty() {
        return Ok(SnapshotValue::auto(AutoName, content));
    }
    let name = Text::from_str(alloc, name)?;
    Ok(SnapshotValue::named(Some(name), content))
}

/// The payload of the bytes, with the name and the extension that stand before them.
fn binary_value(alloc: Global, said: &str) -> Result<SnapshotValue, OutOfMemory> {
    let (told, numbers) = said.split_once('|').unwrap_or((said, ""));
    let name_and_extension = Text::from_str(alloc, told)?;
    let content = bytes_of(alloc, numbers)?;
    let value = BinarySnapshotValue {
        name_and_extension,
        content,
    };
    SnapshotValue::binary(alloc, value)
}

fn asserted(
    alloc: Global,
    session: &mut Session,
    store: &mut FailingStore,
    config: &Config,
    settings: &Settings,
    value: SnapshotValue,
) -> Result<Result<Outcome, AssertError>, anyhow::Error> {
    let place = place_in(alloc, "m::test_foo", "7")?;
    Ok(assert_snapshot(
        alloc,
        session,
        store,
        config,
        settings,
        &DefaultComparator,
        &place,
        value,
    ))
}

fn add_value(
    alloc: Global,
    line: &mut Text,
    session: &mut Session,
    store: &mut FailingStore,
    config: &Config,
    settings: &Settings,
    value: SnapshotValue,
) -> Result<(), anyhow::Error> {
    let answer = asserted(alloc, session, store, config, settings, value)?;
    let added = add_answer(alloc, line, &answer);
    drop(answer);
    Ok(added?)
}

/// Has a file with this text stand at the path.
fn put(alloc: Global, store: &mut FailingStore, said: &str) -> Result<(), OutOfMemory> {
    let (path, text) = said.split_once('|').unwrap_or((said, ""));
    let text = text_of(alloc, text)?;
    store.put(&Text::from_str(alloc, path)?, text.as_str().as_bytes())
}

/// Adds the text of the file at the path.
fn add_shown(
    alloc: Global,
    line: &mut Text,
    store: &FailingStore,
    path: &str,
) -> Result<(), OutOfMemory> {
    line.push_ascii(alloc, "\t")?;
    add_file(alloc, line, store.get(&Text::from_str(alloc, path)?))
}

/// Adds the bytes of the file at the path, as numbers.
fn add_bytes(
    alloc: Global,
    line: &mut Text,
    store: &FailingStore,
    path: &str,
) -> Result<(), OutOfMemory> {
    let Some(bytes) = store.get(&Text::from_str(alloc, path)?) else {
        return add_text_column(alloc, line, "no file");
    };
    let mut told = Text::empty();
    for byte in bytes {
        if !told.as_str().is_empty() {
            told.push_ascii(alloc, " ")?;
        }
        told.push_str(alloc, format!(in alloc; "{byte}")?.as_str())?;
    }
    add_text_column(alloc, line, told.as_str())
}

/// Does a step on files, and adds what it came to. Whether the word is that of one.
pub(crate) fn add_file_step(
    alloc: Global,
    line: &mut Text,
    session: &mut Session,
    store: &mut FailingStore,
    config: &Config,
    settings: &Settings,
    (word, said): (&str, &str),
) -> Result<bool, anyhow::Error> {
    match word {
        "text" => {
            let value = text_value(alloc, said)?;
            add_value(alloc, line, session, store, config, settings, value)?;
        }
        "binary" => {
            let value = binary_value(alloc, said)?;
            add_value(alloc, line, session, store, config, settings, value)?;
        }
        "put" => put(alloc, store, said)?,
        "show" => add_shown(alloc, line, store, said)?,
        "bytes" => add_bytes(alloc, line, store, said)?,
        _ => return Ok(false),
    }
    Ok(true)
}
