//! Asserts the bytes of a file as a binary snapshot, over real files: `MODE WORKSPACE NAME.EXTENSION FILE`, where MODE is `inplace`,
//! `new` or `no`. It prints the verdict, or why there is none. After a fifth word, `more`, the payload has one byte more than the file:
//! so one is saved that is too long to be read again.
//!
//! The gate runs it once, over a small image. `bench/sidecars` runs it over larger files.
#![tactic(auto)]

use anyhow::anyhow;
use snap_assert::{
    AssertError, BinarySnapshotValue, Config, DefaultComparator, Outcome, Place, Session, Settings,
    SnapshotValue, Update, Verdict, assert_snapshot,
};
use snap_content::{Blob, OutOfMemory, Text};
use snap_io::{FolderStore, Sink, Store, StreamSink};
use snap_io_streams::streams::write_all;
use snap_io_words::words_in;
use std::alloc::Global;
use std::env;

fn mode_of(word: &str) -> Update {
    match word {
        "inplace" => Update::InPlace,
        "new" => Update::NewFile,
        _ => Update::NoUpdate,
    }
}

fn config_of(alloc: Global, mode: &Text) -> Result<Config, OutOfMemory> {
    let run_id = Text::from_ascii(alloc, "r1")?;
    Ok(Config {
        update: mode_of(mode.as_str()),
        force_update: false,
        require_full_match: false,
        force_pass: false,
        literal: false,
        run_id,
    })
}

fn place_in(alloc: Global, workspace: &Text) -> Result<Place, anyhow::Error> {
    let workspace = workspace.try_clone(alloc)?;
    let function = Text::from_ascii(alloc, "t::test_foo")?;
    let module = Text::from_ascii(alloc, "m")?;
    let file = Text::from_ascii(alloc, "src/a.rs")?;
    let expression = Text::from_ascii(alloc, "x")?;
    Ok(Place::new(workspace, function, module, file, 7, expression)?)
}

fn verdict_name(verdict: Verdict) -> &'static str {
    match verdict {
        Verdict::Passed => "Passed",
        Verdict::Updated => "Updated",
        Verdict::Pending => "Pending",
        Verdict::Rejected => "Rejected",
    }
}

/// What is printed of an answer.
fn told(alloc: Global, answer: &Result<Outcome, AssertError>) -> Result<Text, OutOfMemory> {
    let told = match answer {
        Ok(outcome) => format!(in alloc; "{}\n", verdict_name(outcome.verdict))?,
        Err(error) => format!(in alloc; "! {error}\n")?,
    };
    Text::from_str(alloc, told.as_str())
}

/// What the assertion of these bytes comes to.
fn asserted<S: Store>(
    alloc: Global,
    store: &mut S,
    config: &Config,
    settings: &Settings,
    place: &Place,
    value: SnapshotValue,
) -> Result<Text, OutOfMemory> {
    let mut session = Session::new(alloc);
    let answer = assert_snapshot(
        alloc,
        &mut session,
        store,
        config,
        settings,
        &DefaultComparator,
        place,
        value,
    );
    let said = told(alloc, &answer);
    drop(answer);
    said
}

fn value_of(alloc: Global, name: &Text, content: Blob) -> Result<SnapshotValue, OutOfMemory> {
    let name_and_extension = name.try_clone(alloc)?;
    SnapshotValue::binary(
        alloc,
        BinarySnapshotValue {
            name_and_extension,
            content,
        },
    )
}

/// The same with new settings.
fn asserted_at<S: Store>(
    alloc: Global,
    store: &mut S,
    config: &Config,
    place: &Place,
    name: &Text,
    content: Blob,
) -> Result<Text, anyhow::Error> {
    let value = value_of(alloc, name, content)?;
    let settings = Settings::new(alloc)?;
    Ok(asserted(alloc, store, config, &settings, place, value)?)
}

/// The bytes, and one more.
fn with_one_more(alloc: Global, content: &Blob) -> Result<Blob, OutOfMemory> {
    let mut bytes = Vec::from_slice(alloc, content.as_slice())?;
    bytes.push(0)?;
    Ok(Blob::from_vec(bytes))
}

/// The payload that is asserted of the bytes of a file.
fn payload_of(alloc: Global, content: Blob, more: bool) -> Result<Blob, OutOfMemory> {
    if more {
        return with_one_more(alloc, &content);
    }
    Ok(content)
}

/// What the assertion of the bytes of a file comes to, or of one byte more.
fn answer<S: Store>(
    alloc: Global,
    store: &mut S,
    mode: &Text,
    workspace: &Text,
    name: &Text,
    (file, more): (&Text, bool),
) -> Result<Text, anyhow::Error> {
    let Ok(Some(held)) = store.read(alloc, file) else {
        return Ok(Text::from_ascii(alloc, "! cannot be read\n")?);
    };
    let content = payload_of(alloc, held, more)?;
    let config = config_of(alloc, mode)?;
    let place = place_in(alloc, workspace)?;
    asserted_at(alloc, store, &config, &place, name, content)
}

fn answer_words<S: Store>(
    alloc: Global,
    store: &mut S,
    words: &[Text],
) -> Result<Text, anyhow::Error> {
    match words {
        [mode, workspace, name, file] => {
            answer(alloc, store, mode, workspace, name, (file, false))
        }
        [mode, workspace, name, file, word] if word.as_str() == "more" => {
            answer(alloc, store, mode, workspace, name, (file, true))
        }
        _ => Err(anyhow!("four words are wanted, or a fifth, more")),
    }
}

fn main(rt: HostRuntime) -> Result<(), anyhow::Error> {
    let alloc = rt.alloc();
    let Some(words) = words_in(alloc, env::args(&rt))? else {
        return Err(anyhow!("the words are no texts"));
    };
    let mut store = FolderStore::new(&rt);
    let line = answer_words(alloc, &mut store, &words)?;
    let mut sink = StreamSink::new(rt.stdout());
    match write_all(&mut sink, line.as_str().as_bytes()) {
        Ok(()) => Ok(()),
        Err(_) => Err(anyhow!("the answer could not be written")),
    }
}
