//! Commands on several documents.
use rows::add_text_column;
use rows_outside::words_of;
use snap_content::{Content, OutOfMemory, Text};
use snap_emit::yaml::{body_to_string, parse_str};
use snap_front::{Command, Path, Replies, Reply, run_commands};
use std::alloc::Global;

/// The value of a text of YAML.
fn value_of(alloc: Global, word: &Text) -> Result<Content, anyhow::Error> {
    let mut text = Text::from_ascii(alloc, "---\n")?;
    text.push_text(alloc, word)?;
    text.push(alloc, '\n')?;
    Ok(parse_str(alloc, text.as_str(), &Text::empty())?)
}

/// The command that the words spell; a word that is wanting is empty.
fn command_of(alloc: Global, words: &[Text]) -> Result<Command, anyhow::Error> {
    let (verb, name) = match words {
        [verb, name, ..] => (verb.as_str(), name.try_clone(alloc)?),
        _ => ("", Text::empty()),
    };
    let third = match words.get(2) {
        Some(word) => word.try_clone(alloc)?,
        None => Text::empty(),
    };
    match verb {
        "put" => Ok(Command::Put { name, text: third }),
        "get" => Ok(Command::Get {
            name,
            path: Path::parse(alloc, third.as_str())?,
        }),
        "set" => set_of(alloc, name, &third, words),
        "remove" => Ok(Command::Remove {
            name,
            path: Path::parse(alloc, third.as_str())?,
        }),
        _ => Ok(Command::Print { name }),
    }
}

/// A command that sets the fourth word's value.
fn set_of(
    alloc: Global,
    name: Text,
    path: &Text,
    words: &[Text],
) -> Result<Command, anyhow::Error> {
    let path = Path::parse(alloc, path.as_str())?;
    let value = match words.get(3) {
        Some(word) => value_of(alloc, word)?,
        None => Content::Unit,
    };
    Ok(Command::Set { name, path, value })
}

/// Adds a reply.
fn add_reply(alloc: Global, line: &mut Text, reply: &Reply) -> Result<(), OutOfMemory> {
    match reply {
        Reply::Done => add_text_column(alloc, line, "Done"),
        Reply::NotFront => add_text_column(alloc, line, "NotFront"),
        Reply::BadHeader => add_text_column(alloc, line, "BadHeader"),
        Reply::NotMap => add_text_column(alloc, line, "NotMap"),
        Reply::Tree(part) => {
            let text = body_to_string(alloc, part, false)?;
            add_text_column(alloc, line, text.as_str())
        }
        Reply::Absent => add_text_column(alloc, line, "Absent"),
        Reply::NoParent => add_text_column(alloc, line, "NoParent"),
        Reply::Root => add_text_column(alloc, line, "Root"),
        Reply::NoName => add_text_column(alloc, line, "NoName"),
        Reply::Printed(text) => add_text_column(alloc, line, text.as_str()),
    }
}

/// The commands of the columns.
fn commands_of(alloc: Global, columns: &str) -> Result<Vec<Command>, anyhow::Error> {
    let mut commands = Vec::new(alloc);
    for column in columns.split('\t') {
        let words = words_of(alloc, column, '|')?;
        commands.push(command_of(alloc, &words)?)?;
    }
    Ok(commands)
}

/// The replies on a line.
fn replies_line(alloc: Global, replies: &Replies) -> Result<Text, OutOfMemory> {
    let mut line = Text::empty();
    for reply in replies.as_slice() {
        add_reply(alloc, &mut line, reply)?;
    }
    Ok(line)
}

/// The replies to the commands.
pub(crate) fn commands_line(alloc: Global, columns: &str) -> Result<Text, anyhow::Error> {
    let commands = commands_of(alloc, columns)?;
    let (store, replies) = run_commands(alloc, &commands)?;
    drop(store);
    let line = replies_line(alloc, &replies);
    drop(replies);
    Ok(line?)
}
