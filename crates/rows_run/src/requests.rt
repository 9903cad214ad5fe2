//! Documents that are requests, and why others are none.
use rows::{add_number_column, add_text_column};
use rows_outside::input_of;
use snap_content::{OutOfMemory, Text};
use snap_emit::Refusal;
use snap_run_requests::{KeyFault, Reason, RedactionFault, RequestError, read_request};
use snap_select::{SelectFault, SelectorParseError};
use std::alloc::Global;

/// Adds what is wrong with a key.
fn add_key(alloc: Global, line: &mut Text, fault: KeyFault) -> Result<(), OutOfMemory> {
    match fault {
        KeyFault::Unknown { place } => add_number_column(alloc, line, "unknown", place as u64),
        KeyFault::Missing(key) => {
            add_text_column(alloc, line, "missing")?;
            add_text_column(alloc, line, key.name())
        }
        KeyFault::Twice(key) => {
            add_text_column(alloc, line, "twice")?;
            add_text_column(alloc, line, key.name())
        }
        KeyFault::WrongKind(key) => {
            add_text_column(alloc, line, "wrong")?;
            add_text_column(alloc, line, key.name())
        }
    }
}

/// Adds what is wrong with the text of a selector.
fn add_selector(
    alloc: Global,
    line: &mut Text,
    error: &SelectorParseError,
) -> Result<(), OutOfMemory> {
    let word = match error.kind() {
        SelectFault::BadToken => "BadToken",
        SelectFault::DeepTwice => "DeepTwice",
        SelectFault::TooLarge => "TooLarge",
    };
    add_number_column(alloc, line, word, error.column() as u64)
}

/// Adds what is wrong with a redaction.
fn add_redaction(alloc: Global, line: &mut Text, fault: RedactionFault) -> Result<(), OutOfMemory> {
    match fault {
        RedactionFault::NoMap => add_text_column(alloc, line, "no map"),
        RedactionFault::Key(fault) => add_key(alloc, line, fault),
        RedactionFault::NoSelector(error) => add_selector(alloc, line, &error),
        RedactionFault::NothingPut => add_text_column(alloc, line, "nothing put"),
        RedactionFault::PutAndSort => add_text_column(alloc, line, "put and sort"),
    }
}

/// Adds why a text is read as no tree.
fn add_refusal(alloc: Global, line: &mut Text, refusal: Refusal) -> Result<(), OutOfMemory> {
    match refusal {
        Refusal::NoYaml(error) => {
            let said = format!(in alloc; "{error}")?;
            add_text_column(alloc, line, said.as_str())
        }
        Refusal::NotOneDocument => add_text_column(alloc, line, "not one document"),
        Refusal::Alias => add_text_column(alloc, line, "alias"),
        Refusal::NoTree => add_text_column(alloc, line, "no value"),
        Refusal::Number => add_text_column(alloc, line, "number"),
    }
}

/// Adds why a document is no request.
fn add_reason(alloc: Global, line: &mut Text, reason: Reason) -> Result<(), OutOfMemory> {
    match reason {
        Reason::NotUtf8 { place } => add_number_column(alloc, line, "no text", place as u64),
        Reason::NoTree(refusal) => add_refusal(alloc, line, refusal),
        Reason::NoMap => add_text_column(alloc, line, "no map"),
        Reason::Key(fault) => add_key(alloc, line, fault),
        Reason::NoFile => add_text_column(alloc, line, "no file"),
        Reason::NoRedaction { place, fault } => {
            add_number_column(alloc, line, "redaction", place as u64)?;
            add_redaction(alloc, line, fault)
        }
    }
}

/// Whether the document is a request, or why it is none. After out of memory there is no answer.
fn add_outcome(alloc: Global, line: &mut Text, document: &[u8]) -> Result<(), OutOfMemory> {
    match read_request(alloc, document) {
        Ok(request) => {
            drop(request);
            add_text_column(alloc, line, "read")
        }
        Err(RequestError::NoRequest(reason)) => add_reason(alloc, line, reason),
        Err(RequestError::OutOfMemory) => Err(OutOfMemory),
    }
}

/// Whether the document is a request, or why it is none.
pub(crate) fn request_line(alloc: Global, column: &str) -> Result<Text, anyhow::Error> {
    let document = input_of(alloc, column)?;
    let mut line = Text::empty();
    add_outcome(alloc, &mut line, document.as_slice())?;
    Ok(line)
}
