//! How errors are told.
use crate::error::AskError;
use rows::{add_escaped, first_column, text_of};
use snap_content::{Error, OutOfMemory, Text};
use std::alloc::Global;
use std::fmt::Display;

/// What is written of the error of that name, of the path where it has one.
pub(crate) fn error_line(alloc: Global, columns: &str) -> Result<Text, anyhow::Error> {
    let (name, column) = first_column(columns);
    if name == "memory" {
        return Ok(told(alloc, &OutOfMemory)?);
    }
    let path = text_of(alloc, column)?;
    match error_of(name, path) {
        Some(error) => Ok(told_at_last(alloc, error)?),
        None => Err(AskError::NoError.into()),
    }
}

/// What is written of an error that ends here.
fn told_at_last(alloc: Global, error: Error) -> Result<Text, OutOfMemory> {
    told(alloc, &error)
}

fn told(alloc: Global, error: &impl Display) -> Result<Text, OutOfMemory> {
    let written = format!(in alloc; "{error}")?;
    let mut line = Text::empty();
    add_escaped(alloc, &mut line, written.as_str())?;
    Ok(line)
}

fn error_of(name: &str, path: Text) -> Option<Error> {
    match name {
        "FailedParsingYaml" => Some(Error::FailedParsingYaml(path)),
        "FileIo" => Some(Error::FileIo(path)),
        "FloatText" => Some(Error::FloatText(path)),
        "NotText" => Some(Error::NotText(path)),
        "NoFile" => Some(Error::NoFile(path)),
        _ => plain_error_of(name),
    }
}

/// An error without a path.
fn plain_error_of(name: &str) -> Option<Error> {
    match name {
        "UnexpectedDataType" => Some(Error::UnexpectedDataType),
        "MissingField" => Some(Error::MissingField),
        "JsonKey" => Some(Error::JsonKey),
        "OutOfMemory" => Some(Error::OutOfMemory),
        "from memory" => Some(Error::from(OutOfMemory)),
        _ => None,
    }
}
