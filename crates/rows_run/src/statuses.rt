//! The text of each status.
use rows::{add_number_column, add_text_column, first_column, text_of};
use rows_outside::add_bytes;
use snap_content::{OutOfMemory, Text};
use snap_io::SteadySink;
use snap_run::command::conclude;
use snap_run::{RefusalKind, Status};
use std::alloc::Global;

/// The kind of this name.
fn kind_named(name: &str) -> RefusalKind {
    match name {
        "DoctestNeedsName" => RefusalKind::DoctestNeedsName,
        "DuplicateDiffers" => RefusalKind::DuplicateDiffers,
        "NamesExhausted" => RefusalKind::NamesExhausted,
        _ => RefusalKind::NameClash,
    }
}

/// The status of this name that tells of no document.
fn plain_status(name: &str) -> Status {
    match name {
        "AllPassed" => Status::AllPassed,
        "SomeFailed" => Status::SomeFailed,
        "ReadFault" => Status::ReadFault,
        "WriteFault" => Status::WriteFault,
        "OutOfMemory" => Status::OutOfMemory,
        "InputTooLong" => Status::InputTooLong,
        _ => Status::BadWords,
    }
}

/// The status of this name, with the number of its document, and its path or its kind, where it has these.
fn status_named(
    alloc: Global,
    name: &str,
    document: u64,
    rest: &str,
) -> Result<Status, OutOfMemory> {
    match name {
        "BadRequest" => Ok(Status::BadRequest { document }),
        "Refused" => Ok(Status::Refused {
            document,
            kind: kind_named(rest),
        }),
        "FileIo" => Ok(Status::FileIo {
            document,
            path: text_of(alloc, rest)?,
        }),
        _ => Ok(plain_status(name)),
    }
}

/// The status of these columns.
fn status_of(alloc: Global, columns: &str) -> Result<Status, OutOfMemory> {
    let (name, rest) = first_column(columns);
    let (document, rest) = first_column(rest);
    status_named(alloc, name, document.parse().unwrap_or(0), rest)
}

/// The exit status of a status, and what it says.
pub(crate) fn status_line(alloc: Global, columns: &str) -> Result<Text, anyhow::Error> {
    let status = status_of(alloc, columns)?;
    told_line(alloc, &status)
}

fn told_line(alloc: Global, status: &Status) -> Result<Text, anyhow::Error> {
    let mut line = Text::empty();
    add_number_column(alloc, &mut line, "status", u64::from(status.code()))?;
    let said = status.describe(alloc)?;
    add_text_column(alloc, &mut line, said.as_str())?;
    Ok(line)
}

/// The exit status that ends the program with a status, and what the sink of errors is told.
pub(crate) fn conclude_line(alloc: Global, columns: &str) -> Result<Text, anyhow::Error> {
    let status = status_of(alloc, columns)?;
    concluded_line(alloc, &status)
}

fn concluded_line(alloc: Global, status: &Status) -> Result<Text, anyhow::Error> {
    let mut errors = SteadySink::new(alloc);
    let code = conclude(alloc, status, &mut errors);
    let mut line = Text::empty();
    add_number_column(alloc, &mut line, "status", u64::from(code))?;
    add_bytes(alloc, &mut line, errors.written())?;
    Ok(line)
}
