//! What is wrong with what waits, in words.
ghost use Rattle.std.specs.Prelude.{◌≡◌, IfOk};
ghost use Rattle.snap_explain_review.specs.Reasons.{absent_text, records_fault, snapshot_fault, unread_text};

use snap_content::{Error, OutOfMemory, Text};
use snap_review::words::Target;
use std::alloc::Global;

/// That nothing waits.
pub(crate) fn absent_text(alloc: Global, target: Target) -> Result<Text, OutOfMemory>
    ensures { IfOk result (λ text. text ≡ absent_text target) }
{
    match target {
        Target::Literals => Text::from_ascii(alloc, "no records wait there"),
        Target::File => Text::from_ascii(alloc, "no snapshot waits there"),
    }
}

/// Why records are not read.
fn records_fault(alloc: Global, error: &Error) -> Result<Text, OutOfMemory>
    ensures { IfOk result (λ text. text ≡ records_fault error.now) }
{
    match error {
        Error::NotText(_) => Text::from_ascii(alloc, "the file is not UTF-8"),
        Error::FailedParsingYaml(_) => Text::from_ascii(alloc, "a line is no JSON"),
        Error::UnexpectedDataType => {
            Text::from_ascii(
                alloc,
                "a record is no map, or a value in it is of another type",
            )
        }
        Error::MissingField => Text::from_ascii(alloc, "a record lacks a field"),
        Error::FileIo(_)
        | Error::FloatText(_)
        | Error::JsonKey
        | Error::NoFile(_)
        | Error::OutOfMemory => Text::from_ascii(alloc, "the file cannot be read"),
    }
}

/// Why a snapshot is not read.
fn snapshot_fault(alloc: Global, error: &Error) -> Result<Text, OutOfMemory>
    ensures { IfOk result (λ text. text ≡ snapshot_fault error.now) }
{
    match error {
        Error::NotText(_) => Text::from_ascii(alloc, "the snapshot is not UTF-8"),
        Error::FailedParsingYaml(_) => {
            Text::from_ascii(alloc, "the header of the snapshot is no YAML")
        }
        Error::UnexpectedDataType => {
            Text::from_ascii(alloc, "the header of the snapshot is no map")
        }
        Error::MissingField => {
            Text::from_ascii(
                alloc,
                "the header of the snapshot says binary, without an extension",
            )
        }
        Error::FileIo(_)
        | Error::FloatText(_)
        | Error::JsonKey
        | Error::NoFile(_)
        | Error::OutOfMemory => Text::from_ascii(alloc, "the snapshot cannot be read"),
    }
}

/// Why what waits is not read.
pub(crate) fn unread_text(alloc: Global, target: Target, error: &Error) -> Result<Text, OutOfMemory>
    ensures { IfOk result (λ text. text ≡ unread_text target error.now) }
{
    match target {
        Target::Literals => records_fault(alloc, error),
        Target::File => snapshot_fault(alloc, error),
    }
}
