//! How an answer of the system is told.
ghost use Rattle.std.specs.Prelude.{◌≡◌};
ghost use Rattle.snap_io.specs.Told.{IsToldAs, IsFoundAs, IsMadeAs, IsSeenAs, IsRemovedAs, bits_told, gone_told};

use crate::call::Answer;
use crate::outside::{Fault, StoreError};
use std::fs::Metadata;
use std::io;
use std::io::ErrorKind;
use std::os::unix::fs::MetadataExt;

/// Who may read, write and run a file.
const PERMISSION_BITS: u32 = 0o777;

/// Each error is a fault.
pub(crate) fn told<T>(answer: io::Result<T>) -> Result<T, Fault>
    ensures { IsToldAs answer result }
{
    match answer {
        Ok(value) => Ok(value),
        Err(_) => Err(Fault),
    }
}

/// Each error is a fault, but that nothing is there.
pub(crate) fn told_found<T>(answer: io::Result<T>) -> Result<Option<T>, Fault>
    ensures { IsFoundAs answer result }
{
    match answer {
        Ok(value) => Ok(Some(value)),
        Err(error) if error.kind() == ErrorKind::NotFound => Ok(None),
        Err(_) => Err(Fault),
    }
}

/// Each error is a fault, but that something is there already.
pub(crate) fn told_made<T>(answer: io::Result<T>) -> Result<Option<T>, Fault>
    ensures { IsMadeAs answer result }
{
    match answer {
        Ok(value) => Ok(Some(value)),
        Err(error) if error.kind() == ErrorKind::AlreadyExists => Ok(None),
        Err(_) => Err(Fault),
    }
}

/// What stands where a look went.
pub(crate) fn seen(answer: io::Result<Metadata>) -> Answer
    ensures { IsSeenAs answer result }
{
    match answer {
        Ok(metadata) => {
            if metadata.is_file() {
                Answer::File(metadata.mode() & PERMISSION_BITS)
            } else {
                Answer::Other
            }
        }
        Err(error) if error.kind() == ErrorKind::NotFound => Answer::Missing,
        Err(_) => Answer::Failed,
    }
}

/// What was taken away.
pub(crate) fn removed(answer: io::Result<()>) -> Answer
    ensures { IsRemovedAs answer result }
{
    match answer {
        Ok(()) => Answer::Done,
        Err(error) if error.kind() == ErrorKind::NotFound => Answer::Missing,
        Err(error) if error.kind() == ErrorKind::IsADirectory => Answer::Other,
        Err(_) => Answer::Failed,
    }
}

/// The permission bits of the regular file that was seen, where something was; all else is a fault.
pub(crate) fn bits_seen(answer: Answer) -> Result<Option<u32>, StoreError>
    ensures { result ≡ bits_told answer }
{
    match answer {
        Answer::File(bits) => Ok(Some(bits)),
        Answer::Missing => Ok(None),
        _ => Err(StoreError::Failed),
    }
}

/// Whether a file was there and is gone. A folder is no file.
pub(crate) fn was_there(answer: Answer) -> Result<bool, StoreError>
    ensures { result ≡ gone_told answer }
{
    match answer {
        Answer::Done => Ok(true),
        Answer::Missing | Answer::Other => Ok(false),
        _ => Err(StoreError::Failed),
    }
}
