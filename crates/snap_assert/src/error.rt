//! Why an assertion comes to no answer.
use snap_content::{Error as FileError, OutOfMemory, Text};
use snap_store::SnapshotContents;
use thiserror::Error;

/// Which of the assertions of a block are duplicates of each other.
#[derive(Debug, Drop)]
pub enum DuplicateKey {
    /// A module and a name.
    Named(Text, Text),
    /// The function, the file and the line of a literal.
    Inline(Text, Text, u32),
}

/// Why an assertion comes to no answer.
#[derive(Debug, Drop, Error)]
pub enum AssertError {
    #[error("OutOfMemory")]
    OutOfMemory,
    /// The store failed in the work on this path.
    #[error("FileIo")]
    FileIo(Text),
    #[error("NameClash")]
    NameClash,
    #[error("DoctestNeedsName")]
    DoctestNeedsName,
    #[error("DuplicateDiffers")]
    DuplicateDiffers {
        key: DuplicateKey,
        kept: SnapshotContents,
        new: SnapshotContents,
    },
    #[error("NamesExhausted")]
    NamesExhausted,
    #[error("InlineDuplicate")]
    InlineDuplicate,
    #[error("BadExtension")]
    BadExtension,
    #[error("JsonKey")]
    JsonKey,
}

impl From<OutOfMemory> for AssertError {
    ghost use Rattle.std.specs.Prelude.{◌≡◌};
    ghost use Rattle.snap_assert.specs.declared.error.AssertError.TheVariants.{OutOfMemory};

    ghost from_gives = { λ _ e. e ≡ OutOfMemory };

    fn from(_error: OutOfMemory) -> AssertError {
        AssertError::OutOfMemory
    }
}

/// A file is not saved for no other reason than these two.
impl From<FileError> for AssertError {
    ghost use Rattle.std.specs.Prelude.{◌≡◌};
    ghost use Rattle.snap_assert.specs.Unsaved.{unsaved};

    ghost from_gives = { λ error e. e ≡ unsaved error };

    fn from(error: FileError) -> AssertError {
        match error {
            FileError::FileIo(path) => AssertError::FileIo(path),
            _ => AssertError::OutOfMemory,
        }
    }
}
