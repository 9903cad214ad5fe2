//! What goes wrong with a tree or its file.
use crate::memory::OutOfMemory;
use crate::text::Text;
use thiserror::Error;

/// What goes wrong with a tree or its file. The text that a variant holds is the path.
#[derive(Debug, Drop, Error)]
pub enum Error {
    #[error("Failed parsing the YAML from \"{0}\"")]
    FailedParsingYaml(Text),
    #[error("The present data type wasn't what was expected")]
    UnexpectedDataType,
    #[error("A required field was missing")]
    MissingField,
    #[error("File error for \"{0}\"")]
    FileIo(Text),
    #[error("FloatText")]
    FloatText(Text),
    #[error("JsonKey")]
    JsonKey,
    #[error("NotText")]
    NotText(Text),
    #[error("NoFile")]
    NoFile(Text),
    #[error("OutOfMemory")]
    OutOfMemory,
}

impl From<OutOfMemory> for Error {
    ghost use Rattle.std.specs.Prelude.{◌≡◌};
    ghost use Rattle.snap_content.specs.declared.error.Error.TheVariants.{OutOfMemory};

    ghost from_gives = { λ _ e. e ≡ OutOfMemory };

    fn from(_error: OutOfMemory) -> Error {
        Error::OutOfMemory
    }
}
