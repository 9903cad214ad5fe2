//! Why there is no answer.
use crate::reply::Reply;
use snap_content::OutOfMemory;
use thiserror::Error;

/// Why the program has no answer.
#[derive(Debug, Drop, Error)]
pub enum FrontError {
    /// The words are none of `get PATH`, `set PATH VALUE`, `remove PATH` and `format`, or VALUE reads as no tree.
    #[error("BadWords")]
    BadWords,
    /// The document is no UTF-8.
    #[error("NotText")]
    NotText,
    /// The document has no header that can be read, or the command was refused, for this reason.
    #[error("Refused")]
    Refused(Reply),
    /// There was not enough memory.
    #[error("OutOfMemory")]
    OutOfMemory,
}

impl From<OutOfMemory> for FrontError {
    ghost use Rattle.std.specs.Prelude.{◌≡◌};
    ghost use Rattle.snap_front.specs.declared.front_error.FrontError.TheVariants.{OutOfMemory};

    ghost from_gives = { λ _ e. e ≡ OutOfMemory };

    fn from(_error: OutOfMemory) -> FrontError {
        FrontError::OutOfMemory
    }
}
