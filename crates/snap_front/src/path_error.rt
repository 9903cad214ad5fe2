//! Why a text is no path.
use snap_content::OutOfMemory;
use snap_select::SelectorParseError;
use std::alloc::AllocFailed;
use thiserror::Error;

/// Why no path was made of a text.
#[derive(Clone, Copy, Debug, PartialEq, Eq, Error)]
pub enum PathError {
    /// The text is no selector.
    #[error("Parse")]
    Parse(SelectorParseError),
    /// The selector has several parts, or a segment that is no key and no index.
    #[error("NotAPath")]
    NotAPath,
    /// There was not enough memory.
    #[error("OutOfMemory")]
    OutOfMemory,
}

impl From<OutOfMemory> for PathError {
    ghost use Rattle.std.specs.Prelude.{◌≡◌};
    ghost use Rattle.snap_front.specs.declared.path_error.PathError.TheVariants.{OutOfMemory};

    ghost from_gives = { λ _ e. e ≡ OutOfMemory };

    fn from(_error: OutOfMemory) -> PathError {
        PathError::OutOfMemory
    }
}

impl<T: Drop> From<AllocFailed<T>> for PathError {
    ghost use Rattle.std.specs.Prelude.{◌≡◌};
    ghost use Rattle.snap_front.specs.declared.path_error.PathError.TheVariants.{OutOfMemory};

    ghost from_gives = { λ _ e. e ≡ OutOfMemory };

    fn from(_error: AllocFailed<T>) -> PathError {
        PathError::OutOfMemory
    }
}
