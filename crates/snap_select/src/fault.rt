//! Why a text is no selector.
ghost use Rattle.std.specs.Prelude.{◌≡◌};
ghost use Rattle.snap_select.specs.Refusal.{column_of, kind_of};

use snap_content::OutOfMemory;
use thiserror::Error;

/// What is wrong in the text of a selector.
#[derive(Clone, Copy, Debug, PartialEq, Eq, Error)]
pub enum SelectFault {
    /// No selector goes on with this character, or none ends here.
    #[error("BadToken")]
    BadToken,
    /// A second wildcard for any number of steps in one part.
    #[error("DeepTwice")]
    DeepTwice,
    /// A number that doesn't fit: an index is below 2^64, a bound from -2^63 up to 2^63 - 1.
    #[error("TooLarge")]
    TooLarge,
}

/// Why a text is no selector, and where.
#[derive(Clone, Copy, Debug, PartialEq, Eq, Error)]
#[error("SelectorParseError")]
pub struct SelectorParseError {
    kind: SelectFault,
    column: usize,
}

impl SelectorParseError {
    pub(crate) const fn new(kind: SelectFault, column: usize) -> SelectorParseError
        ensures kind { kind_of result ≡ kind }
        ensures column { column_of result ≡ column }
    {
        SelectorParseError { kind, column }
    }

    /// The place of the fault, in characters counted from 1. One past the end where the text ends too early.
    pub const fn column(&self) -> usize
        ensures { result ≡ column_of self.now }
    {
        self.column
    }

    /// What is wrong there.
    pub const fn kind(&self) -> SelectFault
        ensures { result ≡ kind_of self.now }
    {
        self.kind
    }
}

/// Why no selector was made.
#[derive(Clone, Copy, Debug, PartialEq, Eq, Error)]
pub enum SelectError {
    /// The text is no selector.
    #[error("Parse")]
    Parse(SelectorParseError),
    /// There was not enough memory.
    #[error("OutOfMemory")]
    OutOfMemory,
}

impl From<OutOfMemory> for SelectError {
    ghost use Rattle.std.specs.Prelude.{◌≡◌};
    ghost use Rattle.snap_select.specs.declared.fault.SelectError.TheVariants.{OutOfMemory};

    ghost from_gives = { λ _ e. e ≡ OutOfMemory };

    fn from(_error: OutOfMemory) -> SelectError {
        SelectError::OutOfMemory
    }
}
