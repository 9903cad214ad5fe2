//! Why events aren't handed on.
ghost use Rattle.std.specs.Prelude.{◌≡◌};

use snap_content::OutOfMemory;
use snap_scan_tokens::ScanError;
use std::error::Error;
use std::fmt;

/// Why events aren't handed on.
#[derive(Clone, Copy, Debug, PartialEq, Eq)]
pub enum LoadError {
    /// The text is no YAML. Never out of memory.
    Scan(ScanError),
    /// A document has begun whose end is to come.
    InsideDocument,
    OutOfMemory,
}

/// What is wrong with the text, and where; else the error's name.
impl fmt::Display for LoadError {
    ghost use Rattle.std.specs.Prelude.{Some};
    ghost use Rattle.snap_parse_events.specs.Errors.{load_error_text};

    ghost output = { λ error. Some (load_error_text error) };

    fn fmt<W: fmt::Write>(&self, f: &mut fmt::Formatter<W>) -> fmt::Result {
        match self {
            LoadError::Scan(error) => error.fmt(f),
            LoadError::InsideDocument => f.write_str("InsideDocument"),
            LoadError::OutOfMemory => f.write_str("OutOfMemory"),
        }
    }
}

impl Error for LoadError {}

impl From<ScanError> for LoadError {
    ghost use Rattle.std.specs.Prelude.{◌≡◌};
    ghost use Rattle.snap_parse_events.specs.Errors.{load_error};

    ghost from_gives = { λ error e. e ≡ load_error error };

    fn from(error: ScanError) -> LoadError {
        match error {
            ScanError::OutOfMemory => LoadError::OutOfMemory,
            error => LoadError::Scan(error),
        }
    }
}

impl From<OutOfMemory> for LoadError {
    ghost use Rattle.std.specs.Prelude.{◌≡◌};
    ghost use Rattle.snap_parse_events.specs.declared.error.LoadError.TheVariants.{OutOfMemory as WantOfMemory};

    ghost from_gives = { λ _ e. e ≡ WantOfMemory };

    fn from(_error: OutOfMemory) -> LoadError {
        LoadError::OutOfMemory
    }
}
