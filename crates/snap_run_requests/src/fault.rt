//! Why a document is not read as a request.
use crate::key::Key;
use snap_content::OutOfMemory;
use snap_emit::Refusal;
use snap_select::SelectorParseError;
use std::alloc::AllocFailed;

/// What is wrong with a key of a map.
#[derive(Clone, Copy, Debug, PartialEq, Eq)]
pub enum KeyFault {
    /// The key is needed, and is not there.
    Missing(Key),
    /// The key stands twice or more often.
    Twice(Key),
    /// The pair at this place, counted from 0, has a key that the map may not have.
    Unknown { place: usize },
    /// What stands at the key is not of its kind, as a text where a number is wanted.
    WrongKind(Key),
}

/// Why an item of a request's list of redactions is no redaction.
#[derive(Clone, Copy, Debug, PartialEq, Eq)]
pub enum RedactionFault {
    NoMap,
    Key(KeyFault),
    /// The text at `at` is no selector: the column of its first fault, and what is wrong there.
    NoSelector(SelectorParseError),
    /// Neither `put` nor `sort: true` stands there.
    NothingPut,
    /// Both `put` and `sort` stand there.
    PutAndSort,
}

/// Why a document is no request. Of several reasons it is the first in this order, and of keys first one that the map may not
/// have, then one that stands twice.
#[derive(Clone, Copy, Debug, PartialEq, Eq)]
pub enum Reason {
    /// It is no UTF-8: so many bytes stand before the first that is not.
    NotUtf8 { place: usize },
    /// Its text is read as no tree: it is no YAML, or not one document, or an alias or a number that no tree has stands in it.
    NoTree(Refusal),
    /// Its tree is no map.
    NoMap,
    Key(KeyFault),
    /// The path at `file` is none of a file, as one that ends in a slash.
    NoFile,
    /// The item of the list at `redactions` at this place, counted from 0, is no redaction.
    NoRedaction { place: usize, fault: RedactionFault },
}

/// Why a document is not read.
#[derive(Clone, Copy, Debug, PartialEq, Eq)]
pub enum RequestError {
    NoRequest(Reason),
    OutOfMemory,
}

impl From<KeyFault> for Reason {
    ghost use Rattle.std.specs.Prelude.{◌≡◌};
    ghost use Rattle.snap_run_requests.specs.declared.fault.Reason.TheVariants.{Key as OfKey};

    ghost from_gives = { λ fault e. e ≡ OfKey fault };

    fn from(fault: KeyFault) -> Reason {
        Reason::Key(fault)
    }
}

impl From<Reason> for RequestError {
    ghost use Rattle.std.specs.Prelude.{◌≡◌};
    ghost use Rattle.snap_run_requests.specs.declared.fault.RequestError.TheVariants.{NoRequest};

    ghost from_gives = { λ why e. e ≡ NoRequest why };

    fn from(why: Reason) -> RequestError {
        RequestError::NoRequest(why)
    }
}

impl From<OutOfMemory> for RequestError {
    ghost use Rattle.std.specs.Prelude.{◌≡◌};
    ghost use Rattle.snap_run_requests.specs.declared.fault.RequestError.TheVariants.{OutOfMemory as NoMemory};

    ghost from_gives = { λ _ e. e ≡ NoMemory };

    fn from(_error: OutOfMemory) -> RequestError {
        RequestError::OutOfMemory
    }
}

impl<T: Drop> From<AllocFailed<T>> for RequestError {
    ghost use Rattle.std.specs.Prelude.{◌≡◌};
    ghost use Rattle.snap_run_requests.specs.declared.fault.RequestError.TheVariants.{OutOfMemory as NoMemory};

    ghost from_gives = { λ _ e. e ≡ NoMemory };

    fn from(_error: AllocFailed<T>) -> RequestError {
        RequestError::OutOfMemory
    }
}
