//! Why a document stops a run.
use crate::status::{RefusalKind, Status};
use snap_assert::error::AssertError;
use snap_content::{OutOfMemory, Text};
use snap_io::Fault;
use snap_run_requests::RequestError;

/// Why a document stops a run: its status, but for the document's number.
#[derive(Debug, Drop)]
pub enum DocumentError {
    NoRequest,
    Refused(RefusalKind),
    /// The store failed in the work on this path.
    FileIo(Text),
    WriteFault,
    OutOfMemory,
}

impl DocumentError {
    ghost use Rattle.std.specs.Prelude.{◌≡◌};
    ghost use Rattle.snap_run.specs.Refused.{status_at};

    /// The status of a run that stops so at the document with this number, counted from 1.
    pub fn status_at(self, document: u64) -> Status
        ensures { result ≡ status_at document self }
    {
        match self {
            DocumentError::NoRequest => Status::BadRequest { document },
            DocumentError::Refused(kind) => Status::Refused { document, kind },
            DocumentError::FileIo(path) => Status::FileIo { document, path },
            DocumentError::WriteFault => Status::WriteFault,
            DocumentError::OutOfMemory => Status::OutOfMemory,
        }
    }
}

impl From<OutOfMemory> for DocumentError {
    ghost use Rattle.std.specs.Prelude.{◌≡◌};
    ghost use Rattle.snap_run.specs.declared.document_error.DocumentError.TheVariants.{OutOfMemory};

    ghost from_gives = { λ _ e. e ≡ OutOfMemory };

    fn from(_: OutOfMemory) -> Self {
        DocumentError::OutOfMemory
    }
}

impl From<Fault> for DocumentError {
    ghost use Rattle.std.specs.Prelude.{◌≡◌};
    ghost use Rattle.snap_run.specs.declared.document_error.DocumentError.TheVariants.{WriteFault};

    ghost from_gives = { λ _ e. e ≡ WriteFault };

    fn from(_: Fault) -> Self {
        DocumentError::WriteFault
    }
}

impl From<RequestError> for DocumentError {
    ghost use Rattle.std.specs.Prelude.{◌≡◌};
    ghost use Rattle.snap_run.specs.Refused.{unread};

    ghost from_gives = { λ refused e. e ≡ unread refused };

    fn from(refused: RequestError) -> Self {
        match refused {
            RequestError::NoRequest(_) => DocumentError::NoRequest,
            RequestError::OutOfMemory => DocumentError::OutOfMemory,
        }
    }
}

/// What is left are the errors of literals and of payloads, which an assertion of a tree doesn't come to.
impl From<AssertError> for DocumentError {
    ghost use Rattle.std.specs.Prelude.{◌≡◌};
    ghost use Rattle.snap_run.specs.Refused.{unanswered};

    ghost from_gives = { λ refused e. e ≡ unanswered refused };

    fn from(refused: AssertError) -> Self {
        match refused {
            AssertError::FileIo(path) => DocumentError::FileIo(path),
            AssertError::NameClash => DocumentError::Refused(RefusalKind::NameClash),
            AssertError::DoctestNeedsName => DocumentError::Refused(RefusalKind::DoctestNeedsName),
            AssertError::DuplicateDiffers { .. } => {
                DocumentError::Refused(RefusalKind::DuplicateDiffers)
            }
            AssertError::NamesExhausted => DocumentError::Refused(RefusalKind::NamesExhausted),
            _ => DocumentError::OutOfMemory,
        }
    }
}
