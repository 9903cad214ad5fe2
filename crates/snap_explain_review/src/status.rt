//! How a run ended.
ghost use Rattle.std.specs.Prelude.{◌≡◌};

/// How a run ended that tells why a review would be refused.
#[derive(Clone, Copy, Debug, PartialEq, Eq)]
pub enum ReasonStatus {
    /// The review has something to do, and nothing is to be said.
    Nothing,
    /// The review would be refused, and the reason is written.
    Found,
    /// The words are none of a review. Nothing was read.
    BadWords,
    /// The store failed. Nothing is written.
    FileFault,
    /// The sink failed. A beginning of the reason is written.
    WriteFault,
    /// There was not enough memory. Nothing is written.
    OutOfMemory,
}

impl ReasonStatus {
    ghost use Rattle.snap_explain_review.specs.Ends.{code_of};

    /// The exit status of a program.
    pub fn code(&self) -> u8
        ensures { result ≡ code_of self.now }
    {
        match self {
            ReasonStatus::Nothing => 0,
            ReasonStatus::Found => 1,
            ReasonStatus::BadWords => 2,
            ReasonStatus::FileFault => 5,
            ReasonStatus::WriteFault => 7,
            ReasonStatus::OutOfMemory => 8,
        }
    }
}
