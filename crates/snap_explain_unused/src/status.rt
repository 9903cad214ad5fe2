//! How a run ended.
ghost use Rattle.std.specs.Prelude.{◌≡◌};

/// How a run ended that names the files for which no request asks.
#[derive(Clone, Copy, Debug, PartialEq, Eq)]
pub enum UnusedStatus {
    /// No file is unused.
    Nothing,
    /// Some files are unused, and their paths are written; of a path that holds the end of a line this status alone tells.
    Found,
    /// A document is no request, or a run refuses it. Nothing is written, since it might have asked for any file.
    Refused,
    /// The store failed. Nothing is written.
    FileFault,
    /// The source failed. Nothing is written.
    ReadFault,
    /// The sink failed. A beginning of the paths is written.
    WriteFault,
    /// There was not enough memory. Nothing is written.
    OutOfMemory,
    /// The source gave more than 67,108,864 bytes. Nothing is written.
    StreamTooLong,
}

impl UnusedStatus {
    ghost use Rattle.snap_explain_unused.specs.Runs.{code_of};

    /// The exit status of a program.
    pub fn code(&self) -> u8
        ensures { result ≡ code_of self.now }
    {
        match self {
            UnusedStatus::Nothing => 0,
            UnusedStatus::Found => 1,
            UnusedStatus::Refused => 3,
            UnusedStatus::FileFault => 5,
            UnusedStatus::ReadFault => 6,
            UnusedStatus::WriteFault => 7,
            UnusedStatus::OutOfMemory => 8,
            UnusedStatus::StreamTooLong => 9,
        }
    }
}
