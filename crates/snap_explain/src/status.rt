//! How a run ended.
ghost use Rattle.std.specs.Prelude.{◌≡◌};

/// How a run ended.
#[derive(Clone, Copy, Debug, PartialEq, Eq)]
pub enum ExplainStatus {
    /// All was read that the tool reads, and nothing is to be said.
    Nothing,
    /// All was read, or what was read before a line that is too long, and something was said.
    Found,
    /// The words are none of this program, or spell no rules. Nothing was read.
    BadWords,
    /// The store failed. A beginning of the findings is written.
    FileFault,
    /// The source failed. A beginning of the findings is written.
    ReadFault,
    /// The sink failed. A beginning of the findings is written.
    WriteFault,
    /// There was not enough memory. A beginning of the findings is written.
    OutOfMemory,
    /// The source gave more than 1,099,511,627,776 bytes.
    InputTooLong,
    /// The source gave more than 67,108,864 bytes, the most that a stream of requests or a page may have. Nothing is written.
    StreamTooLong,
}

impl ExplainStatus {
    ghost use Rattle.snap_explain.specs.Program.{code_of};

    /// The exit status of the program.
    pub fn code(&self) -> u8
        ensures { result ≡ code_of self.now }
    {
        match self {
            ExplainStatus::Nothing => 0,
            ExplainStatus::Found => 1,
            ExplainStatus::BadWords => 2,
            ExplainStatus::FileFault => 5,
            ExplainStatus::ReadFault => 6,
            ExplainStatus::WriteFault => 7,
            ExplainStatus::OutOfMemory => 8,
            ExplainStatus::StreamTooLong => 9,
            ExplainStatus::InputTooLong => 10,
        }
    }
}
