//! How a run ended.
ghost use Rattle.std.specs.Prelude.{◌≡◌, IfOk, IsTrue};
ghost use Rattle.std.specs.Char.{is_ascii};
ghost use Rattle.std.specs.List.{list_all};
ghost use Rattle.snap_mask.specs.Describe.{line_text};

use snap_content::{OutOfMemory, Text};
use std::alloc::Global;

/// How a run ended. Lines are counted from 1, empty ones too. After a status that names a line the records of all lines before it
/// are written, and nothing of that line or of one after it.
#[derive(Clone, Copy, Debug, PartialEq, Eq)]
pub enum MaskStatus {
    /// The input was read to its end, and each record is written.
    Done,
    /// The words spell no rules. Nothing was read.
    BadWords,
    /// The line is no JSON text.
    BadLine { line: u64 },
    /// The line holds a number that is no whole number of 128 bits.
    FloatLine { line: u64 },
    /// The line has more than 1,048,576 bytes before its end.
    LineTooLong { line: u64 },
    /// The source failed. The records of a beginning of the input are written.
    ReadFault,
    /// The sink failed. A beginning of the records is written.
    WriteFault,
    /// There was not enough memory. The records of a beginning of the input are written.
    OutOfMemory,
    /// The line has a key that JSON has no text for.
    JsonKey { line: u64 },
    /// The source gave more than 1,099,511,627,776 bytes.
    InputTooLong,
}

impl MaskStatus {
    ghost use Rattle.snap_mask.specs.Describe.{code_of, description};

    /// The exit status of the program.
    pub fn code(&self) -> u8
        ensures { result ≡ code_of self.now }
    {
        match self {
            MaskStatus::Done => 0,
            MaskStatus::BadWords => 2,
            MaskStatus::BadLine { .. } => 3,
            MaskStatus::FloatLine { .. } => 4,
            MaskStatus::LineTooLong { .. } => 5,
            MaskStatus::ReadFault => 6,
            MaskStatus::WriteFault => 7,
            MaskStatus::OutOfMemory => 8,
            MaskStatus::JsonKey { .. } => 9,
            MaskStatus::InputTooLong => 10,
        }
    }

    /// What ended the run, in words.
    pub fn describe(&self, alloc: Global) -> Result<Text, OutOfMemory>
        ensures { IfOk result (λ text. text ≡ description self.now) }
    {
        match self {
            MaskStatus::Done => Text::from_ascii(alloc, "snap-mask: done"),
            MaskStatus::BadWords => Text::from_ascii(alloc, "snap-mask: bad words"),
            MaskStatus::BadLine { line } => line_text(alloc, *line, " is no JSON"),
            MaskStatus::FloatLine { line } => {
                line_text(
                    alloc,
                    *line,
                    " holds a number that is no whole number of 128 bits",
                )
            }
            MaskStatus::LineTooLong { line } => {
                line_text(alloc, *line, " is longer than 1,048,576 bytes")
            }
            MaskStatus::ReadFault => Text::from_ascii(alloc, "snap-mask: read fault"),
            MaskStatus::WriteFault => Text::from_ascii(alloc, "snap-mask: write fault"),
            MaskStatus::OutOfMemory => Text::from_ascii(alloc, "snap-mask: out of memory"),
            MaskStatus::JsonKey { line } => {
                line_text(alloc, *line, " has a key that JSON has no text for")
            }
            MaskStatus::InputTooLong => Text::from_ascii(alloc, "snap-mask: input too long"),
        }
    }
}

/// What is said of a line.
fn line_text(alloc: Global, line: u64, what: &str) -> Result<Text, OutOfMemory>
    requires { IsTrue (list_all is_ascii what.now) }
    ensures { IfOk result (λ text. text ≡ line_text line what.now) }
{
    let mut text = Text::from_ascii(alloc, "snap-mask: line ")?;
    let digits = format!(in alloc; "{line}")?;
    text.push_ascii(alloc, digits.as_str())?;
    text.push_ascii(alloc, what)?;
    Ok(text)
}
