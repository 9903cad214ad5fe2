//! How a run ended.
ghost use Rattle.std.specs.Prelude.{◌≡◌, ◌++◌, IfOk, OnOk, codes};
ghost use Rattle.std.specs.Fmt.{decimal};
ghost use Rattle.snap_run.specs.Describe.{kind_text};

use snap_content::{OutOfMemory, Text};
use std::alloc::Global;

/// Why a request is refused.
#[derive(Clone, Copy, Debug, PartialEq, Eq)]
pub enum RefusalKind {
    NameClash,
    DoctestNeedsName,
    DuplicateDiffers,
    NamesExhausted,
}

/// How a run ended.
#[derive(Debug, Drop)]
pub enum Status {
    AllPassed,
    SomeFailed,
    BadWords,
    /// The document with this number, counted from 1, is no request.
    BadRequest { document: u64 },
    Refused { document: u64, kind: RefusalKind },
    /// The store failed in the work on this document.
    FileIo { document: u64, path: Text },
    ReadFault,
    WriteFault,
    OutOfMemory,
    InputTooLong,
}

impl Status {
    ghost use Rattle.snap_run.specs.Describe.{code_of, description};

    /// The exit status of the program.
    pub fn code(&self) -> u8
        ensures { result ≡ code_of self.now }
    {
        match self {
            Status::AllPassed => 0,
            Status::SomeFailed => 1,
            Status::BadWords => 2,
            Status::BadRequest { .. } => 3,
            Status::Refused { .. } => 4,
            Status::FileIo { .. } => 5,
            Status::ReadFault => 6,
            Status::WriteFault => 7,
            Status::OutOfMemory => 8,
            Status::InputTooLong => 9,
        }
    }

    /// What the program writes to standard error.
    pub fn describe(&self, alloc: Global) -> Result<Text, OutOfMemory>
        ensures { IfOk result (λ text. text ≡ description self.now) }
    {
        match self {
            Status::AllPassed => Text::from_ascii(alloc, "snap: all passed"),
            Status::SomeFailed => Text::from_ascii(alloc, "snap: some failed"),
            Status::BadWords => Text::from_ascii(alloc, "snap: bad words"),
            Status::BadRequest { document } => {
                let mut text = document_text(alloc, *document)?;
                text.push_ascii(alloc, " is no request")?;
                Ok(text)
            }
            Status::Refused { document, kind } => {
                let mut text = document_text(alloc, *document)?;
                text.push_ascii(alloc, ": ")?;
                push_kind(&mut text, alloc, *kind)?;
                Ok(text)
            }
            Status::FileIo { document, path } => {
                let mut text = document_text(alloc, *document)?;
                text.push_ascii(alloc, ": file fault at ")?;
                text.push_text(alloc, path)?;
                Ok(text)
            }
            Status::ReadFault => Text::from_ascii(alloc, "snap: read fault"),
            Status::WriteFault => Text::from_ascii(alloc, "snap: write fault"),
            Status::OutOfMemory => Text::from_ascii(alloc, "snap: out of memory"),
            Status::InputTooLong => Text::from_ascii(alloc, "snap: input too long"),
        }
    }
}

fn push_number(text: &mut Text, alloc: Global, number: u64) -> Result<(), OutOfMemory>
    ensures { OnOk result (text.new ≡ text.old ++ decimal number) }
{
    let digits = format!(in alloc; "{number}")?;
    text.push_ascii(alloc, digits.as_str())
}

/// The beginning of what is said of a document.
fn document_text(alloc: Global, document: u64) -> Result<Text, OutOfMemory>
    ensures { IfOk result (λ text. text ≡ codes "snap: document " ++ decimal document) }
{
    let mut text = Text::from_ascii(alloc, "snap: document ")?;
    push_number(&mut text, alloc, document)?;
    Ok(text)
}

fn push_kind(text: &mut Text, alloc: Global, kind: RefusalKind) -> Result<(), OutOfMemory>
    ensures { OnOk result (text.new ≡ text.old ++ kind_text kind) }
{
    match kind {
        RefusalKind::NameClash => text.push_ascii(alloc, "NameClash")?,
        RefusalKind::DoctestNeedsName => text.push_ascii(alloc, "DoctestNeedsName")?,
        RefusalKind::DuplicateDiffers => text.push_ascii(alloc, "DuplicateDiffers")?,
        RefusalKind::NamesExhausted => text.push_ascii(alloc, "NamesExhausted")?,
    }
    Ok(())
}
