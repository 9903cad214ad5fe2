//! How a run ended.
ghost use Rattle.std.specs.Prelude.{◌≡◌, IfOk, IsTrue};
ghost use Rattle.std.specs.Char.{is_ascii};
ghost use Rattle.std.specs.List.{list_all};
ghost use Rattle.snap_review.specs.Describe.{file_text, line_text, refused_as, status_of};

use crate::patching::Refusal;
use snap_content::{Error, OutOfMemory, Text};
use std::alloc::Global;

/// How a run ended. Lines are those of the source before the run, counted from 1. Where the status is not `Done`, `FileIo`, `WriteFault`
/// or `OutOfMemory`, no file has changed and nothing was written.
#[derive(Debug, Drop)]
pub enum ReviewStatus {
    /// What was asked for is done, and each answer is written.
    Done,
    /// The words are of no such form.
    BadWords,
    /// Nothing waits there.
    NoPending,
    /// What waits cannot be read, for this reason. It is never a failed call, a missing file or that memory is out.
    Unreadable(Error),
    /// The store failed at this path. The file there is unknown, and the steps before that one are done.
    FileIo { path: Text },
    /// The source is missing, or is no text.
    NoSource,
    /// The sink failed. All files are as with `Done`, and a beginning of the answers is written.
    WriteFault,
    /// There was not enough memory.
    OutOfMemory,
    /// The new text for this line is not its own normal form.
    NotStable { line: u32 },
    /// From this line on no literal stands behind an `@`.
    NoLiteral { line: u32 },
    /// The literal that this line leads to does not stand for the text that the record saw there.
    Stale { line: u32 },
    /// The literal that this line leads to begins before the end of one that an earlier line led to.
    SameLiteral { line: u32 },
}

impl ReviewStatus {
    ghost use Rattle.snap_review.specs.Describe.{code_of, description};

    /// The exit status of the program.
    pub fn code(&self) -> u8
        ensures { result ≡ code_of self.now }
    {
        match self {
            ReviewStatus::Done => 0,
            ReviewStatus::BadWords => 2,
            ReviewStatus::NoPending => 3,
            ReviewStatus::Unreadable(_) => 4,
            ReviewStatus::FileIo { .. } => 5,
            ReviewStatus::NoSource => 6,
            ReviewStatus::WriteFault => 7,
            ReviewStatus::OutOfMemory => 8,
            ReviewStatus::NotStable { .. } => 9,
            ReviewStatus::NoLiteral { .. } => 10,
            ReviewStatus::Stale { .. } => 11,
            ReviewStatus::SameLiteral { .. } => 12,
        }
    }

    /// What ended the run, in words.
    pub fn describe(&self, alloc: Global) -> Result<Text, OutOfMemory>
        ensures { IfOk result (λ text. text ≡ description self.now) }
    {
        match self {
            ReviewStatus::Done => Text::from_ascii(alloc, "snap-review: done"),
            ReviewStatus::BadWords => Text::from_ascii(alloc, "snap-review: bad words"),
            ReviewStatus::NoPending => Text::from_ascii(alloc, "snap-review: nothing waits there"),
            ReviewStatus::Unreadable(_) => {
                Text::from_ascii(alloc, "snap-review: what waits cannot be read")
            }
            ReviewStatus::FileIo { path } => file_text(alloc, path),
            ReviewStatus::NoSource => {
                Text::from_ascii(alloc, "snap-review: the source is missing, or is no text")
            }
            ReviewStatus::WriteFault => Text::from_ascii(alloc, "snap-review: write fault"),
            ReviewStatus::OutOfMemory => Text::from_ascii(alloc, "snap-review: out of memory"),
            ReviewStatus::NotStable { line } => {
                line_text(alloc, *line, ": the new text is not its own normal form")
            }
            ReviewStatus::NoLiteral { line } => {
                line_text(
                    alloc,
                    *line,
                    ": no literal stands behind an @ from there on",
                )
            }
            ReviewStatus::Stale { line } => {
                line_text(
                    alloc,
                    *line,
                    ": the literal is not the one that the record saw",
                )
            }
            ReviewStatus::SameLiteral { line } => {
                line_text(
                    alloc,
                    *line,
                    ": an earlier record asks for the same literal",
                )
            }
        }
    }
}

/// What is said of a file.
fn file_text(alloc: Global, path: &Text) -> Result<Text, OutOfMemory>
    ensures { IfOk result (λ text. text ≡ file_text path.now) }
{
    let mut text = Text::from_ascii(alloc, "snap-review: file error at ")?;
    text.push_text(alloc, path)?;
    Ok(text)
}

/// What is said of a line.
fn line_text(alloc: Global, line: u32, what: &str) -> Result<Text, OutOfMemory>
    requires { IsTrue (list_all is_ascii what.now) }
    ensures { IfOk result (λ text. text ≡ line_text line what.now) }
{
    let mut text = Text::from_ascii(alloc, "snap-review: line ")?;
    let digits = format!(in alloc; "{line}")?;
    text.push_ascii(alloc, digits.as_str())?;
    text.push_ascii(alloc, what)?;
    Ok(text)
}

/// As what an error of reading or of changing a file ends a run.
pub fn status_of(error: Error) -> ReviewStatus
    ensures { result ≡ status_of error }
{
    match error {
        Error::FileIo(path) => ReviewStatus::FileIo { path },
        Error::NoFile(_) => ReviewStatus::NoPending,
        Error::OutOfMemory => ReviewStatus::OutOfMemory,
        error => ReviewStatus::Unreadable(error),
    }
}

/// As what a refused source ends a run.
pub fn refused(refusal: Refusal) -> ReviewStatus
    ensures { result ≡ refused_as refusal }
{
    match refusal {
        Refusal::NotStable { line } => ReviewStatus::NotStable { line },
        Refusal::NoLiteral { line } => ReviewStatus::NoLiteral { line },
        Refusal::Stale { line } => ReviewStatus::Stale { line },
        Refusal::SameLiteral { line } => ReviewStatus::SameLiteral { line },
        Refusal::OutOfMemory => ReviewStatus::OutOfMemory,
    }
}
