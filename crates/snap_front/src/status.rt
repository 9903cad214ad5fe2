//! How a run ended.
ghost use Rattle.std.specs.Prelude.{◌≡◌, IfOk};
ghost use Rattle.snap_front.specs.Describe.{error_text, reply_text};

use crate::front_error::FrontError;
use crate::reply::Reply;
use snap_content::{OutOfMemory, Text};
use std::alloc::Global;

/// How a run ended. Nothing is written but with `Done` and `WriteFault`.
#[derive(Debug, Drop)]
pub enum FrontStatus {
    /// The input was read to its end, and the whole answer is written.
    Done,
    /// There is no answer, for this reason, which is never that memory is out.
    Failed(FrontError),
    /// The source failed.
    ReadFault,
    /// The sink failed. A beginning of the answer is written.
    WriteFault,
    /// The source gave more than 67,108,864 bytes.
    InputTooLong,
    /// There was not enough memory.
    OutOfMemory,
}

impl FrontStatus {
    ghost use Rattle.snap_front.specs.Describe.{code_of, description};

    /// The exit status of the program.
    pub fn code(&self) -> u8
        ensures { result ≡ code_of self.now }
    {
        match self {
            FrontStatus::Done => 0,
            FrontStatus::Failed(_) => 1,
            FrontStatus::ReadFault => 2,
            FrontStatus::WriteFault => 3,
            FrontStatus::InputTooLong => 4,
            FrontStatus::OutOfMemory => 5,
        }
    }

    /// What ended the run, in words.
    pub fn describe(&self, alloc: Global) -> Result<Text, OutOfMemory>
        ensures { IfOk result (λ text. text ≡ description self.now) }
    {
        match self {
            FrontStatus::Done => Text::from_ascii(alloc, "snap-front: done"),
            FrontStatus::Failed(error) => error_text(alloc, error),
            FrontStatus::ReadFault => Text::from_ascii(alloc, "snap-front: read fault"),
            FrontStatus::WriteFault => Text::from_ascii(alloc, "snap-front: write fault"),
            FrontStatus::InputTooLong => Text::from_ascii(alloc, "snap-front: input too long"),
            FrontStatus::OutOfMemory => Text::from_ascii(alloc, "snap-front: out of memory"),
        }
    }
}

/// What is said of an error.
fn error_text(alloc: Global, error: &FrontError) -> Result<Text, OutOfMemory>
    ensures { IfOk result (λ text. text ≡ error_text error.now) }
{
    match error {
        FrontError::BadWords => Text::from_ascii(alloc, "snap-front: bad words"),
        FrontError::NotText => Text::from_ascii(alloc, "snap-front: the page is no text"),
        FrontError::Refused(reply) => reply_text(alloc, reply),
        FrontError::OutOfMemory => Text::from_ascii(alloc, "snap-front: out of memory"),
    }
}

/// What is said of a refusal.
fn reply_text(alloc: Global, reply: &Reply) -> Result<Text, OutOfMemory>
    ensures { IfOk result (λ text. text ≡ reply_text reply.now) }
{
    match reply {
        Reply::NotFront => Text::from_ascii(alloc, "snap-front: the page has no header"),
        Reply::BadHeader => Text::from_ascii(alloc, "snap-front: the header cannot be read"),
        Reply::NotMap => Text::from_ascii(alloc, "snap-front: a header is a map"),
        Reply::Absent => Text::from_ascii(alloc, "snap-front: nothing stands at that path"),
        Reply::NoParent => Text::from_ascii(alloc, "snap-front: the path leads to no place"),
        Reply::Root => Text::from_ascii(alloc, "snap-front: a header cannot be removed"),
        Reply::NoName => Text::from_ascii(alloc, "snap-front: no page has that name"),
        Reply::Done | Reply::Tree(_) | Reply::Printed(_) => {
            Text::from_ascii(alloc, "snap-front: done")
        }
    }
}
