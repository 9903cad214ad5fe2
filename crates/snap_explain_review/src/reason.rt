//! The line that tells the reason.
ghost use Rattle.std.specs.Prelude.{◌≡◌, IfOk, IsTrue};
ghost use Rattle.std.specs.Char.{is_ascii};
ghost use Rattle.std.specs.List.{list_all};
ghost use Rattle.snap_explain_review.specs.Reasons.{at_line, at_path, reason_text};
ghost use Rattle.snap_review.specs.declared.status.ReviewStatus.TheVariants.{NoPending, NoSource, Unreadable};

use crate::unread::{absent_text, unread_text};
use snap_content::{Error, OutOfMemory, Text};
use snap_emit::push_spelled_text;
use snap_review::ReviewStatus;
use snap_review::words::Request;
use std::alloc::Global;

/// What is said of the file at the path.
fn at_path(alloc: Global, path: &Text, what: &Text) -> Result<Text, OutOfMemory>
    ensures { IfOk result (λ line. line ≡ at_path path.now what.now) }
{
    let mut line = Text::empty();
    push_spelled_text(&mut line, alloc, path)?;
    line.push_ascii(alloc, ": ")?;
    line.push_text(alloc, what)?;
    line.push_ascii(alloc, "\n")?;
    Ok(line)
}

/// That nothing waits for the request.
fn absent_line(alloc: Global, request: &Request) -> Result<Text, OutOfMemory>
    ensures { IfOk result (λ line. line ≡ reason_text request.now NoPending) }
{
    let what = absent_text(alloc, request.target)?;
    at_path(alloc, &request.waiting, &what)
}

/// Why what waits for the request is not read.
fn unread_line(alloc: Global, request: &Request, error: &Error) -> Result<Text, OutOfMemory>
    ensures { IfOk result (λ line. line ≡ reason_text request.now (Unreadable error.now)) }
{
    let what = unread_text(alloc, request.target, error)?;
    at_path(alloc, &request.waiting, &what)
}

/// That the source of the request is none.
fn source_line(alloc: Global, request: &Request) -> Result<Text, OutOfMemory>
    ensures { IfOk result (λ line. line ≡ reason_text request.now NoSource) }
{
    let what = Text::from_ascii(alloc, "the source is missing, or is no text")?;
    at_path(alloc, &request.path, &what)
}

/// What is said of a line of the file at the path.
fn at_line(alloc: Global, path: &Text, number: u32, what: &str) -> Result<Text, OutOfMemory>
    requires { IsTrue (list_all is_ascii what.now) }
    ensures { IfOk result (λ line. line ≡ at_line path.now number what.now) }
{
    let mut line = Text::empty();
    push_spelled_text(&mut line, alloc, path)?;
    line.push_ascii(alloc, ", line ")?;
    let digits = format!(in alloc; "{number}")?;
    line.push_ascii(alloc, digits.as_str())?;
    line.push_ascii(alloc, ": ")?;
    line.push_ascii(alloc, what)?;
    line.push_ascii(alloc, "\n")?;
    Ok(line)
}

/// Why the review of a request is refused that would end so, in a line; nothing where it would end otherwise.
pub(crate) fn reason_line(
    alloc: Global,
    request: &Request,
    foreseen: &ReviewStatus,
) -> Result<Text, OutOfMemory>
    ensures { IfOk result (λ line. line ≡ reason_text request.now foreseen.now) }
{
    let path = &request.path;
    match foreseen {
        ReviewStatus::NoPending => absent_line(alloc, request),
        ReviewStatus::Unreadable(error) => unread_line(alloc, request, error),
        ReviewStatus::NoSource => source_line(alloc, request),
        ReviewStatus::NotStable { line } => {
            at_line(
                alloc,
                path,
                *line,
                "the new text is not its own normal form",
            )
        }
        ReviewStatus::NoLiteral { line } => {
            at_line(
                alloc,
                path,
                *line,
                "no literal stands behind an @ from there on",
            )
        }
        ReviewStatus::Stale { line } => {
            at_line(
                alloc,
                path,
                *line,
                "the literal is not the one that the record saw",
            )
        }
        ReviewStatus::SameLiteral { line } => {
            at_line(
                alloc,
                path,
                *line,
                "an earlier record asks for the same literal",
            )
        }
        ReviewStatus::Done
        | ReviewStatus::BadWords
        | ReviewStatus::FileIo { .. }
        | ReviewStatus::WriteFault
        | ReviewStatus::OutOfMemory => Ok(Text::empty()),
    }
}
