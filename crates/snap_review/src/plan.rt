//! What a request is to change, and what is to be answered: of literals.
ghost use Rattle.std.specs.Prelude.{◌≡◌, [], ◌∷◌, IfOk};
ghost use Rattle.std.specs.Str.{chars};
ghost use Rattle.snap_io.specs.Causes.{Counted};
ghost use Rattle.snap_review.specs.Ends.{says_file_fault};
ghost use Rattle.snap_review.specs.Planned.{AcceptEnd, IsPlanBy, IsPlanWith, MadeEnd, RejectEnd, answer_line, answer_lines};
ghost use Rattle.snap_review.specs.Read.{IsFoundAt, SourcePlanEnd};
ghost use Rattle.snap_review.specs.declared.words.Command.TheVariants.{Accept, Reject};

use crate::patching::{NewLiteral, Refusal, patched};
use crate::reading::{read_chosen, read_source};
use crate::status::{ReviewStatus, refused};
use crate::words::{Command, Request};
use snap_content::{OutOfMemory, Text};
use snap_io::Store;
use snap_store::Snapshot;
use std::alloc::Global;

/// What is to be written.
#[derive(Debug, Drop)]
pub enum Put {
    Nothing,
    /// A source with its new literals.
    Source(Text),
    /// A snapshot that waited for its place.
    Snapshot(Snapshot),
}

/// What is to be changed, and what is to be answered then.
#[derive(Debug, Drop)]
pub struct Plan {
    pub put: Put,
    /// The paths of the files that go then, in this order.
    pub removals: Vec<Text>,
    /// A line for each record that was accepted or rejected, or one for the file.
    pub lines: Text,
}

/// The line of an answer.
fn line_of(alloc: Global, word: &str, line: u32) -> Result<Text, OutOfMemory>
    ensures { IfOk result (λ made. made ≡ answer_line (chars word.now) line) }
{
    let mut made = Text::from_str(alloc, word)?;
    made.push_ascii(alloc, " ")?;
    let digits = format!(in alloc; "{line}")?;
    made.push_ascii(alloc, digits.as_str())?;
    made.push_ascii(alloc, "\n")?;
    Ok(made)
}

/// The lines of an answer.
fn lines_of(alloc: Global, word: &str, changes: &[NewLiteral]) -> Result<Text, OutOfMemory>
    ensures { IfOk result (λ lines. lines ≡ answer_lines (chars word.now) changes.now) }
{
    let mut lines = Text::empty();
    for change in changes {
        lines.push_text(alloc, &line_of(alloc, word, change.line)?)?;
    }
    Ok(lines)
}

/// This path alone.
fn only(alloc: Global, path: &Text) -> Result<Vec<Text>, OutOfMemory>
    ensures { IfOk result (λ paths. paths.items ≡ path.now ∷ []) }
{
    let own = path.try_clone(alloc)?;
    let mut paths = Vec::new(alloc);
    paths.push(own)?;
    Ok(paths)
}

/// The plan to put this and to remove the file of the records; each change is answered by a line with this word.
fn plan_with(
    alloc: Global,
    put: Put,
    waiting: &Text,
    word: &str,
    changes: &[NewLiteral],
) -> Result<Plan, OutOfMemory>
    ensures { IfOk result (λ plan. IsPlanWith put (waiting.now ∷ [])
        (answer_lines (chars word.now) changes.now) plan) }
{
    let lines = lines_of(alloc, word, changes)?;
    let removals = only(alloc, waiting)?;
    Ok(Plan {
        put,
        removals,
        lines,
    })
}

/// The source with the new literals; nothing where none is asked for.
fn made_of(alloc: Global, source: &str, changes: &[NewLiteral]) -> Result<Put, Refusal>
    ensures { MadeEnd (chars source.now) changes.now result }
{
    if changes.is_empty() {
        return Ok(Put::Nothing);
    }
    match patched(alloc, source, changes) {
        Ok(made) => Ok(Put::Source(made)),
        Err(refusal) => Err(refusal),
    }
}

/// The plan by which the changes to this source are accepted.
fn acceptance(
    alloc: Global,
    waiting: &Text,
    source: &str,
    changes: &[NewLiteral],
) -> Result<Plan, ReviewStatus>
    ensures { AcceptEnd waiting.now (chars source.now) changes.now result }
{
    match made_of(alloc, source, changes) {
        Err(refusal) => Err(refused(refusal)),
        Ok(put) => match plan_with(alloc, put, waiting, "accepted", changes) {
            Ok(plan) => Ok(plan),
            Err(_) => Err(ReviewStatus::OutOfMemory),
        },
    }
}

/// The plan by which these changes are accepted. The store is not changed.
fn accept_changes<S: Store>(
    alloc: Global,
    store: &mut S,
    request: &Request,
    changes: &[NewLiteral],
) -> Result<Plan, ReviewStatus>
    ensures end { IsFoundAt request.now.path (S.files store.old)
        (λ file. SourcePlanEnd request.now file changes.now result) }
    ensures same { S.files store.new ≡ S.files store.old }
    ensures cause { Counted says_file_fault (S.faults store.old) (S.faults store.new) result }
{
    match read_source(alloc, store, &request.path) {
        Err(status) => Err(status),
        Ok(source) => acceptance(alloc, &request.waiting, source.as_str(), changes),
    }
}

/// The plan by which what waits is accepted. The store is not changed.
fn accept<S: Store>(alloc: Global, store: &mut S, request: &Request) -> Result<Plan, ReviewStatus>
    ensures end { IsPlanBy Accept request.now (S.files store.old) result }
    ensures same { S.files store.new ≡ S.files store.old }
    ensures cause { Counted says_file_fault (S.faults store.old) (S.faults store.new) result }
{
    match read_chosen(alloc, store, &request.waiting) {
        Err(status) => Err(status),
        Ok(changes) => accept_changes(alloc, store, request, changes.as_slice()),
    }
}

/// The plan by which what waits is rejected. The store is not changed.
fn reject<S: Store>(alloc: Global, store: &mut S, request: &Request) -> Result<Plan, ReviewStatus>
    ensures end { IsPlanBy Reject request.now (S.files store.old) result }
    ensures same { S.files store.new ≡ S.files store.old }
    ensures cause { Counted says_file_fault (S.faults store.old) (S.faults store.new) result }
{
    match read_chosen(alloc, store, &request.waiting) {
        Err(status) => Err(status),
        Ok(changes) => rejection(alloc, &request.waiting, changes.as_slice()),
    }
}

/// The plan by which the changes are rejected.
fn rejection(alloc: Global, waiting: &Text, changes: &[NewLiteral]) -> Result<Plan, ReviewStatus>
    ensures { RejectEnd waiting.now changes.now result }
{
    match plan_with(alloc, Put::Nothing, waiting, "rejected", changes) {
        Ok(plan) => Ok(plan),
        Err(_) => Err(ReviewStatus::OutOfMemory),
    }
}

/// The plan of a request for literals. The store is not changed.
pub fn plan_literals<S: Store>(
    alloc: Global,
    store: &mut S,
    request: &Request,
) -> Result<Plan, ReviewStatus>
    ensures end { IsPlanBy request.now.command request.now (S.files store.old) result }
    ensures same { S.files store.new ≡ S.files store.old }
    ensures cause { Counted says_file_fault (S.faults store.old) (S.faults store.new) result }
{
    match request.command {
        Command::Accept => accept(alloc, store, request),
        Command::Reject => reject(alloc, store, request),
    }
}
