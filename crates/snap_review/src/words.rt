//! What the words of a command line ask for.
ghost use Rattle.std.specs.Prelude.{◌≡◌, [], IfOk, unwrap_or};
ghost use Rattle.std.specs.Str.{chars};
ghost use Rattle.snap_assert_place.specs.SnapshotPath.{records_name};
ghost use Rattle.snap_path.specs.Paths.{name_of};
ghost use Rattle.snap_store.specs.Image.{pending_path};
ghost use Rattle.snap_review.specs.Wanted.{WordsEnd, asked_by, records_path, request_at, waiting_path};

use snap_content::characters::is_same;
use snap_content::{OutOfMemory, Text};
use snap_path::{path_join, path_name, path_parent};
use std::alloc::Global;

/// What is to be done with what waits.
#[derive(Clone, Copy, Debug, PartialEq, Eq)]
pub enum Command {
    /// It is accepted.
    Accept,
    /// It is rejected.
    Reject,
}

/// What waits.
#[derive(Clone, Copy, Debug, PartialEq, Eq)]
pub enum Target {
    /// New texts for the literals of a source file, as records in a file beside it.
    Literals,
    /// A new snapshot file, beside the one in whose place it is to stand.
    File,
}

/// What is asked of the program.
#[derive(Debug, Drop)]
pub struct Request {
    pub command: Command,
    pub target: Target,
    /// The path of the source file or of the snapshot file.
    pub path: Text,
    /// The path of the file in which its records wait, or that waits in its place.
    pub waiting: Text,
}

/// What the first word asks for.
fn asked_by(verb: &str) -> Option<(Command, Target)>
    ensures { result ≡ asked_by (chars verb.now) }
{
    if is_same(verb, "accept") {
        Some((Command::Accept, Target::Literals))
    } else if is_same(verb, "reject") {
        Some((Command::Reject, Target::Literals))
    } else if is_same(verb, "accept-file") {
        Some((Command::Accept, Target::File))
    } else if is_same(verb, "reject-file") {
        Some((Command::Reject, Target::File))
    } else {
        None
    }
}

/// The last component of the path, and nothing where it has none.
pub fn name_in(path: &Text) -> &str
    ensures { chars result.now ≡ unwrap_or (name_of path.now) [] }
{
    match path_name(path) {
        Some(name) => name,
        None => "",
    }
}

/// The name of the file that keeps the records of the source at the path.
fn records_name(alloc: Global, path: &Text) -> Result<Text, OutOfMemory>
    ensures { IfOk result (λ name. name ≡ records_name (unwrap_or (name_of path.now) [])) }
{
    let mut name = Text::from_ascii(alloc, ".")?;
    name.push_str(alloc, name_in(path))?;
    name.push_ascii(alloc, ".pending-snap")?;
    Ok(name)
}

/// The path of the file that keeps the records of the source at the path: beside it.
pub fn records_path(alloc: Global, path: &Text) -> Result<Text, OutOfMemory>
    ensures { IfOk result (λ waiting. waiting ≡ records_path path.now) }
{
    let folder = path_parent(alloc, path)?;
    let name = records_name(alloc, path)?;
    path_join(alloc, &folder, &name)
}

/// The path at which a new snapshot waits for its place at this one.
fn pending_path(alloc: Global, path: &Text) -> Result<Text, OutOfMemory>
    ensures { IfOk result (λ waiting. waiting ≡ pending_path path.now) }
{
    let mut waiting = path.try_clone(alloc)?;
    waiting.push_ascii(alloc, ".new")?;
    Ok(waiting)
}

/// The path at which it waits.
fn waiting_path(alloc: Global, target: Target, path: &Text) -> Result<Text, OutOfMemory>
    ensures { IfOk result (λ waiting. waiting ≡ waiting_path target path.now) }
{
    match target {
        Target::Literals => records_path(alloc, path),
        Target::File => pending_path(alloc, path),
    }
}

/// The request for this path.
fn request_at(
    alloc: Global,
    command: Command,
    target: Target,
    word: &Text,
) -> Result<Request, OutOfMemory>
    ensures { IfOk result (λ request. request ≡ request_at command target word.now) }
{
    let path = path_join(alloc, &Text::empty(), word)?;
    let waiting = waiting_path(alloc, target, &path)?;
    Ok(Request {
        command,
        target,
        path,
        waiting,
    })
}

/// What the words ask for; none where they are of no such form.
pub fn request_of(alloc: Global, words: &[Text]) -> Result<Option<Request>, OutOfMemory>
    ensures { WordsEnd words.now result }
{
    let [verb, word] = words else {
        return Ok(None);
    };
    let Some((command, target)) = asked_by(verb.as_str()) else {
        return Ok(None);
    };
    let Some(_) = path_name(word) else {
        return Ok(None);
    };
    match request_at(alloc, command, target, word) {
        Ok(request) => Ok(Some(request)),
        Err(error) => Err(error),
    }
}
