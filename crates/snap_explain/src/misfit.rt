//! Why the file of a snapshot gives no pass.
ghost use Rattle.std.specs.Prelude.{◌≡◌, is_some, ℕ, IfOk, IfErr, false};
ghost use Rattle.std.specs.FinMap.{get};
ghost use Rattle.snap_io.specs.Causes.{Counted, CountedIf};
ghost use Rattle.snap_store.specs.Causes.{is_file_fault};
ghost use Rattle.snap_io.specs.Outside.{Given};
ghost use Rattle.snap_print.specs.Spell.{spell_text};
ghost use Rattle.snap_store.specs.Image.{pending_path};
ghost use Rattle.snap_store.specs.Views.{contents_in};
ghost use Rattle.snap_explain.specs.Troubles.{IsCauseOf, IsUnpassedBy, IsContentCause, is_tell_file, is_tell_write, unread};

use crate::detail::{begin_detail, body_detail, header_detail};
use crate::folder::folder_detail;
use crate::telling::TellError;
use crate::trouble::{Cause, Trouble};
use snap_content::{Error, OutOfMemory, Text};
use snap_emit::push_spelled_text;
use snap_io::Store;
use snap_path::path_parent;
use snap_store::{Snapshot, SnapshotContents, named};
use std::alloc::Global;

/// What is refused in a file, or that it couldn't be read.
fn unread(error: Error) -> Result<Cause, TellError>
    ensures is { result ≡ unread error }
    ensures unsaid { IfErr result (λ error. is_tell_write error ≡ false) }
{
    match error {
        Error::NoFile(_) => Ok(Cause::Absent),
        Error::NotText(_) => Ok(Cause::NotUtf8),
        Error::FailedParsingYaml(_) => Ok(Cause::NoHeader),
        Error::UnexpectedDataType => Ok(Cause::NoMap),
        Error::MissingField => Ok(Cause::NoExtension),
        Error::FileIo(_) => Err(TellError::FileFault),
        Error::OutOfMemory | Error::FloatText(_) | Error::JsonKey => Err(TellError::OutOfMemory),
    }
}

/// What is wrong with contents that are no pass, and where their body differs.
fn unlike(
    alloc: Global,
    old: &SnapshotContents,
    new: &SnapshotContents,
) -> Result<(Cause, Text), OutOfMemory>
    ensures { IfOk result (λ found. IsContentCause old.now found.0) }
{
    match old.as_text() {
        None => Ok((Cause::Binary, Text::empty())),
        Some(old) => Ok((Cause::Differs, body_detail(alloc, old, new)?)),
    }
}

/// How a call ends that gave no bytes of a file.
fn failed(error: Error) -> TellError
    ensures count { (count : ℕ) (now : ℕ) → CountedIf (is_file_fault error) count now
        → CountedIf (is_tell_file result) count now }
    ensures unsaid { is_tell_write result ≡ false }
{
    match error {
        Error::FileIo(_) => TellError::FileFault,
        _ => TellError::OutOfMemory,
    }
}

/// What is wrong with the header of the file at the path, which is refused for it.
fn header_at<F: Store>(
    alloc: Global,
    store: &mut F,
    path: &Text,
    cause: Cause,
) -> Result<Text, TellError>
    ensures unsaid { IfErr result (λ error. is_tell_write error ≡ false) }
    ensures same { F.files store.new ≡ F.files store.old }
    ensures cause { Counted is_tell_file (F.faults store.old) (F.faults store.new) result }
{
    match named::read(alloc, store, path) {
        Ok(None) => Ok(Text::empty()),
        Ok(Some(bytes)) => Ok(refusal_detail(alloc, cause, bytes.as_slice())?),
        Err(error) => Err(failed(error)),
    }
}

/// What helps to mend a file that is refused for its header.
fn refusal_detail(alloc: Global, cause: Cause, file: &[u8]) -> Result<Text, OutOfMemory> {
    match cause {
        Cause::NoHeader => header_detail(alloc, file),
        _ => begin_detail(alloc, file),
    }
}

/// What helps where no snapshot is there: the names of its folder.
fn folder_at<F: Store>(alloc: Global, store: &mut F, path: &Text) -> Result<Text, TellError>
    ensures unsaid { IfErr result (λ error. is_tell_write error ≡ false) }
    ensures same { F.files store.new ≡ F.files store.old }
    ensures cause { Counted is_tell_file (F.faults store.old) (F.faults store.new) result }
{
    let folder = path_parent(alloc, path)?;
    match named::list(alloc, store, &folder) {
        Ok(names) => Ok(folder_detail(alloc, path, names.as_slice())?),
        Err(error) => Err(failed(error)),
    }
}

/// What is refused in the file at the path, and what helps to mend it.
fn refused_at<F: Store>(
    alloc: Global,
    store: &mut F,
    path: &Text,
    cause: Cause,
) -> Result<(Cause, Text), TellError>
    ensures cause_is { IfOk result (λ found. found.0 ≡ cause) }
    ensures unsaid { IfErr result (λ error. is_tell_write error ≡ false) }
    ensures same { F.files store.new ≡ F.files store.old }
    ensures cause { Counted is_tell_file (F.faults store.old) (F.faults store.new) result }
{
    match cause {
        Cause::Absent => Ok((cause, folder_at(alloc, store, path)?)),
        _ => Ok((cause, header_at(alloc, store, path, cause)?)),
    }
}

/// Whether a body may be hidden: the file has none, or none that stands behind a header.
fn hides_body(old: &Snapshot) -> bool {
    match old.as_text() {
        None => false,
        Some(text) => old.was_legacy() || text.as_raw().is_empty(),
    }
}

/// What is wrong with a file that was read as this, and what helps: how it begins as well, where its body may be hidden.
fn unlike_at<F: Store>(
    alloc: Global,
    store: &mut F,
    path: &Text,
    old: &Snapshot,
    new: &Snapshot,
) -> Result<(Cause, Text), TellError>
    ensures cause_is { IfOk result (λ found. IsContentCause (contents_in old.now) found.0) }
    ensures unsaid { IfErr result (λ error. is_tell_write error ≡ false) }
    ensures same { F.files store.new ≡ F.files store.old }
    ensures cause { Counted is_tell_file (F.faults store.old) (F.faults store.new) result }
{
    let (cause, detail) = unlike(alloc, old.contents(), new.contents())?;
    if !hides_body(old) {
        return Ok((cause, detail));
    }
    let begin = header_at(alloc, store, path, cause)?;
    let mut detail = detail;
    detail.push_text(alloc, &begin)?;
    Ok((cause, detail))
}

/// Why the file at the path gives no pass, and what helps to mend it. The file is read once more.
fn cause_at<F: Store>(
    alloc: Global,
    store: &mut F,
    path: &Text,
    new: &Snapshot,
) -> Result<(Cause, Text), TellError>
    ensures holds { IfOk result (λ found. Given (F.files store.old)
        (λ m. IsCauseOf (get m path.now) found.0)) }
    ensures unsaid { IfErr result (λ error. is_tell_write error ≡ false) }
    ensures same { F.files store.new ≡ F.files store.old }
    ensures cause { Counted is_tell_file (F.faults store.old) (F.faults store.new) result }
{
    match Snapshot::from_file(alloc, store, path) {
        Ok(old) => {
            let found = unlike_at(alloc, store, path, &old, new);
            drop(old);
            found
        }
        Err(error) => refused_at(alloc, store, path, unread(error)?),
    }
}

/// The path, as a scalar is spelled.
pub(crate) fn spelled(alloc: Global, path: &Text) -> Result<Text, OutOfMemory>
    ensures { IfOk result (λ text. text ≡ spell_text path.now) }
{
    let mut text = Text::empty();
    push_spelled_text(&mut text, alloc, path)?;
    Ok(text)
}

/// The path of the pending snapshot beside the path.
fn pending_of(alloc: Global, path: &Text) -> Result<Text, OutOfMemory>
    ensures { IfOk result (λ pending. pending ≡ pending_path path.now) }
{
    let mut pending = path.try_clone(alloc)?;
    pending.push_ascii(alloc, ".new")?;
    Ok(pending)
}

/// The words on the pending snapshot beside the path, where one is there.
fn pending_detail(alloc: Global, path: &Text, is_there: bool) -> Result<Text, OutOfMemory> {
    if !is_there {
        return Ok(Text::empty());
    }
    let pending = pending_of(alloc, path)?;
    let mut detail = Text::from_ascii(alloc, "; its pending snapshot is ")?;
    push_spelled_text(&mut detail, alloc, &pending)?;
    Ok(detail)
}

/// Whether a file is at the path.
fn is_there<F: Store>(alloc: Global, store: &mut F, path: &Text) -> Result<bool, TellError>
    ensures found { IfOk result (λ found. Given (F.files store.old)
        (λ m. found ≡ is_some (get m path.now))) }
    ensures unsaid { IfErr result (λ error. is_tell_write error ≡ false) }
    ensures same { F.files store.new ≡ F.files store.old }
    ensures cause { Counted is_tell_file (F.faults store.old) (F.faults store.new) result }
{
    match named::read(alloc, store, path) {
        Ok(found) => Ok(found.is_some()),
        Err(error) => Err(failed(error)),
    }
}

/// Whether a pending snapshot waits beside the path.
pub(crate) fn is_pending<F: Store>(
    alloc: Global,
    store: &mut F,
    path: &Text,
) -> Result<bool, TellError>
    ensures found { IfOk result (λ found. Given (F.files store.old)
        (λ m. found ≡ is_some (get m (pending_path path.now)))) }
    ensures unsaid { IfErr result (λ error. is_tell_write error ≡ false) }
    ensures same { F.files store.new ≡ F.files store.old }
    ensures cause { Counted is_tell_file (F.faults store.old) (F.faults store.new) result }
{
    let pending = pending_of(alloc, path)?;
    is_there(alloc, store, &pending)
}

/// The words on the earlier document that asked for the path, where there is one.
fn asker_detail(alloc: Global, asker: Option<u64>) -> Result<Text, OutOfMemory> {
    match asker {
        None => Ok(Text::empty()),
        Some(number) => {
            let detail = format!(in alloc; "; document {number} asks for it too")?;
            Text::from_str(alloc, detail.as_str())
        }
    }
}

/// What else helps, beside what is wrong with the file at the path: the pending snapshot beside it, and the earlier document that
/// asked for it.
fn beside_at<F: Store>(
    alloc: Global,
    store: &mut F,
    path: &Text,
    asker: Option<u64>,
    detail: Text,
) -> Result<Text, TellError>
    ensures unsaid { IfErr result (λ error. is_tell_write error ≡ false) }
    ensures same { F.files store.new ≡ F.files store.old }
    ensures cause { Counted is_tell_file (F.faults store.old) (F.faults store.new) result }
{
    let is_there = is_pending(alloc, store, path)?;
    let pending = pending_detail(alloc, path, is_there)?;
    let mut detail = detail;
    detail.push_text(alloc, &pending)?;
    let asker = asker_detail(alloc, asker)?;
    detail.push_text(alloc, &asker)?;
    Ok(detail)
}

/// Why the file at the path, which gives no pass, gives none; an earlier document may have asked for it.
pub(crate) fn unpassed<F: Store>(
    alloc: Global,
    store: &mut F,
    path: &Text,
    new: &Snapshot,
    asker: Option<u64>,
) -> Result<Trouble, TellError>
    ensures found { IfOk result (λ what. IsUnpassedBy path.now (F.files store.old) what) }
    ensures unsaid { IfErr result (λ error. is_tell_write error ≡ false) }
    ensures same { F.files store.new ≡ F.files store.old }
    ensures cause { Counted is_tell_file (F.faults store.old) (F.faults store.new) result }
{
    let spelled = spelled(alloc, path)?;
    let file = path.try_clone(alloc)?;
    let (cause, detail) = cause_at(alloc, store, path, new)?;
    let detail = beside_at(alloc, store, path, asker, detail)?;
    Ok(Trouble::Unpassed {
        cause,
        file,
        path: spelled,
        detail,
    })
}
